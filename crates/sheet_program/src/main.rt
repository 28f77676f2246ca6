// The sheet program (document 01, "Call file and sheet"): a call file on standard input, its sheet on standard output, status 0; or a
// line on standard error and status 1, with no sheet where the input could not be read.
#![tactic(auto)]

use std::process::ExitCode;

fn main(rt: HostRuntime) -> ExitCode {
    let status = sheet_printer::wick_print_sheet(rt.stdin(), rt.stdout(), rt.stderr());
    if status == 0 {
        ExitCode::SUCCESS
    } else {
        ExitCode::FAILURE
    }
}
