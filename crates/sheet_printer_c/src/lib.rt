// The sheet program's work for C: `int wick_print_sheet(void)` (crates/sheet_printer/main.c makes a program of it).
#![tactic(auto)]

ghost use Rattle.std.specs.Prelude.{◌≡◌, ◌⊎◌, pos};

use std::io::{Stderr, Stdin, Stdout};

// The three streams take no bytes, so that C passes nothing for them.
#[unsafe(no_mangle)]
pub extern "C" fn wick_print_sheet(stdin: Stdin, stdout: Stdout, stderr: Stderr) -> i32
    ensures { (result ≡ pos 0) ⊎ (result ≡ pos 1) }
{
    sheet_printer::wick_print_sheet(stdin, stdout, stderr)
}
