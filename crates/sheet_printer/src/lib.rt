// The sheet program's work (document 01, "Call file and sheet"): a call file on standard input, its sheet on standard output,
// and how that ended. A file that could not be read whole has no sheet.
#![tactic(auto)]

mod input;
mod output;

ghost use Rattle.std.specs.Prelude.{◌≡◌, ◌⊎◌, pos, ◌≤◌, length, take, IfSome, OnOk, option_copied};
ghost use Rattle.std.specs.Io.KnownBytes.{Appends};
ghost use Rattle.rules.specs.Sheet.{sheet_of};
ghost use Rattle.sheet_laws.specs.Bounded.{most_bytes};
ghost use Rattle.sheet_printer.specs.Printed.{IsFrontWritten, IsPrinted, sheet_of_read};

use input::read_whole;
use output::{WriteFailed, write_whole};
use std::io::{Read, Stderr, Stdin, Stdout, Write};

// What is to be printed: the sheet of what was read, and nothing where it could not be read.
fn printed<'a>(file: Option<&[u8]>, buffer: &'a mut [u8]) -> &'a mut [u8]
    requires { most_bytes ≤ length buffer.old }
    ensures { result.now ≡ sheet_of_read (option_copied file.entry) }
{
    match file {
        Some(file) => sheets::sheet_part(file, buffer),
        None => &mut buffer[..0],
    }
}

// No sheet is longer than the buffer (sheet_laws/proofs/Bounded), so that every sheet is printed.
fn print_sheet<W: Write>(output: &mut W, file: Option<&[u8]>) -> Result<(), WriteFailed>
    ensures whole { OnOk result (Appends (W.contents output.old) (W.contents output.new) (sheet_of_read (option_copied file.entry))) }
    ensures front { IsFrontWritten (W.contents output.old) (W.contents output.new) (sheet_of_read (option_copied file.entry)) }
{
    let mut buffer = [0u8; 295620];
    let sheet = printed(file, &mut buffer);
    write_whole(output, sheet)
}

// 0, or 1 where the input could not be read (then nothing is printed) or the sheet could not be written; both say so on
// standard error, and where that fails too, the status alone says it. A file past 65,535 bytes is refused, so that one byte
// more than these is all that needs to be read.
fn print<I: Read, O: Write, E: Write>(stdin: &mut I, stdout: &mut O, stderr: &mut E) -> i32
    ensures status { (result ≡ pos 0) ⊎ (result ≡ pos 1) }
    ensures whole { result ≡ pos 0 → IfSome (I.remaining stdin.old) (λ xs. Appends (O.contents stdout.old) (O.contents stdout.new) (sheet_of (take 65_536 xs))) }
    ensures front { IsPrinted (I.remaining stdin.old) (I.remaining stdin.new) (O.contents stdout.old) (O.contents stdout.new) }
{
    let mut buffer = [0u8; 65536];
    let file = match read_whole(stdin, &mut buffer) {
        Ok(n) => Some(&buffer[..n]),
        Err(_) => None,
    };
    let written = print_sheet(stdout, file);
    if file.is_none() {
        let _ = write_whole(stderr, b"sheet: standard input cannot be read, no sheet\n");
        return 1;
    }
    if written.is_err() {
        let _ = write_whole(
            stderr,
            b"sheet: standard output cannot be written, the sheet is cut\n",
        );
        return 1;
    }
    0
}

// The same from standard input to standard output: the status.
pub fn wick_print_sheet(mut stdin: Stdin, mut stdout: Stdout, mut stderr: Stderr) -> i32
    ensures { (result ≡ pos 0) ⊎ (result ≡ pos 1) }
{
    print(&mut stdin, &mut stdout, &mut stderr)
}
