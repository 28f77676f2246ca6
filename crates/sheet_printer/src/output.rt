// The output. (`Write::write_all` says nothing of what was written where a write failed, and tries again where a signal interrupts it.)
ghost use Rattle.std.specs.Prelude.{◌<◌, ◌≤◌, length, take, IfOk, OnOk};
ghost use Rattle.std.specs.Io.KnownBytes.{Appends, WriteAppends};
ghost use Rattle.sheet_printer.specs.Printed.{IsFrontWritten};

use std::io::Write;

// A write took nothing or failed.
#[derive(Clone, Copy)]
pub struct WriteFailed;

// All of the bytes, or an error at the first write that takes nothing or fails: then a front of them was written. Nothing is tried
// again: a write that a signal interrupts has failed.
pub fn write_whole<W: Write>(output: &mut W, bytes: &[u8]) -> Result<(), WriteFailed>
    ensures whole { OnOk result (Appends (W.contents output.old) (W.contents output.new) bytes.now) }
    ensures front { IsFrontWritten (W.contents output.old) (W.contents output.new) bytes.now }
{
    let mut done = 0;
    // Each step goes on by what a write took, so that this is no `for`.
    while done < bytes.len() {
        done += write_on(output, &bytes[done..])?;
    }
    Ok(())
}

// One write: how many bytes it took, an error where it took none.
fn write_on<W: Write>(output: &mut W, bytes: &[u8]) -> Result<usize, WriteFailed>
    ensures some { IfOk result (λ n. 0 < n) }
    ensures bounds { IfOk result (λ n. n ≤ length bytes.now) }
    ensures bytes { WriteAppends (W.contents output.old) (W.contents output.new) result bytes.now }
{
    match output.write(bytes) {
        Ok(0) | Err(_) => Err(WriteFailed),
        Ok(n) => Ok(n),
    }
}
