// The input, read to its end or to the buffer's. (`Read::read_exact` says nothing of how much it read where the input ends early or
// a read fails, and its contract does not tell the two apart.)
ghost use Rattle.std.specs.Prelude.{◌≡◌, ◌+◌, ◌≤◌, ◌⊎◌, length, take, drop, IfOk};
ghost use Rattle.std.specs.Io.KnownBytes.{Consumes, IsAtEnd};
ghost use Rattle.sheet_printer.specs.Counts.{IsPrefixLen, bytes_read, size_read};

use std::io;
use std::io::Read;

// A read failed: how many bytes were read before it.
#[derive(Clone, Copy)]
pub struct Cut(pub usize);

// One read, to a place in the buffer. Nothing is tried again: a read that a signal interrupts has failed.
fn read_on<R: Read>(input: &mut R, buf: &mut [u8], from: usize) -> io::Result<usize>
    requires { from ≤ length buf.old }
    ensures bounds { from + bytes_read result ≤ length buf.new }
    ensures kept { take from buf.new ≡ take from buf.old }
    ensures bytes { Consumes (R.remaining input.old) (R.remaining input.new) (take (bytes_read result) (drop from buf.new)) }
    ensures whole { IfOk result (λ n. n ≡ 0 → (from ≡ length buf.new) ⊎ IsAtEnd (R.remaining input.new)) }
{
    input.read(&mut buf[from..])
}

// All of it, at the front of the buffer. Where no read failed, the input ended or the buffer is full.
pub fn read_whole<R: Read>(input: &mut R, buf: &mut [u8]) -> Result<usize, Cut>
    ensures bounds { IsPrefixLen (size_read result) buf.new }
    ensures bytes { Consumes (R.remaining input.old) (R.remaining input.new) (take (size_read result) buf.new) }
    ensures whole { IfOk result (λ n. (n ≡ length buf.new) ⊎ IsAtEnd (R.remaining input.new)) }
{
    let mut done = 0;
    // Each step goes on by what a read gave, so that this is no `for`.
    while done < buf.len() {
        match read_on(input, buf, done) {
            Ok(0) => break,
            Ok(n) => done += n,
            Err(_) => return Err(Cut(done)),
        }
    }
    Ok(done)
}
