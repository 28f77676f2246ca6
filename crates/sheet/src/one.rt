// One line more (document 01, "Call file and sheet"): "a tally of lines and bytes is lent along and moved on by every line". The line is
// written where `write` is set, behind the bytes that the tally has counted; it is only counted where it is not.
ghost use Rattle.std.specs.Prelude.{[], ◌∷◌, length};
ghost use Rattle.sheet.specs.Written.{Ready, Wrote};

use lines::{count_line, put_counted};
use rules::{Line, Tally};

// (`write` goes by value beside the buffer: a trait with a writer and a counter would ask a type parameter of each function here, and
// a ghost member of each contract, where the flag is one word.)
// The tally with the line. No sheet comes near the tally's bounds, so that no line is refused.
pub(crate) fn put_one(buffer: &mut [u8], write: bool, t: Tally, l: Line) -> Tally
    requires { Ready write (length buffer.old) t (l ∷ []) }
    ensures { Wrote write buffer.old t (l ∷ []) buffer.new result }
{
    if write {
        let at = t.bytes as usize;
        return put_counted(&mut buffer[at..], l, t).unwrap_or(t);
    }
    count_line(1_000_000, l, t).unwrap_or(t)
}
