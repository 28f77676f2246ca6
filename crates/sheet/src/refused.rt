// "A file refused by 18 gives R 0 18 and E 1."
ghost use Rattle.std.specs.Prelude.{◌≡◌, ◌++◌, ◌≤◌, length, drop};
ghost use Rattle.rules.specs.Words.{each};
ghost use Rattle.rules.specs.Sheet.{text_of, refused_sheet};

use crate::one::put_one;
use rules::{Line, Tally};

// How long that sheet is.
pub fn refused_width() -> usize
    ensures { result ≡ length (each text_of refused_sheet) }
{
    11
}

// The sheet of a refused file in front of the buffer, where it fits; bytes beyond it stay.
pub fn put_refused(buffer: &mut [u8]) -> usize
    requires { length (each text_of refused_sheet) ≤ length buffer.old }
    ensures { (result ≡ length (each text_of refused_sheet))
        × (buffer.new ≡ each text_of refused_sheet ++ drop (length (each text_of refused_sheet)) buffer.old) }
{
    let begin = Tally { lines: 0, bytes: 0 };
    let first = put_one(buffer, true, begin, Line::Refusal(0, 18));
    let last = put_one(buffer, true, first, Line::End(1));
    last.bytes as usize
}
