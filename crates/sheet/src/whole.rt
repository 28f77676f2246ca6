// The sheet (document 01, "Call file and sheet"): the answers' lines; if a book exists, DAY, P, C; last E and the lines above it.
ghost use Rattle.std.specs.Prelude.{◌≡◌, true, ◌++◌, ◌≤◌, length, drop};
ghost use Rattle.rules.specs.Bounds.{most_records};
ghost use Rattle.rules.specs.Sheet.{book_lines};
ghost use Rattle.sheet.specs.Written.{Ready, Wrote, start};
ghost use Rattle.sheet.specs.Whole.{Printable, sheet_lines, sheet_text};

use crate::answers::put_answers;
use crate::charges::put_charges;
use crate::one::put_one;
use crate::open::put_open;
use rules::{Book, Line, Tally};

// DAY, P, C.
fn put_book(buffer: &mut [u8], write: bool, t: Tally, k: &Book) -> Tally
    requires { (k.now.records ≤ most_records) × Ready write (length buffer.old) t (book_lines (Some k.now)) }
    ensures { Wrote write buffer.old t (book_lines (Some k.now)) buffer.new result }
{
    let day = put_one(buffer, write, t, Line::Day(k.day));
    let records = k.records as usize;
    let open = put_open(buffer, write, day, &k.positions[..records]);
    put_charges(buffer, write, open, &k.charges)
}

// The lines of the book, if there is one.
fn put_existing(buffer: &mut [u8], write: bool, t: Tally, book: &Option<Book>) -> Tally
    requires { ((k : Book) → book.now ≡ Some k → k.records ≤ most_records) × Ready write (length buffer.old) t (book_lines book.now) }
    ensures { Wrote write buffer.old t (book_lines book.now) buffer.new result }
{
    match book {
        Some(k) => put_book(buffer, write, t, k),
        None => t,
    }
}

// All lines: written, or only measured. (The book is lent: by value it would stand on the stack once more in each of these functions.)
fn put_lines(buffer: &mut [u8], write: bool, answers: &[u8], book: &Option<Book>) -> Tally
    requires { Printable answers.now book.now × (write ≡ true → length (sheet_text answers.now book.now) ≤ length buffer.old) }
    ensures { Wrote write buffer.old start (sheet_lines answers.now book.now) buffer.new result }
{
    let begin = Tally { lines: 0, bytes: 0 };
    let answered = put_answers(buffer, write, begin, answers);
    let above = put_existing(buffer, write, answered, book);
    put_one(buffer, write, above, Line::End(above.lines))
}

// How long the sheet is.
pub fn sheet_width(answers: &[u8], book: &Option<Book>) -> usize
    requires { Printable answers.now book.now }
    ensures { result ≡ length (sheet_text answers.now book.now) }
{
    let mut none: [u8; 1] = [0];
    let tally = put_lines(&mut none, false, answers, book);
    tally.bytes as usize
}

// The sheet in front of the buffer, where it fits; bytes beyond it stay.
pub fn put_sheet(answers: &[u8], book: &Option<Book>, buffer: &mut [u8]) -> usize
    requires { Printable answers.now book.now × (length (sheet_text answers.now book.now) ≤ length buffer.old) }
    ensures { (result ≡ length (sheet_text answers.now book.now))
        × (buffer.new ≡ sheet_text answers.now book.now ++ drop (length (sheet_text answers.now book.now)) buffer.old) }
{
    let tally = put_lines(buffer, true, answers, book);
    tally.bytes as usize
}
