// The whole sheet as one call (document 01, "Call file and sheet"): a file is played on a room of its own, so that
// nothing is altered where the sheet does not fit.
#![tactic(auto)]

ghost use Rattle.std.specs.Prelude.{◌≡◌, ◌++◌, ◌≤◌, length, drop};
ghost use Rattle.rules.specs.Refusals.{answered, value_or};
ghost use Rattle.rules.specs.Words.{each};
ghost use Rattle.rules.specs.Bounds.{most_file};
ghost use Rattle.rules.specs.Sheet.{text_of, refused_sheet, sheet_of, sheet_answer, sheet_size, sheet_bytes, sheet_book};
ghost use Rattle.sheet_laws.specs.Bounded.{most_bytes};
ghost use Rattle.sheet.specs.OfBook.{book_in};
ghost use Rattle.sheets.specs.Sheets.{Printed, Written, Room, room_for_answers};

use book::{BOOK_BYTES, BookBytes};
use book_whole::{load, store};
use fields::get;
use playing::play_records;
use playing_records::count_answers;
use rules::{Book, Refusal};
use sheet::{put_refused, put_sheet, refused_width, sheet_width};

// The book that a file has left in a room: none where its first answer, which is that of the create, is a refusal.
fn book_in(room: &BookBytes, answers: &[u8]) -> Option<Book>
    requires { 1 ≤ length answers.now }
    ensures { result ≡ book_in answers.now room.now }
{
    if get(answers, 0, 1) != 0 {
        return None;
    }
    Some(load(room))
}

// "A file refused by 18 gives R 0 18 and E 1."
fn refused_sheet(buffer: &mut [u8]) -> Result<usize, Refusal>
    ensures { Printed (each text_of refused_sheet) buffer.old (answered result) (value_or 0 result) buffer.new }
{
    if buffer.len() < refused_width() {
        return Err(Refusal::WrongLength);
    }
    Ok(put_refused(buffer))
}

// The sheet of a file, from what it has left in a room and among the answers.
fn put_played(
    room: &BookBytes,
    answers: &[u8],
    file: &[u8],
    book: &mut BookBytes,
    buffer: &mut [u8],
) -> Result<usize, Refusal>
    requires { (length file.now ≤ most_file) × Room file.now room.now answers.now }
    ensures { Written file.now book.old buffer.old (answered result) (value_or 0 result) book.new buffer.new }
{
    let left = book_in(room, answers);
    // Each answer stands in 9 bytes; what is behind them is room that the file did not need.
    let answers = &answers[..9 * count_answers(file)];
    if buffer.len() < sheet_width(answers, &left) {
        return Err(Refusal::WrongLength);
    }
    let size = put_sheet(answers, &left, buffer);
    if let Some(k) = &left {
        store(k, book);
    }
    Ok(size)
}

// A file is played in a lent room, and its sheet written.
fn sheet_in(
    room: &mut BookBytes,
    answers: &mut [u8],
    file: &[u8],
    book: &mut BookBytes,
    buffer: &mut [u8],
) -> Result<usize, Refusal>
    requires { (length answers.old ≡ room_for_answers) × (length file.now ≤ most_file) }
    ensures { Written file.now book.old buffer.old (answered result) (value_or 0 result) book.new buffer.new }
{
    play_records(room, file, answers);
    put_played(room, answers, file, book, buffer)
}

// The sheet of a file of at most 65,535 bytes: these have at most 21,846 answers of 9 bytes. (A big array is lent once: each loan of it by its length costs.)
fn played_sheet(book: &mut BookBytes, file: &[u8], buffer: &mut [u8]) -> Result<usize, Refusal>
    requires { length file.now ≤ most_file }
    ensures { Written file.now book.old buffer.old (answered result) (value_or 0 result) book.new buffer.new }
{
    let mut room: BookBytes = [0; BOOK_BYTES];
    let mut answers = [0u8; 196614];
    sheet_in(&mut room, &mut answers, file, book, buffer)
}

// 18: the book has another length, or the sheet does not fit. Then nothing is altered.
pub fn sheet(book: &mut [u8], file: &[u8], buffer: &mut [u8]) -> Result<usize, Refusal>
    ensures { (answered result ≡ sheet_answer book.old file.now buffer.old)
        × (value_or 0 result ≡ sheet_size book.old file.now buffer.old)
        × (buffer.new ≡ sheet_bytes book.old file.now buffer.old)
        × (book.new ≡ sheet_book book.old file.now buffer.old)
        × (value_or 0 result ≤ length buffer.old) }
{
    let Some(book) = book.as_mut_array() else {
        return Err(Refusal::WrongLength);
    };
    if file.len() > 65_535 {
        return refused_sheet(buffer);
    }
    played_sheet(book, file, buffer)
}

// The sheet of a file, and never a refusal: every sheet fits into 295,620 bytes.
pub fn sheet_of(file: &[u8], buffer: &mut [u8]) -> usize
    requires { most_bytes ≤ length buffer.old }
    ensures { (result ≡ length (sheet_of file.now))
        × (buffer.new ≡ sheet_of file.now ++ drop (length (sheet_of file.now)) buffer.old) }
{
    let mut book = [0u8; 42278];
    sheet(&mut book, file, buffer).unwrap_or(0)
}

// The same with the part handed back: all of the sheet, from the front of the buffer.
pub fn sheet_part<'a>(file: &[u8], buffer: &'a mut [u8]) -> &'a mut [u8]
    requires { most_bytes ≤ length buffer.old }
    ensures { (result.now ≡ sheet_of file.now) × (result.ref_ptr ≡ buffer.entry.ref_ptr) }
{
    let size = sheet_of(file, buffer);
    &mut buffer[..size]
}
