// The call file (document 01, "Call file and sheet"): one record as a call of its own, the whole file, and its sheet
// (refusals 18 and 19, and those of the records' calls).
ghost use Rattle.std.specs.Prelude.{◌≡◌, pos};
ghost use Rattle.rules.specs.Records.{record_answer, record_bytes, number_of_record, figure_of_record, next_of_record};
ghost use Rattle.rules.specs.CallFile.{whole_answer, whole_size, whole_answers, whole_bytes};
ghost use Rattle.rules.specs.Sheet.{sheet_answer, sheet_size, sheet_bytes, sheet_book};

use callfile::play_record;
use playing::play;
use rules::{RecordAnswer, number_of};
use sheets::sheet;
use units::Counted;

#[unsafe(no_mangle)]
pub extern "C" fn wick_record(
    book: &mut [u8],
    file: &[u8],
    place: u32,
    figure: &mut u64,
    next: &mut u32,
) -> u8
    ensures { (result ≡ number_of_record (record_answer book.old file.now place))
        × (pos figure.new ≡ figure_of_record (record_answer book.old file.now place))
        × (next.new ≡ next_of_record (record_answer book.old file.now place))
        × (book.new ≡ record_bytes book.old file.now place) }
{
    let answer = play_record(book, file, place);
    match answer {
        RecordAnswer::Answered(number, moved, behind) => {
            *figure = moved.size().0;
            *next = behind;
            number
        }
        RecordAnswer::Unreadable(at) => {
            *figure = at as u64;
            *next = 0;
            19
        }
        RecordAnswer::Ended => {
            *figure = 0;
            *next = 0;
            0
        }
        RecordAnswer::FileRefused(number) => {
            *figure = 0;
            *next = 0;
            number
        }
    }
}

#[unsafe(no_mangle)]
pub extern "C" fn wick_play(
    book: &mut [u8],
    file: &[u8],
    answers: &mut [u8],
    size: &mut usize,
) -> u8
    ensures { (result ≡ whole_answer book.old file.now answers.old)
        × (size.new ≡ whole_size book.old file.now answers.old)
        × (answers.new ≡ whole_answers book.old file.now answers.old)
        × (book.new ≡ whole_bytes book.old file.now answers.old) }
{
    let played = play(book, file, answers);
    *size = played.unwrap_or(0);
    number_of(&played)
}

#[unsafe(no_mangle)]
pub extern "C" fn wick_sheet(
    book: &mut [u8],
    file: &[u8],
    buffer: &mut [u8],
    size: &mut usize,
) -> u8
    ensures { (result ≡ sheet_answer book.old file.now buffer.old)
        × (size.new ≡ sheet_size book.old file.now buffer.old)
        × (buffer.new ≡ sheet_bytes book.old file.now buffer.old)
        × (book.new ≡ sheet_book book.old file.now buffer.old) }
{
    let written = sheet(book, file, buffer);
    *size = written.unwrap_or(0);
    number_of(&written)
}
