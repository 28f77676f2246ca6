// The whole call file as one call (document 01, "Call file and sheet"): every record in order, on the book that the
// create at its front makes. Soundness is not tested: the create makes a sound book, and every call keeps it.
ghost use Rattle.std.specs.Prelude.{◌≡◌, ◌≤◌, length};
ghost use Rattle.fields.specs.Field.{stored};
ghost use Rattle.rules.specs.Refusals.{answered, value_or};
ghost use Rattle.rules.specs.Layout.{book_length, book_of, bytes_of};
ghost use Rattle.rules.specs.CallFile.{file_of, answers_of, bytes_left, whole_answer, whole_size, whole_answers, whole_bytes};
ghost use Rattle.history.specs.Histories.{made};
ghost use Rattle.playing_records.specs.Steps.{left_at};
ghost use Rattle.playing_records.specs.Playing.{text_left, Ready};

use book::BookBytes;
use callfile_format::{other_version, record_at};
use house::create;
use playing_records::{Answer, apply_again, count_answers, next_place, put_answer, refused_behind};
use rules::Refusal;
use units::Quantity;

// The records behind the create. A refused one leaves the book as it was, and the file goes on; an unreadable one is
// answered by 19 and its place, and is the last.
fn play_calls(book: &mut BookBytes, file: &[u8], answers: &mut [u8])
    requires { Ready book.old file.now answers.old }
    ensures { (answers.new ≡ stored answers.old 9 (text_left (book_of book.old) (left_at file.now 36)))
        × (book.new ≡ bytes_of (made (book_of book.old) (left_at file.now 36).calls)) }
{
    let n = file.len();
    let mut place: usize = 36;
    let mut at: usize = 9;
    let mut refused: Option<Refusal> = None;
    // Each step goes to where the next record begins, so that this is no `for`.
    while place < n {
        let found = record_at(file, place);
        let answer = apply_again(book, found, place as u64, refused);
        refused = refused_behind(found, answer, refused);
        put_answer(answers, at, answer);
        place = next_place(file, place, found);
        at += 9;
    }
}

// All records of a file that is not refused: their answers, and the book that they leave.
pub fn play_records(book: &mut BookBytes, file: &[u8], answers: &mut [u8])
    requires { length (answers_of file.now) ≤ length answers.old }
    ensures { (answers.new ≡ stored answers.old 0 (answers_of file.now))
        × (book.new ≡ bytes_left book.old (file_of file.now).book) }
{
    if other_version(file) {
        put_answer(answers, 0, Answer::Unreadable(0));
        return;
    }
    if record_at(file, 1).is_none() {
        put_answer(answers, 0, Answer::Unreadable(1));
        return;
    }
    let codes = &file[4..36];
    // It is accepted: what was read is a create, so that its codes are good.
    let _ = create(book, codes);
    put_answer(answers, 0, Answer::Accepted(Quantity(0)));
    play_calls(book, file, answers);
}

// How many bytes the answers of the records take. 18: the file passes 65,535 bytes, the book has another length, or the answers do not fit. Then nothing is altered.
pub fn play(book: &mut [u8], file: &[u8], answers: &mut [u8]) -> Result<usize, Refusal>
    ensures { (answered result ≡ whole_answer book.old file.now answers.old)
        × (value_or 0 result ≡ whole_size book.old file.now answers.old)
        × (answers.new ≡ whole_answers book.old file.now answers.old)
        × (book.new ≡ whole_bytes book.old file.now answers.old) }
{
    if file.len() > 65_535 {
        return Err(Refusal::WrongLength);
    }
    let Some(book) = book.as_mut_array() else {
        return Err(Refusal::WrongLength);
    };
    let size = 9 * count_answers(file);
    if answers.len() < size {
        return Err(Refusal::WrongLength);
    }
    play_records(book, file, answers);
    Ok(size)
}
