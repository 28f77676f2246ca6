// One record of a call file, as a call of its own (document 01, "Call file and sheet"; refusals 18, 19 and those of its
// call).
ghost use Rattle.std.specs.Prelude.{◌≡◌, ◌+◌, pos};
ghost use Rattle.units.specs.Units.{shares};
ghost use Rattle.rules.specs.Refusals.{answered, numbered};
ghost use Rattle.rules.specs.Records.{record_at, record_answer, record_bytes, number_of_record, figure_of_record, next_of_record, record_number, record_figure, record_next};
ghost use Rattle.rules.specs.declared.RecordAnswer.TheVariants.{Answered};
ghost use Rattle.callfile_format.specs.Bodies.{codes_at};
ghost use Rattle.callfile_format.specs.Reading.{says};
ghost use Rattle.callfile.specs.Answering.{Ready, ran_as};

use book::BOOK_BYTES;
use callfile_format::{Read, next_of, other_version, past_end, record_at};
use rules::{RecordAnswer, Refusal, number_of};
use units::{Shares, Whole};

// The answer of a call that has no figure. (A `RecordAnswer` holds the number of a refusal: document 01's definitions of its number, figure and
// next place are of that, and its theorems speak of them.)
fn answer_of(answer: Result<(), Refusal>, next: u32) -> RecordAnswer
    ensures { result ≡ Answered (answered answer) (shares (pos 0)) next }
{
    RecordAnswer::Answered(number_of(&answer), Shares(Whole(0)), next)
}

#[tactic(auto, unfolding(crate::specs::Answering::ran_as))]
fn ran(answer: Result<Shares, Refusal>, next: u32) -> RecordAnswer
    ensures { result ≡ ran_as (numbered answer) next }
{
    match answer {
        Ok(moved) => RecordAnswer::Answered(0, moved, next),
        Err(r) => RecordAnswer::Answered(u8::from(r), Shares(Whole(0)), next),
    }
}

// What stands at the place is done, and answered.
fn applied(book: &mut [u8], file: &[u8], place: u32, found: Option<Read>) -> RecordAnswer
    requires { Ready book.old file.now place × (says found (codes_at place file.now) ≡ record_at file.now place) }
    ensures { (result ≡ record_answer book.old file.now place)
        × (book.new ≡ record_bytes book.old file.now place) }
{
    let Some(found) = found else {
        return RecordAnswer::Unreadable(place);
    };
    // A record that can be read has its length, so that the next place is known.
    let Some(next) = next_of(file, place) else {
        return RecordAnswer::Unreadable(place);
    };
    match found {
        Read::Create => {
            let at = place as usize;
            let codes = &file[at + 3..at + 35];
            answer_of(house::create(book, codes), next)
        }
        Read::Enter(t) => answer_of(house::enter(book, t), next),
        Read::Amend(t) => answer_of(house::amend(book, t), next),
        Read::Exclude(n) => answer_of(house::exclude(book, n), next),
        Read::Roll => answer_of(house::roll(book), next),
        Read::Deposit(a, s, q) => answer_of(house::deposit(book, a, s, q), next),
        Read::Withdraw(a, s, q) => answer_of(house::withdraw(book, a, s, q), next),
        Read::Run(s) => ran(house::run(book, s), next),
    }
}

// The record at a place: the first stands at place 1, and each answer tells the place of the next.
pub fn play_record(book: &mut [u8], file: &[u8], place: u32) -> RecordAnswer
    ensures { (result ≡ record_answer book.old file.now place)
        × (book.new ≡ record_bytes book.old file.now place)
        × (number_of_record result ≡ record_number book.old file.now place)
        × (figure_of_record result ≡ pos (record_figure book.old file.now place))
        × (next_of_record result ≡ record_next book.old file.now place) }
{
    if file.len() > 65_535 {
        return RecordAnswer::FileRefused(18);
    }
    if book.len() != BOOK_BYTES {
        return RecordAnswer::FileRefused(18);
    }
    if other_version(file) {
        return RecordAnswer::Unreadable(0);
    }
    if past_end(file, place) {
        return RecordAnswer::Ended;
    }
    let at = place as usize;
    let found = record_at(file, at);
    applied(book, file, place, found)
}
