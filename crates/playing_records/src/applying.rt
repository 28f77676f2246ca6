// One record of a call file on the lent bytes of a sound book (document 01, "Call file and sheet"): its call is made,
// and what it answers is the answer to the record.
ghost use Rattle.std.specs.Prelude.{◌≡◌, false, ◌++◌, ◌+◌, ◌≤◌, length, nat_abs};
ghost use Rattle.fields.specs.Field.{stored, digits};
ghost use Rattle.rules.specs.Sound.{not_sound};
ghost use Rattle.rules.specs.Calls.{number_of_run, figure_of_run};
ghost use Rattle.rules.specs.Refusals.{answered, numbered};
ghost use Rattle.playing_records.specs.Answers.{number_in, figure_in};
ghost use Rattle.playing_records.specs.Applying.{call_in, number_by, figure_by, bytes_by};

use book::BookBytes;
use callfile_format::Read;
use calls::{amend, deposit, enter, exclude, run, withdraw};
use calls_rolls::roll;
use fields::put;
use rules::Refusal;
use units::{Counted, Quantity, Shares};

// The answer of a record: that its call is accepted, with the shares that a run moved (0 of any other call); its call's refusal; or that
// it is unreadable, with its place.
#[derive(Clone, Copy)]
pub enum Answer {
    Accepted(Quantity),
    Refused(Refusal),
    Unreadable(u64),
}

impl Answer {
    fn number(self) -> u8
        ensures { result ≡ number_in self }
    {
        match self {
            Answer::Accepted(_) => 0,
            Answer::Refused(r) => u8::from(r),
            Answer::Unreadable(_) => 19,
        }
    }

    fn figure(self) -> u64
        ensures { result ≡ figure_in self }
    {
        match self {
            Answer::Accepted(moved) => moved.0,
            Answer::Refused(_) => 0,
            Answer::Unreadable(place) => place,
        }
    }
}

// Only a run has a figure.
fn plain(answer: Result<(), Refusal>) -> Answer
    ensures { (number_in result ≡ answered answer) × (figure_in result ≡ 0) }
{
    match answer {
        Ok(()) => Answer::Accepted(Quantity(0)),
        Err(r) => Answer::Refused(r),
    }
}

fn of_run(answer: Result<Shares, Refusal>) -> Answer
    ensures { (number_in result ≡ number_of_run (numbered answer)) × (figure_in result ≡ nat_abs (figure_of_run (numbered answer))) }
{
    match answer {
        Ok(moved) => Answer::Accepted(moved.size()),
        Err(r) => Answer::Refused(r),
    }
}

// A create stands first and only there: it makes a book and is no call on one, so that it is unreadable here.
#[tactic(auto, using(crate::specs::Applying::figure_none, crate::specs::Applying::ran_figure, laws::specs::EnumAnswers::run_number), unfolding(crate::specs::Applying::call_in, crate::specs::Applying::number_by, crate::specs::Applying::figure_by, crate::specs::Applying::bytes_by, rules::specs::Calls::figure))]
pub fn apply(book: &mut BookBytes, found: Option<Read>, place: u64) -> Answer
    requires { not_sound book.old ≡ false }
    ensures { (number_in result ≡ number_by book.old (call_in found))
        × (figure_in result ≡ figure_by book.old place (call_in found))
        × (book.new ≡ bytes_by book.old (call_in found)) }
{
    let Some(found) = found else {
        return Answer::Unreadable(place);
    };
    match found {
        Read::Create => Answer::Unreadable(place),
        Read::Enter(t) => plain(enter(book, t)),
        Read::Amend(t) => plain(amend(book, t)),
        Read::Exclude(n) => plain(exclude(book, n)),
        Read::Roll => plain(roll(book)),
        Read::Deposit(a, s, q) => plain(deposit(book, a, s, q)),
        Read::Withdraw(a, s, q) => plain(withdraw(book, a, s, q)),
        Read::Run(s) => of_run(run(book, s)),
    }
}

// 9 bytes for each answer: number 1, figure 8.
pub fn put_answer(answers: &mut [u8], at: usize, answer: Answer)
    requires { at + 9 ≤ length answers.old }
    ensures { answers.new ≡ stored answers.old at (digits 1 (number_in answer) ++ digits 8 (figure_in answer)) }
{
    put(answers, at, 1, u64::from(answer.number()));
    put(answers, at + 1, 8, answer.figure());
}
