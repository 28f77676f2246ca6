// "For each refused call, R record index from 0, refusal; for 19, X place": the answers stand in 9 bytes each, number 1, figure 8.
ghost use Rattle.std.specs.Prelude.{◌≡◌, true, ◌/◌, ◌<◌, ◌^◌, length};
ghost use Rattle.rules.specs.Words.{all};
ghost use Rattle.rules.specs.Sheet.{answer_line, answer_lines};
ghost use Rattle.sheet.specs.Written.{Ready, Wrote};
ghost use Rattle.sheet.specs.Answers.{answer, answersIn, placeFits};

use crate::one::put_one;
use fields::get;
use rules::{Line, Tally};

// The line of one answer, if it has one.
fn put_answer(
    buffer: &mut [u8],
    write: bool,
    t: Tally,
    index: u32,
    number: u8,
    figure: u64,
) -> Tally
    requires { Ready write (length buffer.old) t (answer_line index (answer number figure)) × (placeFits (answer number figure) ≡ true) }
    ensures { Wrote write buffer.old t (answer_line index (answer number figure)) buffer.new result }
{
    if number == 0 {
        return t;
    }
    if number == 19 {
        return put_one(buffer, write, t, Line::Place(figure as u32));
    }
    put_one(buffer, write, t, Line::Refusal(index, number))
}

// The lines of all answers.
pub(crate) fn put_answers(buffer: &mut [u8], write: bool, t: Tally, answers: &[u8]) -> Tally
    requires { (length answers.now / 9 < 2 ^ 32) × (all placeFits (answersIn answers.now) ≡ true)
        × Ready write (length buffer.old) t (answer_lines 0 (answersIn answers.now)) }
    ensures { Wrote write buffer.old t (answer_lines 0 (answersIn answers.now)) buffer.new result }
{
    let mut tally = t;
    for i in 0..answers.len() / 9 {
        let number = get(answers, i * 9, 1) as u8;
        let figure = get(answers, i * 9 + 1, 8);
        tally = put_answer(buffer, write, tally, i as u32, number, figure);
    }
    tally
}
