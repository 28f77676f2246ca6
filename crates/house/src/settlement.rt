// The day roll and the settlement run (document 01, "From trades to positions", "Settlement run"; refusals 1, 10, 14 and
// 1, 3, 13).
ghost use Rattle.std.specs.Prelude.{◌≡◌, pos};
ghost use Rattle.rules.specs.Calls.{roll, run, answer_bytes, after_bytes, figure_bytes, run_answer, number_of_run, figure_of_run};
ghost use Rattle.rules.specs.Refusals.{answered, numbered};

use crate::UNSOUND;
use rules::Refusal;
use soundness::sound_book_mut;
use units::Shares;

pub fn roll(book: &mut [u8]) -> Result<(), Refusal>
    ensures { (answered result ≡ answer_bytes book.old roll)
        × (book.new ≡ after_bytes book.old roll) }
{
    let sound = sound_book_mut(book).ok_or(UNSOUND)?;
    calls_rolls::roll(sound)
}

pub fn run(book: &mut [u8], security: u8) -> Result<Shares, Refusal>
    ensures { (numbered result ≡ run_answer book.old security)
        × (book.new ≡ after_bytes book.old (run security))
        × (number_of_run (numbered result) ≡ answer_bytes book.old (run security))
        × (figure_of_run (numbered result) ≡ pos (figure_bytes book.old (run security))) }
{
    let sound = sound_book_mut(book).ok_or(UNSOUND)?;
    calls::run(sound, security)
}
