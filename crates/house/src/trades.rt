// Entry, amendment and exclusion of trades (document 01, "From trades to positions"; refusals 1 to 9).
ghost use Rattle.std.specs.Prelude.{◌≡◌};
ghost use Rattle.rules.specs.Calls.{enter, amend, exclude, answer_bytes, after_bytes};
ghost use Rattle.rules.specs.Refusals.{answered};

use crate::UNSOUND;
use rules::{Refusal, Trade};
use soundness::sound_book_mut;

pub fn enter(book: &mut [u8], trade: Trade) -> Result<(), Refusal>
    ensures { (answered result ≡ answer_bytes book.old (enter trade))
        × (book.new ≡ after_bytes book.old (enter trade)) }
{
    let sound = sound_book_mut(book).ok_or(UNSOUND)?;
    calls::enter(sound, trade)
}

pub fn amend(book: &mut [u8], trade: Trade) -> Result<(), Refusal>
    ensures { (answered result ≡ answer_bytes book.old (amend trade))
        × (book.new ≡ after_bytes book.old (amend trade)) }
{
    let sound = sound_book_mut(book).ok_or(UNSOUND)?;
    calls::amend(sound, trade)
}

pub fn exclude(book: &mut [u8], number: u16) -> Result<(), Refusal>
    ensures { (answered result ≡ answer_bytes book.old (exclude number))
        × (book.new ≡ after_bytes book.old (exclude number)) }
{
    let sound = sound_book_mut(book).ok_or(UNSOUND)?;
    calls::exclude(sound, number)
}
