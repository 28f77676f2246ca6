// Deposits and withdrawals (document 01, "Refusal numbers": 1, 2, 3, 4, and 12 or 11).
ghost use Rattle.std.specs.Prelude.{◌≡◌};
ghost use Rattle.rules.specs.Calls.{deposit, withdraw, answer_bytes, after_bytes};
ghost use Rattle.rules.specs.Refusals.{answered};

use crate::UNSOUND;
use rules::Refusal;
use soundness::sound_book_mut;

pub fn deposit(book: &mut [u8], account: u8, security: u8, quantity: u64) -> Result<(), Refusal>
    ensures { (answered result ≡ answer_bytes book.old (deposit account security quantity))
        × (book.new ≡ after_bytes book.old (deposit account security quantity)) }
{
    let sound = sound_book_mut(book).ok_or(UNSOUND)?;
    calls::deposit(sound, account, security, quantity)
}

pub fn withdraw(book: &mut [u8], account: u8, security: u8, quantity: u64) -> Result<(), Refusal>
    ensures { (answered result ≡ answer_bytes book.old (withdraw account security quantity))
        × (book.new ≡ after_bytes book.old (withdraw account security quantity)) }
{
    let sound = sound_book_mut(book).ok_or(UNSOUND)?;
    calls::withdraw(sound, account, security, quantity)
}
