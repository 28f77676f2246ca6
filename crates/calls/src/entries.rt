// Entry, amendment and exclusion of trades (document 01, "From trades to positions"; refusals 2 to 9). The list alone is
// read and written.
ghost use Rattle.std.specs.Prelude.{◌≡◌, false};
ghost use Rattle.rules.specs.Refusals.{answered};
ghost use Rattle.rules.specs.Sound.{not_sound};
ghost use Rattle.rules.specs.Calls.{enter, amend, exclude, answer_bytes, after_bytes};

use book::BookBytes;
use rules::{Refusal, Trade};
use trading::{may_amend, may_enter, may_exclude, put_amended, put_entered, put_excluded};

pub fn enter(book: &mut BookBytes, trade: Trade) -> Result<(), Refusal>
    requires { not_sound book.old ≡ false }
    ensures { (answered result ≡ answer_bytes book.old (enter trade))
        × (book.new ≡ after_bytes book.old (enter trade)) }
{
    may_enter(book, trade)?;
    put_entered(book, trade);
    Ok(())
}

pub fn amend(book: &mut BookBytes, trade: Trade) -> Result<(), Refusal>
    requires { not_sound book.old ≡ false }
    ensures { (answered result ≡ answer_bytes book.old (amend trade))
        × (book.new ≡ after_bytes book.old (amend trade)) }
{
    may_amend(book, trade)?;
    put_amended(book, trade);
    Ok(())
}

pub fn exclude(book: &mut BookBytes, number: u16) -> Result<(), Refusal>
    requires { not_sound book.old ≡ false }
    ensures { (answered result ≡ answer_bytes book.old (exclude number))
        × (book.new ≡ after_bytes book.old (exclude number)) }
{
    may_exclude(book, number)?;
    put_excluded(book, number);
    Ok(())
}
