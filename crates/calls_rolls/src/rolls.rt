// The day roll (document 01, "From trades to positions"; refusals 10 and 14).
ghost use Rattle.std.specs.Prelude.{◌≡◌, false};
ghost use Rattle.rules.specs.Refusals.{answered};
ghost use Rattle.rules.specs.Sound.{not_sound};
ghost use Rattle.rules.specs.Calls.{roll, answer_bytes, after_bytes};

use crate::quiet::{is_quiet, quiet_roll};
use book::{BookBytes, day_at};
use netting::{before_offset, with_nets};
use offsetting::offset_due;
use rules::Refusal;

// Every step: nets are made in a copy of the position table, all else where it stands. Right for a quiet day too, but many
// times slower.
fn full_roll(book: &mut BookBytes) -> Result<(), Refusal>
    requires { not_sound book.old ≡ false }
    ensures { (answered result ≡ answer_bytes book.old roll) × (book.new ≡ after_bytes book.old roll) }
{
    let netted = with_nets(book)?;
    let day = day_at(book);
    if day == 60_000 {
        return Err(Refusal::LastDay);
    }
    before_offset(book, netted);
    offset_due(book);
    Ok(())
}

pub fn roll(book: &mut BookBytes) -> Result<(), Refusal>
    requires { not_sound book.old ≡ false }
    ensures { (answered result ≡ answer_bytes book.old roll) × (book.new ≡ after_bytes book.old roll) }
{
    if is_quiet(book) {
        return quiet_roll(book);
    }
    full_roll(book)
}
