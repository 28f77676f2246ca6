// The roll of a quiet day (document 01, "From trades to positions"; refusal 14): no trade was entered and no record
// falls due on the next day, so that nothing is netted and nothing offset. Charges are set to zero and the day goes up
// by one. 10 cannot occur, for a sound book has at most 1,024 records.
ghost use Rattle.std.specs.Prelude.{◌≡◌, true, false};
ghost use Rattle.rules.specs.Layout.{book_of};
ghost use Rattle.rules.specs.Refusals.{answered};
ghost use Rattle.rules.specs.Sound.{not_sound};
ghost use Rattle.rules.specs.Calls.{roll, answer_bytes, after_bytes};
ghost use Rattle.laws.specs.QuietRoll.{is_quiet};

use book::{BookBytes, clear_charges, day_at, entries_at, position_at, put_day, records_at};
use rules::Refusal;
use sound_positions::due_of;

// Records ascend by due day first, so that the last one tells whether any falls due on the next day.
pub fn is_quiet(b: &BookBytes) -> bool
    requires { not_sound b.now ≡ false }
    ensures { result ≡ is_quiet (book_of b.now) }
{
    if entries_at(b) != 0 {
        return false;
    }
    let records = records_at(b) as usize;
    if records == 0 {
        return true;
    }
    let next = day_at(b) as u32 + 1;
    let last = position_at(b, records - 1);
    due_of(last) < next
}

pub fn quiet_roll(b: &mut BookBytes) -> Result<(), Refusal>
    requires { (not_sound b.old ≡ false) × (is_quiet (book_of b.old) ≡ true) }
    ensures { (answered result ≡ answer_bytes b.old roll) × (b.new ≡ after_bytes b.old roll) }
{
    let day = day_at(b);
    if day == 60_000 {
        return Err(Refusal::LastDay);
    }
    put_day(b, day + 1);
    clear_charges(b);
    Ok(())
}
