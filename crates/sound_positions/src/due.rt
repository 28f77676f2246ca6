// "No due day beyond day + 1. A record due by the book's day has nonzero quantity."
ghost use Rattle.std.specs.Prelude.{◌≡◌, ◌<◌, ◌^◌, leb};
ghost use Rattle.rules.specs.Book.{due_of};
ghost use Rattle.rules.specs.Sound.{due_fits, due_nonzero, is_due};

use rules::Position;
use units::Counted;

// Due on this day or before: the number is below the numbers of the next day. The number is compared and not divided, so
// that it is read in one load.
#[tactic(auto, using(crate::specs::DueBy::below_next), unfolding(rules::specs::Book::due_of))]
fn due_by(day: u32, p: Position) -> bool
    requires { day < 2 ^ 17 }
    ensures { result ≡ leb (due_of p) day }
{
    let next = (day + 1) * 2048;
    p.number < next
}

#[tactic(auto, unfolding(rules::specs::Sound::is_due))]
pub fn is_due(day: u16, p: Position) -> bool
    ensures { result ≡ is_due day p }
{
    due_by(day as u32, p)
}

#[tactic(auto, unfolding(rules::specs::Sound::due_fits))]
pub(crate) fn day_fits(day: u16, p: Position) -> bool
    ensures { result ≡ due_fits day p }
{
    due_by(day as u32 + 1, p)
}

#[tactic(auto, unfolding(rules::specs::Sound::due_nonzero, rules::specs::Book::is_zero))]
pub fn nonzero_if_due(day: u16, p: Position) -> bool
    ensures { result ≡ due_nonzero day p }
{
    !(is_due(day, p) && p.quantity.is_zero())
}
