// "Day 0 to 60,000."
ghost use Rattle.std.specs.Prelude.{◌≡◌};
ghost use Rattle.rules.specs.Layout.{book_of};
ghost use Rattle.rules.specs.Sound.{day_fits};

use book::{BookBytes, day_at};

#[tactic(auto, unfolding(rules::specs::Sound::day_fits))]
pub fn day_fits(b: &BookBytes) -> bool
    ensures { result ≡ day_fits (book_of b.now) }
{
    day_at(b) <= 60_000
}
