// "Quantity within 256,000,000 and money within 2,560,000,000,000,000 either side of zero, not both zero."
ghost use Rattle.std.specs.Prelude.{◌≡◌};
ghost use Rattle.rules.specs.Sound.{sizes_fit};

use rules::Position;
use units::Counted;

#[tactic(auto, unfolding(rules::specs::Sound::sizes_fit, rules::specs::Sound::is_position, rules::specs::Book::is_zero))]
pub(crate) fn size_fits(p: Position) -> bool
    ensures { result ≡ sizes_fit p }
{
    let q = p.quantity.size();
    let m = p.money.size();
    q.0 <= 256_000_000 && m.0 <= 2_560_000_000_000_000 && (q.0 != 0 || m.0 != 0)
}
