// "Per security, quantities due by the day total zero, as do those due on day + 1."
// Each security has a sum of the quantities due by the day, and one of those due later.
ghost use Rattle.std.specs.Prelude.{◌≡◌, ◌+ℤ◌};
ghost use Rattle.units.specs.Units.{shares_of};
ghost use Rattle.rules.specs.Words.{all};
ghost use Rattle.rules.specs.Bounds.{every_security};
ghost use Rattle.rules.specs.Book.{quantity_of};
ghost use Rattle.sound_positions.specs.Summing.{Room};
ghost use Rattle.sound_positions.specs.Balance.{zero_at};

use rules::Position;
use units::{Counted, Shares};

// A record's quantity, added to the sum of its security.
pub(crate) fn with_quantity(sum: Shares, p: Position) -> Shares
    requires { Room sum p }
    ensures { shares_of result ≡ shares_of sum +ℤ quantity_of p }
{
    sum.plus(p.quantity)
}

pub(crate) fn sums_zero(sums: [Shares; 32]) -> bool
    ensures { result ≡ all (zero_at sums) every_security }
{
    sums.iter().all(|sum| sum.is_zero())
}
