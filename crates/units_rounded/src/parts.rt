// A part of a position (document 01, "From trades to positions"): the money that goes with k of its shares.
ghost use Rattle.std.specs.Prelude.{◌≡◌, ◌*◌, ◌/◌, ◌≤◌, nat_abs};
ghost use Rattle.units.specs.Units.{shares_of, mils_of};
ghost use Rattle.units_rounded.specs.Part.{part_of};
ghost use Rattle.units_rounded.specs.PartLaws.{PartAsks, PortionAsks};

use units::{Amount, Counted, Mils, Quantity, Shares};

// n * k / d rounded down, for the money n of d shares and a k that is at most d: exact, though the product may pass
// 64 bits.
fn portion(money: Amount, all: Quantity, some: Quantity) -> Amount
    requires { PortionAsks money.0 all.0 some.0 }
    ensures { (result.0 ≡ money.0 * some.0 / all.0) × (result.0 ≤ money.0) }
{
    let n = money.0;
    let d = all.0;
    let k = some.0;
    let a = n / d * k;
    let b = n % d * k;
    Amount(a + b / d)
}

// The money of k of the q shares of a position that has the money m.
pub fn part(m: Mils, q: Shares, k: Shares) -> Mils
    requires { PartAsks (mils_of m) (shares_of q) (nat_abs (shares_of k)) }
    ensures { (mils_of result ≡ part_of (mils_of m) (shares_of q) (nat_abs (shares_of k))) × (nat_abs (mils_of result) ≤ nat_abs (mils_of m)) }
{
    let s = portion(m.size(), q.size(), k.size());
    Mils::of(m.is_negative(), s)
}
