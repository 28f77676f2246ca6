// "A part of k shares from a position of q shares and money m carries m*k/|q| truncated towards zero; the rest stays on
// the record." Roll and run both take parts this way, and charge each part's money.
ghost use Rattle.std.specs.Prelude.{◌≡◌, ◌+◌, ◌≤◌, ◌<◌, ◌^◌, nat_abs, ◌+ℤ◌};
ghost use Rattle.units.specs.Units.{shares_of, mils_of};
ghost use Rattle.units_rounded.specs.PartLaws.{PartAsks};
ghost use Rattle.rules.specs.Book.{quantity_of, money_of};
ghost use Rattle.rules.specs.Parts.{part_money, without};

use rules::Position;
use units::{Counted, Mils, Shares};

// The money of k of a record's shares.
fn part_of(p: Position, k: Shares) -> Mils
    requires { PartAsks (money_of p) (quantity_of p) (nat_abs (shares_of k)) }
    ensures { (mils_of result ≡ part_money p (nat_abs (shares_of k))) × (nat_abs (mils_of result) ≤ nat_abs (money_of p)) }
{
    units_rounded::part(p.money, p.quantity, k)
}

// The record without k of its shares and their money.
pub fn rest_of(p: Position, k: Shares) -> Position
    requires { PartAsks (money_of p) (quantity_of p) (nat_abs (shares_of k)) }
    ensures { result ≡ without p (nat_abs (shares_of k)) }
{
    Position {
        number: p.number,
        quantity: p.quantity.toward_zero(k),
        money: p.money.minus(part_of(p, k)),
    }
}

// A charge and the money of k of a record's shares.
pub fn with_part(charge: Mils, p: Position, k: Shares) -> Mils
    requires { PartAsks (money_of p) (quantity_of p) (nat_abs (shares_of k)) × (nat_abs (mils_of charge) + nat_abs (money_of p) < 2 ^ 63) }
    ensures { (mils_of result ≡ mils_of charge +ℤ part_money p (nat_abs (shares_of k))) × (nat_abs (mils_of result) ≤ nat_abs (mils_of charge) + nat_abs (money_of p)) }
{
    charge.plus(part_of(p, k))
}
