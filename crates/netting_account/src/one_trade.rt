// A net with one trade more (document 01, "From trades to positions": "bought less sold shares, and paid less received
// amounts").
ghost use Rattle.std.specs.Prelude.{◌≡◌, true, ◌+◌, ◌*◌, ◌≤◌, nat_abs};
ghost use Rattle.units.specs.Units.{most_mils};
ghost use Rattle.rules.specs.Book.{quantity_of, money_of};
ghost use Rattle.laws.specs.NetLaws.{has_part, in_limits};
ghost use Rattle.netting_account.specs.OneTrade.{plus_trade, plus_bought, less_sold, with_trade, Within};

use rules::{Position, Trade};
use units::{Counted, Quantity, Shares};

// A net with the shares and the amount of a trade; what was sold counts below zero.
fn plus_trade(p: Position, t: Trade, sold: bool) -> Position
    requires { Within (2 * most_mils) p × (in_limits t ≡ true) }
    ensures { (result ≡ plus_trade sold p t) × ((nat_abs (quantity_of result) ≤ nat_abs (quantity_of p) + most_mils) × (nat_abs (money_of result) ≤ nat_abs (money_of p) + most_mils)) }
{
    let traded = Shares::of(sold, Quantity(t.quantity as u64));
    let amount = traded.times(t.price);
    Position {
        number: p.number,
        quantity: p.quantity.plus(traded),
        money: p.money.plus(amount),
    }
}

#[tactic(auto, using(crate::specs::OneTrade::bought_yes, crate::specs::OneTrade::bought_no))]
fn plus_bought(p: Position, t: Trade, account: u8) -> Position
    requires { Within most_mils p × (in_limits t ≡ true) }
    ensures { (result ≡ plus_bought account p t) × Within (2 * most_mils) result }
{
    if t.buyer != account {
        return p;
    }
    plus_trade(p, t, false)
}

#[tactic(auto, using(crate::specs::OneTrade::sold_yes, crate::specs::OneTrade::sold_no))]
fn less_sold(p: Position, t: Trade, account: u8) -> Position
    requires { Within (2 * most_mils) p × (in_limits t ≡ true) }
    ensures { result ≡ less_sold account p t }
{
    if t.seller != account {
        return p;
    }
    plus_trade(p, t, true)
}

// An account's net with one trade more in its security. An excluded trade adds nothing, for it has 0 shares.
#[tactic(auto, unfolding(crate::specs::OneTrade::with_trade))]
pub fn with_trade(p: Position, t: Trade, account: u8) -> Position
    requires { Within most_mils p × (in_limits t ≡ true) }
    ensures { result ≡ with_trade account p t }
{
    less_sold(plus_bought(p, t, account), t, account)
}

// Whether the account bought or sold in it.
pub fn has_part(t: Trade, account: u8) -> bool
    ensures { result ≡ has_part account t }
{
    t.buyer == account || t.seller == account
}
