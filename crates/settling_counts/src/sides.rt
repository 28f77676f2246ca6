// Who gives and who receives (document 01, "Settlement run"): what a record owes and wants of the security, what its
// account holds, and the shares of a meeting.
ghost use Rattle.std.specs.Prelude.{◌≡◌, min, ◌<◌, get_or};
ghost use Rattle.rules.specs.Book.{account_of, holding_at};
ghost use Rattle.rules.specs.Layout.{book_of};
ghost use Rattle.laws.specs.Walk.{is_due_in, owes, wants};

use book::{BookBytes, holding_at};
use rules::Position;
use sound_positions::{account_of, is_due, security_of};
use units::{Counted, Quantity};

fn is_due_in(day: u16, security: u8, p: Position) -> bool
    ensures { result ≡ is_due_in day security p }
{
    security_of(p) == security as usize && is_due(day, p)
}

// Shares to deliver are a negative quantity,
pub fn owes_of(day: u16, security: u8, p: Position) -> Quantity
    ensures { result.0 ≡ owes day security p }
{
    if is_due_in(day, security, p) && p.quantity.is_negative() {
        return p.quantity.size();
    }
    Quantity(0)
}

// shares to receive a positive one.
pub fn wants_of(day: u16, security: u8, p: Position) -> Quantity
    ensures { result.0 ≡ wants day security p }
{
    if is_due_in(day, security, p) && !p.quantity.is_negative() {
        return p.quantity.size();
    }
    Quantity(0)
}

// Where the account of a record holds its shares of the security.
pub fn holding_place(p: Position, security: u8) -> usize
    requires { security < 32 }
    ensures { (result ≡ holding_at (account_of p) security) × (result < 2048) }
{
    account_of(p) * 32 + security as usize
}

pub fn smaller(a: Quantity, b: Quantity) -> Quantity
    ensures { result.0 ≡ min a.0 b.0 }
{
    Quantity(a.0.min(b.0))
}

// What a giver has left to give: its shares, or what its account holds if that is less. The holding is read only where
// shares are owed.
pub fn gives_of(b: &BookBytes, day: u16, security: u8, giver: Position) -> Quantity
    requires { security < 32 }
    ensures { result.0 ≡ min (owes day security giver) (get_or (book_of b.now).holdings (holding_at (account_of giver) security) 0) }
{
    let owed = owes_of(day, security, giver);
    if owed.0 == 0 {
        return Quantity(0);
    }
    let held = holding_at(b, holding_place(giver, security));
    smaller(owed, Quantity(held))
}
