// What can be given and what is wanted (document 01, "Settlement run", and refusal 13: "deliverable shares exceed the
// receivers' total").
ghost use Rattle.std.specs.Prelude.{◌≡◌, true, ◌*◌, ◌<◌, ◌≤◌};
ghost use Rattle.units.specs.Units.{most_shares};
ghost use Rattle.rules.specs.Words.{all};
ghost use Rattle.rules.specs.Bounds.{accounts, most_records};
ghost use Rattle.rules.specs.Layout.{book_of};
ghost use Rattle.rules.specs.Sound.{sound};
ghost use Rattle.rules.specs.Run.{deliverable, wanted};
ghost use Rattle.settling_counts.specs.Holders.{Holders, is_none};

use crate::sides::{owes_of, smaller, wants_of};
use book::{BookBytes, day_at, holding_at, position_at, records_at};
use sound_positions::account_of;
use std::array;
use units::Quantity;

// What each account holds of the security.
fn held_of(b: &BookBytes, security: u8) -> [u64; 64]
    requires { security < 32 }
    ensures { Holders accounts (book_of b.now).holdings security result }
{
    array::from_fn(|a| holding_at(b, a * 32 + security as usize))
}

// Whether no account holds any.
fn none_held(held: &[u64; 64]) -> bool
    ensures { result ≡ all is_none held.now }
{
    held.iter().all(|h| *h == 0)
}

// Due deliverers, by ascending number, give the smaller of their shares and what the account still holds: what was given
// before is taken off a table of what the accounts hold. Most records are done with when their number has been compared;
// where nothing is held, none is looked at.
pub fn deliverable_of(b: &BookBytes, security: u8) -> Quantity
    requires { (sound (book_of b.now) ≡ true) × (security < 32) }
    ensures { (result.0 ≡ deliverable (book_of b.now) security) × (result.0 ≤ most_records * most_shares) }
{
    let day = day_at(b);
    let n = records_at(b) as usize;
    let mut held = held_of(b, security);
    if none_held(&held) {
        return Quantity(0);
    }
    let mut sum = 0;
    for i in 0..n {
        let p = position_at(b, i);
        let owed = owes_of(day, security, p);
        if owed.0 == 0 {
            continue;
        }
        let a = account_of(p);
        let gives = smaller(owed, Quantity(held[a]));
        held[a] -= gives.0;
        sum += gives.0;
    }
    Quantity(sum)
}

// The receivers' total.
pub fn wanted_of(b: &BookBytes, security: u8) -> Quantity
    requires { sound (book_of b.now) ≡ true }
    ensures { result.0 ≡ wanted (book_of b.now) security }
{
    let day = day_at(b);
    let n = records_at(b) as usize;
    let mut sum = 0;
    for i in 0..n {
        sum += wants_of(day, security, position_at(b, i)).0;
    }
    Quantity(sum)
}
