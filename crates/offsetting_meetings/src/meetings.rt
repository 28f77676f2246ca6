// "Per account and security: a newly due record of 0 shares charges all its money and goes. Otherwise, while it faces
// opposite older records, take them by ascending number; the smaller remaining quantity is taken from both, each
// part's money is charged." One newly due record, and one older one.
ghost use Rattle.std.specs.Prelude.{◌≡◌, cond, ◌+◌, ◌<◌, ◌^◌, nat_abs, ◌+ℤ◌};
ghost use Rattle.units.specs.Units.{shares_of, mils_of, mils};
ghost use Rattle.rules.specs.Book.{money_of, quantity_of, is_zero};
ghost use Rattle.rules.specs.Sound.{same_pair};
ghost use Rattle.rules.specs.Roll.{opposite, faces, smaller};
ghost use Rattle.offsetting_meetings.specs.Meeting.{MeetAsks, meeting_of};

use parts::{rest_of, with_part};
use rules::Position;
use units::{Counted, Mils, Shares};

// The two records after they met, and the charge of their account in the currency of their security.
#[derive(Clone, Copy)]
pub struct Met {
    pub older: Position,
    pub newly: Position,
    pub charge: Mils,
}

// One account and one security: their numbers differ by due days only.
pub fn same_pair(p: Position, o: Position) -> bool
    ensures { result ≡ same_pair p o }
{
    p.number % 2048 == o.number % 2048
}

fn is_opposite(p: Position, o: Position) -> bool
    ensures { result ≡ opposite p o }
{
    !p.quantity.is_zero()
        && !o.quantity.is_zero()
        && p.quantity.is_negative() != o.quantity.is_negative()
}

// A newly due record p, and an older one o.
fn is_facing(p: Position, o: Position) -> bool
    ensures { result ≡ faces p o }
{
    same_pair(p, o) && is_opposite(p, o)
}

// As many shares as the smaller of the two has; whose sign they carry does not matter.
fn smaller_of(p: Position, o: Position) -> Shares
    ensures { nat_abs (shares_of result) ≡ smaller p o }
{
    if p.quantity.size().0 < o.quantity.size().0 {
        p.quantity
    } else {
        o.quantity
    }
}

// Records that do not face each other stay as they are.
pub fn meeting(charge: Mils, p: Position, o: Position) -> Met
    requires { MeetAsks charge p o }
    ensures { result ≡ meeting_of charge p o }
{
    if !is_facing(p, o) {
        return Met {
            older: o,
            newly: p,
            charge,
        };
    }
    let k = smaller_of(p, o);
    let once = with_part(charge, o, k);
    let both = with_part(once, p, k);
    Met {
        older: rest_of(o, k),
        newly: rest_of(p, k),
        charge: both,
    }
}

// The charge with all the money of a newly due record, if that has no shares.
pub fn with_whole(charge: Mils, p: Position) -> Mils
    requires { nat_abs (mils_of charge) + nat_abs (money_of p) < 2 ^ 63 }
    ensures { result ≡ cond (is_zero (quantity_of p)) (mils (mils_of charge +ℤ money_of p)) charge }
{
    if p.quantity.is_zero() {
        charge.plus(p.money)
    } else {
        charge
    }
}
