// "An account's due records in one security have one sign."
ghost use Rattle.std.specs.Prelude.{◌≡◌, true, false, not, cond, ◌||◌, ◌<◌};
ghost use Rattle.rules.specs.Book.{quantity_of, is_zero};
ghost use Rattle.rules.specs.Sound.{is_due, due_nonzero};
ghost use Rattle.sound_positions.specs.OneSign.{place_of, places, sign_of, fits_seen, with_sign};

use crate::due::is_due;
use crate::number::{account_of, security_of};
use rules::Position;
use units::Counted;

// The place of an account and a security in a table of all pairs.
fn place_of(p: Position) -> usize
    ensures { (result ≡ place_of p) × (result < places) }
{
    let a = account_of(p);
    let s = security_of(p);
    a * 32 + s
}

// The sign of a record's shares, to receive or to deliver. The table of all pairs has none where no due record was seen.
#[derive(Clone, Copy, PartialEq)]
pub(crate) enum Sign {
    Receives,
    Delivers,
}

// No due record has zero shares: the test for it has the whole quantity read in one load, where the sign alone would be
// read as a byte.
#[tactic(auto, unfolding(crate::specs::OneSign::sign, rules::specs::Book::is_zero))]
fn sign_of(p: Position) -> Sign
    requires { is_zero (quantity_of p) ≡ false }
    ensures { result ≡ sign_of p }
{
    if p.quantity.is_zero() || p.quantity.is_negative() {
        Sign::Delivers
    } else {
        Sign::Receives
    }
}

// A due record has the sign that was seen of its pair, if one was.
#[tactic(auto, using(crate::specs::Each::due_nonzero_lem), unfolding(crate::specs::OneSign::fits))]
pub(crate) fn sign_fits(seen: &[Option<Sign>; 2048], day: u16, p: Position) -> bool
    requires { due_nonzero day p ≡ true }
    ensures { result ≡ not (is_due day p) || fits_seen seen.now p }
{
    if !is_due(day, p) {
        return true;
    }
    match seen[place_of(p)] {
        None => true,
        Some(sign) => sign == sign_of(p),
    }
}

#[tactic(auto, using(crate::specs::Each::due_nonzero_lem))]
pub(crate) fn note_sign(seen: &mut [Option<Sign>; 2048], day: u16, p: Position)
    requires { due_nonzero day p ≡ true }
    ensures { seen.new ≡ cond (is_due day p) (with_sign seen.old p) seen.old }
{
    if is_due(day, p) {
        seen[place_of(p)] = Some(sign_of(p));
    }
}
