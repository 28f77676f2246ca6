// The settlement run of one security (document 01, "Settlement run" and "Refusal numbers": 13), on a sound book.
ghost use Rattle.std.specs.Prelude.{◌≡◌, true, false, ◌*◌, ◌≤◌, pos, length};
ghost use Rattle.units.specs.Units.{shares_of, most_shares};
ghost use Rattle.rules.specs.Bounds.{most_records};
ghost use Rattle.rules.specs.Layout.{book_length, book_of, bytes_of};
ghost use Rattle.rules.specs.Refusals.{answered};
ghost use Rattle.rules.specs.Sound.{sound};
ghost use Rattle.rules.specs.Trades.{bad_security};
ghost use Rattle.rules.specs.Run.{deliverable};
ghost use Rattle.rules.specs.Calls.{run, answer_sound, after, figure};

use crate::walk::walk;
use book::BookBytes;
use parts::pack;
use rules::Refusal;
use settling_counts::wanted_of;
use units::{Counted, Quantity, Shares};

// Whether a run of a listed security is taken, of which `gives` shares can be given. 13 is looked at though it is never given
// on a sound book: there the receivers want what the givers owe.
pub fn may_run(b: &BookBytes, security: u8, gives: Quantity) -> Result<(), Refusal>
    requires { (sound (book_of b.now) ≡ true) × (bad_security (book_of b.now) security ≡ false) × (gives.0 ≡ deliverable (book_of b.now) security) }
    ensures { answered result ≡ answer_sound (book_of b.now) (run security) }
{
    let wants = wanted_of(b, security);
    if gives.0 > wants.0 {
        return Err(Refusal::TooMuchDelivered);
    }
    Ok(())
}

// The run, where the bytes stand: the walk, then the packing. Handed back are the shares moved.
pub fn with_run(b: &mut BookBytes, security: u8, gives: Quantity) -> Shares
    requires { (sound (book_of b.old) ≡ true) × (answer_sound (book_of b.old) (run security) ≡ 0) × (gives.0 ≡ deliverable (book_of b.old) security) × (gives.0 ≤ most_records * most_shares) }
    ensures { (b.new ≡ bytes_of (after (book_of b.old) (run security))) × (shares_of result ≡ pos (figure (book_of b.old) (run security))) }
{
    let left = walk(b, security, gives);
    pack(b);
    let moved = gives.0 - left.0;
    Shares::of(false, Quantity(moved))
}
