// What is asked of records together: "an account's due records in one security have one sign", and "per security,
// quantities due by the day total zero, as do those due on day + 1". One walk over the records finds out both.
ghost use Rattle.std.specs.Prelude.{◌≡◌, true, ◌&&◌, ◌≤◌};
ghost use Rattle.rules.specs.Words.{keep};
ghost use Rattle.rules.specs.Bounds.{most_records};
ghost use Rattle.rules.specs.Book.{open_of};
ghost use Rattle.rules.specs.Layout.{book_of};
ghost use Rattle.rules.specs.Sound.{is_due, one_sign, due_balanced};
ghost use Rattle.sound_positions.specs.Each.{each_fits};

use crate::balance::{sums_zero, with_quantity};
use crate::due::is_due;
use crate::number::security_of;
use crate::signs::{note_sign, sign_fits};
use book::{BookBytes, day_at, position_at, records_at};
use units::{Shares, Whole};

// Comparing each due record with each other would take half a million turns for a full table.
pub fn together_fit(b: &BookBytes) -> bool
    requires { ((book_of b.now).records ≤ most_records) × (each_fits (book_of b.now) ≡ true) }
    ensures { result ≡ one_sign (keep (is_due (book_of b.now).day) (open_of (book_of b.now))) && due_balanced (book_of b.now) }
{
    let day = day_at(b);
    let n = records_at(b) as usize;
    let mut seen = [None; 2048];
    let none = Shares(Whole(0));
    let mut today = [none; 32];
    let mut later = [none; 32];
    for i in 0..n {
        let p = position_at(b, i);
        if !sign_fits(&seen, day, p) {
            return false;
        }
        note_sign(&mut seen, day, p);
        // Its quantity counts among those due by the day, or among those due later.
        let s = security_of(p);
        if is_due(day, p) {
            today[s] = with_quantity(today[s], p);
        } else {
            later[s] = with_quantity(later[s], p);
        }
    }
    sums_zero(today) && sums_zero(later)
}
