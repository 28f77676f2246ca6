// "Records ascend strictly", and what is asked of each record by itself: sizes, "no due day beyond day + 1", "a record due
// by the book's day has nonzero quantity". One walk over the records makes all these tests.
ghost use Rattle.std.specs.Prelude.{◌≡◌, ◌&&◌, ◌≤◌};
ghost use Rattle.rules.specs.Bounds.{most_records};
ghost use Rattle.rules.specs.Book.{open_of};
ghost use Rattle.rules.specs.Layout.{book_of};
ghost use Rattle.rules.specs.Sound.{ascends};
ghost use Rattle.sound_positions.specs.Each.{record_fits, each_fits};

use crate::due::{day_fits, nonzero_if_due};
use crate::sizes::size_fits;
use book::{BookBytes, day_at, position_at, records_at};
use rules::Position;

#[tactic(auto, unfolding(crate::specs::Each::record_fits))]
fn record_fits(day: u16, p: Position) -> bool
    ensures { result ≡ record_fits day p }
{
    size_fits(p) && day_fits(day, p) && nonzero_if_due(day, p)
}

// A record's number is at least one above that of the record before it; the first may have any.
pub fn each_fits(b: &BookBytes) -> bool
    requires { (book_of b.now).records ≤ most_records }
    ensures { result ≡ ascends (open_of (book_of b.now)) && each_fits (book_of b.now) }
{
    let day = day_at(b);
    let n = records_at(b) as usize;
    let mut least: u64 = 0;
    for i in 0..n {
        let p = position_at(b, i);
        let number = p.number as u64;
        if number < least || !record_fits(day, p) {
            return false;
        }
        least = number + 1;
    }
    true
}
