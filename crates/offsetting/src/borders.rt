// "Due positions are offset", the newly due against the older. Records ascend by number, so those that are due before a day
// stand first: how many they are says where the others begin.
ghost use Rattle.std.specs.Prelude.{◌≡◌, ◌≤◌, length};
ghost use Rattle.rules.specs.Words.{keep};
ghost use Rattle.rules.specs.Bounds.{most_records};
ghost use Rattle.rules.specs.Book.{open_of};
ghost use Rattle.rules.specs.Layout.{book_of};
ghost use Rattle.laws.specs.DueDays.{is_older};

use book::{BookBytes, position_at, records_at};
use sound_positions::due_of;

pub fn due_before(b: &BookBytes, day: u32) -> usize
    requires { (book_of b.now).records ≤ most_records }
    ensures { result ≡ length (keep (is_older day) (open_of (book_of b.now))) }
{
    let n = records_at(b) as usize;
    let mut older = 0;
    for i in 0..n {
        if due_of(position_at(b, i)) < day {
            older += 1;
        }
    }
    older
}
