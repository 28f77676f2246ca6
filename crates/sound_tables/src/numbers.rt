// "Trades: .. numbers distinct .." One pass, with a flag for each of the 65,536 numbers, 64 to a word.
ghost use Rattle.std.specs.Prelude.{◌≡◌, not, map, ◌<◌, ◌≤◌};
ghost use Rattle.rules.specs.Bounds.{most_trades};
ghost use Rattle.rules.specs.Book.{list_of};
ghost use Rattle.rules.specs.Layout.{book_of};
ghost use Rattle.rules.specs.Sound.{distinct};
ghost use Rattle.sound_tables.specs.Flags.{flag_at, raised};

use book::{BookBytes, entries_at, trade_at};

// Raises the flag of a number, and says whether it was down. The caller learns that the number has a flag.
#[tactic(auto, using(crate::specs::Flags::shifted_one), unfolding(crate::specs::Flags::flag_at, crate::specs::Flags::raised))]
fn first_use(used: &mut [u64; 1024], number: u16) -> bool
    ensures { (result ≡ not (flag_at used.old number))
        × ((used.new ≡ raised used.old number) × (number < 65536)) }
{
    let at = (number / 64) as usize;
    let place = number % 64;
    let word = used[at];
    let up = (word >> place) % 2 == 1;
    let flag = 1u64 << place;
    used[at] = word | flag;
    !up
}

pub fn numbers_distinct(b: &BookBytes) -> bool
    requires { (book_of b.now).entries ≤ most_trades }
    ensures { result ≡ distinct (map (λ t. t.number) (list_of (book_of b.now))) }
{
    let mut used = [0u64; 1024];
    let n = entries_at(b) as usize;
    for i in 0..n {
        let t = trade_at(b, i);
        if !first_use(&mut used, t.number) {
            return false;
        }
    }
    true
}
