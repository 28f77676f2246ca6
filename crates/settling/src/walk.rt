// The search through givers and receivers (document 01, "Settlement run"), where the bytes stand: it stops at once when
// nothing is left to give.
ghost use Rattle.rules.specs.Layout.{book_of};
ghost use Rattle.settling.specs.Bytes.{Ended};
ghost use Rattle.settling.specs.Loops.{WalkAsks};

use crate::moving::meet;
use book::{BookBytes, day_at, position_at, records_at};
use settling_counts::{gives_of, smaller, wants_of};
use units::Quantity;

// Givers by ascending number meet receivers by ascending number, while some of `all` is left to give; what is left then
// is handed back. Who has given all that it can, and who wants nothing more, is not met again: the rows before g and
// before r are done with. So r goes on where the last giver left it, and the receivers' loop is no `for`.
pub fn walk(b: &mut BookBytes, security: u8, all: Quantity) -> Quantity
    requires { WalkAsks (book_of b.old) security all.0 }
    ensures { Ended (book_of b.old) security all.0 b.new result.0 }
{
    let day = day_at(b);
    let n = records_at(b) as usize;
    let mut left = all.0;
    let mut r: usize = 0;
    'givers: for g in 0..n {
        'receivers: while r < n {
            let giver = position_at(b, g);
            let has = gives_of(b, day, security, giver);
            if has.0 == 0 {
                break 'receivers;
            }
            let receiver = position_at(b, r);
            let wanted = wants_of(day, security, receiver);
            if wanted.0 == 0 {
                r += 1;
                continue 'receivers;
            }
            let size = smaller(has, wanted);
            meet(b, security, g, r, size);
            left -= size.0;
            if left == 0 {
                break 'givers;
            }
        }
    }
    Quantity(left)
}
