// "Due positions are offset": each newly due record, by ascending number, meets the older ones, by ascending number,
// where the bytes stand.
ghost use Rattle.std.specs.Prelude.{◌≡◌};
ghost use Rattle.rules.specs.Layout.{book_of};
ghost use Rattle.rules.specs.Roll.{offset};
ghost use Rattle.laws.specs.OffsetKept.{Ready};
ghost use Rattle.parts.specs.Packing.{PackAsks};
ghost use Rattle.book.specs.Replacing.{Holds};
ghost use Rattle.offsetting.specs.Walk.{WalkAsks};
ghost use Rattle.offsetting.specs.Rows.{Walked};

use crate::borders::due_before;
use crate::rows::meet;
use book::{BookBytes, charge_at, codes_of, day_at, position_at, put_charge};
use offsetting_meetings::{same_pair, with_whole};
use parts::{pack, place_of};

// The first `older` rows are due before the day, those behind them up to row `due` on the day. One pass over the
// older rows for each newly due one; nothing is written for most of them, which are of other accounts and securities,
// and are done with when their number has been compared. A meeting leaves the number of the newly due record as it is,
// so that `fresh`, as it was read, still tells whom it may meet.
fn offset_rows(b: &mut BookBytes, older: usize, due: usize)
    requires { WalkAsks (book_of b.old) older due }
    ensures { Walked (book_of b.old) (book_of b.new) }
{
    let codes = codes_of(b);
    'newly: for i in older..due {
        let fresh = position_at(b, i);
        let at = place_of(codes, fresh);
        let charge = with_whole(charge_at(b, at), fresh);
        put_charge(b, at, charge);
        'older: for j in 0..older {
            let o = position_at(b, j);
            if same_pair(fresh, o) {
                meet(b, i, j, at);
            }
        }
    }
}

// The book before this step: charges zero, today's nets behind the open positions and nothing behind them, the day gone
// up by one.
pub fn offset_due(b: &mut BookBytes)
    requires { Ready (book_of b.old) × PackAsks (book_of b.old) }
    ensures { Holds b.new (offset (book_of b.old)) }
{
    let today = day_at(b) as u32;
    let older = due_before(b, today);
    let due = due_before(b, today + 1);
    offset_rows(b, older, due);
    pack(b);
}
