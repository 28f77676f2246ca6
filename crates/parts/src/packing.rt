// "Records at 0 shares go", at the end of the roll and of a run and where the bytes stand: those that remain move up, in
// their order, and the room behind them is zero.
ghost use Rattle.std.specs.Prelude.{◌≡◌, ◌≤◌, length};
ghost use Rattle.rules.specs.Bounds.{most_records};
ghost use Rattle.rules.specs.Book.{with_open};
ghost use Rattle.rules.specs.Layout.{book_of};
ghost use Rattle.book.specs.Replacing.{Holds, with_rows};
ghost use Rattle.parts.specs.Packing.{PackAsks, remaining_in, moved_up, cleared};

use book::{BookBytes, day_at, position_at, put_position, put_records, records_at};
use rules::Position;
use sound_positions::nonzero_if_due;
use units::{Mils, Shares, Whole};

// How many remain, and they are the first rows. A row that keeps its place is not written.
fn move_up(b: &mut BookBytes) -> usize
    requires { (book_of b.old).records ≤ most_records }
    ensures { (book_of b.new ≡ moved_up (book_of b.old)) × (result ≡ length (remaining_in (book_of b.old))) × (result ≤ (book_of b.old).records) }
{
    let day = day_at(b);
    let n = records_at(b) as usize;
    let mut kept = 0;
    for i in 0..n {
        let p = position_at(b, i);
        if !nonzero_if_due(day, p) {
            continue;
        }
        if kept != i {
            put_position(b, kept, p);
        }
        kept += 1;
    }
    kept
}

// The rows from one up to another are set to zero.
fn clear_rows(b: &mut BookBytes, from: usize, to: usize)
    requires { (from ≤ to) × (to ≤ most_records) }
    ensures { book_of b.new ≡ with_rows (book_of b.old) (book_of b.old).records (cleared (book_of b.old).positions from to) }
{
    let none = Position {
        number: 0,
        quantity: Shares(Whole(0)),
        money: Mils(Whole(0)),
    };
    for i in from..to {
        put_position(b, i, none);
    }
}

// The table has then the records that remain on the day, those not yet due and those due that have shares; their count is
// the book's, and the room behind them is zero.
pub fn pack(b: &mut BookBytes)
    requires { PackAsks (book_of b.old) }
    ensures { Holds b.new (with_open (book_of b.old) (remaining_in (book_of b.old))) }
{
    let n = records_at(b) as usize;
    let kept = move_up(b);
    clear_rows(b, kept, n);
    put_records(b, kept as u16);
}
