// The position table: 1,024 rows of a position number, shares and money.
ghost use Rattle.std.specs.Prelude.{◌≡◌, ◌<◌, refl, get_or, set};
ghost use Rattle.rules.specs.Bounds.{most_records};
ghost use Rattle.rules.specs.Book.{no_position};
ghost use Rattle.rules.specs.Layout.{position, book_of};
ghost use Rattle.book.specs.Replacing.{Holds, with_rows};
ghost use Rattle.book.specs.Writing.{position_long};

use crate::layout::{BookBytes, POSITION_BYTES, POSITIONS};
use crate::rows::{Row, rows_at};
use crate::words::word;
use fields::{get, put};
use rules::Position;
use units::{Counted, Mils, Shares};

// A row has its number in 4 bytes, its shares and its money in 8 each.
impl Row for Position {
    ghost codec = { position };

    ghost BYTES = { 20 };

    const BYTES: usize = POSITION_BYTES;

    fn row_at(b: &[u8], at: usize) -> Position {
        let number = get(b, at, 4) as u32;
        let quantity = Shares::from_bits(word(b, at + 4));
        let money = Mils::from_bits(word(b, at + 12));
        Position {
            number,
            quantity: quantity,
            money,
        }
    }

    // Each field is written where the one before it ends.
    fn put_row(self, b: &mut [u8], at: usize) {
        let quantity = self.quantity;
        let money = self.money;
        put(b, at, 4, self.number as u64);
        put(b, at + 4, 8, quantity.bits());
        put(b, at + 12, 8, money.bits());
    }

    ghost width_is = { refl };

    ghost sized = { position_long };
}

// One row of the table where it stands, for a test that copies no table.
pub fn position_at(b: &BookBytes, i: usize) -> Position
    requires { i < most_records }
    ensures { result ≡ get_or (book_of b.now).positions i no_position }
{
    Position::row_at(b, POSITIONS + i * POSITION_BYTES)
}

// The whole table.
pub fn positions_of(b: &BookBytes) -> [Position; 1024]
    ensures { result ≡ (book_of b.now).positions }
{
    rows_at(b, POSITIONS)
}

// One row is changed where it stands: every other byte is left as it was.
pub fn put_position(b: &mut BookBytes, i: usize, p: Position)
    requires { i < most_records }
    ensures { Holds b.new (with_rows (book_of b.old) (book_of b.old).records (set (book_of b.old).positions i p)) }
{
    p.put_row(b, POSITIONS + i * POSITION_BYTES);
}
