// Today's list: 256 rows of a trade number, the two accounts, the security, shares and price.
ghost use Rattle.std.specs.Prelude.{◌≡◌, ◌<◌, refl, get_or};
ghost use Rattle.rules.specs.Bounds.{most_trades};
ghost use Rattle.rules.specs.Book.{no_trade};
ghost use Rattle.rules.specs.Layout.{trade, book_of, bytes_of};
ghost use Rattle.rules.specs.Roll.{emptied};
ghost use Rattle.book.specs.Changing.{with_table};
ghost use Rattle.book.specs.Replacing.{Holds};
ghost use Rattle.book.specs.Writing.{trade_long};

use crate::layout::{BOOK_BYTES, BookBytes, ENTRIES, TRADE_BYTES, TRADES};
use crate::rows::{Row, put_rows, rows_at};
use crate::zeros::put_zeros;
use fields::{get, put, wide};
use rules::Trade;
use units::Price;

// A row has its number in 2 bytes, buyer, seller and security in 1 each, shares and price in 4 each.
impl Row for Trade {
    ghost codec = { trade };

    ghost BYTES = { 13 };

    const BYTES: usize = TRADE_BYTES;

    fn row_at(b: &[u8], at: usize) -> Trade {
        let number = get(b, at, 2) as u16;
        let buyer = get(b, at + 2, 1) as u8;
        let seller = get(b, at + 3, 1) as u8;
        let security = get(b, at + 4, 1) as u8;
        let quantity = get(b, at + 5, 4) as u32;
        let price = get(b, at + 9, 4) as u32;
        Trade {
            number,
            buyer,
            seller,
            security,
            quantity: quantity,
            price: Price(price),
        }
    }

    // Each field is written where the one before it ends.
    fn put_row(self, b: &mut [u8], at: usize) {
        let price = self.price;
        put(b, at, 2, self.number as u64);
        put(b, at + 2, 1, wide(self.buyer));
        put(b, at + 3, 1, wide(self.seller));
        put(b, at + 4, 1, wide(self.security));
        put(b, at + 5, 4, self.quantity as u64);
        put(b, at + 9, 4, price.0 as u64);
    }

    ghost width_is = { refl };

    ghost sized = { trade_long };
}

// One row of the list where it stands.
pub fn trade_at(b: &BookBytes, i: usize) -> Trade
    requires { i < most_trades }
    ensures { result ≡ get_or (book_of b.now).trades i no_trade }
{
    Trade::row_at(b, TRADES + i * TRADE_BYTES)
}

// The whole table, and the table with its count put in its place: every other byte is left as it was.
pub fn trades_of(b: &BookBytes) -> [Trade; 256]
    ensures { result ≡ (book_of b.now).trades }
{
    rows_at(b, TRADES)
}

pub fn put_list(b: &mut BookBytes, n: u16, t: [Trade; 256])
    ensures { b.new ≡ bytes_of (with_table (book_of b.old) n t) }
{
    put(b, ENTRIES, 2, n as u64);
    put_rows(&t, b, TRADES);
}

// The list is emptied where it stands: its count and its table are the last bytes of the book.
pub fn clear_list(b: &mut BookBytes)
    ensures { Holds b.new (emptied (book_of b.old)) }
{
    put_zeros(b, ENTRIES, BOOK_BYTES);
}
