// The whole book as a value and back (the layout of docs/BOOK.md): a new book is stored whole, and a sheet loads the book that it has played, and
// stores it. Calls on a book read and write its parts where they stand (`book`).
#![tactic(auto)]

ghost use Rattle.std.specs.Prelude.{◌≡◌};
ghost use Rattle.rules.specs.Layout.{book_of, bytes_of};

use book::{
    BookBytes, CHARGES, CODES, DAY, ENTRIES, HOLDINGS, POSITIONS, RECORDS, TRADES, put_rows,
    rows_at,
};
use fields::{get, put};
use rules::Book;

// The book that some bytes are.
pub fn load(b: &BookBytes) -> Book
    ensures { result ≡ book_of b.now }
{
    Book {
        day: get(b, DAY, 2) as u16,
        currency: rows_at(b, CODES),
        records: get(b, RECORDS, 2) as u16,
        positions: rows_at(b, POSITIONS),
        holdings: rows_at(b, HOLDINGS),
        charges: rows_at(b, CHARGES),
        entries: get(b, ENTRIES, 2) as u16,
        trades: rows_at(b, TRADES),
    }
}

// The bytes that a book is: every byte is written, nothing of what stood there before is left.
pub fn store(k: &Book, b: &mut BookBytes)
    ensures { b.new ≡ bytes_of k.now }
{
    put(b, DAY, 2, k.day as u64);
    put_rows(&k.currency, b, CODES);
    put(b, RECORDS, 2, k.records as u64);
    put_rows(&k.positions, b, POSITIONS);
    put_rows(&k.holdings, b, HOLDINGS);
    put_rows(&k.charges, b, CHARGES);
    put(b, ENTRIES, 2, k.entries as u64);
    put_rows(&k.trades, b, TRADES);
}
