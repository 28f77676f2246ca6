// The book in lent bytes (document 01: the layout of docs/BOOK.md). A call reads and writes single parts where they stand,
// and leaves the other bytes alone. Each table has a module, which says how a row of it stands in its bytes;
// `rows` reads and writes a whole table.
#![tactic(auto)]

mod charges;
mod codes;
mod holdings;
mod layout;
mod positions;
mod rows;
mod trades;
mod words;
mod zeros;

ghost use Rattle.std.specs.Prelude.{◌≡◌};
ghost use Rattle.rules.specs.Book.{with_day};
ghost use Rattle.rules.specs.Layout.{book_of};
ghost use Rattle.book.specs.Replacing.{Holds, with_rows};

pub use charges::{charge_at, clear_charges, put_charge};
pub use codes::{code_at, codes_of};
use fields::{get, put};
pub use holdings::{holding_at, put_holding};
pub use layout::{
    BOOK_BYTES, BookBytes, CHARGES, CODES, DAY, ENTRIES, HOLDINGS, POSITIONS, RECORDS, TRADES,
};
pub use positions::{position_at, positions_of, put_position};
pub use rows::{Row, put_rows, rows_at};
pub use trades::{clear_list, put_list, trade_at, trades_of};

// The day where it stands.
pub fn day_at(b: &BookBytes) -> u16
    ensures { result ≡ (book_of b.now).day }
{
    get(b, DAY, 2) as u16
}

// The day is changed where it stands: every other byte is left as it was.
pub fn put_day(b: &mut BookBytes, day: u16)
    ensures { Holds b.new (with_day (book_of b.old) day) }
{
    put(b, DAY, 2, day as u64);
}

// The two counts where they stand.
pub fn records_at(b: &BookBytes) -> u16
    ensures { result ≡ (book_of b.now).records }
{
    get(b, RECORDS, 2) as u16
}

// The count of records is changed where it stands: every other byte is left as it was.
pub fn put_records(b: &mut BookBytes, records: u16)
    ensures { Holds b.new (with_rows (book_of b.old) records (book_of b.old).positions) }
{
    put(b, RECORDS, 2, records as u64);
}

pub fn entries_at(b: &BookBytes) -> u16
    ensures { result ≡ (book_of b.now).entries }
{
    get(b, ENTRIES, 2) as u16
}
