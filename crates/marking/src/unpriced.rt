// "A record of 0 shares wants no price." 17: neither price table has a price for a record that wants one.
ghost use Rattle.std.specs.Prelude.{◌≡◌, ◌&&◌, ◌≤◌, eqb};
ghost use Rattle.rules.specs.Words.{any};
ghost use Rattle.rules.specs.Bounds.{most_records};
ghost use Rattle.rules.specs.Book.{account_of};
ghost use Rattle.rules.specs.Layout.{book_of};
ghost use Rattle.rules.specs.Marks.{lacks_price, marked_of};
ghost use Rattle.marking_sums.specs.Summing.{priced};

use book::{BookBytes, position_at, records_at};
use marking_prices::{PriceTables, price_of};
use rules::Position;
use sound_positions::{account_of, security_of};
use units::Counted;

fn lacks_price(p: Position, tables: PriceTables) -> bool
    ensures { result ≡ lacks_price (priced tables.entry.intraday.now tables.entry.closing.now) p }
{
    let price = price_of(tables, security_of(p));
    let wanted = !p.quantity.is_zero();
    wanted && price.0 == 0
}

// The record is of the account, and lacks a price.
fn is_unpriced(p: Position, account: usize, tables: PriceTables) -> bool
    ensures { result ≡ (eqb (account_of p) account && lacks_price (priced tables.entry.intraday.now tables.entry.closing.now) p) }
{
    account_of(p) == account && lacks_price(p, tables)
}

// The account's records, each read where it stands.
pub fn has_unpriced(book: &BookBytes, account: usize, tables: PriceTables) -> bool
    requires { (book_of book.now).records ≤ most_records }
    ensures { result ≡ any (lacks_price (priced tables.entry.intraday.now tables.entry.closing.now)) (marked_of (book_of book.now) account) }
{
    let n = records_at(book) as usize;
    for i in 0..n {
        let p = position_at(book, i);
        if is_unpriced(p, account, tables) {
            return true;
        }
    }
    false
}
