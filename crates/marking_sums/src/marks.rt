// "A record's mark is quantity * price less its money: above zero favourable, below unfavourable. Marks are summed per
// currency." Only the account's own records count.
ghost use Rattle.std.specs.Prelude.{◌≡◌, true, cond, ℕ, ◌<◌, ◌≤◌, eqb, get_or, nat_abs};
ghost use Rattle.units.specs.Units.{mils_of};
ghost use Rattle.rules.specs.Bounds.{currencies};
ghost use Rattle.rules.specs.Book.{account_of, security_of};
ghost use Rattle.rules.specs.Layout.{book_of};
ghost use Rattle.rules.specs.Sound.{sizes_fit, sound};
ghost use Rattle.rules.specs.Marks.{mark_at, marked_of, sum_of};
ghost use Rattle.laws.specs.Charging.{amount_at};
ghost use Rattle.marking_prices.specs.Pricing.{Fair};
ghost use Rattle.marking_sums.specs.Summing.{priced, most_mark, with_mark, MarkAsks};

use book::{BookBytes, codes_of, position_at, records_at};
use marking_prices::{PriceTables, price_of};
use rules::Position;
use sound_positions::{account_of, security_of};
use units::{Counted, Mils, Whole};

fn mark(p: Position, tables: PriceTables) -> Mils
    requires { Fair tables.intraday.now tables.closing.now × (sizes_fit p ≡ true) }
    ensures { (mils_of result ≡ mark_at (priced tables.entry.intraday.now tables.entry.closing.now) p) × (nat_abs (mils_of result) ≤ most_mark) }
{
    let price = price_of(tables, security_of(p));
    p.quantity.times(price).minus(p.money)
}

// The sum of the marks of each currency.
#[derive(Clone, Copy)]
pub struct PerCurrency {
    pub sums: [Mils; 4],
}

// The currency of the record's security.
fn currency_of(codes: &[u8; 32], p: Position) -> usize
    requires { get_or codes.now (security_of p) 0 < currencies }
    ensures { (result ≡ get_or codes.now (security_of p) 0) × (result < currencies) }
{
    let s = security_of(p);
    codes[s] as usize
}

// With the record's mark, in the currency of its security, if the record is of the account.
fn with_record(
    t: PerCurrency,
    codes: &[u8; 32],
    account: usize,
    tables: PriceTables,
    p: Position,
) -> PerCurrency
    requires { MarkAsks t codes.now tables.intraday.now tables.closing.now p }
    ensures { result ≡ cond (eqb (account_of p) account) (with_mark t codes.now (priced tables.entry.intraday.now tables.entry.closing.now) p) t }
{
    let own = account_of(p);
    if own != account {
        return t;
    }
    let c = currency_of(codes, p);
    let mut next = t;
    next.sums[c] = t.sums[c].plus(mark(p, tables));
    next
}

// In one pass over the records, each read where it stands.
pub fn sums_of(book: &BookBytes, account: usize, tables: PriceTables) -> PerCurrency
    requires { (sound (book_of book.now) ≡ true) × Fair tables.intraday.now tables.closing.now }
    ensures { (c : ℕ) → amount_at result.sums c ≡ sum_of (book_of book.now) (priced tables.entry.intraday.now tables.entry.closing.now) (marked_of (book_of book.now) account) c }
{
    let codes = codes_of(book);
    let n = records_at(book) as usize;
    let mut t = PerCurrency {
        sums: [Mils(Whole(0)); 4],
    };
    for i in 0..n {
        let p = position_at(book, i);
        t = with_record(t, &codes, account, tables, p);
    }
    t
}
