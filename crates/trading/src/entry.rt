// The list that an accepted entry, amendment or exclusion leaves (document 01, "From trades to positions"). It is written
// where it stands in the book's bytes.
ghost use Rattle.std.specs.Prelude.{◌≡◌, true, ◌<◌};
ghost use Rattle.rules.specs.Bounds.{most_trades};
ghost use Rattle.rules.specs.Book.{list_of, with_list};
ghost use Rattle.rules.specs.Layout.{book_of, bytes_of};
ghost use Rattle.rules.specs.Sound.{trades_fit};
ghost use Rattle.rules.specs.Trades.{replaced};
ghost use Rattle.rules.specs.Calls.{enter, amend, exclude, after};

use book::{BookBytes, entries_at, put_list, trades_of};
use rules::Trade;
use units::Price;

// No trade: an unused row of the list.
const NO_TRADE: Trade = Trade {
    number: 0,
    buyer: 0,
    seller: 0,
    security: 0,
    quantity: 0,
    price: Price(0),
};

// The trade stands last in the list: the first unused row is the one behind it.
pub fn put_entered(b: &mut BookBytes, t: Trade)
    requires { ((book_of b.old).entries < most_trades) × (trades_fit (book_of b.old) ≡ true) }
    ensures { b.new ≡ bytes_of (after (book_of b.old) (enter t)) }
{
    let n = entries_at(b);
    let mut rows = trades_of(b);
    rows[n as usize] = t;
    put_list(b, n + 1, rows);
}

// The trade of that number replaced by `t`, in its place. Unused rows stay zero, for only the list is walked.
fn put_replaced(b: &mut BookBytes, number: u16, t: Trade)
    requires { trades_fit (book_of b.old) ≡ true }
    ensures { b.new ≡ bytes_of (with_list (book_of b.old) (replaced (list_of (book_of b.old)) number t)) }
{
    let n = entries_at(b);
    let mut rows = trades_of(b);
    for u in rows[..n as usize].iter_mut() {
        if u.number == number {
            *u = t;
        }
    }
    put_list(b, n, rows);
}

// Every field but the number is replaced; the trade keeps its place.
#[tactic(auto, unfolding(rules::specs::Calls::after, rules::specs::Trades::amended))]
pub fn put_amended(b: &mut BookBytes, t: Trade)
    requires { trades_fit (book_of b.old) ≡ true }
    ensures { b.new ≡ bytes_of (after (book_of b.old) (amend t)) }
{
    put_replaced(b, t.number, t);
}

// An excluded trade keeps its number, so that the number stays used, and its other fields are zero.
#[tactic(auto, unfolding(rules::specs::Calls::after, rules::specs::Trades::excluded))]
pub fn put_excluded(b: &mut BookBytes, number: u16)
    requires { trades_fit (book_of b.old) ≡ true }
    ensures { b.new ≡ bytes_of (after (book_of b.old) (exclude number)) }
{
    put_replaced(b, number, Trade { number, ..NO_TRADE });
}
