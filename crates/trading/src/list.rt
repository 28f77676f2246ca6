// Today's list (document 01, "From trades to positions"): which numbers are used, and which of them stand.
ghost use Rattle.std.specs.Prelude.{◌≡◌, ◌&&◌, not, ◌≤◌, eqb};
ghost use Rattle.rules.specs.Bounds.{most_trades};
ghost use Rattle.rules.specs.Book.{list_of};
ghost use Rattle.rules.specs.Layout.{book_of};
ghost use Rattle.rules.specs.Trades.{is_excluded, used, stands};

use book::{BookBytes, entries_at, trade_at};
use rules::Trade;

// An excluded trade keeps its number, so that one counts too: a number is used once a day.
pub(crate) fn is_used(b: &BookBytes, number: u16) -> bool
    requires { (book_of b.now).entries ≤ most_trades }
    ensures { result ≡ used number (list_of (book_of b.now)) }
{
    (0..entries_at(b) as usize).any(|i| trade_at(b, i).number == number)
}

// The trade of that number, and not excluded: no trade that is not excluded has 0 shares.
#[tactic(auto, unfolding(rules::specs::Trades::is_excluded))]
fn stands_as(t: Trade, number: u16) -> bool
    ensures { result ≡ (eqb t.number number && not (is_excluded t)) }
{
    t.number == number && t.quantity != 0
}

// In the list and not excluded.
pub(crate) fn is_standing(b: &BookBytes, number: u16) -> bool
    requires { (book_of b.now).entries ≤ most_trades }
    ensures { result ≡ stands number (list_of (book_of b.now)) }
{
    (0..entries_at(b) as usize).any(|i| stands_as(trade_at(b, i), number))
}
