// "Trades: at most 256, numbers distinct and nonzero, fields valid; an excluded one keeps its number and order, other fields zero."
ghost use Rattle.std.specs.Prelude.{◌≡◌, ◌&&◌, ◌≤◌, eqb, drop};
ghost use Rattle.rules.specs.Words.{all};
ghost use Rattle.rules.specs.Bounds.{most_trades};
ghost use Rattle.rules.specs.Book.{list_of};
ghost use Rattle.rules.specs.Layout.{book_of};
ghost use Rattle.rules.specs.Sound.{valid_trade, zero_fields, trades_fit};
ghost use Rattle.rules.specs.declared.Book.{Book};
ghost use Rattle.laws.specs.Listed.{listable};

use crate::faults::{bad_accounts, bad_price, bad_quantity, bad_security, same_account};
use crate::numbers::numbers_distinct;
use book::{BookBytes, codes_of, entries_at, trade_at};
use rules::Trade;

// None of the faults, in any book with these codes.
#[tactic(auto, unfolding(rules::specs::Sound::valid_trade))]
fn valid_trade(codes: [u8; 32], t: Trade) -> bool
    ensures { (k : Book) → k.currency ≡ codes → result ≡ valid_trade k t }
{
    !(bad_accounts(t)
        || bad_security(codes, t.security)
        || bad_quantity(t)
        || bad_price(t)
        || same_account(t))
}

// (Field by field, as the definition is: the number of a trade is not among them.)
#[tactic(auto, unfolding(rules::specs::Sound::zero_fields))]
fn zero_fields(t: Trade) -> bool
    ensures { result ≡ zero_fields t }
{
    t.buyer == 0 && t.seller == 0 && t.security == 0 && t.quantity == 0 && t.price.0 == 0
}

// A trade that may stand in the list: valid, or excluded.
fn is_listable(codes: [u8; 32], t: Trade) -> bool
    ensures { (k : Book) → k.currency ≡ codes → result ≡ listable k t }
{
    t.number != 0 && (valid_trade(codes, t) || zero_fields(t))
}

fn blank_trade(t: Trade) -> bool
    ensures { result ≡ (eqb t.number 0 && zero_fields t) }
{
    t.number == 0 && zero_fields(t)
}

fn all_listable(b: &BookBytes) -> bool
    requires { (book_of b.now).entries ≤ most_trades }
    ensures { result ≡ all (listable (book_of b.now)) (list_of (book_of b.now)) }
{
    let codes = codes_of(b);
    let n = entries_at(b) as usize;
    (0..n).all(|i| is_listable(codes, trade_at(b, i)))
}

// "Unused room is zero."
fn rest_blank(b: &BookBytes) -> bool
    requires { (book_of b.now).entries ≤ most_trades }
    ensures { result ≡ all (λ t. eqb t.number 0 && zero_fields t) (drop (book_of b.now).entries (book_of b.now).trades) }
{
    let n = entries_at(b) as usize;
    (n..256).all(|row| blank_trade(trade_at(b, row)))
}

#[tactic(auto, unfolding(rules::specs::Sound::trades_fit))]
pub fn trades_fit(b: &BookBytes) -> bool
    ensures { result ≡ trades_fit (book_of b.now) }
{
    entries_at(b) <= 256 && numbers_distinct(b) && all_listable(b) && rest_blank(b)
}
