// Faults of a trade's fields, each by its refusal number, 2 to 6 (document 01; "A sound book": "fields valid").
ghost use Rattle.std.specs.Prelude.{◌≡◌};
ghost use Rattle.rules.specs.Trades.{bad_accounts, bad_security, bad_quantity, bad_price, same_account};
ghost use Rattle.rules.specs.declared.Book.{Book};

use rules::Trade;

// 2: account above 63.
#[tactic(auto, unfolding(rules::specs::Trades::bad_accounts, rules::specs::Trades::no_account))]
pub fn bad_accounts(t: Trade) -> bool
    ensures { result ≡ bad_accounts t }
{
    t.buyer > 63 || t.seller > 63
}

// 3: security above 31 or unlisted, in any book with these codes.
#[tactic(auto, unfolding(rules::specs::Trades::bad_security, rules::specs::Trades::no_security, rules::specs::Book::unlisted, rules::specs::Book::currency_of))]
pub fn bad_security(codes: [u8; 32], s: u8) -> bool
    ensures { (k : Book) → k.currency ≡ codes → result ≡ bad_security k s }
{
    s > 31 || codes[s as usize] == 255
}

// 4: trade quantity outside 1 to 1,000,000.
#[tactic(auto, unfolding(rules::specs::Trades::bad_quantity))]
pub fn bad_quantity(t: Trade) -> bool
    ensures { result ≡ bad_quantity t }
{
    t.quantity < 1 || t.quantity > 1_000_000
}

// 5: price outside 1 to 9,999,999.
#[tactic(auto, unfolding(rules::specs::Trades::bad_price))]
pub fn bad_price(t: Trade) -> bool
    ensures { result ≡ bad_price t }
{
    t.price.0 < 1 || t.price.0 > 9_999_999
}

// 6: buyer and seller the same account.
#[tactic(auto, unfolding(rules::specs::Trades::same_account))]
pub fn same_account(t: Trade) -> bool
    ensures { result ≡ same_account t }
{
    t.buyer == t.seller
}
