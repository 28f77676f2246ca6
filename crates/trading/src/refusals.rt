// Whether a sound book in bytes takes an entry, an amendment, an exclusion (document 01, "Refusal numbers"): it is refused by
// the first test that holds. Checks go by ascending number; 1 is checked before all of these.
ghost use Rattle.std.specs.Prelude.{◌≡◌, [], ◌≤◌};
ghost use Rattle.rules.specs.Words.{first};
ghost use Rattle.rules.specs.Bounds.{most_trades};
ghost use Rattle.rules.specs.Layout.{book_of};
ghost use Rattle.rules.specs.Refusals.{answered};
ghost use Rattle.rules.specs.Calls.{enter, amend, exclude, field_tests, answer_sound};

use crate::list::{is_standing, is_used};
use book::{BookBytes, codes_of, entries_at};
use rules::{Refusal, Trade};
use sound_tables::{bad_accounts, bad_price, bad_quantity, bad_security, same_account};

// 2 to 6, which entry and amendment ask alike of the trade's fields.
#[tactic(auto, unfolding(rules::specs::Calls::field_tests, rules::specs::Words::first))]
fn fields_fit(b: &BookBytes, t: Trade) -> Result<(), Refusal>
    ensures { answered result ≡ first (field_tests (book_of b.now) t []) }
{
    let codes = codes_of(b);
    if bad_accounts(t) {
        return Err(Refusal::NoAccount);
    }
    if bad_security(codes, t.security) {
        return Err(Refusal::NoSecurity);
    }
    if bad_quantity(t) {
        return Err(Refusal::BadQuantity);
    }
    if bad_price(t) {
        return Err(Refusal::BadPrice);
    }
    if same_account(t) {
        return Err(Refusal::SameAccount);
    }
    Ok(())
}

// 7: the number is 0 or used today. 9: the list is full.
#[tactic(auto, using(laws::specs::Ways::fault_first, laws::specs::Ways::fine_first), unfolding(rules::specs::Calls::answer_sound, rules::specs::Calls::tests, rules::specs::Words::first))]
pub fn may_enter(b: &BookBytes, t: Trade) -> Result<(), Refusal>
    requires { (book_of b.now).entries ≤ most_trades }
    ensures { answered result ≡ answer_sound (book_of b.now) (enter t) }
{
    fields_fit(b, t)?;
    if t.number == 0 || is_used(b, t.number) {
        return Err(Refusal::BadNumber);
    }
    if entries_at(b) >= 256 {
        return Err(Refusal::ListFull);
    }
    Ok(())
}

// 8: no trade of that number is in the list, or it is excluded.
#[tactic(auto, using(laws::specs::Ways::fault_first, laws::specs::Ways::fine_first), unfolding(rules::specs::Calls::answer_sound, rules::specs::Calls::tests, rules::specs::Words::first))]
pub fn may_amend(b: &BookBytes, t: Trade) -> Result<(), Refusal>
    requires { (book_of b.now).entries ≤ most_trades }
    ensures { answered result ≡ answer_sound (book_of b.now) (amend t) }
{
    fields_fit(b, t)?;
    if !is_standing(b, t.number) {
        return Err(Refusal::NoTrade);
    }
    Ok(())
}

#[tactic(auto, unfolding(rules::specs::Calls::answer_sound, rules::specs::Calls::tests, rules::specs::Words::first))]
pub fn may_exclude(b: &BookBytes, number: u16) -> Result<(), Refusal>
    requires { (book_of b.now).entries ≤ most_trades }
    ensures { answered result ≡ answer_sound (book_of b.now) (exclude number) }
{
    if !is_standing(b, number) {
        return Err(Refusal::NoTrade);
    }
    Ok(())
}
