// Deposits and withdrawals (document 01, "Refusal numbers": 2, 3, 4, and 12 or 11). The one holding that changes is
// read and written where it stands.
ghost use Rattle.std.specs.Prelude.{◌≡◌, ◌+◌, ◌*◌, true, false};
ghost use Rattle.rules.specs.Layout.{book_of};
ghost use Rattle.rules.specs.Refusals.{answered};
ghost use Rattle.rules.specs.Sound.{sound, not_sound};
ghost use Rattle.rules.specs.Calls.{deposit, withdraw, bad_deposit, answer_sound, answer_bytes, after_bytes};
ghost use Rattle.calls.specs.Holdings.{common_refusal};

use book::{BookBytes, codes_of, holding_at, put_holding};
use rules::Refusal;
use sound_tables::{bad_security, total_fits};

// 4: deposit or withdrawal outside 1 to 10^12.
#[tactic(auto, unfolding(rules::specs::Calls::bad_deposit))]
fn bad_deposit(quantity: u64) -> bool
    ensures { result ≡ bad_deposit quantity }
{
    quantity < 1 || quantity > 1_000_000_000_000
}

// Holdings are kept account by account, 32 entries each.
fn place_of(account: u8, security: u8) -> usize
    ensures { result ≡ account * 32 + security }
{
    account as usize * 32 + security as usize
}

// What deposit and withdrawal check alike of a sound book, before the one refusal that each has of its own.
fn common_fits(b: &BookBytes, account: u8, security: u8, quantity: u64) -> Result<(), Refusal>
    ensures { answered result ≡ common_refusal (book_of b.now) account security quantity }
{
    if account > 63 {
        return Err(Refusal::NoAccount);
    }
    let codes = codes_of(b);
    if bad_security(codes, security) {
        return Err(Refusal::NoSecurity);
    }
    if bad_deposit(quantity) {
        return Err(Refusal::BadQuantity);
    }
    Ok(())
}

// 12: the security's total would pass 10^12, that is, it is above what the deposit leaves of it.
fn may_deposit(b: &BookBytes, account: u8, security: u8, quantity: u64) -> Result<(), Refusal>
    requires { sound (book_of b.now) ≡ true }
    ensures { answered result ≡ answer_sound (book_of b.now) (deposit account security quantity) }
{
    common_fits(b, account, security, quantity)?;
    let s = security as usize;
    let most = 1_000_000_000_000 - quantity;
    if !total_fits(b, s, most) {
        return Err(Refusal::TooMuchHeld);
    }
    Ok(())
}

pub fn deposit(
    book: &mut BookBytes,
    account: u8,
    security: u8,
    quantity: u64,
) -> Result<(), Refusal>
    requires { not_sound book.old ≡ false }
    ensures { (answered result ≡ answer_bytes book.old (deposit account security quantity))
        × (book.new ≡ after_bytes book.old (deposit account security quantity)) }
{
    may_deposit(book, account, security, quantity)?;
    let at = place_of(account, security);
    let held = holding_at(book, at);
    put_holding(book, at, held + quantity);
    Ok(())
}

// 11: more than the account holds.
fn may_withdraw(b: &BookBytes, account: u8, security: u8, quantity: u64) -> Result<(), Refusal>
    ensures { answered result ≡ answer_sound (book_of b.now) (withdraw account security quantity) }
{
    common_fits(b, account, security, quantity)?;
    let held = holding_at(b, place_of(account, security));
    if quantity <= held {
        return Ok(());
    }
    Err(Refusal::NotHeld)
}

pub fn withdraw(
    book: &mut BookBytes,
    account: u8,
    security: u8,
    quantity: u64,
) -> Result<(), Refusal>
    requires { not_sound book.old ≡ false }
    ensures { (answered result ≡ answer_bytes book.old (withdraw account security quantity))
        × (book.new ≡ after_bytes book.old (withdraw account security quantity)) }
{
    may_withdraw(book, account, security, quantity)?;
    let at = place_of(account, security);
    let held = holding_at(book, at);
    put_holding(book, at, held - quantity);
    Ok(())
}
