// Deposits and withdrawals (document 01, "Refusal numbers": 1, 2, 3, 4, and 12 or 11).
ghost use Rattle.std.specs.Prelude.{◌≡◌};
ghost use Rattle.rules.specs.Calls.{deposit, withdraw, answer_bytes, after_bytes};
ghost use Rattle.wickdamson.specs.Fields.{byte_of};

use crate::wide::byte_of;
use rules::number_of;

#[unsafe(no_mangle)]
pub extern "C" fn wick_deposit(book: &mut [u8], account: u32, security: u32, quantity: u64) -> u8
    ensures { (result ≡ answer_bytes book.old (deposit (byte_of account) (byte_of security) quantity))
        × (book.new ≡ after_bytes book.old (deposit (byte_of account) (byte_of security) quantity)) }
{
    let a = byte_of(account);
    let s = byte_of(security);
    number_of(&house::deposit(book, a, s, quantity))
}

#[unsafe(no_mangle)]
pub extern "C" fn wick_withdraw(book: &mut [u8], account: u32, security: u32, quantity: u64) -> u8
    ensures { (result ≡ answer_bytes book.old (withdraw (byte_of account) (byte_of security) quantity))
        × (book.new ≡ after_bytes book.old (withdraw (byte_of account) (byte_of security) quantity)) }
{
    let a = byte_of(account);
    let s = byte_of(security);
    number_of(&house::withdraw(book, a, s, quantity))
}
