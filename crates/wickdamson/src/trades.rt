// Entry, amendment and exclusion of trades (document 01, "From trades to positions"; refusals 1 to 9). A trade is lent as
// its fields.
ghost use Rattle.std.specs.Prelude.{◌≡◌};
ghost use Rattle.rules.specs.Calls.{enter, amend, exclude, answer_bytes, after_bytes};
ghost use Rattle.wickdamson.specs.Fields.{trade_of, number_of};

use crate::wide::{byte_of, number_of};
use rules::Trade;
use units::Price;

fn trade_of(number: u32, buyer: u32, seller: u32, security: u32, quantity: u32, price: u32) -> Trade
    ensures { result ≡ trade_of number buyer seller security quantity price }
{
    let n = number_of(number);
    let b = byte_of(buyer);
    let s = byte_of(seller);
    let c = byte_of(security);
    Trade {
        number: n,
        buyer: b,
        seller: s,
        security: c,
        quantity: quantity,
        price: Price(price),
    }
}

#[unsafe(no_mangle)]
pub extern "C" fn wick_enter(
    book: &mut [u8],
    number: u32,
    buyer: u32,
    seller: u32,
    security: u32,
    quantity: u32,
    price: u32,
) -> u8
    ensures { (result ≡ answer_bytes book.old (enter (trade_of number buyer seller security quantity price)))
        × (book.new ≡ after_bytes book.old (enter (trade_of number buyer seller security quantity price))) }
{
    let trade = trade_of(number, buyer, seller, security, quantity, price);
    rules::number_of(&house::enter(book, trade))
}

#[unsafe(no_mangle)]
pub extern "C" fn wick_amend(
    book: &mut [u8],
    number: u32,
    buyer: u32,
    seller: u32,
    security: u32,
    quantity: u32,
    price: u32,
) -> u8
    ensures { (result ≡ answer_bytes book.old (amend (trade_of number buyer seller security quantity price)))
        × (book.new ≡ after_bytes book.old (amend (trade_of number buyer seller security quantity price))) }
{
    let trade = trade_of(number, buyer, seller, security, quantity, price);
    rules::number_of(&house::amend(book, trade))
}

#[unsafe(no_mangle)]
pub extern "C" fn wick_exclude(book: &mut [u8], number: u32) -> u8
    ensures { (result ≡ answer_bytes book.old (exclude (number_of number)))
        × (book.new ≡ after_bytes book.old (exclude (number_of number))) }
{
    let excluded = number_of(number);
    rules::number_of(&house::exclude(book, excluded))
}
