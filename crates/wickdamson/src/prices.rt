// The price question (document 01, "Marks"; refusals 18, 3, 5, 17). What it answers with is the entry where it stands; here
// it is read, so that the caller has the price as a number. The empty part of a refused question counts 0.
ghost use Rattle.std.specs.Prelude.{◌≡◌};
ghost use Rattle.fields.specs.Field.{field};
ghost use Rattle.rules.specs.Prices.{price_answer, price_part};
ghost use Rattle.wickdamson.specs.Fields.{byte_of};

use crate::wide::byte_of;
use fields::get;

#[unsafe(no_mangle)]
pub extern "C" fn wick_price<'a>(
    intraday: &'a [u8],
    closing: &'a [u8],
    security: u32,
    price: &mut u32,
) -> u8
    ensures { (result ≡ price_answer intraday.now closing.now (byte_of security))
        × (price.new ≡ field 4 0 (price_part intraday.now closing.now (byte_of security))) }
{
    let mut refusal: u8 = 0;
    let s = byte_of(security);
    let part = house::price(intraday, closing, s, &mut refusal);
    let answer = refusal;
    if answer != 0 {
        *price = 0;
        return answer;
    }
    *price = get(part, 0, 4) as u32;
    0
}
