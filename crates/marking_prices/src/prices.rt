// "The price is the intraday table's entry, or, if that is 0, the closing table's; each is 32 entries of 4 bytes,
// big-endian. Finding it is a public question whose answer is the 4-byte entry itself, as it stands in whichever table
// it came from."
ghost use Rattle.std.specs.Prelude.{◌≡◌, ◌||◌, ◌<◌, true, false, MatchOption, IfOk};
ghost use Rattle.rules.specs.Refusals.{answered};
ghost use Rattle.rules.specs.Prices.{entry_of, wrong_table, entry_above, price_of, price_answer, price_part, price_spot};

use rules::Refusal;
use units::Price;

// The two price tables, of 32 entries each.
#[derive(Clone, Copy)]
pub struct PriceTables<'a> {
    pub intraday: &'a [u8; 128],
    pub closing: &'a [u8; 128],
}

// As they are lent; none where one has the wrong length (18).
pub fn tables_of<'a>(intraday: &'a [u8], closing: &'a [u8]) -> Option<PriceTables<'a>>
    ensures { MatchOption result (wrong_table intraday.now || wrong_table closing.now ≡ true)
        (λ t. (wrong_table intraday.now || wrong_table closing.now ≡ false) × (t.intraday.now ≡ intraday.now) × (t.closing.now ≡ closing.now)) }
{
    let Some(intraday) = intraday.as_array() else {
        return None;
    };
    let Some(closing) = closing.as_array() else {
        return None;
    };
    Some(PriceTables { intraday, closing })
}

// The entry of a security.
fn entry(table: &[u8; 128], s: usize) -> u32
    requires { s < 32 }
    ensures { result ≡ entry_of table.now s }
{
    fields::get(table, s * 4, 4) as u32
}

// 5: an entry above 9,999,999.
fn entry_above(table: &[u8; 128]) -> bool
    ensures { result ≡ entry_above table.now }
{
    for s in 0..32 {
        if entry(table, s) > 9_999_999 {
            return true;
        }
    }
    false
}

// Every entry of both tables is looked at, used or not.
pub fn prices_above(tables: PriceTables) -> bool
    ensures { result ≡ (entry_above tables.entry.intraday.now || entry_above tables.entry.closing.now) }
{
    entry_above(tables.intraday) || entry_above(tables.closing)
}

// The price, 0 where neither table has one.
pub fn price_of(tables: PriceTables, s: usize) -> Price
    requires { s < 32 }
    ensures { result.0 ≡ price_of tables.entry.intraday.now tables.entry.closing.now s }
{
    let found = entry(tables.intraday, s);
    if found != 0 {
        return Price(found);
    }
    Price(entry(tables.closing, s))
}

// The two tables, where the question is answered: 18, 3, 5 or 17 where it is not.
fn asked<'a>(
    intraday: &'a [u8],
    closing: &'a [u8],
    security: u8,
) -> Result<PriceTables<'a>, Refusal>
    ensures number { answered result ≡ price_answer intraday.now closing.now security }
    ensures lent { IfOk result (λ t. (t.intraday.now ≡ intraday.now) × (t.closing.now ≡ closing.now)) }
{
    let tables = tables_of(intraday, closing).ok_or(Refusal::WrongLength)?;
    if security > 31 {
        return Err(Refusal::NoSecurity);
    }
    if prices_above(tables) {
        return Err(Refusal::BadPrice);
    }
    if price_of(tables, security as usize).0 == 0 {
        return Err(Refusal::NoPrice);
    }
    Ok(tables)
}

// The entry of the table used, as it stands there; an empty part where the question is refused. (The number is lent beside it:
// document 01 has the question hand back the part itself, "an empty part where a part is returned".)
pub fn price<'a>(intraday: &'a [u8], closing: &'a [u8], security: u8, refusal: &mut u8) -> &'a [u8]
    ensures { (result.now ≡ price_part intraday.now closing.now security)
        × (refusal.new ≡ price_answer intraday.now closing.now security)
        × (result.ref_ptr ≡ price_spot intraday.now closing.now security intraday.entry.ref_ptr closing.entry.ref_ptr) }
{
    let tables = match asked(intraday, closing, security) {
        Ok(tables) => tables,
        Err(r) => {
            *refusal = r.into();
            return &intraday[0..0];
        }
    };
    *refusal = 0;
    let s = security as usize;
    let at = s * 4;
    let end = at + 4;
    if entry(tables.intraday, s) != 0 {
        return &intraday[at..end];
    }
    &closing[at..end]
}
