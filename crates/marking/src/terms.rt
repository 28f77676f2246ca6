// 2, 18, 5 and 15 of marks, in this order: what is asked of the account, of the two price tables, and of the rates and
// haircuts, whatever the book.
ghost use Rattle.std.specs.Prelude.{◌≡◌, true, false, [], MatchOption, IfOk};
ghost use Rattle.units.specs.Units.{top_rate, whole_haircut};
ghost use Rattle.rules.specs.Refusals.{answered};
ghost use Rattle.rules.specs.Words.{any, above, outside, first};
ghost use Rattle.rules.specs.Marks.{terms, wrong_terms, bad_rates};
ghost use Rattle.marking.specs.SoundMarks.{terms_tests};
ghost use Rattle.marking.specs.Passing.{rated};

use marking_prices::{PriceTables, prices_above, tables_of};
use rules::Refusal;

const LAST_ACCOUNT: u8 = 63;

fn is_outside(rate: u32) -> bool
    ensures { result ≡ outside 1 top_rate rate }
{
    rate < 1 || rate > 100_000_000
}

fn rate_outside(rates: &[u32]) -> bool
    ensures { result ≡ any (outside 1 top_rate) rates.now }
{
    rates.iter().any(|r| is_outside(*r))
}

fn haircut_above(haircuts: &[u32]) -> bool
    ensures { result ≡ any (above whole_haircut) haircuts.now }
{
    haircuts.iter().any(|h| *h > 10_000)
}

// All four currencies; the base has rate 1,000,000 and haircut 0.
fn bad_rates(rates: &[u32; 4], haircuts: &[u32; 4]) -> bool
    ensures { result ≡ bad_rates (rated rates.now haircuts.now) }
{
    rate_outside(rates) || haircut_above(haircuts) || rates[0] != 1_000_000 || haircuts[0] != 0
}

// The price tables, and a rate and a haircut for each currency.
#[derive(Clone, Copy)]
pub struct MarkTerms<'a> {
    pub tables: PriceTables<'a>,
    pub rates: &'a [u32; 4],
    pub haircuts: &'a [u32; 4],
}

// As they are lent; none where one of the four has the wrong length (18).
fn terms_of<'a>(
    intraday: &'a [u8],
    closing: &'a [u8],
    rates: &'a [u32],
    haircuts: &'a [u32],
) -> Option<MarkTerms<'a>>
    ensures { MatchOption result (wrong_terms (terms intraday.now closing.now rates.now haircuts.now) ≡ true)
        (λ t. (wrong_terms (terms intraday.now closing.now rates.now haircuts.now) ≡ false)
        × (terms t.tables.intraday.now t.tables.closing.now t.rates.now t.haircuts.now ≡ terms intraday.now closing.now rates.now haircuts.now)) }
{
    let Some(tables) = tables_of(intraday, closing) else {
        return None;
    };
    let Some(rates) = rates.as_array() else {
        return None;
    };
    let Some(haircuts) = haircuts.as_array() else {
        return None;
    };
    Some(MarkTerms {
        tables,
        rates,
        haircuts,
    })
}

pub fn terms_fit<'a>(
    account: u8,
    intraday: &'a [u8],
    closing: &'a [u8],
    rates: &'a [u32],
    haircuts: &'a [u32],
) -> Result<MarkTerms<'a>, Refusal>
    ensures number { answered result ≡ first (terms_tests account (terms intraday.now closing.now rates.now haircuts.now) []) }
    ensures lent { IfOk result (λ t. terms t.tables.intraday.now t.tables.closing.now t.rates.now t.haircuts.now ≡ terms intraday.now closing.now rates.now haircuts.now) }
{
    if account > LAST_ACCOUNT {
        return Err(Refusal::NoAccount);
    }
    let terms = terms_of(intraday, closing, rates, haircuts).ok_or(Refusal::WrongLength)?;
    if prices_above(terms.tables) {
        return Err(Refusal::BadPrice);
    }
    if bad_rates(terms.rates, terms.haircuts) {
        return Err(Refusal::BadRate);
    }
    Ok(terms)
}
