// "With rate r in millionths of the base and haircut h in basis points, a favourable sum counts sum*r*(10,000-h)/10^10
// rounded down, an unfavourable one |sum|*r*(10,000+h)/10^10 rounded up": each currency once, and the two totals, or
// that one passes 9*10^18.
ghost use Rattle.std.specs.Prelude.{◌≡◌, ◌+◌};
ghost use Rattle.exact.specs.Rounding.{capped};
ghost use Rattle.units.specs.Units.{mils_of};
ghost use Rattle.units_rounded.specs.ConversionLaws.{Terms};
ghost use Rattle.marking_sums.specs.Converting.{together, converted_of, converted_sum, Rates};

use crate::marks::PerCurrency;
use units::{Amount, Mils};
use units_rounded::{favourable, unfavourable};

const LIMIT: u64 = 9_000_000_000_000_000_000;

// The sum of two amounts, or that it passes the limit: found by differences, so that nothing wraps.
fn capped_sum(x: Amount, y: Amount) -> Option<u64>
    ensures { result ≡ capped (x.0 + y.0) }
{
    if x.0 > LIMIT {
        return None;
    }
    if y.0 > LIMIT - x.0 {
        return None;
    }
    Some(x.0 + y.0)
}

fn sum_of(a: Option<u64>, b: Option<u64>) -> Option<u64>
    ensures { result ≡ together a b }
{
    capped_sum(Amount(a?), Amount(b?))
}

// Which sums a total is of. (A function as a parameter would say no more than its own promise of the total; with the side as a value both
// promises are one definition, by cases.)
#[derive(Clone, Copy)]
pub enum Side {
    Favourable,
    Unfavourable,
}

fn converted(side: Side, sum: Mils, rate: u64, haircut: u64) -> Option<u64>
    requires { Terms rate haircut }
    ensures { result ≡ capped (converted_of side (mils_of sum) rate haircut) }
{
    match side {
        Side::Favourable => favourable(sum, rate, haircut),
        Side::Unfavourable => unfavourable(sum, rate, haircut),
    }
}

pub fn converted_total(
    side: Side,
    t: PerCurrency,
    rates: &[u32; 4],
    haircuts: &[u32; 4],
) -> Option<u64>
    requires { Rates rates.now haircuts.now }
    ensures { result ≡ capped (converted_sum side t.sums rates.now haircuts.now) }
{
    let mut total = Some(0);
    for c in 0..4 {
        let rate = rates[c] as u64;
        let haircut = haircuts[c] as u64;
        total = sum_of(total, converted(side, t.sums[c], rate, haircut));
    }
    total
}
