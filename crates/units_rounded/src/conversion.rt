// What a sum of marks counts in the base currency (document 01, "Marks"). The haircut is taken before the
// rate: a favourable sum with the whole haircut counts 0, however large it is. `None` says that the count passes
// 9*10^18. (Two functions: their terms, their rounding and their sign all differ, so that one would have to take each apart again.)
ghost use Rattle.std.specs.Prelude.{◌≡◌};
ghost use Rattle.exact.specs.Rounding.{capped};
ghost use Rattle.units.specs.Units.{mils_of};
ghost use Rattle.units_rounded.specs.Conversion.{favourable_of, unfavourable_of};
ghost use Rattle.units_rounded.specs.ConversionLaws.{Terms};

use units::{Counted, Mils};

pub fn favourable(sum: Mils, rate: u64, haircut: u64) -> Option<u64>
    requires { Terms rate haircut }
    ensures { result ≡ capped (favourable_of (mils_of sum) rate haircut) }
{
    if sum.is_negative() {
        return Some(0);
    }
    let factor = (10_000 - haircut) * rate;
    exact::scaled_down(sum.size().0, factor, 10_000_000_000)
}

pub fn unfavourable(sum: Mils, rate: u64, haircut: u64) -> Option<u64>
    requires { Terms rate haircut }
    ensures { result ≡ capped (unfavourable_of (mils_of sum) rate haircut) }
{
    if sum.is_negative() {
        let factor = (10_000 + haircut) * rate;
        return exact::scaled_up(sum.size().0, factor, 10_000_000_000);
    }
    Some(0)
}
