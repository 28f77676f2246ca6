// A product of two 64-bit numbers, divided and rounded: exact, though the product may pass 64 bits. Document 01
// asks for it where a sum of marks is converted, and for the limit 9*10^18 found exactly (refusal 16).
#![tactic(auto)]

ghost use Rattle.std.specs.Prelude.{◌≡◌, ◌+◌, ◌*◌, ◌/◌, ◌%◌, ◌≤◌, ◌<◌, ltb};
ghost use Rattle.exact.specs.MulDiv.{limit, mul_div, Divisor, Digits};
ghost use Rattle.exact.specs.Rounding.{round_down, round_up, capped, raised};

const LIMIT: u64 = 9_000_000_000_000_000_000;

// A quotient past this passes the limit once it has a digit more in base 65,536.
const LIMIT_BY_DIGIT: u64 = 137_329_101_562_500;

// Whether a product passes the limit.
fn over(g: u64, x: u64) -> bool
    ensures { result ≡ ltb limit (g * x) }
{
    if g == 0 {
        return false;
    }
    LIMIT / g < x
}

// Long division in base 65,536, one digit more: q and r are those of a and all digits of w but the last.
fn one_digit(a: u64, d: u64, w: u64, q: u64, r: u64) -> Option<(u64, u64)>
    requires { Digits a d w q r }
    ensures { result ≡ mul_div a w d }
{
    let g = w % 65536;
    let x = a / d;
    let t = 65536 * r + g * (a % d);
    if LIMIT_BY_DIGIT < q {
        return None;
    }
    if over(g, x) {
        return None;
    }
    let v = 65536 * q + g * x + t / d;
    if LIMIT < v {
        return None;
    }
    Some((v, t % d))
}

// The quotient and the remainder, or `None` where the quotient passes 9*10^18. Four digits hold 64 bits, so four
// steps and no loop.
pub fn mul_div(a: u64, b: u64, d: u64) -> Option<(u64, u64)>
    requires { Divisor d }
    ensures { result ≡ mul_div a b d }
{
    let (q, r) = one_digit(a, d, b / 281_474_976_710_656, 0, 0)?;
    let (q, r) = one_digit(a, d, b / 4_294_967_296, q, r)?;
    let (q, r) = one_digit(a, d, b / 65536, q, r)?;
    one_digit(a, d, b, q, r)
}

// The quotient rounded down, or `None` where that passes 9*10^18.
pub fn scaled_down(a: u64, b: u64, d: u64) -> Option<u64>
    requires { Divisor d }
    ensures { result ≡ capped (round_down (a * b) d) }
{
    let (q, _) = mul_div(a, b, d)?;
    Some(q)
}

fn one_up(q: u64, r: u64) -> Option<u64>
    requires { q ≤ limit }
    ensures { result ≡ capped (raised q r) }
{
    if r == 0 {
        return Some(q);
    }
    if q < LIMIT {
        return Some(q + 1);
    }
    None
}

// The same, rounded up.
pub fn scaled_up(a: u64, b: u64, d: u64) -> Option<u64>
    requires { Divisor d }
    ensures { result ≡ capped (round_up (a * b) d) }
{
    let (q, r) = mul_div(a, b, d)?;
    one_up(q, r)
}
