// Numbers on the sheet (document 01: "Digits come most significant first", no leading zeros): the digits of n are those of
// n / 10, and then n % 10. (By recursion on the number divided by ten, which is document 01's form for it.)
ghost use Rattle.std.specs.Prelude.{◌≡◌, ◌+◌, ◌≤◌, length};
ghost use Rattle.fields.specs.Field.{stored};
ghost use Rattle.rules.specs.Sheet.{decimal};

// How many digits n has.
pub fn width(n: u64) -> usize
    ensures { (result ≡ length (decimal n)) × (result ≤ 20) }
{
    if n >= 10 {
        return width(n / 10) + 1;
    }
    1
}

// The digits of n into the buffer from at; the place behind them.
pub fn put_decimal(buffer: &mut [u8], at: usize, n: u64) -> usize
    requires { at + length (decimal n) ≤ length buffer.old }
    ensures { (result ≡ at + length (decimal n)) × (buffer.new ≡ stored buffer.old at (decimal n)) }
{
    if n < 10 {
        buffer[at] = 48 + n as u8;
        return at + 1;
    }
    let place = put_decimal(buffer, at, n / 10);
    buffer[place] = 48 + (n % 10) as u8;
    place + 1
}
