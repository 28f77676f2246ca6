// Accounts, securities and trade numbers come as 32-bit numbers, so that one that is too large is refused in its place in the
// order of the call's refusals, and never cut to another.
ghost use Rattle.std.specs.Prelude.{◌≡◌, ◌||◌};
ghost use Rattle.rules.specs.Words.{above};
ghost use Rattle.wickdamson.specs.Fields.{byte_of, number_of};

pub fn byte_of(n: u32) -> u8
    ensures { result ≡ byte_of n }
{
    if n > 255 {
        return 255;
    }
    n as u8
}

pub fn number_of(n: u32) -> u16
    ensures { result ≡ number_of n }
{
    if n > 65535 {
        return 0;
    }
    n as u16
}

// Whether one of two fields of a line is above 255.
pub fn past_byte(a: u32, b: u32) -> bool
    ensures { result ≡ (above 255 a || above 255 b) }
{
    if a > 255 {
        return true;
    }
    b > 255
}
