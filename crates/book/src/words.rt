// A number of 8 bytes. It is read by halves: a number of 4 bytes is compiled to one load, one of 8 read byte by byte is not.
ghost use Rattle.std.specs.Prelude.{◌≡◌, ◌+◌, ◌≤◌, length};
ghost use Rattle.fields.specs.Field.{field};

use fields::get;

pub(crate) fn word(b: &[u8], at: usize) -> u64
    requires { at + 8 ≤ length b.now }
    ensures { result ≡ field 8 at b.now }
{
    let high = get(b, at, 4);
    let low = get(b, at + 4, 4);
    high * 4_294_967_296 + low
}
