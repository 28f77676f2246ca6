// The holdings: 2,048 unsigned numbers, account by account and within an account security by security.
ghost use Rattle.std.specs.Prelude.{◌≡◌, ◌*◌, ◌<◌, refl, get_or, set};
ghost use Rattle.fields.specs.Codec.{number};
ghost use Rattle.fields.specs.FieldLaws.{length_digits};
ghost use Rattle.rules.specs.Bounds.{accounts, securities};
ghost use Rattle.rules.specs.Book.{with_holdings};
ghost use Rattle.rules.specs.Layout.{book_of};
ghost use Rattle.book.specs.Replacing.{Holds};

use crate::layout::{BookBytes, HOLDING_BYTES, HOLDINGS};
use crate::rows::Row;
use crate::words::word;
use fields::put;

// A row is the number in 8 bytes.
impl Row for u64 {
    ghost codec = { number 8 };

    ghost BYTES = { 8 };

    const BYTES: usize = HOLDING_BYTES;

    fn row_at(b: &[u8], at: usize) -> u64 {
        word(b, at)
    }

    fn put_row(self, b: &mut [u8], at: usize) {
        put(b, at, 8, self);
    }

    ghost width_is = { refl };

    ghost sized = { length_digits 8 };
}

// One holding where it stands.
pub fn holding_at(b: &BookBytes, i: usize) -> u64
    requires { i < accounts * securities }
    ensures { result ≡ get_or (book_of b.now).holdings i 0 }
{
    u64::row_at(b, HOLDINGS + i * HOLDING_BYTES)
}

// The holding is changed where it stands: every other byte is left as it was.
pub fn put_holding(b: &mut BookBytes, i: usize, v: u64)
    requires { i < accounts * securities }
    ensures { Holds b.new (with_holdings (book_of b.old) (set (book_of b.old).holdings i v)) }
{
    v.put_row(b, HOLDINGS + i * HOLDING_BYTES);
}
