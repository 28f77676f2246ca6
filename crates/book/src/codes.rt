// The currency codes: a byte for each of the 32 securities. (A byte, and no enum with "unlisted": bytes that are no sound book may hold any.)
ghost use Rattle.std.specs.Prelude.{◌≡◌, ◌<◌, refl, get_or};
ghost use Rattle.fields.specs.Codec.{number};
ghost use Rattle.fields.specs.FieldLaws.{length_digits};
ghost use Rattle.rules.specs.Bounds.{securities};
ghost use Rattle.rules.specs.Layout.{book_of};

use crate::layout::{BookBytes, CODE_BYTES, CODES};
use crate::rows::{Row, rows_at};
use fields::{get, put, wide};

// A row is the one byte.
impl Row for u8 {
    ghost codec = { number 1 };

    ghost BYTES = { 1 };

    const BYTES: usize = CODE_BYTES;

    fn row_at(b: &[u8], at: usize) -> u8 {
        get(b, at, 1) as u8
    }

    fn put_row(self, b: &mut [u8], at: usize) {
        put(b, at, 1, wide(self));
    }

    ghost width_is = { refl };

    ghost sized = { length_digits 1 };
}

// The code of one security where it stands, and the code of each.
pub fn code_at(b: &BookBytes, s: usize) -> u8
    requires { s < securities }
    ensures { result ≡ get_or (book_of b.now).currency s 0 }
{
    u8::row_at(b, CODES + s * CODE_BYTES)
}

pub fn codes_of(b: &BookBytes) -> [u8; 32]
    ensures { result ≡ (book_of b.now).currency }
{
    rows_at(b, CODES)
}
