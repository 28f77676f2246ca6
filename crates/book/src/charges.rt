// The charges of the day: 256 amounts of money, account by account and within an account currency by currency.
// A signed number stands there as its 64 bits.
ghost use Rattle.std.specs.Prelude.{◌≡◌, ◌*◌, ◌<◌, refl, get_or, set, pos};
ghost use Rattle.units.specs.Units.{mils};
ghost use Rattle.rules.specs.Bounds.{accounts, currencies};
ghost use Rattle.rules.specs.Book.{with_charges};
ghost use Rattle.rules.specs.Layout.{amount, book_of};
ghost use Rattle.rules.specs.Roll.{uncharged};
ghost use Rattle.book.specs.Replacing.{Holds};
ghost use Rattle.book.specs.Writing.{amount_long};

use crate::layout::{BookBytes, CHARGE_BYTES, CHARGES, ENTRIES};
use crate::rows::Row;
use crate::words::word;
use crate::zeros::put_zeros;
use fields::put;
use units::{Counted, Mils};

// A row is the amount's 64 bits in 8 bytes.
impl Row for Mils {
    ghost codec = { amount };

    ghost BYTES = { 8 };

    const BYTES: usize = CHARGE_BYTES;

    fn row_at(b: &[u8], at: usize) -> Mils {
        Mils::from_bits(word(b, at))
    }

    fn put_row(self, b: &mut [u8], at: usize) {
        put(b, at, 8, self.bits());
    }

    ghost width_is = { refl };

    ghost sized = { amount_long };
}

// One charge where it stands.
pub fn charge_at(b: &BookBytes, i: usize) -> Mils
    requires { i < accounts * currencies }
    ensures { result ≡ get_or (book_of b.now).charges i (mils (pos 0)) }
{
    Mils::row_at(b, CHARGES + i * CHARGE_BYTES)
}

// One charge is changed where it stands: every other byte is left as it was.
pub fn put_charge(b: &mut BookBytes, i: usize, m: Mils)
    requires { i < accounts * currencies }
    ensures { Holds b.new (with_charges (book_of b.old) (set (book_of b.old).charges i m)) }
{
    m.put_row(b, CHARGES + i * CHARGE_BYTES);
}

// All charges are set to zero where they stand: an amount of 0 is 8 bytes of 0, and the table ends where the count of
// trades begins.
pub fn clear_charges(b: &mut BookBytes)
    ensures { Holds b.new (uncharged (book_of b.old)) }
{
    put_zeros(b, CHARGES, ENTRIES);
}
