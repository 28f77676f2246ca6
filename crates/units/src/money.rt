// Money in mils: each operation is the whole number's, and gives or takes nothing but money.
ghost use Rattle.std.specs.Prelude.{ℕ};
ghost use Rattle.units.specs.Units.{mils_of};

use crate::{Amount, Counted, Mils, Whole};

impl Counted for Mils {
    type Size = Amount;

    ghost value = { mils_of };

    ghost size_value = { λ a. a.0 };

    fn whole(self) -> Whole {
        self.0
    }

    fn from_whole(w: Whole) -> Mils {
        Mils(w)
    }

    fn size_number(size: Amount) -> u64 {
        size.0
    }

    fn size_from(n: u64) -> Amount {
        Amount(n)
    }
}
