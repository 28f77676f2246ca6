// Shares: each operation is the whole number's, and gives or takes nothing but shares; `times` a price gives money.
ghost use Rattle.std.specs.Prelude.{◌≡◌, ◌+◌, ◌≤◌, ◌<◌, ◌^◌, pos, nat_abs, ◌*ℤ◌};
ghost use Rattle.integers.specs.Signs.{toward_zero};
ghost use Rattle.units.specs.Units.{shares_of, mils_of, most_shares, top_price, most_amount};

use crate::{Counted, Mils, Price, Quantity, Shares, Whole};

impl Counted for Shares {
    type Size = Quantity;

    ghost value = { shares_of };

    ghost size_value = { λ a. a.0 };

    fn whole(self) -> Whole {
        self.0
    }

    fn from_whole(w: Whole) -> Shares {
        Shares(w)
    }

    fn size_number(size: Quantity) -> u64 {
        size.0
    }

    fn size_from(n: u64) -> Quantity {
        Quantity(n)
    }
}

impl Shares {
    // Nearer to zero by k shares: what is left of a position when a part of it goes.
    pub fn toward_zero(self, k: Shares) -> Shares
        requires { (nat_abs (shares_of self) < 2 ^ 63) × (nat_abs (shares_of k) ≤ nat_abs (shares_of self)) }
        ensures { (shares_of result ≡ toward_zero (shares_of self) (nat_abs (shares_of k))) × (nat_abs (shares_of result) + nat_abs (shares_of k) ≡ nat_abs (shares_of self)) }
    {
        Shares(self.0.toward_zero(k.0))
    }

    // The amount for this many shares at a price (document 01: a trade's amount is quantity * price).
    pub fn times(self, price: Price) -> Mils
        requires { (nat_abs (shares_of self) ≤ most_shares) × (price.0 ≤ top_price) }
        ensures { (mils_of result ≡ shares_of self *ℤ pos price.0) × (nat_abs (mils_of result) ≤ most_amount) }
    {
        Mils(self.0.times(price.0))
    }
}
