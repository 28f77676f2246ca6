// Signed whole numbers: the one place with raw signed arithmetic. A contract is the meaning in ℤ; what it
// requires, and the bound it gives on its result, are sizes in ℕ.
ghost use Rattle.std.specs.Prelude.{◌≡◌, ◌+◌, ◌*◌, ◌≤◌, ◌<◌, ◌^◌, eqb, pos, nat_abs, ◌+ℤ◌, ◌-ℤ◌, ◌*ℤ◌};
ghost use Rattle.integers.specs.Signs.{is_negative, signed, toward_zero};
ghost use Rattle.integers.specs.Bits.{bits_of, value_of};
ghost use Rattle.units.specs.Units.{most_shares, top_price, most_amount};

use crate::Whole;

impl Whole {
    pub fn plus(self, other: Whole) -> Whole
        requires { nat_abs self.0 + nat_abs other.0 < 2 ^ 63 }
        ensures { (result.0 ≡ self.0 +ℤ other.0) × (nat_abs result.0 ≤ nat_abs self.0 + nat_abs other.0) }
    {
        Whole(self.0 + other.0)
    }

    pub fn minus(self, other: Whole) -> Whole
        requires { nat_abs self.0 + nat_abs other.0 < 2 ^ 63 }
        ensures { (result.0 ≡ self.0 -ℤ other.0) × (nat_abs result.0 ≤ nat_abs self.0 + nat_abs other.0) }
    {
        Whole(self.0 - other.0)
    }

    pub fn times(self, price: u32) -> Whole
        requires { (nat_abs self.0 ≤ most_shares) × (price ≤ top_price) }
        ensures { (result.0 ≡ self.0 *ℤ pos price) × (nat_abs result.0 ≤ most_amount) }
    {
        let p = i64::from(price);
        Whole(self.0 * p)
    }

    pub fn is_negative(self) -> bool
        ensures { result ≡ is_negative self.0 }
    {
        self.0 < 0
    }

    pub fn is_zero(self) -> bool
        ensures { result ≡ eqb (nat_abs self.0) 0 }
    {
        self.0 == 0
    }

    // The least number of 64 bits has a size too.
    pub fn size(self) -> u64
        ensures { result ≡ nat_abs self.0 }
    {
        self.0.unsigned_abs()
    }

    // The number with this sign and this size.
    pub fn of(negative: bool, size: u64) -> Whole
        requires { size < 2 ^ 63 }
        ensures { (result.0 ≡ signed negative size) × (nat_abs result.0 ≡ size) }
    {
        let x = size as i64;
        Whole(if negative { -x } else { x })
    }

    // Nearer to zero by the size of k.
    pub fn toward_zero(self, k: Whole) -> Whole
        requires { (nat_abs self.0 < 2 ^ 63) × (nat_abs k.0 ≤ nat_abs self.0) }
        ensures { (result.0 ≡ toward_zero self.0 (nat_abs k.0)) × (nat_abs result.0 + nat_abs k.0 ≡ nat_abs self.0) }
    {
        Whole::of(self.is_negative(), self.size() - k.size())
    }

    // The 64 bits of the number, by two's complement, and the number that 64 bits stand for.
    pub fn bits(self) -> u64
        ensures { result ≡ bits_of self.0 }
    {
        self.0.cast_unsigned()
    }

    pub fn from_bits(b: u64) -> Whole
        ensures { result.0 ≡ value_of b }
    {
        Whole(b.cast_signed())
    }
}
