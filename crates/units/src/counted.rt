// What shares and money have in common: each counts something, a whole number of it, and each operation is the
// whole number's. The types stay apart: an operation takes and gives the one type alone.
ghost use Rattle.std.specs.Prelude.{◌≡◌, ◌+◌, ◌≤◌, ◌<◌, ◌^◌, eqb, ℕ, ℤ, nat_abs, ◌+ℤ◌, ◌-ℤ◌};
ghost use Rattle.integers.specs.Signs.{is_negative, signed};
ghost use Rattle.integers.specs.Bits.{bits_of, value_of};

use crate::Whole;

pub trait Counted: Copy {
    // A count without a direction.
    type Size;

    ghost value: { Self → ℤ };

    ghost size_value: { Self.Size → ℕ };

    fn whole(self) -> Whole
        ensures { result.0 ≡ value self };

    fn from_whole(w: Whole) -> Self
        ensures { value result ≡ w.0 };

    fn size_number(size: Self::Size) -> u64
        ensures { result ≡ size_value size };

    fn size_from(n: u64) -> Self::Size
        ensures { size_value result ≡ n };

    fn plus(self, other: Self) -> Self
        requires { nat_abs (value self) + nat_abs (value other) < 2 ^ 63 }
        ensures { (value result ≡ value self +ℤ value other) × (nat_abs (value result) ≤ nat_abs (value self) + nat_abs (value other)) }
    {
        Self::from_whole(self.whole().plus(other.whole()))
    }

    fn minus(self, other: Self) -> Self
        requires { nat_abs (value self) + nat_abs (value other) < 2 ^ 63 }
        ensures { (value result ≡ value self -ℤ value other) × (nat_abs (value result) ≤ nat_abs (value self) + nat_abs (value other)) }
    {
        Self::from_whole(self.whole().minus(other.whole()))
    }

    fn is_negative(self) -> bool
        ensures { result ≡ is_negative (value self) }
    {
        self.whole().is_negative()
    }

    fn is_zero(self) -> bool
        ensures { result ≡ eqb (nat_abs (value self)) 0 }
    {
        self.whole().is_zero()
    }

    fn size(self) -> Self::Size
        ensures { size_value result ≡ nat_abs (value self) }
    {
        Self::size_from(self.whole().size())
    }

    fn of(negative: bool, size: Self::Size) -> Self
        requires { size_value size < 2 ^ 63 }
        ensures { (value result ≡ signed negative (size_value size)) × (nat_abs (value result) ≡ size_value size) }
    {
        Self::from_whole(Whole::of(negative, Self::size_number(size)))
    }

    fn bits(self) -> u64
        ensures { result ≡ bits_of (value self) }
    {
        self.whole().bits()
    }

    fn from_bits(b: u64) -> Self
        ensures { value result ≡ value_of b }
    {
        Self::from_whole(Whole::from_bits(b))
    }
}
