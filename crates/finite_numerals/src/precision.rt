//! The precisions of floats, and a numeral of each finite float that is found by trying.

ghost use Rattle.std.specs.Prelude.{◌≡◌, ◌+◌, ◌^◌, ◌<◌, ◌≤◌, IsTrue, pos, if◌then◌else◌};
ghost use Rattle.decimal_numerals.specs.Denoted.{is_in_range};
ghost use Rattle.finite_numerals.specs.Nearest.{denoted_by, infinity, leading, sign_bit};
ghost use Rattle.finite_numerals.specs.Search.{AreLeastDigits, places, power_of_ten, unsigned};

use decimal_numerals::Decimal;

/// How precise a float is: whether it has two, four or eight bytes.
#[derive(Clone, Copy, Debug, PartialEq, Eq)]
pub enum Precision {
    /// `f16`
    Half,
    /// `f32`
    Single,
    /// `f64`
    Double,
}

impl Precision {
    /// A numeral that denotes the float with these bits, where `size` are those without its sign.
    /// It has more digits than Rust's formatting would choose.
    pub(crate) fn numeral_of(self, negative: bool, size: u64) -> Decimal
        requires { size < infinity self }
        ensures denotes { denoted_by self result
            ≡ (if negative then sign_bit self else 0) + size }
        ensures within { IsTrue (is_in_range result) }
    {
        let exponent = self.power_of_ten(size);
        Decimal {
            negative,
            digits: self.least_digits(size, exponent),
            exponent,
        }
    }

    /// The power of ten of the digits that are tried: floats lie two or more of it apart here.
    fn power_of_ten(self, size: u64) -> i64
        requires { size < infinity self }
        ensures { result ≡ power_of_ten self size }
    {
        let steps = (size / self.leading()).saturating_sub(1);
        (steps * 78_913 / 0x4_0000) as i64 - self.places()
    }

    /// The least digits that denote the float with these bits or a greater one.
    fn least_digits(self, size: u64, exponent: i64) -> u64
        requires { size ≤ denoted_by self (unsigned (2 ^ 61) exponent) }
        ensures { AreLeastDigits self size exponent result }
    {
        let mut low: u64 = 0;
        let mut high: u64 = 1 << 61;
        while low < high {
            let middle = low + (high - low) / 2;
            if self.size_of(middle, exponent) < size {
                low = middle + 1;
            } else {
                high = middle;
            }
        }
        high
    }

    /// The bits of the float that is nearest to `digits * 10 ^ exponent`.
    fn size_of(self, digits: u64, exponent: i64) -> u64
        ensures { result ≡ denoted_by self (unsigned digits exponent) }
    {
        let numeral = Decimal {
            negative: false,
            digits,
            exponent,
        };
        match self {
            Precision::Half => numeral.half_bits() as u64,
            Precision::Single => numeral.single_bits() as u64,
            Precision::Double => numeral.double_bits(),
        }
    }

    /// The weight of a float's leading digit in its bits.
    fn leading(self) -> u64
        ensures { result ≡ leading self }
    {
        match self {
            Precision::Half => 0x400,
            Precision::Single => 0x80_0000,
            Precision::Double => 0x10_0000_0000_0000,
        }
    }

    /// How many places after the point tell the least floats apart.
    fn places(self) -> i64
        ensures { result ≡ pos (places self) }
    {
        match self {
            Precision::Half => 8,
            Precision::Single => 46,
            Precision::Double => 324,
        }
    }
}
