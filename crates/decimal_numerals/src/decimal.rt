//! Decimal numerals, and the floats that they denote.

ghost use Rattle.std.specs.Prelude.{◌≡◌};
ghost use Rattle.std.specs.Float.{binary32, binary64};
ghost use Rattle.decimal_numerals.specs.Denoted.{denoted_bits, is_finite_double, is_finite_single};
ghost use Rattle.decimal_numerals.specs.Denoted.{is_in_range};
ghost use Rattle.decimal_numerals.specs.Half.{denoted_half, is_finite_half};

use crate::half::{HALF_INFINITY, half_size};
use std::num::{f32_to_bits_with_nan, f64_to_bits_with_nan};

/// The bits of an infinity of four bytes, without its sign.
pub const SINGLE_INFINITY: u32 = 0x7f80_0000;

/// The bits of an infinity of eight bytes, without its sign.
pub const DOUBLE_INFINITY: u64 = 0x7ff0_0000_0000_0000;

/// The number `digits * 10 ^ exponent`, or its negative.
///
/// ```text
/// Decimal { negative: true, digits: 25, exponent: -1 } // -2.5
/// ```
#[derive(Clone, Copy, Debug, PartialEq, Eq)]
pub struct Decimal {
    /// Whether it stands after a `-`. So zero has a sign, as it has as a float.
    pub negative: bool,
    /// The digits, as one number.
    pub digits: u64,
    /// The power of ten by which this number is multiplied.
    pub exponent: i64,
}

impl Decimal {
    /// The bits of the `f32` that is nearest to the number; of two that are as near, of the one
    /// whose last binary digit is 0. Those of an infinity, where the number is too great.
    ///
    /// ```text
    /// Decimal { negative: false, digits: 5, exponent: -1 }.single_bits() // 0x3f00_0000
    /// ```
    pub fn single_bits(self) -> u32
        ensures { result ≡ denoted_bits binary32 self }
    {
        let nearest: f32 = fast_float::from_parts(self.negative, self.digits, self.exponent);
        f32_to_bits_with_nan(nearest)
    }

    /// The bits of the `f64` that is nearest to the number; of two that are as near, of the one
    /// whose last binary digit is 0. Those of an infinity, where the number is too great.
    ///
    /// ```text
    /// Decimal { negative: false, digits: 1, exponent: 16 }.double_bits() // 0x4341_c379_37e0_8000
    /// ```
    pub fn double_bits(self) -> u64
        ensures { result ≡ denoted_bits binary64 self }
    {
        let nearest: f64 = fast_float::from_parts(self.negative, self.digits, self.exponent);
        f64_to_bits_with_nan(nearest)
    }

    /// The bits of the `f16` that is nearest to the number; of two that are as near, of the one
    /// whose last binary digit is 0. Those of an infinity, where the number is too great.
    ///
    /// ```text
    /// Decimal { negative: true, digits: 65504, exponent: 0 }.half_bits() // 0xfbff
    /// ```
    pub fn half_bits(self) -> u16
        ensures { result ≡ denoted_half self }
    {
        let size = half_size(self.digits, self.exponent);
        if self.negative { 0x8000 + size } else { size }
    }

    /// Whether its power of ten is from -400 on and below 400, and not above 0 where the digits are
    /// 0. All floats have numerals that are in range; the text of one beyond would be long, or
    /// begin with two zeros, as none does in WGSL.
    ///
    /// ```text
    /// Decimal { negative: false, digits: 1, exponent: 400 }.is_in_range() // false
    /// Decimal { negative: false, digits: 0, exponent: 1 }.is_in_range() // false
    /// ```
    pub fn is_in_range(self) -> bool
        ensures { result ≡ is_in_range self }
    {
        self.exponent >= -400 && self.exponent < 400 && (self.digits != 0 || self.exponent <= 0)
    }

    /// Whether it is in range, and the nearest `f32` is no infinity.
    ///
    /// ```text
    /// Decimal { negative: false, digits: 1, exponent: 38 }.is_finite_single() // true
    /// Decimal { negative: false, digits: 1, exponent: 39 }.is_finite_single() // false
    /// ```
    pub fn is_finite_single(self) -> bool
        ensures { result ≡ is_finite_single self }
    {
        self.is_in_range() && self.single_bits() % 0x8000_0000 < SINGLE_INFINITY
    }

    /// Whether it is in range, and the nearest `f64` is no infinity.
    ///
    /// ```text
    /// Decimal { negative: false, digits: 1, exponent: 308 }.is_finite_double() // true
    /// Decimal { negative: false, digits: 1, exponent: 309 }.is_finite_double() // false
    /// ```
    pub fn is_finite_double(self) -> bool
        ensures { result ≡ is_finite_double self }
    {
        self.is_in_range() && self.double_bits() % 0x8000_0000_0000_0000 < DOUBLE_INFINITY
    }

    /// Whether it is in range, and the nearest `f16` is no infinity.
    ///
    /// ```text
    /// Decimal { negative: false, digits: 65519, exponent: 0 }.is_finite_half() // true
    /// Decimal { negative: false, digits: 65520, exponent: 0 }.is_finite_half() // false
    /// ```
    pub fn is_finite_half(self) -> bool
        ensures { result ≡ is_finite_half self }
    {
        self.is_in_range() && half_size(self.digits, self.exponent) < HALF_INFINITY
    }
}
