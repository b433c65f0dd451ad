//! A numeral for each finite float.

ghost use Rattle.std.specs.Prelude.{◌≡◌, ◌<◌, ◌≤◌, ◌%◌, ◌^◌, IfOk, IfSome, IsTrue, MatchOption};
ghost use Rattle.std.specs.Float.{binary32, binary64};
ghost use Rattle.decimal_numerals.specs.Denoted.{denoted_bits, is_finite_double, is_finite_single};
ghost use Rattle.decimal_numerals.specs.Half.{denoted_half, is_finite_half};

use crate::precision::Precision;
use decimal_numerals::{DOUBLE_INFINITY, HALF_INFINITY, SINGLE_INFINITY};
use float_numerals::{Decimal, double_decimal, half_decimal, single_decimal};
use std::alloc::{AllocError, Global};

/// The numeral by which the `f32` with these bits is written, as
/// [`single_decimal`](float_numerals::single_decimal) gives it: one for each finite float, and none
/// for an infinity or a NaN.
///
/// ```text
/// // Some(Decimal { negative: false, digits: 5, exponent: -1 })
/// single_numeral(alloc, 0x3f00_0000)?
/// ```
pub fn single_numeral(alloc: Global, bits: u32) -> Result<Option<Decimal>, AllocError>
    ensures same { IfOk result (λ found. IfSome found (λ d. denoted_bits binary32 d ≡ bits)) }
    ensures within { IfOk result (λ found. IfSome found (λ d. IsTrue (is_finite_single d))) }
    ensures finite { IfOk result (λ found. MatchOption found (0x7f80_0000 ≤ bits % 2 ^ 31)
        (λ _. bits % 2 ^ 31 < 0x7f80_0000)) }
{
    let size = bits % 0x8000_0000;
    if size >= SINGLE_INFINITY {
        return Ok(None);
    }
    match single_decimal(alloc, bits)? {
        Some(numeral) => Ok(Some(numeral)),
        None => Ok(Some(Precision::Single.numeral_of(bits >= 0x8000_0000, size as u64))),
    }
}

/// The numeral by which the `f64` with these bits is written, as
/// [`double_decimal`](float_numerals::double_decimal) gives it: one for each finite float, and none
/// for an infinity or a NaN.
///
/// ```text
/// // Some(Decimal { negative: false, digits: 1, exponent: 16 })
/// double_numeral(alloc, 0x4341_c379_37e0_8000)?
/// ```
pub fn double_numeral(alloc: Global, bits: u64) -> Result<Option<Decimal>, AllocError>
    ensures same { IfOk result (λ found. IfSome found (λ d. denoted_bits binary64 d ≡ bits)) }
    ensures within { IfOk result (λ found. IfSome found (λ d. IsTrue (is_finite_double d))) }
    ensures finite { IfOk result (λ found. MatchOption found
        (0x7ff0_0000_0000_0000 ≤ bits % 2 ^ 63) (λ _. bits % 2 ^ 63 < 0x7ff0_0000_0000_0000)) }
{
    let size = bits % 0x8000_0000_0000_0000;
    if size >= DOUBLE_INFINITY {
        return Ok(None);
    }
    match double_decimal(alloc, bits)? {
        Some(numeral) => Ok(Some(numeral)),
        None => Ok(Some(Precision::Double.numeral_of(bits >= 0x8000_0000_0000_0000, size))),
    }
}

/// The numeral by which the `f16` with these bits is written, as
/// [`half_decimal`](float_numerals::half_decimal) gives it: one for each finite float, and none for an
/// infinity or a NaN.
///
/// ```text
/// // Some(Decimal { negative: false, digits: 99975586, exponent: -9 })
/// half_numeral(alloc, 0x2e66)?
/// ```
pub fn half_numeral(alloc: Global, bits: u16) -> Result<Option<Decimal>, AllocError>
    ensures same { IfOk result (λ found. IfSome found (λ d. denoted_half d ≡ bits)) }
    ensures within { IfOk result (λ found. IfSome found (λ d. IsTrue (is_finite_half d))) }
    ensures finite { IfOk result (λ found. MatchOption found (0x7c00 ≤ bits % 2 ^ 15)
        (λ _. bits % 2 ^ 15 < 0x7c00)) }
{
    let size = bits % 0x8000;
    if size >= HALF_INFINITY {
        return Ok(None);
    }
    match half_decimal(alloc, bits)? {
        Some(numeral) => Ok(Some(numeral)),
        None => Ok(Some(Precision::Half.numeral_of(bits >= 0x8000, size as u64))),
    }
}
