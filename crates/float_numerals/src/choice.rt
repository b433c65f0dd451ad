//! Which numeral a float is written by.

ghost use Rattle.std.specs.Prelude.{◌≡◌, ◌<◌, ◌%◌, ◌^◌, IfSome, IfOk, IsTrue, pos};
ghost use Rattle.std.specs.Float.{binary32, binary64};
ghost use Rattle.decimal_numerals.specs.Denoted.{denoted_bits, is_finite_double, is_finite_single};
ghost use Rattle.decimal_numerals.specs.Half.{denoted_half, is_finite_half};

use decimal_numerals::{DOUBLE_INFINITY, Decimal, HALF_INFINITY, SINGLE_INFINITY};
use fast_float::Numeral;
use std::alloc::{AllocError, Global};
use std::num::{f32_from_bits_with_nan, f64_from_bits_with_nan};

/// The bits of the greatest `f32`, without its sign.
const GREATEST_SINGLE: u32 = 0x7f7f_ffff;

/// The numeral by which the `f32` with these bits is written. Its digits are those that Rust's
/// formatting chooses, the fewest that denote it. But the fewest of the greatest `f32` say a little
/// more than it is: it has 17 that don't. There is none for an infinity or a NaN, nor where these
/// digits denote another number.
///
/// ```text
/// // Some(Decimal { negative: false, digits: 5, exponent: -1 })
/// single_decimal(alloc, 0x3f00_0000)?
/// ```
pub fn single_decimal(alloc: Global, bits: u32) -> Result<Option<Decimal>, AllocError>
    ensures same { IfOk result (λ found. IfSome found (λ d. denoted_bits binary32 d ≡ bits)) }
    ensures finite { IfOk result (λ found. IfSome found (λ _. bits % 2 ^ 31 < 0x7f80_0000)) }
    ensures within { IfOk result (λ found. IfSome found (λ d. IsTrue (is_finite_single d))) }

    // Compilers may refuse a literal above the greatest `f32`, though this one is the nearest.
    ensures greatest { bits % 2 ^ 31 ≡ 0x7f7f_ffff → IfOk result (λ found. IfSome found
        (λ d. (d.digits ≡ 34028234663852885) × (d.exponent ≡ pos 22))) }
{
    if bits % 0x8000_0000 >= SINGLE_INFINITY {
        return Ok(None);
    }
    let found = if bits % 0x8000_0000 == GREATEST_SINGLE {
        Some(greatest_single(bits >= 0x8000_0000))
    } else {
        single_candidate(alloc, f32_from_bits_with_nan(bits))?
    };
    Ok(match found {
        Some(decimal) if decimal.is_finite_single() && decimal.single_bits() == bits => found,
        _ => None,
    })
}

/// The numeral by which the `f64` with these bits is written. Its digits are those that Rust's
/// formatting chooses, the fewest that denote it. There is none for an infinity or a NaN, nor where
/// these digits denote another number.
///
/// ```text
/// // Some(Decimal { negative: false, digits: 1, exponent: 16 })
/// double_decimal(alloc, 0x4341_c379_37e0_8000)?
/// ```
pub fn double_decimal(alloc: Global, bits: u64) -> Result<Option<Decimal>, AllocError>
    ensures same { IfOk result (λ found. IfSome found (λ d. denoted_bits binary64 d ≡ bits)) }
    ensures finite { IfOk result (λ found. IfSome found
        (λ _. bits % 2 ^ 63 < 0x7ff0_0000_0000_0000)) }
    ensures within { IfOk result (λ found. IfSome found (λ d. IsTrue (is_finite_double d))) }
{
    if bits % 0x8000_0000_0000_0000 >= DOUBLE_INFINITY {
        return Ok(None);
    }
    let number = f64_from_bits_with_nan(bits);
    let text = if is_near(number) {
        format!(in alloc; "{number}")?
    } else {
        format!(in alloc; "{number:e}")?
    };
    let found = decimal_of(text.as_bytes());
    Ok(match found {
        Some(decimal) if decimal.is_finite_double() && decimal.double_bits() == bits => found,
        _ => None,
    })
}

/// The numeral by which the `f16` with these bits is written. It has the digits of the `f32` with the
/// same value, which is how naga writes it. There is none for an infinity or a NaN, nor where these
/// digits denote another number.
///
/// ```text
/// // Some(Decimal { negative: false, digits: 99975586, exponent: -9 })
/// half_decimal(alloc, 0x2e66)?
/// ```
pub fn half_decimal(alloc: Global, bits: u16) -> Result<Option<Decimal>, AllocError>
    ensures same { IfOk result (λ found. IfSome found (λ d. denoted_half d ≡ bits)) }
    ensures finite { IfOk result (λ found. IfSome found (λ _. bits % 2 ^ 15 < 0x7c00)) }
    ensures within { IfOk result (λ found. IfSome found (λ d. IsTrue (is_finite_half d))) }
{
    if bits % 0x8000 >= HALF_INFINITY {
        return Ok(None);
    }
    let found = single_candidate(alloc, single_of(bits))?;
    Ok(match found {
        Some(decimal) if decimal.is_finite_half() && decimal.half_bits() == bits => found,
        _ => None,
    })
}

/// The `f32` with the value of the `f16` with these bits.
fn single_of(bits: u16) -> f32 {
    let exponent = (bits / 1024 % 32) as u32;
    let digits = bits % 1024;
    let sign = (bits / 0x8000) as u32 * 0x8000_0000;
    if exponent > 0 {
        return f32_from_bits_with_nan(sign + (exponent + 112) * 0x80_0000 + digits as u32 * 0x2000);
    }
    let small = f32::from(digits) * f32_from_bits_with_nan((127 - 24) * 0x80_0000);
    if sign == 0 { small } else { -small }
}

/// The numeral of the greatest `f32`, or of the least.
fn greatest_single(negative: bool) -> Decimal
    ensures digits { result.digits ≡ 34028234663852885 }
    ensures exponent { result.exponent ≡ pos 22 }
{
    Decimal {
        negative,
        digits: 34_028_234_663_852_885,
        exponent: 22,
    }
}

/// What Rust's formatting makes of an `f32`.
fn single_candidate(alloc: Global, number: f32) -> Result<Option<Decimal>, AllocError> {
    let text = if is_near(f64::from(number)) {
        format!(in alloc; "{number}")?
    } else {
        format!(in alloc; "{number:e}")?
    };
    Ok(decimal_of(text.as_bytes()))
}

/// Whether a number has few digits without an exponent. It is then formatted faster so.
fn is_near(number: f64) -> bool {
    let size = number.abs();
    number == 0.0 || (size >= 0.0001 && size < 1e15)
}

/// The numeral of a text as `-2.5e-7`, if it is one of at most 17 digits.
fn decimal_of(text: &[u8]) -> Option<Decimal> {
    let negative = text.first() == Some(&b'-');
    let parts = Numeral::scan(if negative { &text[1..] } else { text });
    let digits = joined_digits(joined_digits(0, parts.whole())?, parts.fraction())?;
    let power = joined_digits(0, parts.exponent())?;
    let fraction_length = parts.fraction().len();
    if power > 400 || fraction_length > 20 {
        return None;
    }
    let size = power as i64;
    let exponent = (if parts.is_exponent_negative() {
        -size
    } else {
        size
    }) - fraction_length as i64;
    Some(trimmed(negative, digits, exponent))
}

/// The same number without zeros at the end of its digits.
fn trimmed(negative: bool, digits: u64, exponent: i64) -> Decimal {
    if digits == 0 {
        return Decimal {
            negative,
            digits,
            exponent: 0,
        };
    }
    let mut kept = digits;
    let mut power = exponent;
    for _ in 0..17 {
        if kept % 10 == 0 && power < 400 {
            kept /= 10;
            power += 1;
        }
    }
    Decimal {
        negative,
        digits: kept,
        exponent: power,
    }
}

/// The number of these digits after others, below 10 ^ 17.
fn joined_digits(number: u64, digits: &[u8]) -> Option<u64>
    ensures { IfSome result (λ n. n < 10 ^ 17) }
{
    let mut sum = number;
    for digit in digits {
        if sum >= 10_000_000_000_000_000 {
            return None;
        }
        sum = sum * 10 + digit.wrapping_sub(b'0') as u64 % 10;
    }
    if sum >= 100_000_000_000_000_000 {
        return None;
    }
    Some(sum)
}
