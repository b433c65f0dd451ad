//! The texts of numerals and of literals.

ghost use Rattle.std.specs.Prelude.{◌≡◌, ◌<◌, ◌^◌, ◌++◌, IfOk, IsFalse, pos, negsuc};
ghost use Rattle.std.specs.Prelude.{replicate, length};
ghost use Rattle.std.specs.Fmt.{sign_text};
ghost use Rattle.std.specs.Str.{IsAscii};
ghost use Rattle.std.specs.String.{string_bytes};
ghost use Rattle.float_numerals.specs.Texts.{digits_text, double_digits_text, double_numeral_text};
ghost use Rattle.float_numerals.specs.Texts.{double_text, half_text, has_plain_form, numeral_text};
ghost use Rattle.float_numerals.specs.Texts.{scientific_text, single_text};

use decimal_numerals::Decimal;
use itoa::Buffer;
use std::alloc::AllocError;

/// Appends the literal of an `f32`: the number without an exponent, and `f`. Without memory, a
/// beginning of it may stand there.
///
/// ```text
/// push_single(Decimal { negative: false, digits: 5, exponent: -1 }, &mut text)?; // `0.5f`
/// ```
pub fn push_single(decimal: Decimal, text: &mut String) -> Result<(), AllocError>
    ensures { IfOk result (λ _. string_bytes text.new
        ≡ string_bytes text.old ++ single_text decimal) }
{
    push_numeral(decimal, text)?;
    text.push_str("f")
}

/// Appends the literal of an `f16`: the number without an exponent, and `h`. Without memory, a
/// beginning of it may stand there.
///
/// ```text
/// push_half(Decimal { negative: false, digits: 12, exponent: 1 }, &mut text)?; // `120h`
/// ```
pub fn push_half(decimal: Decimal, text: &mut String) -> Result<(), AllocError>
    ensures { IfOk result (λ _. string_bytes text.new
        ≡ string_bytes text.old ++ half_text decimal) }
{
    push_numeral(decimal, text)?;
    text.push_str("h")
}

/// Appends the literal of an `f64`: the number with a digit after the point, or else, from 10 ^ 16
/// on and below 10 ^ -4, with an exponent, and `lf`. Without memory, a beginning of it may stand
/// there.
///
/// ```text
/// push_double(Decimal { negative: false, digits: 1, exponent: 0 }, &mut text)?; // `1.0lf`
/// push_double(Decimal { negative: false, digits: 15, exponent: -6 }, &mut text)?; // `1.5e-5lf`
/// ```
pub fn push_double(decimal: Decimal, text: &mut String) -> Result<(), AllocError>
    ensures { IfOk result (λ _. string_bytes text.new
        ≡ string_bytes text.old ++ double_text decimal) }
{
    push_double_numeral(decimal, text)?;
    text.push_str("lf")
}

/// The number without an exponent.
fn push_numeral(decimal: Decimal, text: &mut String) -> Result<(), AllocError>
    ensures { IfOk result (λ _. string_bytes text.new
        ≡ string_bytes text.old ++ numeral_text decimal) }
{
    push_sign(decimal.negative, text)?;
    let mut buffer = Buffer::new();
    push_digits(buffer.format(decimal.digits), decimal.exponent, text)
}

/// The number with a digit after the point, or an exponent.
fn push_double_numeral(decimal: Decimal, text: &mut String) -> Result<(), AllocError>
    ensures { IfOk result (λ _. string_bytes text.new
        ≡ string_bytes text.old ++ double_numeral_text decimal) }
{
    push_sign(decimal.negative, text)?;
    let mut buffer = Buffer::new();
    push_double_digits(buffer.format(decimal.digits), decimal.exponent, text)
}

fn push_sign(negative: bool, text: &mut String) -> Result<(), AllocError>
    ensures { IfOk result (λ _. string_bytes text.new
        ≡ string_bytes text.old ++ sign_text negative) }
{
    if negative { text.push_str("-") } else { Ok(()) }
}

/// With a digit after the point, or an exponent.
fn push_double_digits(digits: &str, exponent: i64, text: &mut String) -> Result<(), AllocError>
    requires ascii { IsAscii digits.now }
    requires some { 0 < length digits.now }
    ensures { IfOk result (λ _. string_bytes text.new
        ≡ string_bytes text.old ++ double_digits_text digits.now exponent) }
{
    let power = exponent as i128 + (digits.len() as i128 - 1);
    if !has_plain_form(power) {
        return push_scientific(digits, power, text);
    }
    push_digits(digits, exponent, text)?;
    if exponent < 0 {
        Ok(())
    } else {
        text.push_str(".0")
    }
}

/// Whether no exponent is written, by the power of ten of the first digit.
fn has_plain_form(power: i128) -> bool
    ensures { result ≡ has_plain_form power }
{
    power >= -4 && power < 16
}

/// With one digit before the point, and an exponent.
fn push_scientific(digits: &str, power: i128, text: &mut String) -> Result<(), AllocError>
    requires ascii { IsAscii digits.now }
    requires some { 0 < length digits.now }
    requires far { IsFalse (has_plain_form power) }
    ensures { IfOk result (λ _. string_bytes text.new
        ≡ string_bytes text.old ++ scientific_text digits.now power) }
{
    text.push_str(&digits[..1])?;
    if digits.len() > 1 {
        text.push_str(".")?;
        text.push_str(&digits[1..])?;
    }
    text.push_str("e")?;
    let mut buffer = Buffer::new();
    text.push_str(buffer.format(power))
}

fn push_digits(digits: &str, exponent: i64, text: &mut String) -> Result<(), AllocError>
    requires { IsAscii digits.now }
    ensures { IfOk result (λ _. string_bytes text.new
        ≡ string_bytes text.old ++ digits_text digits.now exponent) }
{
    if exponent >= 0 {
        push_whole(digits, exponent.unsigned_abs(), text)
    } else {
        push_pointed(digits, exponent.unsigned_abs() - 1, text)
    }
}

fn push_whole(digits: &str, zeros: u64, text: &mut String) -> Result<(), AllocError>
    ensures { IfOk result (λ _. string_bytes text.new
        ≡ string_bytes text.old ++ digits_text digits.now (pos zeros)) }
{
    text.push_str(digits)?;
    push_zeros(zeros, text)
}

/// With one digit more than `last` after the point.
fn push_pointed(digits: &str, last: u64, text: &mut String) -> Result<(), AllocError>
    requires ascii { IsAscii digits.now }
    requires few { last < 2 ^ 63 }
    ensures { IfOk result (λ _. string_bytes text.new
        ≡ string_bytes text.old ++ digits_text digits.now (negsuc last)) }
{
    let fraction_length = last + 1;
    let count = digits.len() as u64;
    if fraction_length < count {
        let front = (count - fraction_length) as usize;
        text.push_str(&digits[..front])?;
        text.push_str(".")?;
        text.push_str(&digits[front..])
    } else {
        text.push_str("0.")?;
        push_zeros(fraction_length - count, text)?;
        text.push_str(digits)
    }
}

fn push_zeros(count: u64, text: &mut String) -> Result<(), AllocError>
    ensures { IfOk result (λ _. string_bytes text.new
        ≡ string_bytes text.old ++ replicate count 48) }
{
    for _ in 0..count {
        text.push_str("0")?;
    }
    Ok(())
}
