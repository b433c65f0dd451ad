//! The nearest numbers of two bytes, which the standard library doesn't have.

ghost use Rattle.std.specs.Prelude.{◌≡◌, ◌<◌, ◌≤◌, ◌^◌};
ghost use Rattle.decimal_numerals.specs.Half.{half_of, half_size};
ghost use lib.Ieee.{size};
ghost use lib.Ieee.Nearest.{closest};

/// The bits of an infinity of two bytes, without its sign.
pub const HALF_INFINITY: u16 = 0x7c00;

/// The bits of the `f16` nearest to `digits * 10 ^ exponent`.
pub(crate) fn half_size(digits: u64, exponent: i64) -> u16
    ensures same { result ≡ half_of digits exponent }
    ensures small { result ≤ 31744 }
{
    let tens = exponent.unsigned_abs();
    if exponent < 0 {
        // 10 ^ 39 times what is near to 0 is past each number of digits.
        if tens > 38 {
            return 0;
        }
        return nearest_half(digits as u128, 10u128.pow(tens as u32));
    }
    if digits == 0 {
        return 0;
    }
    if tens > 5 {
        return HALF_INFINITY;
    }
    nearest_half(digits as u128 * 10u128.pow(tens as u32), 1)
}

/// The bits of the `f16` nearest to a fraction.
fn nearest_half(num: u128, den: u128) -> u16
    requires num { num < 2 ^ 81 }
    requires den { den < 2 ^ 127 }
    requires some { 0 < den }
    ensures same { result ≡ half_size num den }
    ensures small { result ≤ 31744 }
{
    let n = num * 0x100_0000;
    let dropped = binary_digits(n / den).saturating_sub(11);
    let size = dropped as u128 * 1024 + closest(n, den * (1u128 << dropped));
    if size < HALF_INFINITY as u128 {
        size as u16
    } else {
        HALF_INFINITY
    }
}

fn binary_digits(number: u128) -> u32
    ensures same { result ≡ size number }
    ensures small { result ≤ 128 }
{
    if number == 0 { 0 } else { number.ilog2() + 1 }
}

/// The whole number nearest to a fraction; of two that are as near, the even one.
fn closest(n: u128, unit: u128) -> u128
    requires some { 0 < unit }
    requires n { n < 2 ^ 105 }
    ensures same { result ≡ closest n unit }
    ensures small { result ≤ 2 ^ 105 }
{
    let whole = n / unit;
    let rest = n % unit;
    if rest < unit - rest {
        whole
    } else if rest > unit - rest {
        whole + 1
    } else {
        whole + whole % 2
    }
}
