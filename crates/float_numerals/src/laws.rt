//! What is proved of numerals.

ghost use Rattle.std.specs.Prelude.{◌≡◌, Some, pos};
ghost use Rattle.std.specs.Float.{Format, binary64};
ghost use Rattle.std.specs.Float.Parse.{parse_float};
ghost use Rattle.std.specs.Str.Parse.{AllDigits, IsNumeral};
ghost use Rattle.decimal_numerals.specs.Denoted.{denoted, decimal_float};
ghost use Rattle.decimal_numerals.specs.Half.{denoted_half, decimal_half};
ghost use Rattle.float_numerals.specs.Texts.{double_exponent, double_fraction, double_whole};
ghost use Rattle.float_numerals.specs.Texts.{double_numeral_text, numeral_text};
ghost use Rattle.float_numerals.specs.Texts.{fraction_digits, whole_digits};

use decimal_numerals::Decimal;

/// The digits by which a numeral is written give what it denotes, and the text of them is read so,
/// as Rust's `parse` reads it.
pub fn text_is_read(decimal: Decimal)
    ensures digits { (f : Format) → decimal_float f decimal.negative (whole_digits decimal)
        (fraction_digits decimal) (pos 0) ≡ denoted f decimal }
    ensures half { decimal_half decimal.negative (whole_digits decimal) (fraction_digits decimal)
        ≡ denoted_half decimal }
    ensures double { (f : Format) → decimal_float f decimal.negative (double_whole decimal)
        (double_fraction decimal) (double_exponent decimal) ≡ denoted f decimal }
    ensures text { (f : Format) → parse_float f (numeral_text decimal)
        ≡ Some (denoted f decimal) }
    ensures double_text { (f : Format) → parse_float f (double_numeral_text decimal)
        ≡ Some (denoted f decimal) }
{
    let _digits = decimal.digits;
}

/// A numeral is written by digits, and some stand before the point.
pub fn digits_are_written(decimal: Decimal)
    ensures whole { IsNumeral 10 (whole_digits decimal) }
    ensures fraction { AllDigits 10 (fraction_digits decimal) }
    ensures double_whole { IsNumeral 10 (double_whole decimal) }
    ensures double_fraction { AllDigits 10 (double_fraction decimal) }
{
    let _digits = decimal.digits;
}
