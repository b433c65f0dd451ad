//! What is proved of the floats that numerals denote.

ghost use Rattle.std.specs.Float.{binary32, binary64};
ghost use Rattle.decimal_numerals.specs.Denoted.{denoted_bits};
ghost use Rattle.decimal_numerals.specs.Half.{denoted_half};
ghost use Rattle.decimal_numerals.specs.declared.decimal.Decimal.{Decimal};
ghost use Rattle.finite_numerals.specs.Nearest.{IsNearestFloat};
ghost use Rattle.finite_numerals.specs.declared.precision.Precision.TheVariants.{Half, Single, Double};

/// A numeral denotes the float that is nearest to its number, and of two that are as near the one
/// whose last binary digit is 0: of two bytes, of four and of eight.
pub fn numerals_denote_the_nearest()
    ensures half { (d : Decimal) → IsNearestFloat Half d (denoted_half d) }
    ensures single { (d : Decimal) → IsNearestFloat Single d (denoted_bits binary32 d) }
    ensures double { (d : Decimal) → IsNearestFloat Double d (denoted_bits binary64 d) }
{}
