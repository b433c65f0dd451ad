//! What is proved of literals that become decimal.

ghost use Rattle.std.specs.Prelude.{◌≡◌, ◌≢◌};
ghost use Rattle.naga_ir.specs.Literals.{literal_scalar};
ghost use Rattle.naga_ir.specs.declared.expression.Literal.{Literal};
ghost use Rattle.module_semantics.specs.Literals.{literal_value, with_bits};
ghost use Rattle.decimal_floats.specs.Decimals.{IsDecimalLiteral};

/// A literal that becomes decimal has the value that it had, and the same type.
pub fn decimal_literals_keep_their_values()
    ensures value { (old new : Literal) → IsDecimalLiteral old new →
        literal_value new ≡ literal_value old }
    ensures scalar { (old new : Literal) → IsDecimalLiteral old new →
        literal_scalar new ≡ literal_scalar old }
{}

/// A literal that has a numeral, so that it isn't held as its bits, stays as it is.
pub fn numerals_stay()
    ensures { (old new : Literal) → with_bits old ≢ old → IsDecimalLiteral old new → new ≡ old }
{}
