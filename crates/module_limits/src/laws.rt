//! What is proved of depths.

ghost use Rattle.std.specs.Prelude.{List};
ghost use Rattle.naga_ir.specs.Operands.{expression_operands};
ghost use Rattle.naga_ir.specs.declared.expression.Expression.{Expression};
ghost use Rattle.naga_ir.specs.declared.module.Constant.{Constant};
ghost use Rattle.naga_ir.specs.declared.types.Type_.{Type_};
ghost use Rattle.module_limits.specs.Depths.{AreOneDeeper};
ghost use Rattle.module_limits.specs.Nesting.{global_parts, type_parts};

/// An expression or a type is one deeper than the deepest that it is made of, where these all stand
/// in front of it, as they do in a module that is accepted.
pub fn depths_are_structural()
    ensures operands { (expressions : List Expression) →
        AreOneDeeper expression_operands expressions }
    ensures globals { (constants : List Constant) (expressions : List Expression) →
        AreOneDeeper (global_parts constants) expressions }
    ensures types { (types : List Type_) → AreOneDeeper (λ t. type_parts t.inner) types }
{}
