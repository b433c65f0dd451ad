//! The letters of a vector's components, and the texts of operators.

ghost use Rattle.std.specs.Prelude.{◌≡◌};
ghost use Rattle.wgsl_words.specs.Words.{operator_text};

use naga_ir::BinaryOperator;

/// The letters of a vector's components, in order.
pub const COMPONENTS: [char; 4] = ['x', 'y', 'z', 'w'];

/// The text of an operator between its operands.
///
/// That of `BinaryOperator::ShiftLeft` is `<<`.
pub fn binary_operation_str(op: BinaryOperator) -> &'static str
    ensures { result.now ≡ operator_text op }
{
    match op {
        BinaryOperator::Add => "+",
        BinaryOperator::Subtract => "-",
        BinaryOperator::Multiply => "*",
        BinaryOperator::Divide => "/",
        BinaryOperator::Modulo => "%",
        BinaryOperator::Equal => "==",
        BinaryOperator::NotEqual => "!=",
        BinaryOperator::Less => "<",
        BinaryOperator::LessEqual => "<=",
        BinaryOperator::Greater => ">",
        BinaryOperator::GreaterEqual => ">=",
        BinaryOperator::And => "&",
        BinaryOperator::ExclusiveOr => "^",
        BinaryOperator::InclusiveOr => "|",
        BinaryOperator::LogicalAnd => "&&",
        BinaryOperator::LogicalOr => "||",
        BinaryOperator::ShiftLeft => "<<",
        BinaryOperator::ShiftRight => ">>",
    }
}
