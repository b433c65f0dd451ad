//! Whether what statements name is there.

ghost use Rattle.std.specs.Prelude.{◌&&◌, ◌≡◌, length};
ghost use Rattle.std.specs.Result.{result_err};
ghost use Rattle.naga_ir.specs.StatementViews.{tree_of};
ghost use Rattle.naga_acceptance.specs.TextOrder.{is_in_range, numbered, own_in_range, text_order};
ghost use Rattle.naga_ir.specs.Operands.{own_operands, own_result};
ghost use Rattle.module_semantics.specs.acceptance.Ranges.{all_below, is_below};

use crate::ranges::is_below;
use crate::ranges::numbers::case_values_fit_32_bits;
use crate::walk::{first_unmet, range_test};
use naga_ir::{Block, Statement};

/// Whether the operands of a statement by itself lie in the first `expressions`.
fn operands_in_range(expressions: usize, statement: &Statement) -> bool
    ensures { result ≡ all_below expressions (own_operands (tree_of statement.now)) }
{
    for operand in statement.operands() {
        if operand.index() >= expressions {
            return false;
        }
    }
    true
}

/// Whether the operands and the result of a statement by itself lie in the first `expressions`.
fn handles_in_range(expressions: usize, statement: &Statement) -> bool
    ensures { result ≡ (all_below expressions (own_operands (tree_of statement.now))
        && is_below expressions (own_result (tree_of statement.now))) }
{
    operands_in_range(expressions, statement) && is_below(expressions, statement.result())
}

/// Whether the operands and the result of a statement, and the range of an `Emit`, lie in the first
/// `expressions`, and its callee in the first `callees` functions, and a switch's case values have
/// 32 bits. Its blocks are left out. A range may be empty or turned: then it has no handles, and
/// both its ends still lie there.
pub(crate) fn own_in_range(callees: usize, expressions: usize, statement: &Statement) -> bool
    ensures { result ≡ own_in_range callees expressions (tree_of statement.now) }
{
    match statement {
        Statement::Emit(range) => range.first <= expressions && range.end <= expressions,
        Statement::Block(_) => true,
        Statement::If { condition, .. } => condition.index() < expressions,
        Statement::Switch { selector, cases } => {
            selector.index() < expressions && case_values_fit_32_bits(cases)
        }
        Statement::Loop { break_if, .. } => is_below(expressions, *break_if),
        Statement::Call { function, .. } => {
            function.index() < callees && handles_in_range(expressions, statement)
        }
        _ => handles_in_range(expressions, statement),
    }
}

/// The number of the first statement of a body, in the order of the text, that names what is not
/// among so many functions or expressions. Those in blocks are counted too, from 0, and modulo
/// 2^64.
pub(crate) fn first_out_of_range(callees: usize, expressions: usize, body: &Block) -> Option<usize>
    ensures { result ≡ result_err
        (numbered (is_in_range callees expressions) 0 (text_order body.now)) }
{
    first_unmet(range_test(callees, expressions), body)
}
