//! Whether what expressions name is there, and stands before them.

ghost use Rattle.std.specs.Prelude.{◌≡◌, length};
ghost use Rattle.std.specs.List.{enumerate_from};
ghost use Rattle.naga_ir.specs.Operands.{expression_operands};
ghost use Rattle.module_semantics.specs.Literals.{literal_is_within};
ghost use Rattle.naga_acceptance.specs.FirstFaults.{expression_range_fault};
ghost use Rattle.naga_acceptance.specs.FirstFaults.{global_expression_range_fault};
ghost use Rattle.naga_acceptance.specs.Searching.{first_faulty};
ghost use Rattle.module_semantics.specs.acceptance.Ranges.{all_below};
ghost use Rattle.module_semantics.specs.acceptance.Ranges.{initialiser_before, own_numbers_fit};
ghost use Rattle.module_semantics.specs.acceptance.NamedItems.{names_there};

use crate::faults::Fault;
use crate::ranges::is_below;
use crate::ranges::numbers::{fits_32_bits, pattern_is_whole};
use module_semantics::named::{count_of, named_item};
use naga_ir::{Expression, Function, Handle, Literal, Module};

/// Whether the expression's operands are among the first `expressions`.
fn operands_before(expressions: usize, expression: &Expression) -> bool
    ensures { result ≡ all_below expressions (expression_operands expression.now) }
{
    for operand in expression.operands() {
        if operand.index() >= expressions {
            return false;
        }
    }
    true
}

/// Whether a literal's value is one of its type. It always is, but for a decimal one, whose numeral
/// has to be in range and to denote no infinity.
pub(crate) fn literal_is_within(literal: Literal) -> bool
    ensures { result ≡ literal_is_within literal }
{
    match literal {
        Literal::I16(_)
        | Literal::U16(_)
        | Literal::I32(_)
        | Literal::U32(_)
        | Literal::I64(_)
        | Literal::U64(_)
        | Literal::AbstractInt(_)
        | Literal::F16(_)
        | Literal::F32(_)
        | Literal::F64(_)
        | Literal::AbstractFloat(_) => true,
        Literal::Bool(_) => true,
        Literal::DecimalF64(numeral) => numeral.is_finite_double(),
        Literal::DecimalF32(numeral) => numeral.is_finite_single(),
        Literal::DecimalF16(numeral) => numeral.is_finite_half(),
    }
}

/// Whether a literal has a value of its type, an index 32 bits, and a pattern four letters.
fn own_numbers_fit(expression: &Expression) -> bool
    ensures { result ≡ own_numbers_fit expression.now }
{
    match expression {
        Expression::Literal(literal) => literal_is_within(*literal),
        Expression::AccessIndex { index, .. } => fits_32_bits(*index),
        Expression::Swizzle { pattern, .. } => pattern_is_whole(*pattern),
        _ => true,
    }
}

/// Whether what an expression names beside its operands is there, in a function that has so many
/// arguments and locals.
fn names_there(module: &Module, arguments: usize, locals: usize, expression: &Expression) -> bool
    ensures { result ≡ names_there «module».now arguments locals expression.now }
{
    match named_item(expression) {
        Some((list, index)) => index < count_of(module, arguments, locals, list),
        None => true,
    }
}

/// Whether an operand of the expression with this handle does not stand before it, or else one of
/// its own numbers is out of range, or what it names is not there.
fn expression_range_fault(
    module: &Module,
    arguments: usize,
    locals: usize,
    here: Handle<Expression>,
    expression: &Expression,
) -> Option<Fault>
    ensures { result ≡ expression_range_fault «module».now arguments locals here
        expression.now }
{
    if !operands_before(here.index(), expression) {
        return Some(Fault::Operands);
    }
    if !own_numbers_fit(expression) {
        return Some(Fault::Numeral);
    }
    if !names_there(module, arguments, locals, expression) {
        return Some(Fault::Names);
    }
    None
}

/// Whether the initialiser of the constant or the override that an expression names, if it names
/// one and that has one, stands before it.
fn initialiser_before(module: &Module, here: Handle<Expression>, expression: &Expression) -> bool
    ensures { result ≡ initialiser_before «module».now here expression.now }
{
    match expression {
        Expression::Constant(handle) => {
            if handle.index() < module.constants.len() {
                module.constants[*handle].init.index() < here.index()
            } else {
                true
            }
        }
        Expression::Override(handle) => {
            if handle.index() < module.overrides.len() {
                is_below(here.index(), module.overrides[*handle].init)
            } else {
                true
            }
        }
        _ => true,
    }
}

/// The same of a global expression, which names no argument and no local, or else whether the
/// initialiser of what it names does not stand before it.
fn global_expression_range_fault(
    module: &Module,
    here: Handle<Expression>,
    expression: &Expression,
) -> Option<Fault>
    ensures { result ≡ global_expression_range_fault «module».now here expression.now }
{
    let found = expression_range_fault(module, 0, 0, here, expression);
    if found.is_some() {
        return found;
    }
    if !initialiser_before(module, here, expression) {
        return Some(Fault::LaterInitialiser);
    }
    None
}

/// The first global expression that has such a fault.
pub(crate) fn first_global_expression_out_of_range(
    module: &Module,
) -> Option<(Handle<Expression>, Fault)>
    ensures { result ≡ first_faulty (global_expression_range_fault «module».now)
        (enumerate_from 0 «module».now.global_expressions) }
{
    for (handle, expression) in module.global_expressions.iter() {
        if let Some(fault) = global_expression_range_fault(module, handle, expression) {
            return Some((handle, fault));
        }
    }
    None
}

/// The first expression of a function that names what is not there or does not stand before it.
pub(crate) fn first_expression_out_of_range(
    module: &Module,
    function: &Function,
) -> Option<(Handle<Expression>, Fault)>
    ensures { result ≡ first_faulty (expression_range_fault «module».now
        (length function.now.arguments.items) (length function.now.local_variables))
        (enumerate_from 0 function.now.expressions) }
{
    let arguments = function.arguments.len();
    let locals = function.local_variables.len();
    for (handle, expression) in function.expressions.iter() {
        let found = expression_range_fault(module, arguments, locals, handle, expression);
        if let Some(fault) = found {
            return Some((handle, fault));
        }
    }
    None
}
