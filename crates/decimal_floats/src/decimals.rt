//! Which literals become decimal, and where they stand.

ghost use Rattle.std.specs.Prelude.{IfOk, IsTrue, OnOk};
ghost use Rattle.std.specs.List.{AllZip, list_all};
ghost use Rattle.naga_info.specs.declared.info.ModuleInfo.{ModuleInfo};
ghost use Rattle.module_semantics.specs.acceptance.Accepted.{is_accepted};
ghost use Rattle.decimal_floats.specs.Decimals.{IsDecimalEntryPoint, IsDecimalExpression};
ghost use Rattle.decimal_floats.specs.Decimals.{IsDecimalFunction, IsDecimalLiteral};
ghost use Rattle.decimal_floats.specs.Decimals.{IsDecimalModule, IsDecimalThroughout};
ghost use Rattle.decimal_floats.specs.Decimals.{entry_point_is_decimal, expression_is_decimal};
ghost use Rattle.decimal_floats.specs.Decimals.{function_is_decimal, holds_no_finite_bits};

use finite_numerals::{double_numeral, half_numeral, single_numeral};
use naga_ir::{Arena, EntryPoint, Expression, Function, ItemIndex, Literal, Module};
use std::alloc::{AllocError, Global};

/// Gives each float literal of the module that is held as bits a decimal numeral: in its functions,
/// its entry points and its own expressions. An infinity and a NaN, for which there is none, stay as
/// they are. Nothing else changes, and a module that was accepted before is accepted afterwards.
///
/// Where memory is refused, some literals are decimal, and each has its value all the same. A
/// further call goes on.
///
/// ```text
/// floats_to_decimals(alloc, &mut shader.module)?;
/// ```
pub fn floats_to_decimals(alloc: Global, module: &mut Module) -> Result<(), AllocError>
    ensures decimal { IsDecimalModule «module».old «module».new }
    ensures complete { OnOk result (IsDecimalThroughout «module».new) }
    ensures accepted { (info : ModuleInfo) → IsTrue (is_accepted «module».old info) →
        IsTrue (is_accepted «module».new info) }
{
    expressions_to_decimal(alloc, &mut module.global_expressions)?;
    functions_to_decimal(alloc, &mut module.functions)?;
    entry_points_to_decimal(alloc, module.entry_points.as_mut_slice())
}

/// The literal with a decimal numeral, if it is a float that is held as bits and is finite; else
/// itself.
///
/// ```text
/// // Literal::DecimalF32(Decimal { negative: false, digits: 5, exponent: -1 })
/// decimal_literal(alloc, Literal::F32(0x3f00_0000))?
/// ```
pub fn decimal_literal(alloc: Global, literal: Literal) -> Result<Literal, AllocError>
    ensures decimal { IfOk result (IsDecimalLiteral literal) }
    ensures complete { IfOk result (λ decimal. IsTrue (holds_no_finite_bits decimal)) }
{
    match literal {
        Literal::F64(bits) => match double_numeral(alloc, bits)? {
            Some(numeral) => Ok(Literal::DecimalF64(numeral)),
            None => Ok(literal),
        },
        Literal::F32(bits) => match single_numeral(alloc, bits)? {
            Some(numeral) => Ok(Literal::DecimalF32(numeral)),
            None => Ok(literal),
        },
        Literal::F16(bits) => match half_numeral(alloc, bits)? {
            Some(numeral) => Ok(Literal::DecimalF16(numeral)),
            None => Ok(literal),
        },
        _ => Ok(literal),
    }
}

fn entry_points_to_decimal(alloc: Global, entry_points: &mut [EntryPoint]) -> Result<(), AllocError>
    ensures decimal { AllZip IsDecimalEntryPoint entry_points.old entry_points.new }
    ensures complete { OnOk result (IsTrue (list_all entry_point_is_decimal entry_points.new)) }
{
    for entry_point in entry_points.iter_mut() {
        function_to_decimal(alloc, &mut entry_point.function)?;
    }
    Ok(())
}

fn functions_to_decimal(alloc: Global, functions: &mut Arena<Function>) -> Result<(), AllocError>
    ensures decimal { AllZip IsDecimalFunction functions.old functions.new }
    ensures complete { OnOk result (IsTrue (list_all function_is_decimal functions.new)) }
{
    for index in 0..functions.len() {
        function_to_decimal(alloc, functions.get_mut(ItemIndex::from_index(index)))?;
    }
    Ok(())
}

fn function_to_decimal(alloc: Global, function: &mut Function) -> Result<(), AllocError>
    ensures decimal { IsDecimalFunction function.old function.new }
    ensures complete { OnOk result (IsTrue (function_is_decimal function.new)) }
{
    expressions_to_decimal(alloc, &mut function.expressions)
}

fn expressions_to_decimal(
    alloc: Global,
    expressions: &mut Arena<Expression>,
) -> Result<(), AllocError>
    ensures decimal { AllZip IsDecimalExpression expressions.old expressions.new }
    ensures complete { OnOk result (IsTrue (list_all expression_is_decimal expressions.new)) }
{
    for index in 0..expressions.len() {
        expression_to_decimal(alloc, expressions.get_mut(ItemIndex::from_index(index)))?;
    }
    Ok(())
}

fn expression_to_decimal(alloc: Global, expression: &mut Expression) -> Result<(), AllocError>
    ensures decimal { IsDecimalExpression expression.old expression.new }
    ensures complete { OnOk result (IsTrue (expression_is_decimal expression.new)) }
{
    if let Expression::Literal(literal) = *expression {
        *expression = Expression::Literal(decimal_literal(alloc, literal)?);
    }
    Ok(())
}
