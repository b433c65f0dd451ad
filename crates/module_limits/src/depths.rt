//! How deep the operands of expressions and the parts of types nest, by tables of what stands
//! before them.

ghost use Rattle.std.specs.Prelude.{◌≡◌, IfOk, get_or, map, nat_le};
ghost use Rattle.std.specs.Option.{option_to_list};
ghost use Rattle.naga_ir.specs.Operands.{expression_operands};
ghost use Rattle.module_limits.specs.Depths.{deepest, depth_of};
ghost use Rattle.module_limits.specs.Nesting.{global_parts, globals_depth, type_parts};
ghost use Rattle.module_limits.specs.Nesting.{types_depth, unnamed_initialiser};

use naga_ir::{
    Arena, Constant, Expression, Handle, ItemIndex, StructMember, Type_, TypeInner, UniqueArena,
};
use std::alloc::{AllocError, Global};

/// Whether the operands of these expressions nest on no more than so many levels.
pub(crate) fn operands_are_within(
    alloc: Global,
    expressions: &Arena<Expression>,
    levels: usize,
) -> Result<bool, AllocError>
    ensures { IfOk result (λ r. r ≡ nat_le (depth_of expression_operands expressions.now) levels) }
{
    let mut depths: Vec<usize> = Vec::with_capacity(alloc, expressions.len())?;
    for (_, expression) in expressions.iter() {
        let deepest = deepest_operand(&depths, expression);
        if deepest >= levels {
            return Ok(false);
        }
        depths.push(deepest + 1)?;
    }
    Ok(true)
}

/// The same of a module's own expressions, which may also stand over the initialisers of constants
/// without names.
pub(crate) fn globals_are_within(
    alloc: Global,
    constants: &Arena<Constant>,
    expressions: &Arena<Expression>,
    levels: usize,
) -> Result<bool, AllocError>
    ensures { IfOk result (λ r. r ≡ nat_le (globals_depth constants.now expressions.now) levels) }
{
    let mut depths: Vec<usize> = Vec::with_capacity(alloc, expressions.len())?;
    for (_, expression) in expressions.iter() {
        let deepest = deepest_global_part(&depths, constants, expression);
        if deepest >= levels {
            return Ok(false);
        }
        depths.push(deepest + 1)?;
    }
    Ok(true)
}

/// Whether these types are made of one another on no more than so many levels.
pub(crate) fn types_are_within(
    alloc: Global,
    types: &UniqueArena<Type_>,
    levels: usize,
) -> Result<bool, AllocError>
    ensures { IfOk result (λ r. r ≡ nat_le (types_depth types.now) levels) }
{
    let mut depths: Vec<usize> = Vec::with_capacity(alloc, types.len())?;
    for (_, ty) in types.iter() {
        let deepest = deepest_type_part(&depths, &ty.inner);
        if deepest >= levels {
            return Ok(false);
        }
        depths.push(deepest + 1)?;
    }
    Ok(true)
}

/// What the table tells of an item: 0 where it tells nothing.
fn depth_at<M>(depths: &[usize], item: ItemIndex<M>) -> usize
    ensures { result ≡ get_or depths.now item 0 }
{
    match depths.get(item.index()) {
        Some(depth) => *depth,
        None => 0,
    }
}

/// How deep the deepest of an expression's operands is.
fn deepest_operand(depths: &[usize], expression: &Expression) -> usize
    ensures { result ≡ deepest depths.now (expression_operands expression.now) }
{
    let mut deepest = 0;
    for operand in expression.operands() {
        deepest = deepest.max(depth_at(depths, operand));
    }
    deepest
}

/// How deep the deepest part of one of a module's own expressions is.
fn deepest_global_part(
    depths: &[usize],
    constants: &Arena<Constant>,
    expression: &Expression,
) -> usize
    ensures { result ≡ deepest depths.now (global_parts constants.now expression.now) }
{
    let deepest = deepest_operand(depths, expression);
    match unnamed_initialiser(constants, expression) {
        Some(initialiser) => depth_at(depths, initialiser).max(deepest),
        None => deepest,
    }
}

/// The initialiser of the constant without a name that an expression names, if it names one.
fn unnamed_initialiser(
    constants: &Arena<Constant>,
    expression: &Expression,
) -> Option<Handle<Expression>>
    ensures { result ≡ unnamed_initialiser constants.now expression.now }
{
    match expression {
        Expression::Constant(constant) if constant.index() < constants.len() => {
            let item = &constants[*constant];
            if item.name.is_some() {
                None
            } else {
                Some(item.init)
            }
        }
        _ => None,
    }
}

/// How deep the deepest type is that a type is made of.
fn deepest_type_part(depths: &[usize], inner: &TypeInner) -> usize
    ensures { result ≡ deepest depths.now (type_parts inner.now) }
{
    match inner {
        TypeInner::Pointer { base, .. }
        | TypeInner::Array { base, .. }
        | TypeInner::BindingArray { base, .. } => depth_at(depths, *base),
        TypeInner::Struct { members, .. } => deepest_member(depths, members),
        _ => 0,
    }
}

/// How deep the deepest type of these members is.
fn deepest_member(depths: &[usize], members: &[StructMember]) -> usize
    ensures { result ≡ deepest depths.now (map (λ k. k.ty) members.now) }
{
    let mut deepest = 0;
    for member in members {
        deepest = deepest.max(depth_at(depths, member.ty));
    }
    deepest
}
