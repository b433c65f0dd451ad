//! The items that a line names, whose own lines are shown too.

ghost use Rattle.std.specs.Prelude.{◌≡◌, ◌∷◌, ◌++◌, IfOk, map, take};
ghost use Rattle.std.specs.Option.{option_to_list};
ghost use Rattle.naga_ir.specs.Operands.{expression_operands, own_operands};
ghost use Rattle.naga_ir.specs.StatementViews.{tree_of};
ghost use Rattle.naga_listing.specs.declared.positions.Spot.TheVariants as spot;
ghost use Rattle.naga_listing.specs.Named.{beside_operands, declaration_spots, global_spots};
ghost use Rattle.naga_listing.specs.Named.{given_spots, listed_spots, most_named, named_spots, operand_spots};
ghost use Rattle.naga_listing.specs.Named.{spots_in_function};
ghost use Rattle.naga_listing.specs.Named.{size_spots, statement_spots, type_spots, typed_spots};

use crate::givers::giver_of;
use crate::lookup::{entry_point_at, item_at, type_at};
use crate::numbers::statement_at;
use crate::positions::{Listed, ListingPosition, Spot};
use naga_ir::{
    ArraySize, Expression, Function, Handle, Module, Statement, StructMember, Type_, TypeInner,
};
use std::alloc::{AllocError, Global};

/// At most so many operands are shown.
const MOST_NAMED: usize = 6;

/// What a position names, and what is to be seen beside it.
pub(crate) fn named_spots(
    alloc: Global,
    module: &Module,
    position: &ListingPosition,
) -> Result<Vec<Spot>, AllocError>
    ensures { IfOk result (λ spots. spots.items ≡ named_spots «module».now position.now) }
{
    let mut spots = listed_spots(alloc, module, &position.listed, &position.spot)?;
    if let Some(beside) = &position.beside {
        spots.push(*beside)?;
    }
    Ok(spots)
}

/// The items that [`named_spots`] gives, and then the items `more`.
pub(crate) fn named_with(
    alloc: Global,
    module: &Module,
    position: &ListingPosition,
    more: &[Spot],
) -> Result<Vec<Spot>, AllocError>
    ensures { IfOk result (λ spots. spots.items
        ≡ named_spots «module».now position.now ++ more.now) }
{
    let mut spots = named_spots(alloc, module, position)?;
    spots.extend_from_slice(more)?;
    Ok(spots)
}

fn listed_spots(
    alloc: Global,
    module: &Module,
    listed: &Listed,
    spot: &Spot,
) -> Result<Vec<Spot>, AllocError>
    ensures { IfOk result (λ spots. spots.items ≡ listed_spots «module».now listed.now spot.now) }
{
    match listed {
        Listed::Declarations => declaration_spots(alloc, module, spot),
        Listed::Function(handle) => match item_at(&module.functions, *handle) {
            Some(function) => spots_in_function(alloc, function, spot),
            None => Ok(Vec::new(alloc)),
        },
        Listed::EntryPoint(index) => match entry_point_at(module, *index) {
            Some(entry_point) => spots_in_function(alloc, &entry_point.function, spot),
            None => Ok(Vec::new(alloc)),
        },
    }
}

// ---- in a function

fn spots_in_function(
    alloc: Global,
    function: &Function,
    spot: &Spot,
) -> Result<Vec<Spot>, AllocError>
    ensures { IfOk result (λ spots. spots.items ≡ spots_in_function function.now spot.now) }
{
    match spot {
        Spot::Local(handle) => match item_at(&function.local_variables, *handle) {
            Some(local) => expression_spots(alloc, local.init),
            None => Ok(Vec::new(alloc)),
        },
        Spot::Expression(handle) => match item_at(&function.expressions, *handle) {
            Some(expression) => given_spots(alloc, function, *handle, expression),
            None => Ok(Vec::new(alloc)),
        },
        Spot::Statement(number) => match statement_at(&function.body, *number) {
            Some(statement) => statement_spots(alloc, statement),
            None => Ok(Vec::new(alloc)),
        },
        _ => Ok(Vec::new(alloc)),
    }
}

fn expression_spots(
    alloc: Global,
    handle: Option<Handle<Expression>>,
) -> Result<Vec<Spot>, AllocError>
    ensures { IfOk result (λ spots. spots.items
        ≡ map spot.Expression (option_to_list handle)) }
{
    let mut spots = Vec::new(alloc);
    if let Some(handle) = handle {
        spots.push(Spot::Expression(handle))?;
    }
    Ok(spots)
}

/// The operands of an expression, and the first statement that gives it.
fn given_spots(
    alloc: Global,
    function: &Function,
    handle: Handle<Expression>,
    expression: &Expression,
) -> Result<Vec<Spot>, AllocError>
    ensures { IfOk result (λ spots. spots.items
        ≡ given_spots function.now handle expression.now) }
{
    let mut spots = operand_spots(alloc, expression)?;
    if let Some(number) = giver_of(&function.body, handle) {
        spots.push(Spot::Statement(number))?;
    }
    Ok(spots)
}

fn operand_spots(alloc: Global, expression: &Expression) -> Result<Vec<Spot>, AllocError>
    ensures { IfOk result (λ spots. spots.items
        ≡ operand_spots (expression_operands expression.now)) }
{
    expression
        .operands()
        .take(MOST_NAMED)
        .map(|operand| Spot::Expression(operand))
        .collect(alloc)
}

fn statement_spots(alloc: Global, statement: &Statement) -> Result<Vec<Spot>, AllocError>
    ensures { IfOk result (λ spots. spots.items ≡ statement_spots (tree_of statement.now)) }
{
    let mut spots = statement_operand_spots(alloc, statement)?;
    if let Some(handle) = statement.result() {
        spots.push(Spot::Expression(handle))?;
    }
    Ok(spots)
}

fn statement_operand_spots(alloc: Global, statement: &Statement) -> Result<Vec<Spot>, AllocError>
    ensures { IfOk result (λ spots. spots.items
        ≡ operand_spots (own_operands (tree_of statement.now))) }
{
    statement
        .operands()
        .take(MOST_NAMED)
        .map(|operand| Spot::Expression(operand))
        .collect(alloc)
}

// ---- in a declaration

fn declaration_spots(alloc: Global, module: &Module, spot: &Spot) -> Result<Vec<Spot>, AllocError>
    ensures { IfOk result (λ spots. spots.items ≡ declaration_spots «module».now spot.now) }
{
    match spot {
        Spot::Type_(handle) => match type_at(module, *handle) {
            Some(ty) => type_spots(alloc, &ty.inner),
            None => Ok(Vec::new(alloc)),
        },
        Spot::Constant(handle) => match item_at(&module.constants, *handle) {
            Some(constant) => typed_spots(alloc, constant.ty, Some(constant.init)),
            None => Ok(Vec::new(alloc)),
        },
        Spot::Override(handle) => match item_at(&module.overrides, *handle) {
            Some(item) => typed_spots(alloc, item.ty, item.init),
            None => Ok(Vec::new(alloc)),
        },
        Spot::GlobalVariable(handle) => match item_at(&module.global_variables, *handle) {
            Some(variable) => typed_spots(alloc, variable.ty, variable.init),
            None => Ok(Vec::new(alloc)),
        },
        Spot::GlobalExpression(handle) => match item_at(&module.global_expressions, *handle) {
            Some(expression) => global_spots(alloc, expression),
            None => Ok(Vec::new(alloc)),
        },
        _ => Ok(Vec::new(alloc)),
    }
}

/// A type, and an initialiser if there is one.
fn typed_spots(
    alloc: Global,
    ty: Handle<Type_>,
    init: Option<Handle<Expression>>,
) -> Result<Vec<Spot>, AllocError>
    ensures { IfOk result (λ spots. spots.items ≡ typed_spots ty init) }
{
    let mut spots = Vec::new(alloc);
    spots.push(Spot::Type_(ty))?;
    if let Some(init) = init {
        spots.push(Spot::GlobalExpression(init))?;
    }
    Ok(spots)
}

fn type_spots(alloc: Global, inner: &TypeInner) -> Result<Vec<Spot>, AllocError>
    ensures { IfOk result (λ spots. spots.items ≡ type_spots inner.now) }
{
    match inner {
        TypeInner::Pointer { base, .. } => typed_spots(alloc, *base, None),
        TypeInner::Array { base, size, .. } => array_spots(alloc, *base, *size),
        TypeInner::BindingArray { base, size } => array_spots(alloc, *base, *size),
        TypeInner::Struct { members, .. } => member_spots(alloc, members),
        _ => Ok(Vec::new(alloc)),
    }
}

fn array_spots(alloc: Global, base: Handle<Type_>, size: ArraySize) -> Result<Vec<Spot>, AllocError>
    ensures { IfOk result (λ spots. spots.items ≡ spot.Type_ base ∷ size_spots size) }
{
    let mut spots = Vec::new(alloc);
    spots.push(Spot::Type_(base))?;
    if let ArraySize::Pending(handle) = size {
        spots.push(Spot::Override(handle))?;
    }
    Ok(spots)
}

fn member_spots(alloc: Global, members: &[StructMember]) -> Result<Vec<Spot>, AllocError>
    ensures { IfOk result (λ spots. spots.items
        ≡ map (λ member. spot.Type_ member.ty) (take most_named members.now)) }
{
    members
        .iter()
        .take(MOST_NAMED)
        .map(|member| Spot::Type_(member.ty))
        .collect(alloc)
}

fn global_spots(alloc: Global, expression: &Expression) -> Result<Vec<Spot>, AllocError>
    ensures { IfOk result (λ spots. spots.items ≡ global_spots expression.now) }
{
    let mut spots = global_operand_spots(alloc, expression)?;
    if let Some(spot) = beside_operands(expression) {
        spots.push(spot)?;
    }
    Ok(spots)
}

fn global_operand_spots(alloc: Global, expression: &Expression) -> Result<Vec<Spot>, AllocError>
    ensures { IfOk result (λ spots. spots.items
        ≡ map spot.GlobalExpression (take most_named (expression_operands expression.now))) }
{
    expression
        .operands()
        .take(MOST_NAMED)
        .map(|operand| Spot::GlobalExpression(operand))
        .collect(alloc)
}

/// What one of the module's own expressions names beside its operands.
fn beside_operands(expression: &Expression) -> Option<Spot>
    ensures { option_to_list result ≡ beside_operands expression.now }
{
    match expression {
        Expression::Constant(handle) => Some(Spot::Constant(*handle)),
        Expression::Override(handle) => Some(Spot::Override(*handle)),
        Expression::ZeroValue(ty) => Some(Spot::Type_(*ty)),
        Expression::Compose { ty, .. } => Some(Spot::Type_(*ty)),
        _ => None,
    }
}
