//! Which type each expression has by what it stands for.

ghost use Rattle.std.specs.Prelude.{◌≡◌, Option};
ghost use Rattle.std.specs.Option.{option_and_then, option_copied, option_map};
ghost use Rattle.naga_acceptance.specs.KnownTypes.{inferred, known_types, allowed};
ghost use Rattle.module_semantics.specs.acceptance.ExpressionTypes.{argument_type, binary_type};
ghost use Rattle.module_semantics.specs.acceptance.ExpressionTypes.{constant_type};
ghost use Rattle.module_semantics.specs.acceptance.ExpressionTypes.{global_type, has_its_type};
ghost use Rattle.module_semantics.specs.acceptance.ExpressionTypes.{if_any, is_bool, is_expected};
ghost use Rattle.module_semantics.specs.acceptance.ExpressionTypes.{local_type, logical_type};
ghost use Rattle.module_semantics.specs.acceptance.ExpressionTypes.{only, override_type, result_type};
ghost use Rattle.module_semantics.specs.acceptance.ExpressionTypes.{splat_type, swizzle_type};
ghost use Rattle.module_semantics.specs.acceptance.ExpressionTypes.{variable_type};
ghost use Rattle.module_semantics.specs.acceptance.ExpressionTypes.{expected_type};
ghost use Rattle.module_semantics.specs.TypeParts.{known_inner, known_pointee, part_type};

use crate::alike::is_like;
use crate::parts::{
    InferredType, Known, component_scalar, known_inner, known_type, part_type, pointee_type,
    vector_scalar,
};
use naga_info::TypeResolution;
use naga_ir::{
    AddressSpace, Arena, BinaryOperator, Constant, Expression, Function, GlobalVariable, Handle,
    LocalVariable, Module, Override, Scalar, ScalarKind, Type_, TypeInner, UniqueArena, VectorSize,
};

/// What an expression's type may be.
#[derive(Debug, Clone, Copy, PartialEq, Eq)]
pub enum AllowedType {
    /// One like this.
    LikeThis(InferredType),
    /// Any.
    Anything,
    /// None: what the expression stands for gives none.
    Nothing,
}

fn only(ty: Option<InferredType>) -> AllowedType
    ensures { allowed result ≡ only (option_map inferred ty) }
{
    match ty {
        Some(ty) => AllowedType::LikeThis(ty),
        None => AllowedType::Nothing,
    }
}

fn if_any(ty: Option<InferredType>) -> AllowedType
    ensures { allowed result ≡ if_any (option_map inferred ty) }
{
    match ty {
        Some(ty) => AllowedType::LikeThis(ty),
        None => AllowedType::Anything,
    }
}

fn variable_type(space: AddressSpace, ty: Handle<Type_>) -> InferredType
    ensures { inferred result ≡ variable_type space ty }
{
    match space {
        AddressSpace::Handle => InferredType::Handle(ty),
        _ => InferredType::Pointer { base: ty, space },
    }
}

fn constant_type(module: &Module, handle: Handle<Constant>) -> Option<InferredType>
    ensures { option_map inferred result ≡ constant_type «module».now handle }
{
    if handle.index() < module.constants.len() {
        Some(InferredType::Handle(module.constants[handle].ty))
    } else {
        None
    }
}

fn override_type(module: &Module, handle: Handle<Override>) -> Option<InferredType>
    ensures { option_map inferred result ≡ override_type «module».now handle }
{
    if handle.index() < module.overrides.len() {
        Some(InferredType::Handle(module.overrides[handle].ty))
    } else {
        None
    }
}

fn global_type(module: &Module, handle: Handle<GlobalVariable>) -> Option<InferredType>
    ensures { option_map inferred result ≡ global_type «module».now handle }
{
    if handle.index() < module.global_variables.len() {
        let variable = &module.global_variables[handle];
        Some(variable_type(variable.space, variable.ty))
    } else {
        None
    }
}

/// The type of what a function returns, if there is the function and it returns something.
pub(crate) fn result_type(module: &Module, handle: Handle<Function>) -> Option<InferredType>
    ensures { option_map inferred result ≡ result_type «module».now handle }
{
    if handle.index() < module.functions.len() {
        match &module.functions[handle].result {
            Some(answer) => Some(InferredType::Handle(answer.ty)),
            None => None,
        }
    } else {
        None
    }
}

fn argument_type(function: Option<&Function>, number: u32) -> Option<InferredType>
    ensures { option_map inferred result ≡ argument_type (option_copied function.entry) number }
{
    match function {
        Some(function) => match function.arguments.get(number as usize) {
            Some(argument) => Some(InferredType::Handle(argument.ty)),
            None => None,
        },
        None => None,
    }
}

fn local_type(function: Option<&Function>, handle: Handle<LocalVariable>) -> Option<InferredType>
    ensures { option_map inferred result ≡ local_type (option_copied function.entry) handle }
{
    match function {
        Some(function) if handle.index() < function.local_variables.len() => {
            Some(InferredType::Pointer {
                base: function.local_variables[handle].ty,
                space: AddressSpace::Function,
            })
        }
        _ => None,
    }
}

fn splat_type(size: VectorSize, value: Option<&TypeInner>) -> Option<InferredType>
    ensures { option_map inferred result ≡ splat_type size (option_copied value.entry) }
{
    match value {
        Some(value) => match component_scalar(value) {
            Some(scalar) => Some(InferredType::Vector { size, scalar }),
            None => None,
        },
        None => None,
    }
}

fn swizzle_type(size: VectorSize, vector: Option<&TypeInner>) -> Option<InferredType>
    ensures { option_map inferred result ≡ swizzle_type size (option_copied vector.entry) }
{
    match vector {
        Some(vector) => match vector_scalar(vector) {
            Some(scalar) => Some(InferredType::Vector { size, scalar }),
            None => None,
        },
        None => None,
    }
}

/// Whether a type is `bool`.
pub fn is_bool(inner: &TypeInner) -> bool
    ensures { result ≡ is_bool inner.now }
{
    match inner {
        TypeInner::Scalar(scalar) => match scalar.kind {
            ScalarKind::Bool => scalar.width == 1,
            _ => false,
        },
        _ => false,
    }
}

fn logical_type(left: Option<&TypeInner>) -> AllowedType
    ensures { allowed result ≡ logical_type (option_copied left.entry) }
{
    match left {
        Some(left) if is_bool(left) => AllowedType::LikeThis(InferredType::Scalar(Scalar::BOOL)),
        _ => AllowedType::Anything,
    }
}

fn binary_type(op: BinaryOperator, left: Option<&TypeInner>) -> AllowedType
    ensures { allowed result ≡ binary_type op (option_copied left.entry) }
{
    match op {
        BinaryOperator::LogicalAnd | BinaryOperator::LogicalOr => logical_type(left),
        _ => AllowedType::Anything,
    }
}

fn part_at(
    types: &UniqueArena<Type_>,
    known: Known<'_>,
    base: Handle<Expression>,
    index: Option<u32>,
) -> Option<InferredType>
    ensures { option_map inferred result ≡ option_and_then (λ it. part_type types.now it index)
        (known_inner types.now (known_types known.entry) base) }
{
    match known_inner(types, known, base) {
        Some(inner) => part_type(types, inner, index),
        None => None,
    }
}

/// What is read and written through the pointer with this handle, if it is a pointer.
pub fn pointee_at(
    types: &UniqueArena<Type_>,
    known: Known<'_>,
    pointer: Handle<Expression>,
) -> Option<InferredType>
    ensures { option_map inferred result
        ≡ known_pointee types.now (known_types known.entry) pointer }
{
    match known_inner(types, known, pointer) {
        Some(inner) => pointee_type(types, inner),
        None => None,
    }
}

/// Which type an expression may have, by what it stands for. `function` is the one in which it
/// stands (`None` for the module's own expressions, which name no arguments and locals), and `known`
/// are the types of the expressions there.
///
/// - A literal has its scalar's type. A constant, an override, a zero value, a `Compose`, an
///   argument, and a result that tells a type have that one; a `CallResult` has that of what the
///   callee returns.
/// - A local is a pointer to its type; a global is one in its space, or in the handle space of its
///   type.
/// - A `Splat` or a `Swizzle` is a vector of its size over its operand's scalar.
/// - `Access` and `AccessIndex` have the type of the part, or are a pointer to it. Where there is no
///   part, an `AccessIndex` may have any type.
/// - A `Load` has the type of what it reads: of an atomic, its scalar's.
/// - `&&` and `||` after a `bool` are `bool`.
/// - Others may have any type.
///
/// Where a declaration or an operand that is asked is not there, an expression can have no type.
pub fn expected_type(
    module: &Module,
    function: Option<&Function>,
    known: Known<'_>,
    expression: &Expression,
) -> AllowedType
    ensures { allowed result ≡ expected_type «module».now (option_copied function.entry)
        (known_types known.entry) expression.now }
{
    let types = &module.types;
    match expression {
        Expression::Literal(literal) => {
            AllowedType::LikeThis(InferredType::Scalar(literal.scalar()))
        }
        Expression::Constant(handle) => only(constant_type(module, *handle)),
        Expression::Override(handle) => only(override_type(module, *handle)),
        Expression::ZeroValue(ty)
        | Expression::Compose { ty, .. }
        | Expression::AtomicResult { ty, .. }
        | Expression::WorkGroupUniformLoadResult { ty }
        | Expression::SubgroupOperationResult { ty } => {
            AllowedType::LikeThis(InferredType::Handle(*ty))
        }
        Expression::Access { base, .. } => only(part_at(types, known, *base, None)),
        Expression::AccessIndex { base, index } => {
            if_any(part_at(types, known, *base, Some(*index)))
        }
        Expression::Splat { size, value } => {
            only(splat_type(*size, known_inner(types, known, *value)))
        }
        Expression::Swizzle { size, vector, .. } => {
            only(swizzle_type(*size, known_inner(types, known, *vector)))
        }
        Expression::FunctionArgument(number) => only(argument_type(function, *number)),
        Expression::GlobalVariable(handle) => only(global_type(module, *handle)),
        Expression::LocalVariable(handle) => only(local_type(function, *handle)),
        Expression::Load { pointer } => only(pointee_at(types, known, *pointer)),
        Expression::Binary { op, left, .. } => {
            binary_type(*op, known_inner(types, known, *left))
        }
        Expression::CallResult(handle) => only(result_type(module, *handle)),
        _ => AllowedType::Anything,
    }
}

/// Whether a type is one that is allowed.
fn is_expected(types: &UniqueArena<Type_>, demand: AllowedType, own: &TypeResolution) -> bool
    ensures { result ≡ is_expected types.now (allowed demand) own.now }
{
    match demand {
        AllowedType::LikeThis(ty) => is_like(types, own, &ty),
        AllowedType::Anything => true,
        AllowedType::Nothing => false,
    }
}

/// Whether the type that is known of the expression with this handle is one that it may have.
pub(crate) fn has_its_type(
    module: &Module,
    function: Option<&Function>,
    known: Known<'_>,
    handle: Handle<Expression>,
    expression: &Expression,
) -> bool
    ensures { result ≡ has_its_type «module».now (option_copied function.entry)
        (known_types known.entry) handle expression.now }
{
    match known_type(known, handle) {
        Some(own) => {
            is_expected(
                &module.types,
                expected_type(module, function, known, expression),
                own,
            )
        }
        None => false,
    }
}
