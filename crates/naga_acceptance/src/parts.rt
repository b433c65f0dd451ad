//! What types are made of, and the types of parts. It allocates nothing.

ghost use Rattle.std.specs.Prelude.{◌≡◌, slice_get};
ghost use Rattle.std.specs.Option.{is_some, option_copied, option_map};
ghost use Rattle.naga_acceptance.specs.KnownTypes.{inferred, known_types};
ghost use Rattle.module_semantics.specs.TypeIdentity.{component_count};
ghost use Rattle.module_semantics.specs.TypeParts.{component_pointer, component_scalar};
ghost use Rattle.module_semantics.specs.TypeParts.{element_count};
ghost use Rattle.module_semantics.specs.TypeParts.{has_computed_parts, is_part_number};
ghost use Rattle.module_semantics.specs.TypeParts.{known_inner, member_type, part_count};
ghost use Rattle.module_semantics.specs.TypeParts.{part_type, pointed_part, pointee_type};
ghost use Rattle.module_semantics.specs.TypeParts.{stored_type, value_part, value_part_count};
ghost use Rattle.module_semantics.specs.TypeParts.{vector_scalar};

use module_semantics::type_parts::{inner_at, inner_of};
use naga_info::{ExpressionInfo, TypeResolution};
use naga_ir::{
    AddressSpace, ArraySize, Expression, Handle, Scalar, StructMember, Type_, TypeInner,
    UniqueArena, VectorSize,
};

/// A type that an expression is given by what it stands for. It takes no memory.
#[derive(Debug, Clone, Copy, PartialEq, Eq)]
pub enum InferredType {
    /// One of the module's types.
    Handle(Handle<Type_>),
    /// A number or a truth value.
    Scalar(Scalar),
    /// Two to four scalars.
    Vector {
        /// How many.
        size: VectorSize,
        /// What they are.
        scalar: Scalar,
    },
    /// Columns of scalars.
    Matrix {
        /// How many columns.
        columns: VectorSize,
        /// How many scalars each of them has.
        rows: VectorSize,
        /// What they are.
        scalar: Scalar,
    },
    /// A pointer to a value of a type of the module.
    Pointer {
        /// What it points to.
        base: Handle<Type_>,
        /// Where that lives.
        space: AddressSpace,
    },
    /// A pointer to a scalar or a vector that has no type of its own in the module.
    ValuePointer {
        /// How many scalars; none for one scalar by itself.
        size: Option<VectorSize>,
        /// What they are.
        scalar: Scalar,
        /// Where they live.
        space: AddressSpace,
    },
}

impl InferredType {
    /// The same type as what is known of an expression.
    pub fn resolution(self) -> TypeResolution
        ensures { result ≡ inferred self }
    {
        match self {
            InferredType::Handle(handle) => TypeResolution::Handle(handle),
            InferredType::Scalar(scalar) => TypeResolution::Value(TypeInner::Scalar(scalar)),
            InferredType::Vector { size, scalar } => {
                TypeResolution::Value(TypeInner::Vector { size, scalar })
            }
            InferredType::Matrix {
                columns,
                rows,
                scalar,
            } => TypeResolution::Value(TypeInner::Matrix {
                columns,
                rows,
                scalar,
            }),
            InferredType::Pointer { base, space } => {
                TypeResolution::Value(TypeInner::Pointer { base, space })
            }
            InferredType::ValuePointer {
                size,
                scalar,
                space,
            } => TypeResolution::Value(TypeInner::ValuePointer {
                size,
                scalar,
                space,
            }),
        }
    }
}

/// The types of expressions that stand together, by handle.
#[derive(Debug, Clone, Copy)]
pub enum Known<'a> {
    /// Those of a function or an entry point.
    Function(&'a [ExpressionInfo]),
    /// Those of the module itself.
    Global(&'a [TypeResolution]),
}

/// What is known of the type of the expression with this handle, if something is.
pub fn known_type<'a>(known: Known<'a>, handle: Handle<Expression>) -> Option<&'a TypeResolution>
    ensures { option_copied result ≡ slice_get (known_types known.entry) handle }
{
    match known {
        Known::Function(infos) => match infos.get(handle.index()) {
            Some(info) => Some(&info.ty),
            None => None,
        },
        Known::Global(known) => known.get(handle.index()),
    }
}

/// The type of the expression with this handle, by itself, if it is known.
pub fn known_inner<'a>(
    types: &'a UniqueArena<Type_>,
    known: Known<'a>,
    handle: Handle<Expression>,
) -> Option<&'a TypeInner>
    ensures { option_copied result ≡ known_inner types.now (known_types known.entry) handle }
{
    match known_type(known, handle) {
        Some(ty) => inner_of(types, ty),
        None => None,
    }
}

fn member_type(members: &[StructMember], index: Option<u32>) -> Option<Handle<Type_>>
    ensures { result ≡ member_type members.now index }
{
    match index {
        Some(number) => match members.get(number as usize) {
            Some(member) => Some(member.ty),
            None => None,
        },
        None => None,
    }
}

fn value_part(inner: &TypeInner, index: Option<u32>) -> Option<InferredType>
    ensures { option_map inferred result ≡ value_part inner.now index }
{
    match inner {
        TypeInner::Vector { scalar, .. } => Some(InferredType::Scalar(*scalar)),
        TypeInner::Matrix { rows, scalar, .. } => Some(InferredType::Vector {
            size: *rows,
            scalar: *scalar,
        }),
        TypeInner::Array { base, .. } | TypeInner::BindingArray { base, .. } => {
            Some(InferredType::Handle(*base))
        }
        TypeInner::Struct { members, .. } => match member_type(members, index) {
            Some(ty) => Some(InferredType::Handle(ty)),
            None => None,
        },
        _ => None,
    }
}

fn pointed_part(space: AddressSpace, inner: &TypeInner, index: Option<u32>) -> Option<InferredType>
    ensures { option_map inferred result ≡ pointed_part space inner.now index }
{
    match inner {
        TypeInner::Vector { scalar, .. } => Some(InferredType::ValuePointer {
            size: None,
            scalar: *scalar,
            space,
        }),
        TypeInner::Matrix { rows, scalar, .. } => Some(InferredType::ValuePointer {
            size: Some(*rows),
            scalar: *scalar,
            space,
        }),
        TypeInner::Array { base, .. } | TypeInner::BindingArray { base, .. } => {
            Some(InferredType::Pointer { base: *base, space })
        }
        TypeInner::Struct { members, .. } => match member_type(members, index) {
            Some(base) => Some(InferredType::Pointer { base, space }),
            None => None,
        },
        _ => None,
    }
}

fn component_pointer(
    size: Option<VectorSize>,
    scalar: Scalar,
    space: AddressSpace,
) -> Option<InferredType>
    ensures { option_map inferred result ≡ component_pointer size scalar space }
{
    match size {
        Some(_) => Some(InferredType::ValuePointer {
            size: None,
            scalar,
            space,
        }),
        None => None,
    }
}

/// The part of a value at an index, which is computed (`None`) or known, or the pointer to the part
/// of what it points to.
pub(crate) fn part_type(
    types: &UniqueArena<Type_>,
    inner: &TypeInner,
    index: Option<u32>,
) -> Option<InferredType>
    ensures { option_map inferred result ≡ part_type types.now inner.now index }
{
    match inner {
        TypeInner::Pointer { base, space } => match inner_at(types, *base) {
            Some(pointee) => pointed_part(*space, pointee, index),
            None => None,
        },
        TypeInner::ValuePointer {
            size,
            scalar,
            space,
        } => component_pointer(*size, *scalar, *space),
        _ => value_part(inner, index),
    }
}

/// Whether it has parts at computed indexes.
pub fn has_computed_parts(types: &UniqueArena<Type_>, inner: &TypeInner) -> bool
    ensures { result ≡ has_computed_parts types.now inner.now }
{
    part_type(types, inner, None).is_some()
}

/// How many components a vector has, or columns or rows a matrix.
pub fn component_count(size: VectorSize) -> usize
    ensures { result ≡ component_count size }
{
    match size {
        VectorSize::Bi => 2,
        VectorSize::Tri => 3,
        VectorSize::Quad => 4,
    }
}

fn element_count(size: ArraySize) -> Option<usize>
    ensures { result ≡ element_count size }
{
    match size {
        ArraySize::Constant(number) => Some(number.get() as usize),
        ArraySize::Pending(_) => None,
        ArraySize::Dynamic => None,
    }
}

fn value_part_count(inner: &TypeInner) -> Option<usize>
    ensures { result ≡ value_part_count inner.now }
{
    match inner {
        TypeInner::Vector { size, .. } => Some(component_count(*size)),
        TypeInner::Matrix { columns, .. } => Some(component_count(*columns)),
        TypeInner::Array { size, .. } | TypeInner::BindingArray { size, .. } => {
            element_count(*size)
        }
        TypeInner::Struct { members, .. } => Some(members.len()),
        _ => None,
    }
}

/// How many parts a value has, or what a pointer points to, where the module says how many.
pub fn part_count(types: &UniqueArena<Type_>, inner: &TypeInner) -> Option<usize>
    ensures { result ≡ part_count types.now inner.now }
{
    match inner {
        TypeInner::Pointer { base, .. } => match inner_at(types, *base) {
            Some(pointee) => value_part_count(pointee),
            None => None,
        },
        TypeInner::ValuePointer { size, .. } => match size {
            Some(size) => Some(component_count(*size)),
            None => None,
        },
        _ => value_part_count(inner),
    }
}

/// Whether a known index stays below the number of parts, where there is one.
pub(crate) fn is_part_number(types: &UniqueArena<Type_>, inner: &TypeInner, number: u32) -> bool
    ensures { result ≡ is_part_number types.now inner.now number }
{
    match part_count(types, inner) {
        Some(count) => (number as usize) < count,
        None => true,
    }
}

fn stored_type(handle: Handle<Type_>, inner: &TypeInner) -> InferredType
    ensures { inferred result ≡ stored_type handle inner.now }
{
    match inner {
        TypeInner::Atomic(scalar) => InferredType::Scalar(*scalar),
        _ => InferredType::Handle(handle),
    }
}

/// What is read and written through a pointer: of an atomic, its scalar.
pub(crate) fn pointee_type(types: &UniqueArena<Type_>, inner: &TypeInner) -> Option<InferredType>
    ensures { option_map inferred result ≡ pointee_type types.now inner.now }
{
    match inner {
        TypeInner::Pointer { base, .. } => match inner_at(types, *base) {
            Some(pointee) => Some(stored_type(*base, pointee)),
            None => None,
        },
        TypeInner::ValuePointer { size, scalar, .. } => Some(match size {
            Some(size) => InferredType::Vector {
                size: *size,
                scalar: *scalar,
            },
            None => InferredType::Scalar(*scalar),
        }),
        _ => None,
    }
}

/// The scalar that a type is, or of which it is a vector.
pub(crate) fn component_scalar(inner: &TypeInner) -> Option<Scalar>
    ensures { result ≡ component_scalar inner.now }
{
    match inner {
        TypeInner::Scalar(scalar) | TypeInner::Vector { scalar, .. } => Some(*scalar),
        _ => None,
    }
}

/// The scalar of which a vector has several, if it is one.
pub fn vector_scalar(inner: &TypeInner) -> Option<Scalar>
    ensures { result ≡ vector_scalar inner.now }
{
    match inner {
        TypeInner::Vector { scalar, .. } => Some(*scalar),
        _ => None,
    }
}
