//! Which types are made of parts, and what their scalars are converted to.

ghost use Rattle.std.specs.Prelude.{◌≡◌, false};
ghost use Rattle.std.specs.Option.{option_copied, option_map_or};
ghost use Rattle.module_semantics.specs.Conversions.{converted_scalar};
ghost use Rattle.module_semantics.specs.ExpressionOperators.{has_parts, is_composite};
ghost use Rattle.module_semantics.specs.ExpressionForms.{known_passes};
ghost use Rattle.module_semantics.specs.TypeParts.{inner_at};
ghost use Rattle.naga_info.specs.Resolution.{inner_of};

use naga_info::{ExpressionInfo, TypeResolution};
use naga_ir::{Expression, Handle, Scalar, ScalarKind, Type_, TypeInner, UniqueArena};

/// The type of the module with this handle, if there is one.
pub fn inner_at<'a>(types: &'a UniqueArena<Type_>, handle: Handle<Type_>) -> Option<&'a TypeInner>
    ensures { option_copied result ≡ inner_at types.now handle }
{
    if handle.index() < types.len() {
        Some(&types[handle].inner)
    } else {
        None
    }
}

/// What a type stands for, if its handle lies in the types.
pub fn inner_of<'a>(types: &'a UniqueArena<Type_>, ty: &'a TypeResolution) -> Option<&'a TypeInner>
    ensures { option_copied result ≡ inner_of ty.now types.now }
{
    match ty {
        TypeResolution::Handle(handle) => inner_at(types, *handle),
        TypeResolution::Value(inner) => Some(inner),
    }
}

/// Whether the type that is known of the expression with this handle, or what it points to, is made
/// of parts.
pub fn known_has_parts(
    types: &UniqueArena<Type_>,
    known: &[ExpressionInfo],
    handle: Handle<Expression>,
) -> bool
    ensures { result ≡ known_passes types.now known.now (has_parts types.now) handle }
{
    match known.get(handle.index()) {
        Some(info) => resolution_has_parts(types, &info.ty),
        None => false,
    }
}

fn resolution_has_parts(types: &UniqueArena<Type_>, ty: &TypeResolution) -> bool
    ensures { result ≡ option_map_or (has_parts types.now) (inner_of ty.now types.now) false }
{
    match inner_of(types, ty) {
        Some(inner) => has_parts(types, inner),
        None => false,
    }
}

/// Whether a type, or what it points to, is made of parts.
fn has_parts(types: &UniqueArena<Type_>, inner: &TypeInner) -> bool
    ensures { result ≡ has_parts types.now inner.now }
{
    match inner {
        TypeInner::Pointer { base, .. } => match inner_at(types, *base) {
            Some(inner) => is_composite(inner),
            None => false,
        },
        TypeInner::ValuePointer { size, .. } => size.is_some(),
        _ => is_composite(inner),
    }
}

fn is_composite(inner: &TypeInner) -> bool
    ensures { result ≡ is_composite inner.now }
{
    match inner {
        TypeInner::Vector { .. }
        | TypeInner::Matrix { .. }
        | TypeInner::Array { .. }
        | TypeInner::BindingArray { .. }
        | TypeInner::Struct { .. } => true,
        _ => false,
    }
}

/// The scalar that one is converted to: of this kind, and of the width that is told or its own.
pub fn converted_scalar(scalar: Scalar, kind: ScalarKind, convert: Option<u8>) -> Scalar
    ensures { result ≡ converted_scalar scalar kind convert }
{
    Scalar {
        kind,
        width: convert.unwrap_or(scalar.width),
    }
}
