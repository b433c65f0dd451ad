//! What expressions ask of their operands' types.

ghost use Rattle.std.specs.Prelude.{◌≡◌, ◌&&◌};
ghost use Rattle.std.specs.Option.{is_some, option_map_or};
ghost use Rattle.naga_acceptance.specs.KnownTypes.{known_types};
ghost use Rattle.module_semantics.specs.acceptance.OperandDemands.{is_scalar_or_vector, is_integer};
ghost use Rattle.module_semantics.specs.acceptance.OperandDemands.{is_pointer, is_swizzled};
ghost use Rattle.module_semantics.specs.acceptance.OperandDemands.{letters_fit};
ghost use Rattle.module_semantics.specs.acceptance.OperandDemands.{operand_is, operands_fit};
ghost use Rattle.module_semantics.specs.acceptance.OperandDemands.{points_to_components};
ghost use Rattle.module_semantics.specs.TypeParts.{has_computed_parts, is_part_number};

use crate::parts::{
    Known, component_count, has_computed_parts, is_part_number, known_inner, pointee_type,
};
use module_semantics::type_parts::inner_at;
use naga_ir::{
    Expression, Handle, ScalarKind, SwizzleComponent, Type_, TypeInner, UniqueArena, VectorSize,
};

/// Whether a type is an integer, of whatever width.
pub fn is_integer(inner: &TypeInner) -> bool
    ensures { result ≡ is_integer inner.now }
{
    match inner {
        TypeInner::Scalar(scalar) => { matches!(scalar.kind, ScalarKind::Sint | ScalarKind::Uint) }
        _ => false,
    }
}

/// Whether a type is a pointer, through which something is read.
pub fn is_pointer(types: &UniqueArena<Type_>, inner: &TypeInner) -> bool
    ensures { result ≡ is_pointer types.now inner.now }
{
    pointee_type(types, inner).is_some()
}

/// Whether a type is a scalar or a vector.
pub fn is_scalar_or_vector(inner: &TypeInner) -> bool
    ensures { result ≡ is_scalar_or_vector inner.now }
{
    matches!(inner, TypeInner::Scalar(_) | TypeInner::Vector { .. })
}

/// Whether a type is a pointer to a scalar or a vector.
pub fn points_to_components(types: &UniqueArena<Type_>, inner: &TypeInner) -> bool
    ensures { result ≡ points_to_components types.now inner.now }
{
    match inner {
        TypeInner::Pointer { base, .. } => match inner_at(types, *base) {
            Some(pointee) => is_scalar_or_vector(pointee),
            None => false,
        },
        TypeInner::ValuePointer { .. } => true,
        _ => false,
    }
}

/// Whether a vector of so many components has the first of these, as many as are chosen.
fn letters_fit(chosen: VectorSize, letters: &[SwizzleComponent; 4], size: VectorSize) -> bool
    ensures { result ≡ letters_fit chosen letters.now size }
{
    let bound = component_count(size);
    let first = (letters[0] as usize) < bound && (letters[1] as usize) < bound;
    match chosen {
        VectorSize::Bi => first,
        VectorSize::Tri => first && (letters[2] as usize) < bound,
        VectorSize::Quad => {
            first && (letters[2] as usize) < bound && (letters[3] as usize) < bound
        }
    }
}

fn is_swizzled(chosen: VectorSize, letters: &[SwizzleComponent; 4], inner: &TypeInner) -> bool
    ensures { result ≡ is_swizzled chosen letters.now inner.now }
{
    match inner {
        TypeInner::Vector { size, .. } => letters_fit(chosen, letters, *size),
        _ => false,
    }
}

fn access_fits(
    types: &UniqueArena<Type_>,
    known: Known<'_>,
    base: Handle<Expression>,
    index: Handle<Expression>,
) -> bool
    ensures { result
        ≡ (operand_is types.now (known_types known.entry) (has_computed_parts types.now) base
        && operand_is types.now (known_types known.entry) is_integer index) }
{
    let (Some(base), Some(index)) = (
        known_inner(types, known, base),
        known_inner(types, known, index),
    ) else {
        return false;
    };
    has_computed_parts(types, base) && is_integer(index)
}

/// Whether the types of an expression's operands are such as it asks. Each expression but these
/// takes operands of any types:
///
/// - `Access` asks for a base that has parts at computed indexes (a vector, a matrix, an array, or
///   a pointer to one of these; no struct), and for an index that is an integer.
/// - `AccessIndex` into something whose number of parts is known asks for an index below that.
/// - `Splat` asks for a scalar or a vector, and `Swizzle` for a vector that has the components that
///   are chosen.
/// - `Load` asks for a pointer, and `CooperativeLoad` for one to a scalar or a vector.
///
/// An operand whose type is not known, or lies outside the types, is not such.
pub fn operands_fit(types: &UniqueArena<Type_>, known: Known<'_>, expression: &Expression) -> bool
    ensures { result ≡ operands_fit types.now (known_types known.entry) expression.now }
{
    match expression {
        Expression::Access { base, index } => access_fits(types, known, *base, *index),
        Expression::AccessIndex { base, index } => match known_inner(types, known, *base) {
            Some(base) => is_part_number(types, base, *index),
            None => false,
        },
        Expression::Splat { value, .. } => match known_inner(types, known, *value) {
            Some(value) => is_scalar_or_vector(value),
            None => false,
        },
        Expression::Swizzle {
            size,
            vector,
            pattern,
        } => match known_inner(types, known, *vector) {
            Some(vector) => is_swizzled(*size, pattern, vector),
            None => false,
        },
        Expression::Load { pointer } => match known_inner(types, known, *pointer) {
            Some(pointer) => is_pointer(types, pointer),
            None => false,
        },
        Expression::CooperativeLoad { data_, .. } => {
            match known_inner(types, known, data_.pointer) {
                Some(pointer) => points_to_components(types, pointer),
                None => false,
            }
        }
        _ => true,
    }
}
