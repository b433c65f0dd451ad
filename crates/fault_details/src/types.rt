//! Which type a fault of types expected, and which it found.

ghost use Rattle.std.specs.Prelude.{◌≡◌, [], false, take};
ghost use Rattle.std.specs.Option.{option_and_then, option_copied, option_map, option_map_or};
ghost use Rattle.module_semantics.specs.TypeIdentity.{component_count};
ghost use Rattle.module_semantics.specs.TypeParts.{known_inner, part_count};
ghost use Rattle.naga_acceptance.specs.KnownTypes.{inferred, known_types, allowed};
ghost use Rattle.naga_info.specs.Resolution.{inner_of};
ghost use Rattle.fault_details.specs.Demands.{Gives, HasLetter, HasPart, HasType, OfEach, OfSome};
ghost use Rattle.fault_details.specs.Demands.{One, Then, has_letter, is_in_class, of_class};
ghost use Rattle.fault_details.specs.Demands.{of_type, unmet};
ghost use Rattle.fault_details.specs.Reasons.{expected_demands, letter_demands, operand_demands};
ghost use Rattle.fault_details.specs.Reasons.{own_type_demands, typeless_demands};
ghost use Rattle.fault_details.specs.Shown.{shown};

use crate::reasons::Reason;
use crate::words::TypeClass;
use module_semantics::type_parts::inner_of;
use naga_acceptance::alike::is_like;
use naga_acceptance::demands::{is_integer, is_pointer, is_scalar_or_vector, points_to_components};
use naga_acceptance::expression_types::{AllowedType, expected_type, is_bool};
use naga_acceptance::parts::{
    InferredType, Known, component_count, has_computed_parts, known_inner, known_type, part_count,
    vector_scalar,
};
use naga_acceptance::statements::{is_selector_type, points_to_atomic};
use naga_info::TypeResolution;
use naga_ir::{
    Expression, Function, Handle, Module, SwizzleComponent, Type_, TypeInner, UniqueArena,
    VectorSize,
};

fn is_selector(inner: &TypeInner) -> bool
    ensures { result ≡ is_in_class [] TypeClass.Selector inner.now }
{
    match inner {
        TypeInner::Scalar(scalar) => is_selector_type(*scalar),
        _ => false,
    }
}

/// Whether a type is of a class.
fn is_in_class(types: &UniqueArena<Type_>, class: TypeClass, inner: &TypeInner) -> bool
    ensures { result ≡ is_in_class types.now class inner.now }
{
    match class {
        TypeClass::Bool => is_bool(inner),
        TypeClass::Integer => is_integer(inner),
        TypeClass::Selector => is_selector(inner),
        TypeClass::Components => is_scalar_or_vector(inner),
        TypeClass::Vector => vector_scalar(inner).is_some(),
        TypeClass::Composite => has_computed_parts(types, inner),
        TypeClass::Pointer => is_pointer(types, inner),
        TypeClass::ComponentsPointer => points_to_components(types, inner),
        TypeClass::AtomicPointer => points_to_atomic(types, inner),
    }
}

fn is_of_class(types: &UniqueArena<Type_>, class: TypeClass, ty: &TypeResolution) -> bool
    ensures { result ≡ option_map_or (is_in_class types.now class) (inner_of ty.now types.now)
        false }
{
    match inner_of(types, ty) {
        Some(inner) => is_in_class(types, class, inner),
        None => false,
    }
}

/// The type of an expression, if it is of none of a class.
pub(crate) fn class_reason<'a>(
    types: &'a UniqueArena<Type_>,
    known: Known<'a>,
    class: TypeClass,
    handle: Handle<Expression>,
) -> Option<Reason<'a>>
    ensures { option_map shown result
        ≡ unmet types.now (of_class (known_types known.entry) class handle) }
{
    match known_type(known, handle) {
        Some(got) => {
            if is_of_class(types, class, got) {
                None
            } else {
                Some(Reason::OtherClass { class, got })
            }
        }
        None => None,
    }
}

/// A type, if it is not like the one that is expected.
fn unlike<'a>(
    types: &UniqueArena<Type_>,
    expected: InferredType,
    got: &'a TypeResolution,
) -> Option<Reason<'a>>
    ensures { option_map shown result
        ≡ unmet types.now (One (HasType (inferred expected) got.now)) }
{
    if is_like(types, got, &expected) {
        None
    } else {
        Some(Reason::OtherType { expected, got })
    }
}

/// The type that is known of an expression, if it is not like the one that this gives.
fn known_unlike<'a>(
    types: &UniqueArena<Type_>,
    gives: InferredType,
    known: &'a TypeResolution,
) -> Option<Reason<'a>>
    ensures { option_map shown result ≡ unmet types.now (One (Gives (inferred gives) known.now)) }
{
    if is_like(types, known, &gives) {
        None
    } else {
        Some(Reason::KnownType { gives, known })
    }
}

/// The type of an expression, if it is another than the one that is expected.
pub(crate) fn type_reason<'a>(
    types: &'a UniqueArena<Type_>,
    known: Known<'a>,
    expected: InferredType,
    handle: Handle<Expression>,
) -> Option<Reason<'a>>
    ensures { option_map shown result
        ≡ unmet types.now (of_type (known_types known.entry) (inferred expected) handle) }
{
    match known_type(known, handle) {
        Some(got) => unlike(types, expected, got),
        None => None,
    }
}

/// Why an expression stands for nothing that has a type.
fn typeless_reason<'a>(
    types: &'a UniqueArena<Type_>,
    known: Known<'a>,
    own: &'a TypeResolution,
    expression: &Expression,
) -> Option<Reason<'a>>
    ensures { option_map shown result
        ≡ unmet types.now (typeless_demands (known_types known.entry) own.now expression.now) }
{
    match expression {
        Expression::Access { base, .. } => {
            class_reason(types, known, TypeClass::Composite, *base)
        }
        Expression::Splat { value, .. } => {
            class_reason(types, known, TypeClass::Components, *value)
        }
        Expression::Swizzle { vector, .. } => {
            class_reason(types, known, TypeClass::Vector, *vector)
        }
        Expression::Load { pointer } => class_reason(types, known, TypeClass::Pointer, *pointer),
        Expression::CallResult(_) => Some(Reason::Unexpected { got: own }),
        _ => None,
    }
}

fn expected_reason<'a>(
    types: &'a UniqueArena<Type_>,
    known: Known<'a>,
    own: &'a TypeResolution,
    expression: &Expression,
    demand: AllowedType,
) -> Option<Reason<'a>>
    ensures { option_map shown result ≡ unmet types.now (expected_demands
        (known_types known.entry) own.now expression.now (allowed demand)) }
{
    match demand {
        AllowedType::LikeThis(gives) => known_unlike(types, gives, own),
        AllowedType::Anything => None,
        AllowedType::Nothing => typeless_reason(types, known, own, expression),
    }
}

/// The type that is known of an expression, if it is another than what it stands for has.
pub(crate) fn own_type_reason<'a>(
    module: &'a Module,
    function: Option<&Function>,
    known: Known<'a>,
    handle: Handle<Expression>,
    expression: &Expression,
) -> Option<Reason<'a>>
    ensures { option_map shown result ≡ unmet «module».now.types (own_type_demands «module».now
        (option_copied function.entry) (known_types known.entry) handle expression.now) }
{
    match known_type(known, handle) {
        Some(own) => {
            let demand = expected_type(module, function, known, expression);
            expected_reason(&module.types, known, own, expression, demand)
        }
        None => None,
    }
}

fn index_reason<'a>(index: u32, count: usize) -> Option<Reason<'a>>
    ensures { option_map shown result ≡ unmet [] (One (HasPart index count)) }
{
    let got = index as usize;
    if got < count {
        None
    } else {
        Some(Reason::PastParts { count, got })
    }
}

fn part_number_reason<'a>(
    types: &'a UniqueArena<Type_>,
    known: Known<'a>,
    base: Handle<Expression>,
    index: u32,
) -> Option<Reason<'a>>
    ensures { option_map shown result ≡ unmet types.now (OfSome (λ count. One (HasPart index count))
        (option_and_then (part_count types.now)
        (known_inner types.now (known_types known.entry) base))) }
{
    match known_inner(types, known, base) {
        Some(inner) => match part_count(types, inner) {
            Some(count) => index_reason(index, count),
            None => None,
        },
        None => None,
    }
}

/// Whether a type has a component for a letter.
fn has_letter(letter: SwizzleComponent, inner: &TypeInner) -> bool
    ensures { result ≡ has_letter letter inner.now }
{
    match inner {
        TypeInner::Vector { size, .. } => (letter as usize) < component_count(*size),
        _ => false,
    }
}

fn resolution_has_letter(
    types: &UniqueArena<Type_>,
    letter: SwizzleComponent,
    ty: &TypeResolution,
) -> bool
    ensures { result ≡ option_map_or (has_letter letter) (inner_of ty.now types.now) false }
{
    match inner_of(types, ty) {
        Some(inner) => has_letter(letter, inner),
        None => false,
    }
}

/// A type that has no component for a letter.
fn letter_reason<'a>(
    types: &UniqueArena<Type_>,
    got: &'a TypeResolution,
    letter: SwizzleComponent,
) -> Option<Reason<'a>>
    ensures { option_map shown result ≡ unmet types.now (One (HasLetter got.now letter)) }
{
    if resolution_has_letter(types, letter, got) {
        None
    } else {
        Some(Reason::LacksLetter { letter, got })
    }
}

/// The first letter for which a type has no component.
fn letters_reason<'a>(
    types: &UniqueArena<Type_>,
    got: &'a TypeResolution,
    letters: &[SwizzleComponent],
) -> Option<Reason<'a>>
    ensures { option_map shown result
        ≡ unmet types.now (OfEach (λ letter. One (HasLetter got.now letter)) letters.now) }
{
    for letter in letters {
        let found = letter_reason(types, got, *letter);
        if found.is_some() {
            return found;
        }
    }
    None
}

/// The letters of a swizzle, as many as are chosen.
fn chosen_letters(chosen: VectorSize, letters: &[SwizzleComponent; 4]) -> &[SwizzleComponent]
    ensures { result.now ≡ take (component_count chosen) letters.now }
{
    match chosen {
        VectorSize::Bi => &letters[..2],
        VectorSize::Tri => &letters[..3],
        VectorSize::Quad => &letters[..4],
    }
}

fn swizzle_reason<'a>(
    types: &'a UniqueArena<Type_>,
    known: Known<'a>,
    chosen: VectorSize,
    letters: &[SwizzleComponent; 4],
    vector: Handle<Expression>,
) -> Option<Reason<'a>>
    ensures { option_map shown result
        ≡ unmet types.now (Then (of_class (known_types known.entry) TypeClass.Vector vector)
        (letter_demands (known_types known.entry) chosen letters.now vector)) }
{
    let found = class_reason(types, known, TypeClass::Vector, vector);
    if found.is_some() {
        return found;
    }
    match known_type(known, vector) {
        Some(got) => letters_reason(types, got, chosen_letters(chosen, letters)),
        None => None,
    }
}

fn access_reason<'a>(
    types: &'a UniqueArena<Type_>,
    known: Known<'a>,
    base: Handle<Expression>,
    index: Handle<Expression>,
) -> Option<Reason<'a>>
    ensures { option_map shown result
        ≡ unmet types.now (Then (of_class (known_types known.entry) TypeClass.Composite base)
        (of_class (known_types known.entry) TypeClass.Integer index)) }
{
    let found = class_reason(types, known, TypeClass::Composite, base);
    if found.is_some() {
        return found;
    }
    class_reason(types, known, TypeClass::Integer, index)
}

/// What an expression asks of its operands and does not get.
pub(crate) fn operand_reason<'a>(
    types: &'a UniqueArena<Type_>,
    known: Known<'a>,
    expression: &Expression,
) -> Option<Reason<'a>>
    ensures { option_map shown result ≡ unmet types.now
        (operand_demands types.now (known_types known.entry) expression.now) }
{
    match expression {
        Expression::Access { base, index } => access_reason(types, known, *base, *index),
        Expression::AccessIndex { base, index } => {
            part_number_reason(types, known, *base, *index)
        }
        Expression::Splat { value, .. } => {
            class_reason(types, known, TypeClass::Components, *value)
        }
        Expression::Swizzle {
            size,
            vector,
            pattern,
        } => swizzle_reason(types, known, *size, pattern, *vector),
        Expression::Load { pointer } => class_reason(types, known, TypeClass::Pointer, *pointer),
        Expression::CooperativeLoad { data_, .. } => {
            class_reason(types, known, TypeClass::ComponentsPointer, data_.pointer)
        }
        _ => None,
    }
}
