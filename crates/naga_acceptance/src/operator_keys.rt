//! Keys of operators, equal exactly where WGSL spells the operators alike.

ghost use Rattle.std.specs.Prelude.{◌≡◌, ◌<◌, List, Some};
ghost use Rattle.std.specs.Option.{option_copied, option_map};
ghost use Rattle.std.specs.Str.{bytes_eq};
ghost use Rattle.naga_acceptance.specs.KnownTypes.{inferred, known_types};
ghost use Rattle.naga_acceptance.specs.OperatorKeys.{is_pure, key, told_by_word};
ghost use Rattle.naga_ir.specs.declared.types.Type_ as ir_type;
ghost use Rattle.naga_ir.specs.declared.types.TypeInner as ir_inner;
ghost use Rattle.naga_info.specs.declared.info.TypeResolution.TheVariants.{Value};
ghost use Rattle.module_semantics.specs.acceptance.AgreeingOperators.{constructor_key};
ghost use Rattle.module_semantics.specs.acceptance.AgreeingOperators.{conversion_key};
ghost use Rattle.module_semantics.specs.acceptance.AgreeingOperators.{unsupported_key, letter_number};
ghost use Rattle.module_semantics.specs.acceptance.AgreeingOperators.{one_key};
ghost use Rattle.module_semantics.specs.acceptance.AgreeingOperators.{operator_key, swizzle_key};
ghost use Rattle.module_semantics.specs.acceptance.AgreeingOperators.{target_key};
ghost use Rattle.module_semantics.specs.acceptance.AgreeingOperators.{typed_key, width_number};
ghost use Rattle.module_semantics.specs.acceptance.AgreeingOperators.{word_key};
ghost use Rattle.module_semantics.specs.Conversions.{conversion_target, keeps_bits};

use crate::alike::{are_alike, inferred_has_type_form, inferred_identity};
use crate::parts::{InferredType, Known, component_count, known_inner};
use crate::type_numbers::{Level, is_same_level, kind_number, level_of, truth_number};
use module_semantics::called_str;
use module_semantics::type_parts::converted_scalar;
use naga_ir::{
    Expression, ExpressionKind, Handle, Scalar, ScalarKind, SwizzleComponent, Type_, TypeInner,
    UniqueArena, VectorSize,
};

/// What tells an operator.
#[derive(Debug, Clone, Copy)]
pub(crate) enum Key {
    /// The constructor of a type, or a bit cast to it.
    Typed {
        /// Whether the bits are kept.
        bits: bool,
        /// The type.
        ty: InferredType,
    },
    /// A kind, and up to five numbers.
    Word(Level),
    /// The word by which it is called.
    Called(&'static str),
}

fn typed_key(bits: bool, ty: InferredType) -> Key
    ensures { (types : List ir_type.Type_) →
        key types result ≡ typed_key types bits (inferred ty) }
{
    Key::Typed { bits, ty }
}

fn one_key(kind: usize, number: usize) -> Key
    ensures { (types : List ir_type.Type_) → key types result ≡ one_key kind number }
{
    Key::Word(level_of(kind, number, 0, 0, 0, 0))
}

fn constructor_key(types: &UniqueArena<Type_>, ty: Handle<Type_>) -> Key
    ensures { key types.now result ≡ constructor_key types.now ty }
{
    let constructed = InferredType::Handle(ty);
    if inferred_has_type_form(types, &constructed) {
        typed_key(false, constructed)
    } else {
        one_key(0, ty.index())
    }
}

fn width_number(width: Option<u8>) -> usize
    ensures { result ≡ width_number width }
{
    match width {
        Some(width) => width as usize + 1,
        None => 0,
    }
}

fn unsupported_key(kind: ScalarKind, convert: Option<u8>) -> Key
    ensures { (types : List ir_type.Type_) → key types result ≡ unsupported_key kind convert }
{
    Key::Word(level_of(1, kind_number(kind), width_number(convert), 0, 0, 0))
}

/// What a value of this type is converted to, if it is converted.
fn conversion_target(
    operand: &TypeInner,
    kind: ScalarKind,
    convert: Option<u8>,
) -> Option<InferredType>
    ensures { option_map inferred result
        ≡ option_map (λ it. Value it) (conversion_target operand.now kind convert) }
{
    match operand {
        TypeInner::Scalar(scalar) => {
            Some(InferredType::Scalar(converted_scalar(*scalar, kind, convert)))
        }
        TypeInner::Vector { size, scalar } => Some(InferredType::Vector {
            size: *size,
            scalar: converted_scalar(*scalar, kind, convert),
        }),
        TypeInner::Matrix {
            columns,
            rows,
            scalar,
        } => Some(InferredType::Matrix {
            columns: *columns,
            rows: *rows,
            scalar: converted_scalar(*scalar, kind, convert),
        }),
        _ => None,
    }
}

/// Whether the bits are kept and read as a value of the other type.
fn keeps_bits(operand: &TypeInner, convert: Option<u8>) -> bool
    ensures { result ≡ keeps_bits operand.now convert }
{
    match operand {
        TypeInner::Matrix { .. } => false,
        _ => convert.is_none(),
    }
}

fn target_key(
    types: &UniqueArena<Type_>,
    kind: ScalarKind,
    convert: Option<u8>,
    bits: bool,
    target: &InferredType,
) -> Key
    ensures { (it : ir_inner.TypeInner) → inferred target.now ≡ Value it →
        key types.now result ≡ target_key types.now kind convert bits it }
{
    if inferred_has_type_form(types, target) {
        typed_key(bits, *target)
    } else {
        unsupported_key(kind, convert)
    }
}

fn conversion_key(
    types: &UniqueArena<Type_>,
    kind: ScalarKind,
    convert: Option<u8>,
    operand: Option<&TypeInner>,
) -> Key
    ensures { key types.now result
        ≡ conversion_key types.now kind convert (option_copied operand.entry) }
{
    let Some(operand) = operand else {
        return unsupported_key(kind, convert);
    };
    match conversion_target(operand, kind, convert) {
        Some(target) => {
            let bits = keeps_bits(operand, convert);
            target_key(types, kind, convert, bits, &target)
        }
        None => unsupported_key(kind, convert),
    }
}

/// The letter of this number in a swizzle, of which `size` are written.
fn letter_number(size: VectorSize, pattern: &[SwizzleComponent; 4], number: usize) -> usize
    requires { number < 4 }
    ensures { result ≡ letter_number size pattern.now number }
{
    if number < component_count(size) {
        pattern[number] as usize
    } else {
        0
    }
}

fn swizzle_key(size: VectorSize, pattern: &[SwizzleComponent; 4]) -> Key
    ensures { (types : List ir_type.Type_) → key types result ≡ swizzle_key size pattern.now }
{
    Key::Word(level_of(
        5,
        component_count(size),
        letter_number(size, pattern, 0),
        letter_number(size, pattern, 1),
        letter_number(size, pattern, 2),
        letter_number(size, pattern, 3),
    ))
}

fn is_pure(kind: ExpressionKind) -> bool
    ensures { result ≡ is_pure kind }
{
    matches!(kind, ExpressionKind::Pure)
}

/// The word of the operator that an expression applies by itself, if it has one and asks for no event.
fn told_by_word(expression: &Expression) -> Option<&'static str>
    ensures { option_map (λ w. w.now) result ≡ told_by_word expression.now }
{
    if is_pure(expression.kind()) {
        called_str(expression)
    } else {
        None
    }
}

/// What tells the operator of an expression; leaves, results and what asks for an event have none.
pub(crate) fn operator_key(
    types: &UniqueArena<Type_>,
    known: Known<'_>,
    expression: &Expression,
) -> Option<Key>
    ensures { option_map (key types.now) result
        ≡ operator_key types.now (known_types known.entry) expression.now }
{
    Some(match expression {
        Expression::Compose { ty, .. } => constructor_key(types, *ty),
        Expression::As {
            expr,
            kind,
            convert,
        } => conversion_key(types, *kind, *convert, known_inner(types, known, *expr)),
        Expression::Access { .. } => one_key(3, 0),
        Expression::AccessIndex { index, .. } => one_key(4, *index as usize),
        Expression::Swizzle { size, pattern, .. } => swizzle_key(*size, pattern),
        Expression::Unary { op, .. } => one_key(6, *op as usize),
        Expression::Binary { op, .. } => one_key(7, *op as usize),
        Expression::Relational { fun, .. } => one_key(9, *fun as usize),
        Expression::Math { fun, .. } => one_key(10, *fun as usize),
        Expression::RayQueryGetIntersection { committed, .. } => {
            one_key(13, truth_number(*committed))
        }
        Expression::RayQueryVertexPositions { committed, .. } => {
            one_key(14, truth_number(*committed))
        }
        _ => Key::Called(told_by_word(expression)?),
    })
}

/// Whether two operators are told by the same.
pub(crate) fn is_same_key(types: &UniqueArena<Type_>, a: &Key, b: &Key) -> bool
    ensures { result ≡ bytes_eq (key types.now a.now) (key types.now b.now) }
{
    match (a, b) {
        (Key::Typed { bits: x, ty: s }, Key::Typed { bits: y, ty: t }) => {
            x == y
                && are_alike(
                    types,
                    inferred_identity(types, s),
                    inferred_identity(types, t),
                )
        }
        (Key::Word(x), Key::Word(y)) => is_same_level(x, y),
        (Key::Called(x), Key::Called(y)) => *x == *y,
        _ => false,
    }
}
