//! The type of one expression, by those of its operands: what acceptance gives it, and where that
//! leaves the type open, what naga's typifier does.

ghost use Rattle.std.specs.Prelude.{◌≡◌};
ghost use Rattle.std.specs.Option.{option_and_then, option_copied};
ghost use Rattle.naga_acceptance.specs.KnownTypes.{inferred, known_types};
ghost use Rattle.module_semantics.specs.ExpressionOperators.{pointee_scalar, scalar_in};
ghost use Rattle.module_semantics.specs.TypeParts.{known_inner};
ghost use Rattle.module_semantics.specs.acceptance.ExpressionTypes.{vector_of};
ghost use Rattle.naga_inference.specs.Functions.{answered, math_answer};
ghost use Rattle.naga_inference.specs.Inferred.{inferred_type, missing_of};
ghost use Rattle.naga_inference.specs.Rules.{binary_rule, class_type, conversion_type};
ghost use Rattle.naga_inference.specs.Rules.{format_scalar, gathered_type, has_special_type};
ghost use Rattle.naga_inference.specs.Rules.{image_type};
ghost use Rattle.naga_inference.specs.Rules.{loaded_matrix, matrix_product, product};
ghost use Rattle.naga_inference.specs.Rules.{product_of, product_type, query_type};
ghost use Rattle.naga_inference.specs.Rules.{relational_type, rule_type, scaled, size_type};
ghost use Rattle.naga_inference.specs.Rules.{special_type};
ghost use Rattle.naga_inference.specs.Rules.{texel_type, truth_type, vector_product};
ghost use Rattle.naga_inference.specs.Types.{same, same_as, same_inner, scalar_type};

use crate::functions::{MathAnswer, math_answer};
use module_semantics::type_parts::{converted_scalar, inner_at, inner_of};
use naga_acceptance::expression_types::{AllowedType, expected_type};
use naga_acceptance::parts::{Known, known_inner, known_type};
use naga_info::TypeResolution;
use naga_ir::{
    BinaryOperator, CooperativeRole, CooperativeSize, Expression, Function, Handle, ImageClass,
    ImageDimension, ImageQuery, MathFunction, Module, RelationalFunction, Scalar, ScalarKind,
    StorageFormat, Type_, TypeInner, UniqueArena, VectorSize,
};

fn scalar(of: Scalar) -> TypeResolution
    ensures { result ≡ scalar_type of }
{
    TypeResolution::Value(TypeInner::Scalar(of))
}

fn vector(size: VectorSize, of: Scalar) -> TypeResolution
    ensures { result ≡ vector_of size of }
{
    TypeResolution::Value(TypeInner::Vector { size, scalar: of })
}

/// The same type once more, but for a struct, which no type by itself is.
fn same_inner(inner: &TypeInner) -> Option<TypeInner>
    ensures { result ≡ same_inner inner.now }
{
    match inner {
        TypeInner::Scalar(scalar) => Some(TypeInner::Scalar(*scalar)),
        TypeInner::Vector { size, scalar } => Some(TypeInner::Vector {
            size: *size,
            scalar: *scalar,
        }),
        TypeInner::Matrix {
            columns,
            rows,
            scalar,
        } => Some(TypeInner::Matrix {
            columns: *columns,
            rows: *rows,
            scalar: *scalar,
        }),
        TypeInner::CooperativeMatrix {
            columns,
            rows,
            scalar,
            role,
        } => Some(TypeInner::CooperativeMatrix {
            columns: *columns,
            rows: *rows,
            scalar: *scalar,
            role: *role,
        }),
        TypeInner::Atomic(scalar) => Some(TypeInner::Atomic(*scalar)),
        TypeInner::Pointer { base, space } => Some(TypeInner::Pointer {
            base: *base,
            space: *space,
        }),
        TypeInner::ValuePointer {
            size,
            scalar,
            space,
        } => Some(TypeInner::ValuePointer {
            size: *size,
            scalar: *scalar,
            space: *space,
        }),
        TypeInner::Array { base, size, stride } => Some(TypeInner::Array {
            base: *base,
            size: *size,
            stride: *stride,
        }),
        TypeInner::BindingArray { base, size } => Some(TypeInner::BindingArray {
            base: *base,
            size: *size,
        }),
        TypeInner::Image {
            dim,
            arrayed,
            class,
        } => Some(TypeInner::Image {
            dim: *dim,
            arrayed: *arrayed,
            class: *class,
        }),
        TypeInner::Sampler { comparison } => Some(TypeInner::Sampler {
            comparison: *comparison,
        }),
        TypeInner::AccelerationStructure { vertex_return } => {
            Some(TypeInner::AccelerationStructure {
                vertex_return: *vertex_return,
            })
        }
        TypeInner::RayQuery { vertex_return } => Some(TypeInner::RayQuery {
            vertex_return: *vertex_return,
        }),
        TypeInner::Struct { .. } => None,
    }
}

fn same(ty: &TypeResolution) -> Option<TypeResolution>
    ensures { result ≡ same ty.now }
{
    match ty {
        TypeResolution::Handle(handle) => Some(TypeResolution::Handle(*handle)),
        TypeResolution::Value(inner) => match same_inner(inner) {
            Some(inner) => Some(TypeResolution::Value(inner)),
            None => None,
        },
    }
}

/// The type of an operand once more.
fn same_as(known: Known<'_>, operand: Handle<Expression>) -> Option<TypeResolution>
    ensures { result ≡ same_as (known_types known.entry) operand }
{
    match known_type(known, operand) {
        Some(ty) => same(ty),
        None => None,
    }
}

/// The scalar of the components that a texel of this format is read as.
fn format_scalar(format: StorageFormat) -> Scalar
    ensures { result ≡ format_scalar format }
{
    match format {
        StorageFormat::R8Uint
        | StorageFormat::Rg8Uint
        | StorageFormat::Rgba8Uint
        | StorageFormat::R16Uint
        | StorageFormat::Rg16Uint
        | StorageFormat::Rgba16Uint
        | StorageFormat::R32Uint
        | StorageFormat::Rg32Uint
        | StorageFormat::Rgba32Uint
        | StorageFormat::Rgb10a2Uint => Scalar::U32,
        StorageFormat::R8Sint
        | StorageFormat::Rg8Sint
        | StorageFormat::Rgba8Sint
        | StorageFormat::R16Sint
        | StorageFormat::Rg16Sint
        | StorageFormat::Rgba16Sint
        | StorageFormat::R32Sint
        | StorageFormat::Rg32Sint
        | StorageFormat::Rgba32Sint => Scalar::I32,
        StorageFormat::R64Uint => Scalar::U64,
        _ => Scalar::F32,
    }
}

/// What `textureGather` gives.
fn gathered_type(class: ImageClass) -> TypeResolution
    ensures { result ≡ gathered_type class }
{
    match class {
        ImageClass::Sampled { kind, .. } => vector(VectorSize::Quad, Scalar { kind, width: 4 }),
        _ => vector(VectorSize::Quad, Scalar::F32),
    }
}

/// What `textureSample` and `textureLoad` give.
fn texel_type(class: ImageClass) -> TypeResolution
    ensures { result ≡ texel_type class }
{
    match class {
        ImageClass::Sampled { kind, .. } => vector(VectorSize::Quad, Scalar { kind, width: 4 }),
        ImageClass::Depth { .. } => scalar(Scalar::F32),
        ImageClass::External => vector(VectorSize::Quad, Scalar::F32),
        ImageClass::Storage { format, .. } => vector(VectorSize::Quad, format_scalar(format)),
    }
}

fn class_type(class: ImageClass, gathers: bool) -> TypeResolution
    ensures { result ≡ class_type class gathers }
{
    if gathers {
        gathered_type(class)
    } else {
        texel_type(class)
    }
}

fn image_type(image: Option<&TypeInner>, gathers: bool) -> Option<TypeResolution>
    ensures { result ≡ option_and_then (image_type gathers) (option_copied image.entry) }
{
    match image {
        Some(TypeInner::Image { class, .. }) => Some(class_type(*class, gathers)),
        _ => None,
    }
}

fn size_type(dim: ImageDimension) -> TypeResolution
    ensures { result ≡ size_type dim }
{
    match dim {
        ImageDimension::D1 => scalar(Scalar::U32),
        ImageDimension::D2 | ImageDimension::Cube => vector(VectorSize::Bi, Scalar::U32),
        ImageDimension::D3 => vector(VectorSize::Tri, Scalar::U32),
    }
}

fn query_type(image: Option<&TypeInner>, query: ImageQuery) -> Option<TypeResolution>
    ensures { result ≡ query_type query (option_copied image.entry) }
{
    match (query, image) {
        (ImageQuery::Size { .. }, Some(TypeInner::Image { dim, .. })) => Some(size_type(*dim)),
        (ImageQuery::Size { .. }, _) => None,
        _ => Some(scalar(Scalar::U32)),
    }
}

/// `bool`, or as many of them as the operand has components.
fn truth_type(operand: Option<&TypeInner>) -> Option<TypeResolution>
    ensures { result ≡ option_and_then truth_type (option_copied operand.entry) }
{
    match operand {
        Some(TypeInner::Scalar(_)) => Some(scalar(Scalar::BOOL)),
        Some(TypeInner::Vector { size, .. }) => Some(vector(*size, Scalar::BOOL)),
        _ => None,
    }
}

/// The product of a matrix and what stands after it.
fn matrix_product(
    columns: VectorSize,
    rows: VectorSize,
    of: Scalar,
    left: &TypeResolution,
    other: &TypeInner,
) -> Option<TypeResolution>
    ensures { result ≡ matrix_product columns rows of left.now other.now }
{
    match other {
        TypeInner::Matrix { columns, .. } => Some(TypeResolution::Value(TypeInner::Matrix {
            columns: *columns,
            rows,
            scalar: of,
        })),
        TypeInner::Vector { .. } => Some(vector(rows, of)),
        TypeInner::Scalar(_) => same(left),
        _ => None,
    }
}

/// The product of a vector and what stands after it.
fn vector_product(left: &TypeResolution, other: &TypeInner) -> Option<TypeResolution>
    ensures { result ≡ vector_product left.now other.now }
{
    match other {
        TypeInner::Matrix {
            columns,
            scalar,
            ..
        } => Some(vector(*columns, *scalar)),
        TypeInner::Vector { .. } | TypeInner::Scalar(_) => same(left),
        _ => None,
    }
}

/// The product of a value of any other type and a number.
fn scaled(left: &TypeResolution, other: &TypeInner) -> Option<TypeResolution>
    ensures { result ≡ scaled left.now other.now }
{
    match other {
        TypeInner::Scalar(_) => same(left),
        _ => None,
    }
}

fn product_type(
    left: &TypeResolution,
    right: &TypeResolution,
    one: &TypeInner,
    other: &TypeInner,
) -> Option<TypeResolution>
    ensures { result ≡ product_type left.now right.now one.now other.now }
{
    match one {
        TypeInner::Scalar(_) => same(right),
        TypeInner::Matrix {
            columns,
            rows,
            scalar,
        } => matrix_product(*columns, *rows, *scalar, left, other),
        TypeInner::Vector { .. } => vector_product(left, other),
        _ => scaled(left, other),
    }
}

fn product_of(
    types: &UniqueArena<Type_>,
    left: &TypeResolution,
    right: &TypeResolution,
) -> Option<TypeResolution>
    ensures { result ≡ product_of types.now left.now right.now }
{
    let one = inner_of(types, left)?;
    let other = inner_of(types, right)?;
    product_type(left, right, one, other)
}

/// Which product `*` makes.
fn product(
    types: &UniqueArena<Type_>,
    known: Known<'_>,
    left: Handle<Expression>,
    right: Handle<Expression>,
) -> Option<TypeResolution>
    ensures { result ≡ product types.now (known_types known.entry) left right }
{
    let left = known_type(known, left)?;
    let right = known_type(known, right)?;
    product_of(types, left, right)
}

fn binary_rule(
    types: &UniqueArena<Type_>,
    known: Known<'_>,
    op: BinaryOperator,
    left: Handle<Expression>,
    right: Handle<Expression>,
) -> Option<TypeResolution>
    ensures { result ≡ binary_rule types.now (known_types known.entry) op left right }
{
    match op {
        BinaryOperator::Multiply => product(types, known, left, right),
        BinaryOperator::Equal
        | BinaryOperator::NotEqual
        | BinaryOperator::Less
        | BinaryOperator::LessEqual
        | BinaryOperator::Greater
        | BinaryOperator::GreaterEqual => truth_type(known_inner(types, known, left)),
        BinaryOperator::LogicalAnd | BinaryOperator::LogicalOr => None,
        BinaryOperator::Add
        | BinaryOperator::Subtract
        | BinaryOperator::Divide
        | BinaryOperator::Modulo
        | BinaryOperator::And
        | BinaryOperator::ExclusiveOr
        | BinaryOperator::InclusiveOr
        | BinaryOperator::ShiftLeft
        | BinaryOperator::ShiftRight => same_as(known, left),
    }
}

fn relational_type(fun: RelationalFunction, argument: Option<&TypeInner>) -> Option<TypeResolution>
    ensures { result ≡ relational_type fun (option_copied argument.entry) }
{
    match fun {
        RelationalFunction::All | RelationalFunction::Any => Some(scalar(Scalar::BOOL)),
        RelationalFunction::IsNan | RelationalFunction::IsInf => truth_type(argument),
    }
}

fn conversion_type(
    operand: Option<&TypeInner>,
    kind: ScalarKind,
    convert: Option<u8>,
) -> Option<TypeResolution>
    ensures { result ≡ option_and_then (conversion_type kind convert)
        (option_copied operand.entry) }
{
    match operand {
        Some(TypeInner::Scalar(of)) => Some(scalar(converted_scalar(*of, kind, convert))),
        Some(TypeInner::Vector { size, scalar }) => {
            Some(vector(*size, converted_scalar(*scalar, kind, convert)))
        }
        Some(
            TypeInner::Matrix {
                columns,
                rows,
                scalar,
            },
        ) => Some(TypeResolution::Value(TypeInner::Matrix {
            columns: *columns,
            rows: *rows,
            scalar: converted_scalar(*scalar, kind, convert),
        })),
        _ => None,
    }
}

/// What a function of numbers gives.
fn called_type(
    module: &Module,
    known: Known<'_>,
    fun: MathFunction,
    arg: Handle<Expression>,
    arg1: Option<Handle<Expression>>,
) -> Option<TypeResolution>
    ensures { result ≡ option_and_then
        (λ it. answered (same_as (known_types known.entry) arg)
        (math_answer «module».now.special_types fun it
        (option_and_then (known_inner «module».now.types (known_types known.entry)) arg1)))
        (known_inner «module».now.types (known_types known.entry) arg) }
{
    let types = &module.types;
    let operand = known_inner(types, known, arg)?;
    let second = match arg1 {
        Some(second) => known_inner(types, known, second),
        None => None,
    };
    match math_answer(&module.special_types, fun, operand, second) {
        MathAnswer::OfOperand => same_as(known, arg),
        MathAnswer::OfType(ty) => Some(ty),
        MathAnswer::Nothing => None,
    }
}

/// The scalar of a scalar, or of a vector's components.
fn scalar_in(inner: &TypeInner) -> Option<Scalar>
    ensures { result ≡ scalar_in inner.now }
{
    match inner {
        TypeInner::Scalar(scalar) | TypeInner::Vector { scalar, .. } => Some(*scalar),
        _ => None,
    }
}

fn pointee_scalar(types: &UniqueArena<Type_>, pointer: Option<&TypeInner>) -> Option<Scalar>
    ensures { result ≡ option_and_then (pointee_scalar types.now) (option_copied pointer.entry) }
{
    match pointer {
        Some(TypeInner::Pointer { base, .. }) => scalar_in(inner_at(types, *base)?),
        Some(TypeInner::ValuePointer { scalar, .. }) => Some(*scalar),
        _ => None,
    }
}

fn loaded_matrix(
    columns: CooperativeSize,
    rows: CooperativeSize,
    role: CooperativeRole,
    scalar: Option<Scalar>,
) -> Option<TypeResolution>
    ensures { result ≡ loaded_matrix columns rows role scalar }
{
    match scalar {
        Some(scalar) => Some(TypeResolution::Value(TypeInner::CooperativeMatrix {
            columns,
            rows,
            scalar,
            role,
        })),
        None => None,
    }
}

fn special_type(told: Option<Handle<Type_>>) -> Option<TypeResolution>
    ensures { result ≡ special_type told }
{
    match told {
        Some(handle) => Some(TypeResolution::Handle(handle)),
        None => None,
    }
}

/// The type of an expression whose type acceptance leaves open.
fn rule_type(module: &Module, known: Known<'_>, expression: &Expression) -> Option<TypeResolution>
    ensures { result ≡ rule_type «module».now (known_types known.entry) expression.now }
{
    let types = &module.types;
    match expression {
        Expression::ImageSample { image, gather, .. } => {
            image_type(known_inner(types, known, *image), gather.is_some())
        }
        Expression::ImageLoad { image, .. } => image_type(known_inner(types, known, *image), false),
        Expression::ImageQuery { image, query } => {
            query_type(known_inner(types, known, *image), *query)
        }
        Expression::Unary { expr, .. } | Expression::Derivative { expr, .. } => {
            same_as(known, *expr)
        }
        Expression::Binary { op, left, right } => binary_rule(types, known, *op, *left, *right),
        Expression::Select { accept, .. } => same_as(known, *accept),
        Expression::Relational { fun, argument } => {
            relational_type(*fun, known_inner(types, known, *argument))
        }
        Expression::Math { fun, arg, arg1, .. } => called_type(module, known, *fun, *arg, *arg1),
        Expression::As {
            expr,
            kind,
            convert,
        } => conversion_type(known_inner(types, known, *expr), *kind, *convert),
        Expression::ArrayLength(_) => Some(scalar(Scalar::U32)),
        Expression::RayQueryProceedResult => Some(scalar(Scalar::BOOL)),
        Expression::RayQueryGetIntersection { .. } => {
            special_type(module.special_types.ray_intersection)
        }
        Expression::RayQueryVertexPositions { .. } => {
            special_type(module.special_types.ray_vertex_return)
        }
        Expression::SubgroupBallotResult => Some(vector(VectorSize::Quad, Scalar::U32)),
        Expression::CooperativeLoad {
            columns,
            rows,
            role,
            data_,
        } => {
            let pointer = known_inner(types, known, data_.pointer);
            loaded_matrix(*columns, *rows, *role, pointee_scalar(types, pointer))
        }
        Expression::CooperativeMultiplyAdd { c, .. } => same_as(known, *c),
        _ => None,
    }
}

/// What an expression lacks that has no type.
#[derive(Debug, Clone, Copy, PartialEq, Eq)]
pub enum Missing {
    /// A rule that gives it one.
    Rule,
    /// A special type of the module.
    SpecialType,
}

/// Whether an expression's type is one that a module tells among its special types
/// ([`SpecialTypes`](naga_ir::SpecialTypes)): what `modf` and `frexp` give, and what a ray query
/// found.
pub fn has_special_type(expression: &Expression) -> bool
    ensures { result ≡ has_special_type expression.now }
{
    match expression {
        Expression::Math { fun, .. } => matches!(fun, MathFunction::Modf | MathFunction::Frexp),
        Expression::RayQueryGetIntersection { .. } | Expression::RayQueryVertexPositions { .. } => {
            true
        }
        _ => false,
    }
}

/// What an expression without a type lacks.
pub(crate) fn missing_of(expression: &Expression) -> Missing
    ensures { result ≡ missing_of expression.now }
{
    if has_special_type(expression) {
        Missing::SpecialType
    } else {
        Missing::Rule
    }
}

/// The type of an expression, by the module and the types of the expressions that stand before it.
/// `function` is the one in which it stands, and `None` for the module's own expressions.
///
/// It is the type that acceptance gives the expression ([`expected_type`]). Where acceptance takes
/// any type, it is what naga's typifier gives:
///
/// - An operator of one operand, a derivative, a `Select` (by what it accepts), and most functions
///   of numbers have the type of that operand. So have `+`, `-`, `/`, `%` and the operators on bits
///   by their left operand, and a product of cooperative matrices by its summand.
/// - A comparison is `bool`, or a vector of as many as its left operand has components; `all` and
///   `any` are `bool`.
/// - `*` has the type of the operand that is no scalar; of a matrix and a vector it is a vector,
///   and of two matrices a matrix.
/// - A conversion has its operand's type over the scalar that it names.
/// - A texel is a vector of four of its image's scalars, of a depth image one `f32`; a gather has
///   four in any case. Sizes and lengths are of `u32`.
/// - `modf` and `frexp` have the struct that the module tells of them
///   ([`SpecialTypes`](naga_ir::SpecialTypes)), and so have what a ray query found and the positions
///   of its vertices.
///
/// It is `None` where an operand has no type that gives it one or is not known, where a declaration
/// is not there, for `&&` and `||` after anything but a `bool`, for an `AccessIndex` without a
/// part, and where the module does not tell the special type.
pub fn inferred_type(
    module: &Module,
    function: Option<&Function>,
    known: Known<'_>,
    expression: &Expression,
) -> Option<TypeResolution>
    ensures { result ≡ inferred_type «module».now (option_copied function.entry)
        (known_types known.entry) expression.now }
{
    match expected_type(module, function, known, expression) {
        AllowedType::LikeThis(ty) => Some(ty.resolution()),
        AllowedType::Anything => rule_type(module, known, expression),
        AllowedType::Nothing => None,
    }
}
