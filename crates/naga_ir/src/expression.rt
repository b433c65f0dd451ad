//! Expressions, whose operands are handles of expressions that stand before them.

ghost use Rattle.std.specs.Prelude.{◌≡◌};

use crate::arena::{Handle, Item};
use crate::module::{Constant, Function, GlobalVariable, LocalVariable, Override};
use crate::operators::{
    BinaryOperator, DerivativeAxis, DerivativeControl, MathFunction, RelationalFunction,
    UnaryOperator,
};
use crate::types::{CooperativeRole, CooperativeSize, Scalar, ScalarKind, Type_, VectorSize};
use decimal_numerals::Decimal;

/// A number or a truth value that is written out. Floating-point numbers are held as their bits, or
/// as the decimal numerals by which a text has them.
#[derive(Debug, Clone, Copy, PartialEq, Eq)]
pub enum Literal {
    /// The bits of an `f64`.
    F64(u64),
    /// The bits of an `f32`.
    F32(u32),
    /// The bits of an `f16`.
    F16(u16),
    /// The numeral of an `f64`: `0.5lf`. It has the value of the nearest one; of two that are as
    /// near, of the one whose last binary digit is 0.
    DecimalF64(Decimal),
    /// The same of an `f32`: `0.5f`.
    DecimalF32(Decimal),
    /// The same of an `f16`: `0.5h`.
    DecimalF16(Decimal),
    /// A `u16`: `u16(5)`.
    U16(u16),
    /// An `i16`: `i16(-5)`.
    I16(i16),
    /// A `u32`: `5u`.
    U32(u32),
    /// An `i32`: `5i`.
    I32(i32),
    /// A `u64`: `5lu`.
    U64(u64),
    /// An `i64`: `5li`.
    I64(i64),
    /// A truth value: `true`.
    Bool(bool),
    /// An integer of WGSL's constant expressions.
    AbstractInt(i64),
    /// The bits of a floating-point number of WGSL's constant expressions.
    AbstractFloat(u64),
}

impl Literal {
    ghost use Rattle.naga_ir.specs.Literals.{literal_scalar};

    /// The scalar that it is a value of. Numbers of WGSL's constant expressions have 8 bytes.
    pub fn scalar(self) -> Scalar
        ensures { result ≡ literal_scalar self }
    {
        match self {
            Literal::F64(_) => Scalar::F64,
            Literal::F32(_) => Scalar::F32,
            Literal::F16(_) => Scalar::F16,
            Literal::DecimalF64(_) => Scalar::F64,
            Literal::DecimalF32(_) => Scalar::F32,
            Literal::DecimalF16(_) => Scalar::F16,
            Literal::U16(_) => Scalar::U16,
            Literal::I16(_) => Scalar::I16,
            Literal::U32(_) => Scalar::U32,
            Literal::I32(_) => Scalar::I32,
            Literal::U64(_) => Scalar::U64,
            Literal::I64(_) => Scalar::I64,
            Literal::Bool(_) => Scalar::BOOL,
            Literal::AbstractInt(_) => Scalar::ABSTRACT_INT,
            Literal::AbstractFloat(_) => Scalar::ABSTRACT_FLOAT,
        }
    }
}

/// A component of a vector.
#[derive(Debug, Clone, Copy, PartialEq, Eq)]
pub enum SwizzleComponent {
    /// The first.
    X,
    /// The second.
    Y,
    /// The third.
    Z,
    /// The fourth.
    W,
}

/// The mark of [`Expression`] in a handle.
pub enum ExpressionMark {}

impl Item for Expression {
    type Mark = ExpressionMark;
}

/// At which level of detail an image is sampled.
#[derive(Debug, Clone, Copy, PartialEq, Eq)]
pub enum SampleLevel {
    /// As the derivatives of the coordinate ask: `textureSample`.
    Auto,
    /// At the finest.
    Zero,
    /// At this one: `textureSampleLevel`.
    Exact(Handle<Expression>),
    /// As the derivatives ask, with this added: `textureSampleBias`.
    Bias(Handle<Expression>),
    /// As these derivatives ask: `textureSampleGrad`.
    Gradient {
        /// The change of the coordinate along x.
        x: Handle<Expression>,
        /// The change of the coordinate along y.
        y: Handle<Expression>,
    },
}

/// What is asked of an image.
#[derive(Debug, Clone, Copy, PartialEq, Eq)]
pub enum ImageQuery {
    /// Its size in texels: `textureDimensions`.
    Size {
        /// At which level; absent means the finest.
        level: Option<Handle<Expression>>,
    },
    /// How many levels it has: `textureNumLevels`.
    NumLevels,
    /// How many images an array of them has: `textureNumLayers`.
    NumLayers,
    /// How many samples a texel has: `textureNumSamples`.
    NumSamples,
}

/// Where the components of a cooperative matrix are loaded from or stored to.
#[derive(Debug, Clone, Copy, PartialEq, Eq)]
pub struct CooperativeData {
    /// The first of them.
    pub pointer: Handle<Expression>,
    /// How many elements lie between the starts of two columns, or of two rows.
    pub stride: Handle<Expression>,
    /// Whether rows lie whole in memory, and not columns.
    pub row_major: bool,
}

/// How a value is computed. What is not plain data of the module comes to be by a statement:
/// [`Statement::Emit`](crate::Statement::Emit) evaluates an expression, once, and a statement with a
/// result gives the value of its result's expression.
#[derive(Debug, Drop)]
pub enum Expression {
    /// A number or a truth value: `5i`.
    Literal(Literal),
    /// The value of a constant of the module.
    Constant(Handle<Constant>),
    /// The value of an override of the module.
    Override(Handle<Override>),
    /// The value of a type whose every bit is zero: `T()`.
    ZeroValue(Handle<Type_>),
    /// A value made of its parts: `vec2<f32>(x, y)`.
    Compose {
        /// Its type.
        ty: Handle<Type_>,
        /// Its parts, in order.
        components: Vec<Handle<Expression>>,
    },
    /// The part of a value at an index that is computed: `a[i]`.
    Access {
        /// The value, or a pointer to it.
        base: Handle<Expression>,
        /// The index.
        index: Handle<Expression>,
    },
    /// The part of a value at an index that is known: `a[1]`, `v.y`, `s.member`.
    AccessIndex {
        /// The value, or a pointer to it.
        base: Handle<Expression>,
        /// The index.
        index: u32,
    },
    /// A vector of equal components: `vec3(x)`.
    Splat {
        /// How many components.
        size: VectorSize,
        /// What each is.
        value: Handle<Expression>,
    },
    /// A vector of chosen components of another: `v.zyx`.
    Swizzle {
        /// How many components.
        size: VectorSize,
        /// The other vector.
        vector: Handle<Expression>,
        /// Which component each is. Only the first `size` of these count.
        pattern: [SwizzleComponent; 4],
    },
    /// An argument of the function, by its number from zero.
    FunctionArgument(u32),
    /// A global variable of the module: a pointer to it, or itself in the handle space.
    GlobalVariable(Handle<GlobalVariable>),
    /// A pointer to a local variable of the function.
    LocalVariable(Handle<LocalVariable>),
    /// What a pointer points to now.
    Load {
        /// The pointer.
        pointer: Handle<Expression>,
    },
    /// A colour or a depth of an image between its texels: `textureSample` and its kin.
    ImageSample {
        /// The image.
        image: Handle<Expression>,
        /// How it is sampled.
        sampler: Handle<Expression>,
        /// The component to gather from the four nearest texels, where that is wanted:
        /// `textureGather`.
        gather: Option<SwizzleComponent>,
        /// Where.
        coordinate: Handle<Expression>,
        /// In which image of an array.
        array_index: Option<Handle<Expression>>,
        /// How many texels farther, as a constant.
        offset: Option<Handle<Expression>>,
        /// At which level of detail.
        level: SampleLevel,
        /// What depths are compared with: `textureSampleCompare`.
        depth_ref: Option<Handle<Expression>>,
        /// Whether the coordinate is kept half a texel from the edge:
        /// `textureSampleBaseClampToEdge`.
        clamp_to_edge: bool,
    },
    /// A texel of an image: `textureLoad`.
    ImageLoad {
        /// The image.
        image: Handle<Expression>,
        /// Which texel.
        coordinate: Handle<Expression>,
        /// In which image of an array.
        array_index: Option<Handle<Expression>>,
        /// Which of the texel's samples.
        sample: Option<Handle<Expression>>,
        /// At which level of detail.
        level: Option<Handle<Expression>>,
    },
    /// A number about an image: `textureDimensions`.
    ImageQuery {
        /// The image.
        image: Handle<Expression>,
        /// What is asked.
        query: ImageQuery,
    },
    /// An operator of one operand: `-(x)`.
    Unary {
        /// The operator.
        op: UnaryOperator,
        /// The operand.
        expr: Handle<Expression>,
    },
    /// An operator between two operands: `(x + y)`.
    Binary {
        /// The operator.
        op: BinaryOperator,
        /// The operand before it.
        left: Handle<Expression>,
        /// The operand after it.
        right: Handle<Expression>,
    },
    /// One of two values: `select(reject, accept, condition)`.
    Select {
        /// What decides.
        condition: Handle<Expression>,
        /// The value where that is true.
        accept: Handle<Expression>,
        /// The value where that is false.
        reject: Handle<Expression>,
    },
    /// How fast a value changes over the screen: `dpdx`.
    Derivative {
        /// Along which axis.
        axis: DerivativeAxis,
        /// How exactly.
        ctrl: DerivativeControl,
        /// The value.
        expr: Handle<Expression>,
    },
    /// A test: `all(v)`.
    Relational {
        /// Which.
        fun: RelationalFunction,
        /// Of what.
        argument: Handle<Expression>,
    },
    /// A built-in function: `min(x, y)`.
    Math {
        /// Which.
        fun: MathFunction,
        /// Its first operand.
        arg: Handle<Expression>,
        /// Its second, if it has one.
        arg1: Option<Handle<Expression>>,
        /// Its third, if it has one.
        arg2: Option<Handle<Expression>>,
        /// Its fourth, if it has one.
        arg3: Option<Handle<Expression>>,
    },
    /// A value of another scalar kind: `u32(x)`, or with the same bits: `bitcast<u32>(x)`.
    As {
        /// The value.
        expr: Handle<Expression>,
        /// The scalar kind wanted.
        kind: ScalarKind,
        /// The width wanted in bytes, for a conversion of the number; absent, the bits stay.
        convert: Option<u8>,
    },
    /// What a call of a function returned.
    CallResult(Handle<Function>),
    /// What an atomic operation found.
    AtomicResult {
        /// Its type.
        ty: Handle<Type_>,
        /// Whether the operation compared.
        comparison: bool,
    },
    /// What `workgroupUniformLoad` read.
    WorkGroupUniformLoadResult {
        /// Its type.
        ty: Handle<Type_>,
    },
    /// How many elements an array has whose size is known only when the shader runs:
    /// `arrayLength(&a)`.
    ArrayLength(Handle<Expression>),
    /// Whether a ray query has more to find.
    RayQueryProceedResult,
    /// What a ray query found.
    RayQueryGetIntersection {
        /// The query.
        query: Handle<Expression>,
        /// Whether the hit that it committed is meant, and not the candidate.
        committed: bool,
    },
    /// The vertices of the triangle that a ray query found.
    RayQueryVertexPositions {
        /// The query.
        query: Handle<Expression>,
        /// Whether the hit that it committed is meant, and not the candidate.
        committed: bool,
    },
    /// Which invocations of the subgroup are true: what `subgroupBallot` gave.
    SubgroupBallotResult,
    /// What an operation over a subgroup gave.
    SubgroupOperationResult {
        /// Its type.
        ty: Handle<Type_>,
    },
    /// A cooperative matrix read from memory: `coopLoad`.
    CooperativeLoad {
        /// How many columns.
        columns: CooperativeSize,
        /// How many rows.
        rows: CooperativeSize,
        /// Which operand of a multiplication it can be.
        role: CooperativeRole,
        /// Where from.
        data_: CooperativeData,
    },
    /// `a * b + c` of cooperative matrices: `coopMultiplyAdd(a, b, c)`.
    CooperativeMultiplyAdd {
        /// The left factor.
        a: Handle<Expression>,
        /// The right factor.
        b: Handle<Expression>,
        /// The summand.
        c: Handle<Expression>,
    },
}
