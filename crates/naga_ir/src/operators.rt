//! The operators and functions that expressions and statements name.

use crate::arena::Handle;
use crate::expression::Expression;

/// An operator of one operand.
#[derive(Debug, Clone, Copy, PartialEq, Eq)]
pub enum UnaryOperator {
    /// `-`
    Negate,
    /// `!`
    LogicalNot,
    /// `~`
    BitwiseNot,
}

/// An operator between two operands.
#[derive(Debug, Clone, Copy, PartialEq, Eq)]
pub enum BinaryOperator {
    /// `+`
    Add,
    /// `-`
    Subtract,
    /// `*`
    Multiply,
    /// `/`
    Divide,
    /// `%`
    Modulo,
    /// `==`
    Equal,
    /// `!=`
    NotEqual,
    /// `<`
    Less,
    /// `<=`
    LessEqual,
    /// `>`
    Greater,
    /// `>=`
    GreaterEqual,
    /// `&`
    And,
    /// `^`
    ExclusiveOr,
    /// `|`
    InclusiveOr,
    /// `&&`, which evaluates its right operand only where the left one is true.
    LogicalAnd,
    /// `||`, which evaluates its right operand only where the left one is false.
    LogicalOr,
    /// `<<`
    ShiftLeft,
    /// `>>`
    ShiftRight,
}

/// Along which screen axis a derivative is taken.
#[derive(Debug, Clone, Copy, PartialEq, Eq)]
pub enum DerivativeAxis {
    /// Along x: `dpdx`.
    X,
    /// Along y: `dpdy`.
    Y,
    /// Along both, added up: `fwidth`.
    Width,
}

/// How exactly a derivative is taken.
#[derive(Debug, Clone, Copy, PartialEq, Eq)]
pub enum DerivativeControl {
    /// Once for a block of fragments: `dpdxCoarse`.
    Coarse,
    /// For each fragment: `dpdxFine`.
    Fine,
    /// As the hardware likes: `dpdx`.
    None,
}

/// A test of a truth value or of a number.
#[derive(Debug, Clone, Copy, PartialEq, Eq)]
pub enum RelationalFunction {
    /// Whether all components are true: `all`.
    All,
    /// Whether some component is true: `any`.
    Any,
    /// Whether a number is none. WGSL has no such function.
    IsNan,
    /// Whether a number is infinite. WGSL has no such function.
    IsInf,
}

/// A built-in function of numbers, vectors or matrices. WGSL's word is the name with a small first
/// letter, where the comment says nothing else.
#[derive(Debug, Clone, Copy, PartialEq, Eq)]
pub enum MathFunction {
    /// `abs`
    Abs,
    /// `min`
    Min,
    /// `max`
    Max,
    /// `clamp`
    Clamp,
    /// `saturate`
    Saturate,
    /// `cos`
    Cos,
    /// `sin`
    Sin,
    /// `tan`
    Tan,
    /// `acos`
    Acos,
    /// `asin`
    Asin,
    /// `atan`
    Atan,
    /// `cosh`
    Cosh,
    /// `sinh`
    Sinh,
    /// `tanh`
    Tanh,
    /// `acosh`
    Acosh,
    /// `asinh`
    Asinh,
    /// `atanh`
    Atanh,
    /// `atan2`
    Atan2,
    /// `radians`
    Radians,
    /// `degrees`
    Degrees,
    /// `ceil`
    Ceil,
    /// `floor`
    Floor,
    /// `round`
    Round,
    /// `fract`
    Fract,
    /// `trunc`
    Trunc,
    /// `modf`
    Modf,
    /// `frexp`
    Frexp,
    /// `ldexp`
    Ldexp,
    /// `exp`
    Exp,
    /// `exp2`
    Exp2,
    /// `log`
    Log,
    /// `log2`
    Log2,
    /// `pow`
    Pow,
    /// `dot`
    Dot,
    /// `dot4I8Packed`
    Dot4I8Packed,
    /// `dot4U8Packed`
    Dot4U8Packed,
    /// `cross`
    Cross,
    /// `distance`
    Distance,
    /// `length`
    Length,
    /// `normalize`
    Normalize,
    /// `faceForward`
    FaceForward,
    /// `reflect`
    Reflect,
    /// `refract`
    Refract,
    /// `sign`
    Sign,
    /// `fma`
    Fma,
    /// `mix`
    Mix,
    /// `step`
    Step,
    /// `smoothstep`
    SmoothStep,
    /// `sqrt`
    Sqrt,
    /// `inverseSqrt`
    InverseSqrt,
    /// `transpose`
    Transpose,
    /// `determinant`
    Determinant,
    /// `quantizeToF16`
    QuantizeToF16,
    /// `countTrailingZeros`
    CountTrailingZeros,
    /// `countLeadingZeros`
    CountLeadingZeros,
    /// `countOneBits`
    CountOneBits,
    /// `reverseBits`
    ReverseBits,
    /// `extractBits`
    ExtractBits,
    /// `insertBits`
    InsertBits,
    /// `firstTrailingBit`
    FirstTrailingBit,
    /// `firstLeadingBit`
    FirstLeadingBit,
    /// `pack4x8snorm`
    Pack4x8snorm,
    /// `pack4x8unorm`
    Pack4x8unorm,
    /// `pack2x16snorm`
    Pack2x16snorm,
    /// `pack2x16unorm`
    Pack2x16unorm,
    /// `unpack4x8snorm`
    Unpack4x8snorm,
    /// `unpack4x8unorm`
    Unpack4x8unorm,
    /// `unpack2x16snorm`
    Unpack2x16snorm,
    /// `unpack2x16unorm`
    Unpack2x16unorm,
    /// `pack2x16float`
    Pack2x16float,
    /// `unpack2x16float`
    Unpack2x16float,
    /// `pack4xI8`
    Pack4xI8,
    /// `pack4xU8`
    Pack4xU8,
    /// `unpack4xI8`
    Unpack4xI8,
    /// `unpack4xU8`
    Unpack4xU8,
    /// `pack4xI8Clamp`
    Pack4xI8Clamp,
    /// `pack4xU8Clamp`
    Pack4xU8Clamp,
    /// The inverse of a matrix. WGSL has no such function.
    Inverse,
    /// The outer product of two vectors. WGSL has no such function.
    Outer,
}

/// Which neighbour in a quad.
#[derive(Debug, Clone, Copy, PartialEq, Eq)]
pub enum Direction {
    /// The one beside: `quadSwapX`.
    X,
    /// The one above or below: `quadSwapY`.
    Y,
    /// The one across: `quadSwapDiagonal`.
    Diagonal,
}

/// How far an operation over a subgroup reaches.
#[derive(Debug, Clone, Copy, PartialEq, Eq)]
pub enum CollectiveOperation {
    /// Over all active invocations: `subgroupAdd`.
    Reduce,
    /// Over those up to this one: `subgroupInclusiveAdd`.
    InclusiveScan,
    /// Over those before this one: `subgroupExclusiveAdd`.
    ExclusiveScan,
}

/// What an operation over a subgroup computes.
#[derive(Debug, Clone, Copy, PartialEq, Eq)]
pub enum SubgroupOperation {
    /// Whether all are true: `subgroupAll`.
    All,
    /// Whether some are true: `subgroupAny`.
    Any,
    /// The sum: `subgroupAdd`.
    Add,
    /// The product: `subgroupMul`.
    Mul,
    /// The least: `subgroupMin`.
    Min,
    /// The greatest: `subgroupMax`.
    Max,
    /// The bits that all have: `subgroupAnd`.
    And,
    /// The bits that some have: `subgroupOr`.
    Or,
    /// The bits that an odd number have: `subgroupXor`.
    Xor,
}

/// What an atomic operation does with the old and the new value.
#[derive(Debug, Clone, Copy, PartialEq, Eq)]
pub enum AtomicFunction {
    /// `atomicAdd`
    Add,
    /// `atomicSub`
    Subtract,
    /// `atomicAnd`
    And,
    /// `atomicXor`
    ExclusiveOr,
    /// `atomicOr`
    InclusiveOr,
    /// `atomicMin`
    Min,
    /// `atomicMax`
    Max,
    /// `atomicExchange`, or `atomicCompareExchangeWeak` with an operand to compare with.
    Exchange {
        /// What the old value must equal to be exchanged.
        compare: Option<Handle<Expression>>,
    },
}

/// From which invocation of its subgroup each invocation takes a value.
#[derive(Debug, Clone, Copy, PartialEq, Eq)]
pub enum GatherMode {
    /// From the first that is active: `subgroupBroadcastFirst`.
    BroadcastFirst,
    /// From the one with this number: `subgroupBroadcast`.
    Broadcast(Handle<Expression>),
    /// From the one whose number each gives: `subgroupShuffle`.
    Shuffle(Handle<Expression>),
    /// From the one that lies this far ahead: `subgroupShuffleDown`.
    ShuffleDown(Handle<Expression>),
    /// From the one whose number is less by so much: `subgroupShuffleUp`.
    ShuffleUp(Handle<Expression>),
    /// From the one whose number differs by these bits: `subgroupShuffleXor`.
    ShuffleXor(Handle<Expression>),
    /// From the one with this number in its quad: `quadBroadcast`.
    QuadBroadcast(Handle<Expression>),
    /// From the neighbour in its quad: `quadSwapX`.
    QuadSwap(Direction),
}
