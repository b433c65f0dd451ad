//! Operators and functions.

ghost use Rattle.json.specs.Value.{value_view};
ghost use Rattle.naga_json.specs.Operators.{unary_operator_said, binary_operator_said};
ghost use Rattle.naga_json.specs.Operators.{derivative_axis_said, derivative_control_said};
ghost use Rattle.naga_json.specs.Operators.{relational_function_said, math_function_said};
ghost use Rattle.naga_json.specs.Operators.{direction_said, collective_operation_said};
ghost use Rattle.naga_json.specs.Operators.{subgroup_operation_said, atomic_function_names};
ghost use Rattle.naga_json.specs.Operators.{atomic_exchange_said, atomic_function_payload};
ghost use Rattle.naga_json.specs.Operators.{atomic_function_said, gather_mode_names};
ghost use Rattle.naga_json.specs.Operators.{gather_mode_payload, gather_mode_said};
ghost use Rattle.naga_json.specs.Said.{Gives, same};

use crate::error::ReadError;
use crate::shape::{FromJson, Variants, expect_members, optional_member, read_variant, unit, word};
use json::Value;
use naga_ir::{
    AtomicFunction, BinaryOperator, CollectiveOperation, DerivativeAxis, DerivativeControl,
    Direction, GatherMode, MathFunction, RelationalFunction, SubgroupOperation, UnaryOperator,
};
use std::alloc::Global;

/// The words of [`UnaryOperator`].
const UNARY_OPERATOR_WORDS: &[(&str, UnaryOperator)] = &[
    ("Negate", UnaryOperator::Negate),
    ("LogicalNot", UnaryOperator::LogicalNot),
    ("BitwiseNot", UnaryOperator::BitwiseNot),
];

impl FromJson for UnaryOperator {
    ghost Seen = { Self };

    ghost seen = { same };

    ghost said = { unary_operator_said };

    fn from_json(alloc: Global, value: &Value) -> Result<UnaryOperator, ReadError> {
        word(alloc, value, UNARY_OPERATOR_WORDS)
    }
}

/// The words of [`BinaryOperator`].
const BINARY_OPERATOR_WORDS: &[(&str, BinaryOperator)] = &[
    ("Add", BinaryOperator::Add),
    ("Subtract", BinaryOperator::Subtract),
    ("Multiply", BinaryOperator::Multiply),
    ("Divide", BinaryOperator::Divide),
    ("Modulo", BinaryOperator::Modulo),
    ("Equal", BinaryOperator::Equal),
    ("NotEqual", BinaryOperator::NotEqual),
    ("Less", BinaryOperator::Less),
    ("LessEqual", BinaryOperator::LessEqual),
    ("Greater", BinaryOperator::Greater),
    ("GreaterEqual", BinaryOperator::GreaterEqual),
    ("And", BinaryOperator::And),
    ("ExclusiveOr", BinaryOperator::ExclusiveOr),
    ("InclusiveOr", BinaryOperator::InclusiveOr),
    ("LogicalAnd", BinaryOperator::LogicalAnd),
    ("LogicalOr", BinaryOperator::LogicalOr),
    ("ShiftLeft", BinaryOperator::ShiftLeft),
    ("ShiftRight", BinaryOperator::ShiftRight),
];

impl FromJson for BinaryOperator {
    ghost Seen = { Self };

    ghost seen = { same };

    ghost said = { binary_operator_said };

    fn from_json(alloc: Global, value: &Value) -> Result<BinaryOperator, ReadError> {
        word(alloc, value, BINARY_OPERATOR_WORDS)
    }
}

/// The words of [`DerivativeAxis`].
const DERIVATIVE_AXIS_WORDS: &[(&str, DerivativeAxis)] = &[
    ("X", DerivativeAxis::X),
    ("Y", DerivativeAxis::Y),
    ("Width", DerivativeAxis::Width),
];

impl FromJson for DerivativeAxis {
    ghost Seen = { Self };

    ghost seen = { same };

    ghost said = { derivative_axis_said };

    fn from_json(alloc: Global, value: &Value) -> Result<DerivativeAxis, ReadError> {
        word(alloc, value, DERIVATIVE_AXIS_WORDS)
    }
}

/// The words of [`DerivativeControl`].
const DERIVATIVE_CONTROL_WORDS: &[(&str, DerivativeControl)] = &[
    ("Coarse", DerivativeControl::Coarse),
    ("Fine", DerivativeControl::Fine),
    ("None", DerivativeControl::None),
];

impl FromJson for DerivativeControl {
    ghost Seen = { Self };

    ghost seen = { same };

    ghost said = { derivative_control_said };

    fn from_json(alloc: Global, value: &Value) -> Result<DerivativeControl, ReadError> {
        word(alloc, value, DERIVATIVE_CONTROL_WORDS)
    }
}

/// The words of [`RelationalFunction`].
const RELATIONAL_FUNCTION_WORDS: &[(&str, RelationalFunction)] = &[
    ("All", RelationalFunction::All),
    ("Any", RelationalFunction::Any),
    ("IsNan", RelationalFunction::IsNan),
    ("IsInf", RelationalFunction::IsInf),
];

impl FromJson for RelationalFunction {
    ghost Seen = { Self };

    ghost seen = { same };

    ghost said = { relational_function_said };

    fn from_json(alloc: Global, value: &Value) -> Result<RelationalFunction, ReadError> {
        word(alloc, value, RELATIONAL_FUNCTION_WORDS)
    }
}

/// The words of [`MathFunction`].
const MATH_FUNCTION_WORDS: &[(&str, MathFunction)] = &[
    ("Abs", MathFunction::Abs),
    ("Min", MathFunction::Min),
    ("Max", MathFunction::Max),
    ("Clamp", MathFunction::Clamp),
    ("Saturate", MathFunction::Saturate),
    ("Cos", MathFunction::Cos),
    ("Sin", MathFunction::Sin),
    ("Tan", MathFunction::Tan),
    ("Acos", MathFunction::Acos),
    ("Asin", MathFunction::Asin),
    ("Atan", MathFunction::Atan),
    ("Cosh", MathFunction::Cosh),
    ("Sinh", MathFunction::Sinh),
    ("Tanh", MathFunction::Tanh),
    ("Acosh", MathFunction::Acosh),
    ("Asinh", MathFunction::Asinh),
    ("Atanh", MathFunction::Atanh),
    ("Atan2", MathFunction::Atan2),
    ("Radians", MathFunction::Radians),
    ("Degrees", MathFunction::Degrees),
    ("Ceil", MathFunction::Ceil),
    ("Floor", MathFunction::Floor),
    ("Round", MathFunction::Round),
    ("Fract", MathFunction::Fract),
    ("Trunc", MathFunction::Trunc),
    ("Modf", MathFunction::Modf),
    ("Frexp", MathFunction::Frexp),
    ("Ldexp", MathFunction::Ldexp),
    ("Exp", MathFunction::Exp),
    ("Exp2", MathFunction::Exp2),
    ("Log", MathFunction::Log),
    ("Log2", MathFunction::Log2),
    ("Pow", MathFunction::Pow),
    ("Dot", MathFunction::Dot),
    ("Dot4I8Packed", MathFunction::Dot4I8Packed),
    ("Dot4U8Packed", MathFunction::Dot4U8Packed),
    ("Cross", MathFunction::Cross),
    ("Distance", MathFunction::Distance),
    ("Length", MathFunction::Length),
    ("Normalize", MathFunction::Normalize),
    ("FaceForward", MathFunction::FaceForward),
    ("Reflect", MathFunction::Reflect),
    ("Refract", MathFunction::Refract),
    ("Sign", MathFunction::Sign),
    ("Fma", MathFunction::Fma),
    ("Mix", MathFunction::Mix),
    ("Step", MathFunction::Step),
    ("SmoothStep", MathFunction::SmoothStep),
    ("Sqrt", MathFunction::Sqrt),
    ("InverseSqrt", MathFunction::InverseSqrt),
    ("Transpose", MathFunction::Transpose),
    ("Determinant", MathFunction::Determinant),
    ("QuantizeToF16", MathFunction::QuantizeToF16),
    ("CountTrailingZeros", MathFunction::CountTrailingZeros),
    ("CountLeadingZeros", MathFunction::CountLeadingZeros),
    ("CountOneBits", MathFunction::CountOneBits),
    ("ReverseBits", MathFunction::ReverseBits),
    ("ExtractBits", MathFunction::ExtractBits),
    ("InsertBits", MathFunction::InsertBits),
    ("FirstTrailingBit", MathFunction::FirstTrailingBit),
    ("FirstLeadingBit", MathFunction::FirstLeadingBit),
    ("Pack4x8snorm", MathFunction::Pack4x8snorm),
    ("Pack4x8unorm", MathFunction::Pack4x8unorm),
    ("Pack2x16snorm", MathFunction::Pack2x16snorm),
    ("Pack2x16unorm", MathFunction::Pack2x16unorm),
    ("Unpack4x8snorm", MathFunction::Unpack4x8snorm),
    ("Unpack4x8unorm", MathFunction::Unpack4x8unorm),
    ("Unpack2x16snorm", MathFunction::Unpack2x16snorm),
    ("Unpack2x16unorm", MathFunction::Unpack2x16unorm),
    ("Pack2x16float", MathFunction::Pack2x16float),
    ("Unpack2x16float", MathFunction::Unpack2x16float),
    ("Pack4xI8", MathFunction::Pack4xI8),
    ("Pack4xU8", MathFunction::Pack4xU8),
    ("Unpack4xI8", MathFunction::Unpack4xI8),
    ("Unpack4xU8", MathFunction::Unpack4xU8),
    ("Pack4xI8Clamp", MathFunction::Pack4xI8Clamp),
    ("Pack4xU8Clamp", MathFunction::Pack4xU8Clamp),
    ("Inverse", MathFunction::Inverse),
    ("Outer", MathFunction::Outer),
];

impl FromJson for MathFunction {
    ghost Seen = { Self };

    ghost seen = { same };

    ghost said = { math_function_said };

    fn from_json(alloc: Global, value: &Value) -> Result<MathFunction, ReadError> {
        word(alloc, value, MATH_FUNCTION_WORDS)
    }
}

/// The words of [`Direction`].
const DIRECTION_WORDS: &[(&str, Direction)] = &[
    ("X", Direction::X),
    ("Y", Direction::Y),
    ("Diagonal", Direction::Diagonal),
];

impl FromJson for Direction {
    ghost Seen = { Self };

    ghost seen = { same };

    ghost said = { direction_said };

    fn from_json(alloc: Global, value: &Value) -> Result<Direction, ReadError> {
        word(alloc, value, DIRECTION_WORDS)
    }
}

/// The words of [`CollectiveOperation`].
const COLLECTIVE_OPERATION_WORDS: &[(&str, CollectiveOperation)] = &[
    ("Reduce", CollectiveOperation::Reduce),
    ("InclusiveScan", CollectiveOperation::InclusiveScan),
    ("ExclusiveScan", CollectiveOperation::ExclusiveScan),
];

impl FromJson for CollectiveOperation {
    ghost Seen = { Self };

    ghost seen = { same };

    ghost said = { collective_operation_said };

    fn from_json(alloc: Global, value: &Value) -> Result<CollectiveOperation, ReadError> {
        word(alloc, value, COLLECTIVE_OPERATION_WORDS)
    }
}

/// The words of [`SubgroupOperation`].
const SUBGROUP_OPERATION_WORDS: &[(&str, SubgroupOperation)] = &[
    ("All", SubgroupOperation::All),
    ("Any", SubgroupOperation::Any),
    ("Add", SubgroupOperation::Add),
    ("Mul", SubgroupOperation::Mul),
    ("Min", SubgroupOperation::Min),
    ("Max", SubgroupOperation::Max),
    ("And", SubgroupOperation::And),
    ("Or", SubgroupOperation::Or),
    ("Xor", SubgroupOperation::Xor),
];

impl FromJson for SubgroupOperation {
    ghost Seen = { Self };

    ghost seen = { same };

    ghost said = { subgroup_operation_said };

    fn from_json(alloc: Global, value: &Value) -> Result<SubgroupOperation, ReadError> {
        word(alloc, value, SUBGROUP_OPERATION_WORDS)
    }
}

/// The variants of [`AtomicFunction`] with payload.
#[derive(Clone, Copy)]
pub(crate) enum AtomicFunctionName {
    Add,
    Subtract,
    And,
    ExclusiveOr,
    InclusiveOr,
    Min,
    Max,
    Exchange,
}

/// The names of [`AtomicFunction`].
const ATOMIC_FUNCTION_NAMES: &[(&str, AtomicFunctionName)] = &[
    ("Add", AtomicFunctionName::Add),
    ("Subtract", AtomicFunctionName::Subtract),
    ("And", AtomicFunctionName::And),
    ("ExclusiveOr", AtomicFunctionName::ExclusiveOr),
    ("InclusiveOr", AtomicFunctionName::InclusiveOr),
    ("Min", AtomicFunctionName::Min),
    ("Max", AtomicFunctionName::Max),
    ("Exchange", AtomicFunctionName::Exchange),
];

impl FromJson for AtomicFunction {
    ghost Seen = { Self };

    ghost seen = { same };

    ghost said = { atomic_function_said };

    fn from_json(alloc: Global, value: &Value) -> Result<AtomicFunction, ReadError> {
        read_variant(alloc, value)
    }
}

impl Variants for AtomicFunction {
    type Name = AtomicFunctionName;

    ghost Sight = { Self };

    ghost sight = { same };

    ghost table = { atomic_function_names };

    ghost payload_said = { atomic_function_payload };

    fn names() -> &'static [(&'static str, AtomicFunctionName)] {
        ATOMIC_FUNCTION_NAMES
    }

    fn from_payload(
        alloc: Global,
        variant: AtomicFunctionName,
        payload: &Value,
    ) -> Result<AtomicFunction, ReadError> {
        match variant {
            AtomicFunctionName::Add => unit(alloc, payload, AtomicFunction::Add),
            AtomicFunctionName::Subtract => unit(alloc, payload, AtomicFunction::Subtract),
            AtomicFunctionName::And => unit(alloc, payload, AtomicFunction::And),
            AtomicFunctionName::ExclusiveOr => unit(alloc, payload, AtomicFunction::ExclusiveOr),
            AtomicFunctionName::InclusiveOr => unit(alloc, payload, AtomicFunction::InclusiveOr),
            AtomicFunctionName::Min => unit(alloc, payload, AtomicFunction::Min),
            AtomicFunctionName::Max => unit(alloc, payload, AtomicFunction::Max),
            AtomicFunctionName::Exchange => atomic_exchange(alloc, payload),
        }
    }
}

fn atomic_exchange(alloc: Global, payload: &Value) -> Result<AtomicFunction, ReadError>
    ensures { Gives same (atomic_exchange_said (value_view payload.now)) result }
{
    expect_members(alloc, payload, &["compare"])?;
    Ok(AtomicFunction::Exchange {
        compare: optional_member(alloc, payload, "compare")?,
    })
}

/// The variants of [`GatherMode`] with payload.
#[derive(Clone, Copy)]
pub(crate) enum GatherModeName {
    BroadcastFirst,
    Broadcast,
    Shuffle,
    ShuffleDown,
    ShuffleUp,
    ShuffleXor,
    QuadBroadcast,
    QuadSwap,
}

/// The names of [`GatherMode`].
const GATHER_MODE_NAMES: &[(&str, GatherModeName)] = &[
    ("BroadcastFirst", GatherModeName::BroadcastFirst),
    ("Broadcast", GatherModeName::Broadcast),
    ("Shuffle", GatherModeName::Shuffle),
    ("ShuffleDown", GatherModeName::ShuffleDown),
    ("ShuffleUp", GatherModeName::ShuffleUp),
    ("ShuffleXor", GatherModeName::ShuffleXor),
    ("QuadBroadcast", GatherModeName::QuadBroadcast),
    ("QuadSwap", GatherModeName::QuadSwap),
];

impl FromJson for GatherMode {
    ghost Seen = { Self };

    ghost seen = { same };

    ghost said = { gather_mode_said };

    fn from_json(alloc: Global, value: &Value) -> Result<GatherMode, ReadError> {
        read_variant(alloc, value)
    }
}

impl Variants for GatherMode {
    type Name = GatherModeName;

    ghost Sight = { Self };

    ghost sight = { same };

    ghost table = { gather_mode_names };

    ghost payload_said = { gather_mode_payload };

    fn names() -> &'static [(&'static str, GatherModeName)] {
        GATHER_MODE_NAMES
    }

    fn from_payload(
        alloc: Global,
        variant: GatherModeName,
        payload: &Value,
    ) -> Result<GatherMode, ReadError> {
        match variant {
            GatherModeName::BroadcastFirst => unit(alloc, payload, GatherMode::BroadcastFirst),
            GatherModeName::Broadcast => Ok(GatherMode::Broadcast(FromJson::from_json(
                alloc, payload,
            )?)),
            GatherModeName::Shuffle => Ok(GatherMode::Shuffle(FromJson::from_json(
                alloc, payload,
            )?)),
            GatherModeName::ShuffleDown => Ok(GatherMode::ShuffleDown(FromJson::from_json(
                alloc, payload,
            )?)),
            GatherModeName::ShuffleUp => Ok(GatherMode::ShuffleUp(FromJson::from_json(
                alloc, payload,
            )?)),
            GatherModeName::ShuffleXor => Ok(GatherMode::ShuffleXor(FromJson::from_json(
                alloc, payload,
            )?)),
            GatherModeName::QuadBroadcast => Ok(GatherMode::QuadBroadcast(FromJson::from_json(
                alloc, payload,
            )?)),
            GatherModeName::QuadSwap => Ok(GatherMode::QuadSwap(FromJson::from_json(
                alloc, payload,
            )?)),
        }
    }
}
