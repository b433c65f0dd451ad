//! Which types WGSL's built-in functions of numbers give.

ghost use Rattle.std.specs.Prelude.{◌≡◌};
ghost use Rattle.std.specs.Option.{option_copied};
ghost use Rattle.naga_inference.specs.Functions.{component_type, determinant_type, frexp_type};
ghost use Rattle.naga_inference.specs.Functions.{math_answer, modf_type, of_type, outer_type};
ghost use Rattle.naga_inference.specs.Functions.{predeclared_type, transposed_type};
ghost use Rattle.naga_inference.specs.Functions.{unpacked_type};

use naga_info::TypeResolution;
use naga_ir::{MathFunction, PredeclaredType, Scalar, SpecialTypes, TypeInner, VectorSize};

/// What a function gives, by its first operand.
#[derive(Debug, Drop)]
pub(crate) enum MathAnswer {
    /// A value of that operand's own type.
    OfOperand,
    /// A value of this type.
    OfType(TypeResolution),
    /// None: of such an operand it has no value.
    Nothing,
}

fn of_type(ty: Option<TypeResolution>) -> MathAnswer
    ensures { result ≡ of_type ty }
{
    match ty {
        Some(ty) => MathAnswer::OfType(ty),
        None => MathAnswer::Nothing,
    }
}

/// One component by itself.
fn component_type(operand: &TypeInner) -> Option<TypeResolution>
    ensures { result ≡ component_type operand.now }
{
    match operand {
        TypeInner::Scalar(scalar) | TypeInner::Vector { scalar, .. } => {
            Some(TypeResolution::Value(TypeInner::Scalar(*scalar)))
        }
        _ => None,
    }
}

fn transposed_type(operand: &TypeInner) -> Option<TypeResolution>
    ensures { result ≡ transposed_type operand.now }
{
    match operand {
        TypeInner::Matrix {
            columns,
            rows,
            scalar,
        } => Some(TypeResolution::Value(TypeInner::Matrix {
            columns: *rows,
            rows: *columns,
            scalar: *scalar,
        })),
        _ => None,
    }
}

fn determinant_type(operand: &TypeInner) -> Option<TypeResolution>
    ensures { result ≡ determinant_type operand.now }
{
    match operand {
        TypeInner::Matrix { scalar, .. } => {
            Some(TypeResolution::Value(TypeInner::Scalar(*scalar)))
        }
        _ => None,
    }
}

fn outer_type(operand: &TypeInner, second: Option<&TypeInner>) -> Option<TypeResolution>
    ensures { result ≡ outer_type operand.now (option_copied second.entry) }
{
    match (operand, second) {
        (TypeInner::Vector { size: rows, scalar }, Some(TypeInner::Vector { size: columns, .. })) =>
            Some(TypeResolution::Value(TypeInner::Matrix {
                columns: *columns,
                rows: *rows,
                scalar: *scalar,
            })),
        _ => None,
    }
}

/// What the module declares for a function that gives two values.
fn predeclared_type(special: &SpecialTypes, wanted: PredeclaredType) -> Option<TypeResolution>
    ensures { result ≡ predeclared_type special.now wanted }
{
    match special.predeclared_types.get(&wanted) {
        Some(handle) => Some(TypeResolution::Handle(*handle)),
        None => None,
    }
}

fn modf_type(special: &SpecialTypes, operand: &TypeInner) -> Option<TypeResolution>
    ensures { result ≡ modf_type special.now operand.now }
{
    match operand {
        TypeInner::Scalar(scalar) => predeclared_type(
            special,
            PredeclaredType::ModfResult {
                size: None,
                scalar: *scalar,
            },
        ),
        TypeInner::Vector { size, scalar } => predeclared_type(
            special,
            PredeclaredType::ModfResult {
                size: Some(*size),
                scalar: *scalar,
            },
        ),
        _ => None,
    }
}

fn frexp_type(special: &SpecialTypes, operand: &TypeInner) -> Option<TypeResolution>
    ensures { result ≡ frexp_type special.now operand.now }
{
    match operand {
        TypeInner::Scalar(scalar) => predeclared_type(
            special,
            PredeclaredType::FrexpResult {
                size: None,
                scalar: *scalar,
            },
        ),
        TypeInner::Vector { size, scalar } => predeclared_type(
            special,
            PredeclaredType::FrexpResult {
                size: Some(*size),
                scalar: *scalar,
            },
        ),
        _ => None,
    }
}

fn of_scalar(scalar: Scalar) -> MathAnswer
    ensures { result ≡ MathAnswer.OfType (TypeResolution.Value (TypeInner.Scalar scalar)) }
{
    MathAnswer::OfType(TypeResolution::Value(TypeInner::Scalar(scalar)))
}

fn of_vector(size: VectorSize, scalar: Scalar) -> MathAnswer
    ensures { result ≡ MathAnswer.OfType (TypeResolution.Value (TypeInner.Vector size scalar)) }
{
    MathAnswer::OfType(TypeResolution::Value(TypeInner::Vector { size, scalar }))
}

/// What a function gives that takes components out of the bits of a `u32`.
fn unpacked_type(fun: MathFunction) -> MathAnswer
    ensures { result ≡ unpacked_type fun }
{
    match fun {
        MathFunction::Unpack4x8snorm | MathFunction::Unpack4x8unorm => {
            of_vector(VectorSize::Quad, Scalar::F32)
        }
        MathFunction::Unpack2x16snorm
        | MathFunction::Unpack2x16unorm
        | MathFunction::Unpack2x16float => of_vector(VectorSize::Bi, Scalar::F32),
        MathFunction::Unpack4xI8 => of_vector(VectorSize::Quad, Scalar::I32),
        MathFunction::Unpack4xU8 => of_vector(VectorSize::Quad, Scalar::U32),
        _ => MathAnswer::OfOperand,
    }
}

/// What a function gives by its first operand's type, and for an outer product its second's.
pub(crate) fn math_answer(
    special: &SpecialTypes,
    fun: MathFunction,
    operand: &TypeInner,
    second: Option<&TypeInner>,
) -> MathAnswer
    ensures { result ≡ math_answer special.now fun operand.now (option_copied second.entry) }
{
    match fun {
        MathFunction::Dot | MathFunction::Distance | MathFunction::Length => {
            of_type(component_type(operand))
        }
        MathFunction::Modf => of_type(modf_type(special, operand)),
        MathFunction::Frexp => of_type(frexp_type(special, operand)),
        MathFunction::Transpose => of_type(transposed_type(operand)),
        MathFunction::Determinant => of_type(determinant_type(operand)),
        MathFunction::Outer => of_type(outer_type(operand, second)),
        MathFunction::Dot4I8Packed => of_scalar(Scalar::I32),
        MathFunction::Dot4U8Packed
        | MathFunction::Pack4x8snorm
        | MathFunction::Pack4x8unorm
        | MathFunction::Pack2x16snorm
        | MathFunction::Pack2x16unorm
        | MathFunction::Pack2x16float
        | MathFunction::Pack4xI8
        | MathFunction::Pack4xU8
        | MathFunction::Pack4xI8Clamp
        | MathFunction::Pack4xU8Clamp => of_scalar(Scalar::U32),
        _ => unpacked_type(fun),
    }
}
