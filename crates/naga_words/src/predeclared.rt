//! The names of structs that WGSL has without a declaration.

ghost use Rattle.std.specs.Prelude.{◌≡◌, ℕ, List, IfOk, string_bytes};
ghost use Rattle.naga_words.specs.Predeclared.{kind_name, predeclared_name, result_name};
ghost use Rattle.naga_words.specs.Predeclared.{exchange_name};

use naga_ir::{PredeclaredType, Scalar, ScalarKind, VectorSize};
use naga_spelling::words::vector_str;
use std::alloc::{AllocError, Global};

/// The name of a struct that WGSL has without a declaration.
pub trait PredeclaredName {
    /// The bytes of the name.
    ghost name: { Self → List ℕ };

    /// The name, as `__modf_result_vec3_f32`.
    fn struct_name(&self, alloc: Global) -> Result<String, AllocError>
        ensures { IfOk result (λ text. string_bytes text ≡ name self.now) };
}

impl PredeclaredName for PredeclaredType {
    ghost name = { predeclared_name };

    fn struct_name(&self, alloc: Global) -> Result<String, AllocError> {
        match self {
            PredeclaredType::AtomicCompareExchangeWeakResult(scalar) => {
                exchange_name(alloc, *scalar)
            }
            PredeclaredType::ModfResult { size, scalar } => {
                struct_of_result(alloc, "__modf_result_", *size, *scalar)
            }
            PredeclaredType::FrexpResult { size, scalar } => {
                struct_of_result(alloc, "__frexp_result_", *size, *scalar)
            }
        }
    }
}

fn kind_str(kind: ScalarKind) -> &'static str
    ensures { result.now ≡ kind_name kind }
{
    match kind {
        ScalarKind::Sint => "Sint",
        ScalarKind::Uint => "Uint",
        ScalarKind::Float => "Float",
        ScalarKind::Bool => "Bool",
        ScalarKind::AbstractInt => "AbstractInt",
        ScalarKind::AbstractFloat => "AbstractFloat",
    }
}

fn exchange_name(alloc: Global, scalar: Scalar) -> Result<String, AllocError>
    ensures { IfOk result (λ text. string_bytes text ≡ exchange_name scalar) }
{
    let width = scalar.width.to_string(alloc)?;
    let mut text = String::from_str(alloc, "__atomic_compare_exchange_result<")?;
    text.push_str(kind_str(scalar.kind))?;
    text.push_str(",")?;
    text.push_str(width.as_str())?;
    text.push_str(">")?;
    Ok(text)
}

/// The name of a result of floating-point numbers, after the function's part of it.
fn struct_of_result(
    alloc: Global,
    function: &str,
    size: Option<VectorSize>,
    scalar: Scalar,
) -> Result<String, AllocError>
    ensures { IfOk result (λ text. string_bytes text ≡ result_name function.now size scalar) }
{
    let bits = (8 * u32::from(scalar.width)).to_string(alloc)?;
    let mut text = String::from_str(alloc, function)?;
    match size {
        Some(size) => {
            text.push_str(vector_str(size))?;
            text.push_str("_f")?;
        }
        None => text.push_str("f")?,
    }
    text.push_str(bits.as_str())?;
    Ok(text)
}
