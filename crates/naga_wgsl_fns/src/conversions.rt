//! Conversions to other scalars.

ghost use Rattle.std.specs.Prelude.{◌≡◌, ◌<◌, IsTrue, Some, length};
ghost use Rattle.std.specs.Option.{is_some};
ghost use Rattle.module_semantics.specs.Conversions.{conversion_target, keeps_bits};
ghost use Rattle.module_semantics.specs.AlikeTypes.{has_type_form};
ghost use Rattle.module_semantics.specs.ExpressionForms.{expression_has_own_form};
ghost use Rattle.module_semantics.specs.acceptance.Ranges.{resolution_fits};
ghost use Rattle.naga_ir.specs.declared.expression.Expression.TheVariants.{As};
ghost use Rattle.naga_wgsl_fns.specs.Expressions.{bitcast_text, callee_text, cast_text};
ghost use Rattle.naga_wgsl_fns.specs.FunctionText.{CanWrite};
ghost use Rattle.naga_words.specs.Output.{Writes};

use crate::functions::FunctionText;
use module_semantics::type_parts::converted_scalar;
use naga_info::TypeResolution;
use naga_ir::{Expression, Handle, ScalarKind, TypeInner};
use naga_words::{Output, TextSink};

impl FunctionText<'_> {
    /// What a conversion is called by: the type of its value, or `bitcast` to that where the bits
    /// are kept.
    pub(crate) fn write_cast_callee<W: TextSink>(
        &self,
        operand: Handle<Expression>,
        kind: ScalarKind,
        convert: Option<u8>,
        out: &mut Output<'_, W>,
    )
        requires can { CanWrite self.now }
        requires formed { IsTrue
            (expression_has_own_form self.now.known.shader.now self.now.info.now
            (As operand kind convert)) }
        ensures { Writes W.text W.failures out.old out.new
            (callee_text self.now (As operand kind convert)) }
    {
        let inner = self.type_of(operand);
        let target = TypeResolution::Value(conversion_target(inner, kind, convert));
        self.write_cast(keeps_bits(inner, convert), &target, out);
        drop(target);
    }

    /// A type, or `bitcast` to it.
    fn write_cast<W: TextSink>(
        &self,
        keeps_bits: bool,
        target: &TypeResolution,
        out: &mut Output<'_, W>,
    )
        requires can { CanWrite self.now }
        requires formed { IsTrue (has_type_form self.now.known.shader.now.types target.now) }
        requires fits { IsTrue (resolution_fits (length self.now.known.shader.now.overrides)
            (length self.now.known.shader.now.types) target.now) }
        ensures { Writes W.text W.failures out.old out.new
            (cast_text self.now keeps_bits target.now) }
    {
        if keeps_bits {
            self.write_bitcast(target, out);
        } else {
            self.write_type_of(target, out);
        }
    }

    #[tactic(auto, using(naga_words::proofs::Writing::writes_then, crate::proofs::ConversionRows::bitcast_row))]
    fn write_bitcast<W: TextSink>(&self, target: &TypeResolution, out: &mut Output<'_, W>)
        requires can { CanWrite self.now }
        requires formed { IsTrue (has_type_form self.now.known.shader.now.types target.now) }
        requires fits { IsTrue (resolution_fits (length self.now.known.shader.now.overrides)
            (length self.now.known.shader.now.types) target.now) }
        ensures { Writes W.text W.failures out.old out.new (bitcast_text self.now target.now) }
    {
        out.put("bitcast<");
        self.write_type_of(target, out);
        out.put(">");
    }
}

/// What a scalar, a vector or a matrix of this type is converted to.
fn conversion_target(operand: &TypeInner, kind: ScalarKind, convert: Option<u8>) -> TypeInner
    requires { IsTrue (is_some (conversion_target operand.now kind convert)) }
    ensures { conversion_target operand.now kind convert ≡ Some result }
{
    match operand {
        TypeInner::Scalar(scalar) => TypeInner::Scalar(converted_scalar(*scalar, kind, convert)),
        TypeInner::Vector { size, scalar } => TypeInner::Vector {
            size: *size,
            scalar: converted_scalar(*scalar, kind, convert),
        },
        TypeInner::Matrix {
            columns,
            rows,
            scalar,
        } => TypeInner::Matrix {
            columns: *columns,
            rows: *rows,
            scalar: converted_scalar(*scalar, kind, convert),
        },
        _ => unreachable!(),
    }
}

/// Whether the bits are kept and read as a value of the other type, as they are where no width is
/// told, but for a matrix.
fn keeps_bits(operand: &TypeInner, convert: Option<u8>) -> bool
    ensures { result ≡ keeps_bits operand.now convert }
{
    match operand {
        TypeInner::Matrix { .. } => false,
        _ => convert.is_none(),
    }
}
