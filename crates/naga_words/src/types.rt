//! How types are spelled, in a context that names what they are made of.

ghost use Rattle.std.specs.Prelude.{◌≡◌, ◌<◌, IfOk, IsErrOf, IsTrue, None, OnOk, Some, length};
ghost use Rattle.std.specs.Prelude.{slice_get, string_bytes};
ghost use Rattle.naga_words.specs.declared.error.TypeTextError.TheVariants as error;
ghost use Rattle.naga_spelling.specs.Segments.{HasBegun, HasWritten, IsRefused, IsText};
ghost use Rattle.wgsl_words.specs.Words.{scalar_word};
ghost use Rattle.naga_words.specs.Rules.{conclusion_segments, rule_segments, AllFit};
ghost use Rattle.naga_words.specs.Rules.{FitsConclusion};
ghost use Rattle.naga_spelling.specs.Values.{unsupported_segments, unsupported_scalar_segments};
ghost use Rattle.naga_spelling.specs.Values.{scalar_segments};
ghost use Rattle.naga_spelling.specs.Spelling.{Context, Fits, FitsResolution, IsInOrder};
ghost use Rattle.naga_spelling.specs.Spelling.{inner_segments, is_unsupported_pointer, is_struct};
ghost use Rattle.naga_spelling.specs.Spelling.{resolution_segments, type_segments};

pub mod contexts;
pub mod order;
pub(crate) mod rules;
pub(crate) mod scalars;
pub(crate) mod spelling;

pub use crate::TypeTextError;
use crate::scalars::write_unsupported_scalar;
pub use crate::types::rules::write_resolution_in;
use crate::types::rules::{write_conclusion_in, write_rule_in};
use crate::types::scalars::write_scalar_in;
pub use crate::types::spelling::write_type_in;
use crate::types::spelling::{write_inner_in, write_unsupported_inner};
use crate::{Output, SinkError, TextSink};
pub use contexts::WriterTypeContext;
use naga_info::{Conclusion, Rule, TypeResolution};
use naga_ir::{Handle, Override, Scalar, Type_, TypeInner};
pub use order::{type_fits, types_in_order};
use std::alloc::Global;

/// What the spelling of a type takes from around it: the types that it names, the names of structs
/// and overrides, and what becomes of a type without a form.
///
/// A diagnostic spells types by the labels of a module, as `crates/example_diagnostic` does.
/// Whether a type names none but earlier ones is asked before:
///
/// ```text
/// let context = module.to_ctx();
/// if types_in_order(context.types, context.overrides.len()) && ty.index() < context.types.len() {
///     let spelled = context.type_to_string(alloc, ty)?; // vec3<f32>
/// }
/// ```
pub trait TypeContext {
    /// What the context knows, as the spelling of a type takes it.
    ghost context: { Self → Context };

    /// The type at a handle, which lies in the context's types.
    fn lookup_type(&self, handle: Handle<Type_>) -> &Type_
        requires { handle < length (context self.now).types }
        ensures { slice_get (context self.now).types handle ≡ Some result.now };

    /// The name of the struct at a handle, which lies in the context's types.
    fn type_name(&self, handle: Handle<Type_>) -> &str
        requires { handle < length (context self.now).types }
        ensures { result.now ≡ (context self.now).name handle };

    /// Writes an override, which is one of those that the context knows.
    fn write_override<W: TextSink>(
        &self,
        alloc: Global,
        handle: Handle<Override>,
        out: &mut W,
    ) -> Result<(), TypeTextError>
        requires { IsTrue ((context self.now).knows handle) }
        ensures written { OnOk result (HasWritten ((context self.now).override_segments handle)
            (W.text out.old) (W.text out.new)) }
        ensures begun { HasBegun ((context self.now).override_segments handle)
            (W.text out.old) (W.text out.new) }
        ensures no_form { IsErrOf result error.NoForm →
            IsRefused (context self.now).refuses ((context self.now).override_segments handle) }
        ensures failures_ok { OnOk result (W.failures out.new ≡ W.failures out.old) }
        ensures failed { IsErrOf result (error.Sink SinkError.Failed) →
            W.failures out.old < W.failures out.new };

    /// Writes a struct that no handle names.
    fn write_unnamed_struct<W: TextSink>(
        &self,
        alloc: Global,
        inner: &TypeInner,
        out: &mut W,
    ) -> Result<(), TypeTextError>
        requires { IsTrue (is_struct inner.now) }
        ensures written { OnOk result (HasWritten (context self.now).unnamed_segments
            (W.text out.old) (W.text out.new)) }
        ensures begun { HasBegun (context self.now).unnamed_segments
            (W.text out.old) (W.text out.new) }
        ensures no_form { IsErrOf result error.NoForm →
            IsRefused (context self.now).refuses (context self.now).unnamed_segments }
        ensures failures_ok { OnOk result (W.failures out.new ≡ W.failures out.old) }
        ensures failed { IsErrOf result (error.Sink SinkError.Failed) →
            W.failures out.old < W.failures out.new };

    /// Whether a type without a form is refused. Otherwise it is shown in braces.
    fn refuses(&self) -> bool
        ensures { result ≡ (context self.now).refuses };

    /// Writes a type without a form, a value pointer in a space without a word, in braces, or
    /// refuses it.
    #[tactic(auto, using(crate::proofs::SegmentWriting::outcomes))]
    final fn write_non_wgsl_inner<W: TextSink>(
        &self,
        alloc: Global,
        inner: &TypeInner,
        out: &mut W,
    ) -> Result<(), TypeTextError>
        requires { IsTrue (is_unsupported_pointer inner.now) }
        ensures written { OnOk result (HasWritten (unsupported_segments (context self.now).refuses)
            (W.text out.old) (W.text out.new)) }
        ensures begun { HasBegun (unsupported_segments (context self.now).refuses)
            (W.text out.old) (W.text out.new) }
        ensures no_form { IsErrOf result error.NoForm →
            IsRefused (context self.now).refuses (unsupported_segments (context self.now).refuses) }
        ensures failures_ok { OnOk result (W.failures out.new ≡ W.failures out.old) }
        ensures failed { IsErrOf result (error.Sink SinkError.Failed) →
            W.failures out.old < W.failures out.new }
    {
        let mut output = Output::new(out);
        write_unsupported_inner(self, alloc, inner, &mut output);
        output.outcome()
    }

    /// Writes a type by itself. A struct needs its handle; one by itself is written as an unnamed
    /// one.
    #[tactic(auto, using(crate::proofs::SegmentWriting::outcomes))]
    final fn write_type_inner<W: TextSink>(
        &self,
        alloc: Global,
        inner: &TypeInner,
        out: &mut W,
    ) -> Result<(), TypeTextError>
        requires order { IsInOrder (context self.now) }
        requires fits { Fits (context self.now) inner.now }
        ensures written { OnOk result (HasWritten (inner_segments (context self.now) inner.now)
            (W.text out.old) (W.text out.new)) }
        ensures begun { HasBegun (inner_segments (context self.now) inner.now)
            (W.text out.old) (W.text out.new) }
        ensures no_form { IsErrOf result error.NoForm →
            IsRefused (context self.now).refuses (inner_segments (context self.now) inner.now) }
        ensures failures_ok { OnOk result (W.failures out.new ≡ W.failures out.old) }
        ensures failed { IsErrOf result (error.Sink SinkError.Failed) →
            W.failures out.old < W.failures out.new }
    {
        let mut output = Output::new(out);
        write_inner_in(self, alloc, inner, &mut output);
        output.outcome()
    }

    /// Writes a scalar without a word in braces, or refuses it.
    #[tactic(auto, using(crate::proofs::SegmentWriting::outcomes))]
    final fn write_non_wgsl_scalar<W: TextSink>(
        &self,
        alloc: Global,
        scalar: Scalar,
        out: &mut W,
    ) -> Result<(), TypeTextError>
        requires { scalar_word scalar ≡ None }
        ensures written { OnOk result (HasWritten
            (unsupported_scalar_segments (context self.now).refuses scalar.kind)
            (W.text out.old) (W.text out.new)) }
        ensures begun { HasBegun (unsupported_scalar_segments (context self.now).refuses scalar.kind)
            (W.text out.old) (W.text out.new) }
        ensures no_form { IsErrOf result error.NoForm →
            IsRefused (context self.now).refuses
            (unsupported_scalar_segments (context self.now).refuses scalar.kind) }
        ensures failures_ok { OnOk result (W.failures out.new ≡ W.failures out.old) }
        ensures failed { IsErrOf result (error.Sink SinkError.Failed) →
            W.failures out.old < W.failures out.new }
    {
        let mut output = Output::new(out);
        write_unsupported_scalar(self.refuses(), alloc, scalar, &mut output);
        output.outcome()
    }

    /// Writes a scalar.
    #[tactic(auto, using(crate::proofs::SegmentWriting::outcomes))]
    final fn write_scalar<W: TextSink>(
        &self,
        alloc: Global,
        scalar: Scalar,
        out: &mut W,
    ) -> Result<(), TypeTextError>
        ensures written { OnOk result (HasWritten (scalar_segments (context self.now).refuses scalar)
            (W.text out.old) (W.text out.new)) }
        ensures begun { HasBegun (scalar_segments (context self.now).refuses scalar)
            (W.text out.old) (W.text out.new) }
        ensures no_form { IsErrOf result error.NoForm →
            IsRefused (context self.now).refuses (scalar_segments (context self.now).refuses scalar) }
        ensures failures_ok { OnOk result (W.failures out.new ≡ W.failures out.old) }
        ensures failed { IsErrOf result (error.Sink SinkError.Failed) →
            W.failures out.old < W.failures out.new }
    {
        let mut output = Output::new(out);
        write_scalar_in(self, alloc, scalar, &mut output);
        output.outcome()
    }

    /// Writes the type at a handle, which lies in the context's types: a struct by its name.
    #[tactic(auto, using(crate::proofs::SegmentWriting::outcomes))]
    final fn write_type<W: TextSink>(
        &self,
        alloc: Global,
        handle: Handle<Type_>,
        out: &mut W,
    ) -> Result<(), TypeTextError>
        requires order { IsInOrder (context self.now) }
        requires in_range { handle < length (context self.now).types }
        ensures written { OnOk result (HasWritten (type_segments (context self.now) handle)
            (W.text out.old) (W.text out.new)) }
        ensures begun { HasBegun (type_segments (context self.now) handle)
            (W.text out.old) (W.text out.new) }
        ensures no_form { IsErrOf result error.NoForm →
            IsRefused (context self.now).refuses (type_segments (context self.now) handle) }
        ensures failures_ok { OnOk result (W.failures out.new ≡ W.failures out.old) }
        ensures failed { IsErrOf result (error.Sink SinkError.Failed) →
            W.failures out.old < W.failures out.new }
    {
        let mut output = Output::new(out);
        write_type_in(self, alloc, handle, &mut output);
        output.outcome()
    }

    /// Writes the type of an expression.
    #[tactic(auto, using(crate::proofs::SegmentWriting::outcomes))]
    final fn write_type_resolution<W: TextSink>(
        &self,
        alloc: Global,
        resolution: &TypeResolution,
        out: &mut W,
    ) -> Result<(), TypeTextError>
        requires order { IsInOrder (context self.now) }
        requires fits { FitsResolution (context self.now) resolution.now }
        ensures written { OnOk result (HasWritten
            (resolution_segments (context self.now) resolution.now)
            (W.text out.old) (W.text out.new)) }
        ensures begun { HasBegun (resolution_segments (context self.now) resolution.now)
            (W.text out.old) (W.text out.new) }
        ensures no_form { IsErrOf result error.NoForm →
            IsRefused (context self.now).refuses
            (resolution_segments (context self.now) resolution.now) }
        ensures failures_ok { OnOk result (W.failures out.new ≡ W.failures out.old) }
        ensures failed { IsErrOf result (error.Sink SinkError.Failed) →
            W.failures out.old < W.failures out.new }
    {
        let mut output = Output::new(out);
        write_resolution_in(self, alloc, resolution, &mut output);
        output.outcome()
    }

    /// Writes what a function gives.
    #[tactic(auto, using(crate::proofs::SegmentWriting::outcomes))]
    final fn write_type_conclusion<W: TextSink>(
        &self,
        alloc: Global,
        conclusion: &Conclusion,
        out: &mut W,
    ) -> Result<(), TypeTextError>
        requires order { IsInOrder (context self.now) }
        requires fits { FitsConclusion (context self.now) conclusion.now }
        ensures written { OnOk result (HasWritten
            (conclusion_segments (context self.now) conclusion.now)
            (W.text out.old) (W.text out.new)) }
        ensures begun { HasBegun (conclusion_segments (context self.now) conclusion.now)
            (W.text out.old) (W.text out.new) }
        ensures no_form { IsErrOf result error.NoForm →
            IsRefused (context self.now).refuses
            (conclusion_segments (context self.now) conclusion.now) }
        ensures failures_ok { OnOk result (W.failures out.new ≡ W.failures out.old) }
        ensures failed { IsErrOf result (error.Sink SinkError.Failed) →
            W.failures out.old < W.failures out.new }
    {
        let mut output = Output::new(out);
        write_conclusion_in(self, alloc, conclusion, &mut output);
        output.outcome()
    }

    /// Writes a rule by its function's name: `fn dot(vec3<f32>, vec3<f32>) -> f32`.
    #[tactic(auto, using(crate::proofs::SegmentWriting::outcomes))]
    final fn write_type_rule<W: TextSink>(
        &self,
        alloc: Global,
        name: &str,
        rule: &Rule,
        out: &mut W,
    ) -> Result<(), TypeTextError>
        requires order { IsInOrder (context self.now) }
        requires fits { AllFit (context self.now) rule.now.arguments.items }
        requires gives { FitsConclusion (context self.now) rule.now.conclusion }
        ensures written { OnOk result (HasWritten (rule_segments (context self.now) name.now rule.now)
            (W.text out.old) (W.text out.new)) }
        ensures begun { HasBegun (rule_segments (context self.now) name.now rule.now)
            (W.text out.old) (W.text out.new) }
        ensures no_form { IsErrOf result error.NoForm →
            IsRefused (context self.now).refuses (rule_segments (context self.now) name.now rule.now) }
        ensures failures_ok { OnOk result (W.failures out.new ≡ W.failures out.old) }
        ensures failed { IsErrOf result (error.Sink SinkError.Failed) →
            W.failures out.old < W.failures out.new }
    {
        let mut output = Output::new(out);
        write_rule_in(self, alloc, name, rule, &mut output);
        output.outcome()
    }

    /// The text of the type at a handle, which lies in the context's types.
    final fn type_to_string(
        &self,
        alloc: Global,
        handle: Handle<Type_>,
    ) -> Result<String, TypeTextError>
        requires order { IsInOrder (context self.now) }
        requires in_range { handle < length (context self.now).types }
        ensures text { IfOk result (λ text. IsText (type_segments (context self.now) handle)
            (string_bytes text)) }
        ensures no_form { IsErrOf result error.NoForm →
            IsRefused (context self.now).refuses (type_segments (context self.now) handle) }
        ensures no_failure { IsErrOf result (error.Sink SinkError.Failed) → ⊥ }
    {
        let mut text = String::new(alloc);
        self.write_type(alloc, handle, &mut text)?;
        Ok(text)
    }

    /// The text of the type of an expression.
    final fn type_resolution_to_string(
        &self,
        alloc: Global,
        resolution: &TypeResolution,
    ) -> Result<String, TypeTextError>
        requires order { IsInOrder (context self.now) }
        requires fits { FitsResolution (context self.now) resolution.now }
        ensures text { IfOk result (λ text. IsText
            (resolution_segments (context self.now) resolution.now)
            (string_bytes text)) }
        ensures no_form { IsErrOf result error.NoForm →
            IsRefused (context self.now).refuses
            (resolution_segments (context self.now) resolution.now) }
        ensures no_failure { IsErrOf result (error.Sink SinkError.Failed) → ⊥ }
    {
        let mut text = String::new(alloc);
        self.write_type_resolution(alloc, resolution, &mut text)?;
        Ok(text)
    }

    /// The text of a rule by its function's name.
    final fn type_rule_to_string(
        &self,
        alloc: Global,
        name: &str,
        rule: &Rule,
    ) -> Result<String, TypeTextError>
        requires order { IsInOrder (context self.now) }
        requires fits { AllFit (context self.now) rule.now.arguments.items }
        requires gives { FitsConclusion (context self.now) rule.now.conclusion }
        ensures text { IfOk result (λ text. IsText (rule_segments (context self.now) name.now rule.now)
            (string_bytes text)) }
        ensures no_form { IsErrOf result error.NoForm →
            IsRefused (context self.now).refuses (rule_segments (context self.now) name.now rule.now) }
        ensures no_failure { IsErrOf result (error.Sink SinkError.Failed) → ⊥ }
    {
        let mut text = String::new(alloc);
        self.write_type_rule(alloc, name, rule, &mut text)?;
        Ok(text)
    }
}
