//! Bindings, by the attributes that say how a value goes in or out.

ghost use Rattle.std.specs.Prelude.{◌≡◌, ◌++◌, IfErr, IsFalse, IsTrue, OnErr, OnOk};
ghost use Rattle.std.specs.Option.{is_some};
ghost use Rattle.module_semantics.specs.DeclarationForms.{binding_has_form};
ghost use Rattle.module_semantics.specs.StageBindings.{is_invariant};
ghost use Rattle.naga_form.specs.Attributes.{attribute_of, interpolation_attributes};
ghost use Rattle.naga_form.specs.Attributes.{interpolation_told, is_center, is_perspective};
ghost use Rattle.naga_form.specs.Attributes.{passing_attributes};
ghost use Rattle.naga_ir.specs.declared.binding.Binding.TheVariants as binding;
ghost use Rattle.naga_words.specs.Output.{Writes};
ghost use Rattle.naga_spelling.specs.Sink.{IsAfter};
ghost use Rattle.wgsl_text.specs.Attributes.{BlendSource, Numbered};
ghost use Rattle.wgsl_words.specs.Words.{builtin_word};
ghost use Rattle.naga_wgsl_shared.specs.Attributes.{attributes_text, binding_text};
ghost use Rattle.naga_wgsl_shared.specs.Bindings.{BindingWriting, passing_has_form};
ghost use Rattle.naga_wgsl_shared.specs.Refusals.{NamesBuiltin};
ghost use Rattle.naga_refusals.specs.Errors.{IsWant};

use crate::attributes::{write_interpolated, write_numbered, write_optional_chunk, write_worded};
use crate::implemented::to_wgsl_if_implemented;
use naga_ir::{Binding, BuiltIn, Interpolation, Sampling};
use naga_refusals::Error;
use naga_refusals::error::error_of_want;
use naga_words::{Output, TextSink};
use std::alloc::Global;
use wgsl_words::{ToWgsl, TryToWgsl};

/// Writes the attributes of a binding after what the sink holds, each with one blank after it:
/// `@location(0) @interpolate(flat) `. What is absent is left out, and so is an interpolation in
/// perspective at the center.
///
/// A built-in value that WGSL has no word for is refused as `Unsupported`, of the kind
/// `builtin value`, with its debug text; the sink is then as it was. After want of memory or a
/// failure of the sink a beginning of the attributes may stand after what the sink held.
pub fn write_binding<W: TextSink>(
    alloc: Global,
    binding: &Binding,
    out: &mut W,
) -> Result<(), Error>
    ensures { BindingWriting binding.now result (W.text out.old) (W.text out.new)
        (W.failures out.old) (W.failures out.new) }
{
    match check_binding_form(alloc, *binding) {
        Ok(()) => write_formed(*binding, out),
        Err(error) => Err(error),
    }
}

/// Refuses a binding to a value without a word.
fn check_binding_form(alloc: Global, binding: Binding) -> Result<(), Error>
    ensures formed { OnOk result (IsTrue (binding_has_form binding)) }
    ensures unsupported { OnErr result (IsFalse (binding_has_form binding)) }
    ensures named { IfErr result NamesBuiltin }
{
    match binding {
        Binding::BuiltIn(value) => {
            to_wgsl_if_implemented(alloc, value)?;
            Ok(())
        }
        Binding::Location { .. } => Ok(()),
    }
}

/// The same of a binding that has a form.
#[tactic(auto, using(naga_words::proofs::Writing::fresh_output))]
fn write_formed<W: TextSink>(binding: Binding, out: &mut W) -> Result<(), Error>
    requires { IsTrue (binding_has_form binding) }
    ensures text_ok { OnOk result (W.text out.new ≡ W.text out.old ++ binding_text binding) }
    ensures text_err { OnErr result
        (IsAfter (W.text out.old) (binding_text binding) (W.text out.new)) }
    ensures failures_ok { OnOk result (W.failures out.new ≡ W.failures out.old) }
    ensures reason { IfErr result (IsWant (W.failures out.old) (W.failures out.new)) }
{
    let mut written = Output::new(out);
    write_attributes(binding, &mut written);
    match written.outcome() {
        Ok(()) => Ok(()),
        Err(want) => Err(error_of_want(want)),
    }
}

/// The attributes of an argument, a result or a member, by its binding, if it has one.
#[tactic(auto, using(naga_words::proofs::Writing::writes_nothing, crate::proofs::AttributeRows::unbound_row))]
pub fn write_optional_binding<W: TextSink>(binding: Option<Binding>, out: &mut Output<'_, W>)
    requires { IsTrue (passing_has_form binding) }
    ensures { Writes W.text W.failures out.old out.new
        (attributes_text (passing_attributes binding)) }
{
    match binding {
        Some(binding) => write_attributes(binding, out),
        None => {}
    }
}

fn write_attributes<W: TextSink>(binding: Binding, out: &mut Output<'_, W>)
    requires { IsTrue (binding_has_form binding) }
    ensures { Writes W.text W.failures out.old out.new (binding_text binding) }
{
    match binding {
        Binding::BuiltIn(value) => write_builtin(value, out),
        Binding::Location {
            location,
            interpolation,
            sampling,
            blend_src,
            per_primitive,
        } => {
            write_numbered("@location(", location, out);
            write_blend_source(blend_src, out);
            write_interpolation(interpolation, sampling, out);
            write_optional_chunk(per_primitive, "@per_primitive ", out);
        }
    }
}

/// A built-in value, and whether it is computed alike in each pipeline.
fn write_builtin<W: TextSink>(value: BuiltIn, out: &mut Output<'_, W>)
    requires { IsTrue (is_some (builtin_word value)) }
    ensures { Writes W.text W.failures out.old out.new (binding_text (binding.BuiltIn value)) }
{
    match value.try_to_wgsl() {
        Some(word) => {
            write_worded("@builtin(", word, out);
            write_optional_chunk(is_invariant(value), "@invariant ", out);
        }
        None => unreachable!(),
    }
}

fn is_invariant(value: BuiltIn) -> bool
    ensures { result ≡ is_invariant value }
{
    match value {
        BuiltIn::Position { invariant } => invariant,
        _ => false,
    }
}

#[tactic(auto, using(naga_words::proofs::Writing::writes_nothing, crate::proofs::AttributeRows::no_source_row))]
fn write_blend_source<W: TextSink>(source: Option<u32>, out: &mut Output<'_, W>)
    ensures { Writes W.text W.failures out.old out.new
        (attributes_text (attribute_of (Numbered BlendSource) source)) }
{
    match source {
        Some(number) => write_numbered("@blend_src(", number, out),
        None => {}
    }
}

/// How a value is interpolated and where. Absent means in perspective, and at the center.
fn write_interpolation<W: TextSink>(
    interpolation: Option<Interpolation>,
    sampling: Option<Sampling>,
    out: &mut Output<'_, W>,
)
    ensures { Writes W.text W.failures out.old out.new
        (attributes_text (interpolation_attributes interpolation sampling)) }
{
    let interpolation = interpolation.unwrap_or(Interpolation::Perspective);
    let sampling = sampling.unwrap_or(Sampling::Center);
    write_needed_words(
        is_perspective(interpolation),
        is_center(sampling),
        interpolation.to_wgsl(),
        sampling.to_wgsl(),
        out,
    );
}

fn is_perspective(interpolation: Interpolation) -> bool
    ensures { result ≡ is_perspective interpolation }
{
    match interpolation {
        Interpolation::Perspective => true,
        _ => false,
    }
}

fn is_center(sampling: Sampling) -> bool
    ensures { result ≡ is_center sampling }
{
    match sampling {
        Sampling::Center => true,
        _ => false,
    }
}

/// The words of both, without those that say what is so by itself.
fn write_needed_words<W: TextSink>(
    perspective: bool,
    center: bool,
    interpolation: &str,
    sampling: &str,
    out: &mut Output<'_, W>,
)
    ensures { Writes W.text W.failures out.old out.new (attributes_text
        (interpolation_told perspective center interpolation.now sampling.now)) }
{
    if !center {
        write_interpolated(interpolation, sampling, out);
    } else if !perspective {
        write_worded("@interpolate(", interpolation, out);
    }
}
