//! Typing rules in a context.

ghost use Rattle.std.specs.Prelude.{[], ◌∷◌, false};
ghost use Rattle.naga_words.specs.Output.{Spells};
ghost use Rattle.naga_spelling.specs.Segments.{Word};
ghost use Rattle.naga_words.specs.Predeclared.{predeclared_name};
ghost use Rattle.naga_words.specs.Rules.{AllFit, FitsConclusion, conclusion_segments};
ghost use Rattle.naga_words.specs.Rules.{rule_segments};
ghost use Rattle.naga_words.specs.Rules.{arguments_segments, more_arguments_segments};
ghost use Rattle.naga_spelling.specs.Spelling.{IsInOrder, FitsResolution, resolution_segments};

use crate::types::TypeContext;
use crate::types::spelling::{write_inner_in, write_type_in};
use crate::word_writing::write_word;
use crate::{Output, PredeclaredName, TextSink};
use naga_info::{Conclusion, Rule, TypeResolution};
use naga_ir::PredeclaredType;
use std::alloc::Global;

/// Writes the type of an expression.
pub fn write_resolution_in<C: TypeContext, W: TextSink>(
    context: &C,
    alloc: Global,
    resolution: &TypeResolution,
    out: &mut Output<'_, W>,
)
    requires order { IsInOrder (C.context context.now) }
    requires fits { FitsResolution (C.context context.now) resolution.now }
    ensures { Spells W.text W.failures (C.context context.now).refuses out.old out.new
        (resolution_segments (C.context context.now) resolution.now) }
{
    match resolution {
        TypeResolution::Handle(handle) => write_type_in(context, alloc, *handle, out),
        TypeResolution::Value(inner) => write_inner_in(context, alloc, inner, out),
    }
}

#[tactic(auto, using(crate::proofs::SegmentWriting::rows))]
fn write_more_arguments<C: TypeContext, W: TextSink>(
    context: &C,
    alloc: Global,
    arguments: &[TypeResolution],
    out: &mut Output<'_, W>,
)
    requires order { IsInOrder (C.context context.now) }
    requires fits { AllFit (C.context context.now) arguments.now }
    ensures { Spells W.text W.failures (C.context context.now).refuses out.old out.new
        (more_arguments_segments (C.context context.now) arguments.now) }
{
    match arguments.split_first() {
        None => {}
        Some((first, rest)) => {
            out.put(", ");
            write_resolution_in(context, alloc, first, out);
            write_more_arguments(context, alloc, rest, out);
        }
    }
}

#[tactic(auto, using(crate::proofs::SegmentWriting::rows))]
fn write_arguments<C: TypeContext, W: TextSink>(
    context: &C,
    alloc: Global,
    arguments: &[TypeResolution],
    out: &mut Output<'_, W>,
)
    requires order { IsInOrder (C.context context.now) }
    requires fits { AllFit (C.context context.now) arguments.now }
    ensures { Spells W.text W.failures (C.context context.now).refuses out.old out.new
        (arguments_segments (C.context context.now) arguments.now) }
{
    match arguments.split_first() {
        None => {}
        Some((first, rest)) => {
            write_resolution_in(context, alloc, first, out);
            write_more_arguments(context, alloc, rest, out);
        }
    }
}

fn write_predeclared<W: TextSink>(
    alloc: Global,
    predeclared: &PredeclaredType,
    out: &mut Output<'_, W>,
)
    ensures { Spells W.text W.failures false out.old out.new
        (Word (predeclared_name predeclared.now) ∷ []) }
{
    match predeclared.struct_name(alloc) {
        Ok(name) => write_word(name.as_str(), out),
        Err(error) => out.remember(error),
    }
}

/// Writes what a function gives.
#[tactic(auto, using(crate::proofs::SegmentWriting::rows))]
pub(crate) fn write_conclusion_in<C: TypeContext, W: TextSink>(
    context: &C,
    alloc: Global,
    conclusion: &Conclusion,
    out: &mut Output<'_, W>,
)
    requires order { IsInOrder (C.context context.now) }
    requires fits { FitsConclusion (C.context context.now) conclusion.now }
    ensures { Spells W.text W.failures (C.context context.now).refuses out.old out.new
        (conclusion_segments (C.context context.now) conclusion.now) }
{
    match conclusion {
        Conclusion::Value(inner) => write_inner_in(context, alloc, inner, out),
        Conclusion::Predeclared(predeclared) => write_predeclared(alloc, predeclared, out),
    }
}

/// Writes a rule by its function's name.
#[tactic(auto, using(crate::proofs::SegmentWriting::rows))]
pub(crate) fn write_rule_in<C: TypeContext, W: TextSink>(
    context: &C,
    alloc: Global,
    name: &str,
    rule: &Rule,
    out: &mut Output<'_, W>,
)
    requires order { IsInOrder (C.context context.now) }
    requires fits { AllFit (C.context context.now) rule.now.arguments.items }
    requires gives { FitsConclusion (C.context context.now) rule.now.conclusion }
    ensures { Spells W.text W.failures (C.context context.now).refuses out.old out.new
        (rule_segments (C.context context.now) name.now rule.now) }
{
    out.put("fn ");
    out.put(name);
    out.put("(");
    write_arguments(context, alloc, &rule.arguments, out);
    out.put(") -> ");
    write_conclusion_in(context, alloc, &rule.conclusion, out);
}
