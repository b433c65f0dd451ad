//! Contexts: types alone, the arenas of a module, and a module with the names of its items.

ghost use Rattle.std.specs.Prelude.{◌≡◌, ◌<◌, false, None, Some, slice_get, string_bytes, codes};
ghost use Rattle.naga_naming.specs.Keys.{names_in};
ghost use Rattle.naga_spelling.specs.Contexts.{arena_context, global_context, names_context};
ghost use Rattle.naga_spelling.specs.Contexts.{name_or_nothing};
ghost use Rattle.naga_words.specs.Output.{Spells};
ghost use Rattle.naga_spelling.specs.Segments.{shown_between};

use crate::types::TypeContext;
use crate::word_writing::{write_shown, write_word};
use crate::{Output, TextSink, TypeTextError};
use naga_info::GlobalCtx;
use naga_ir::{Handle, Module, Override, Type_, TypeInner, UniqueArena};
use naga_naming::NameKey;
use std::alloc::Global;
use std::collections::HashMap;

/// What stands for a struct without a label.
const ANONYMOUS_TYPE: &str = "{anonymous type}";

/// Labels are names, and what has no form is shown in braces, with overrides and structs without a
/// handle.
#[tactic(auto, using(crate::proofs::SegmentWriting::outcomes))]
impl TypeContext for UniqueArena<Type_> {
    ghost context = { arena_context };

    fn lookup_type(&self, handle: Handle<Type_>) -> &Type_ {
        &self[handle]
    }

    fn type_name(&self, handle: Handle<Type_>) -> &str {
        match &self[handle].name {
            Some(name) => name.as_str(),
            None => ANONYMOUS_TYPE,
        }
    }

    fn write_override<W: TextSink>(
        &self,
        alloc: Global,
        handle: Handle<Override>,
        out: &mut W,
    ) -> Result<(), TypeTextError> {
        let mut output = Output::new(out);
        write_shown_override(alloc, handle, &mut output);
        output.outcome()
    }

    fn write_unnamed_struct<W: TextSink>(
        &self,
        alloc: Global,
        inner: &TypeInner,
        out: &mut W,
    ) -> Result<(), TypeTextError> {
        let mut output = Output::new(out);
        write_shown_struct(alloc, inner, &mut output);
        output.outcome()
    }

    fn refuses(&self) -> bool {
        false
    }
}

/// Labels are names, and what has no form is shown in braces, with overrides without a label and
/// structs without a handle.
#[tactic(auto, using(crate::proofs::SegmentWriting::outcomes))]
impl TypeContext for GlobalCtx<'_> {
    ghost context = { λ c. global_context c.types.now c.overrides.now };

    fn lookup_type(&self, handle: Handle<Type_>) -> &Type_ {
        &self.types[handle]
    }

    fn type_name(&self, handle: Handle<Type_>) -> &str {
        match &self.types[handle].name {
            Some(name) => name.as_str(),
            None => ANONYMOUS_TYPE,
        }
    }

    fn write_override<W: TextSink>(
        &self,
        alloc: Global,
        handle: Handle<Override>,
        out: &mut W,
    ) -> Result<(), TypeTextError> {
        let mut output = Output::new(out);
        match &self.overrides[handle].name {
            Some(name) => write_word(name.as_str(), &mut output),
            None => write_anonymous_override(alloc, handle, &mut output),
        }
        output.outcome()
    }

    fn write_unnamed_struct<W: TextSink>(
        &self,
        _alloc: Global,
        _inner: &TypeInner,
        out: &mut W,
    ) -> Result<(), TypeTextError> {
        let mut output = Output::new(out);
        write_word("{unnamed struct}", &mut output);
        output.outcome()
    }

    fn refuses(&self) -> bool {
        false
    }
}

/// A module with the names of its types and overrides. What has no form is refused, and so is a
/// struct without a handle. What has no name is written as nothing, so the names should have all.
#[derive(Clone, Copy)]
pub struct WriterTypeContext<'a> {
    /// The module.
    pub module: &'a Module,
    /// The names of its items.
    pub names: &'a HashMap<NameKey, String>,
}

#[tactic(auto, using(crate::proofs::SegmentWriting::begun_at_once, crate::proofs::SegmentWriting::outcomes))]
impl TypeContext for WriterTypeContext<'_> {
    ghost context = { λ c. names_context c.«module».now.types (names_in c.names.now) };

    fn lookup_type(&self, handle: Handle<Type_>) -> &Type_ {
        &self.module.types[handle]
    }

    fn type_name(&self, handle: Handle<Type_>) -> &str {
        name_in(self.names, &NameKey::Type_(handle))
    }

    fn write_override<W: TextSink>(
        &self,
        _alloc: Global,
        handle: Handle<Override>,
        out: &mut W,
    ) -> Result<(), TypeTextError> {
        let mut output = Output::new(out);
        write_word(name_in(self.names, &NameKey::Override(handle)), &mut output);
        output.outcome()
    }

    fn write_unnamed_struct<W: TextSink>(
        &self,
        _alloc: Global,
        _inner: &TypeInner,
        _out: &mut W,
    ) -> Result<(), TypeTextError> {
        Err(TypeTextError::NoForm)
    }

    fn refuses(&self) -> bool {
        true
    }
}

/// Writes an override in braces.
fn write_shown_override<W: TextSink>(
    alloc: Global,
    handle: Handle<Override>,
    out: &mut Output<'_, W>,
)
    ensures { Spells W.text W.failures false out.old out.new
        (shown_between (codes "{override ") (codes "}")) }
{
    match format!(in alloc; "{handle:?}") {
        Ok(debug) => write_shown("{override ", debug.as_str(), "}", out),
        Err(error) => out.remember(error),
    }
}

/// Writes a struct without a handle in braces.
fn write_shown_struct<W: TextSink>(alloc: Global, inner: &TypeInner, out: &mut Output<'_, W>)
    ensures { Spells W.text W.failures false out.old out.new
        (shown_between (codes "{unnamed struct ") (codes "}")) }
{
    match format!(in alloc; "{inner:?}") {
        Ok(debug) => write_shown("{unnamed struct ", debug.as_str(), "}", out),
        Err(error) => out.remember(error),
    }
}

/// Writes an override without a label in braces.
fn write_anonymous_override<W: TextSink>(
    alloc: Global,
    handle: Handle<Override>,
    out: &mut Output<'_, W>,
)
    ensures { Spells W.text W.failures false out.old out.new
        (shown_between (codes "{anonymous override ") (codes "}")) }
{
    match format!(in alloc; "{handle:?}") {
        Ok(debug) => write_shown("{anonymous override ", debug.as_str(), "}", out),
        Err(error) => out.remember(error),
    }
}

/// The name at a key, and nothing where there is none.
fn name_in<'a>(names: &'a HashMap<NameKey, String>, key: &NameKey) -> &'a str
    ensures { result.now ≡ name_or_nothing (names_in names.now key.now) }
{
    match names.get(key) {
        Some(name) => name.as_str(),
        None => "",
    }
}
