//! A context that names types and overrides by their indices.

ghost use Rattle.std.specs.Prelude.{◌≡◌, [], ◌∷◌, false, IfOk, IsTrue};
ghost use Rattle.naga_words.specs.Output.{Spells};
ghost use Rattle.naga_spelling.specs.Segments.{Word};
ghost use Rattle.naga_spelling.specs.Spelling.{IsInOrder};
ghost use Rattle.word_tests.specs.Numbered.{AreNumbered, numbered_context, override_number};

use naga_ir::{Handle, Override, Type_, TypeInner, UniqueArena};
use naga_words::types::types_in_order;
use naga_words::word_writing::write_word;
use naga_words::{Output, TextSink, TypeContext, TypeTextError};
use std::alloc::{AllocError, Global};

/// Names the struct at a handle `T` and the handle's index, as `T12`, and overrides likewise `O`
/// and their index. What has no form is refused, and so is a struct without a handle.
#[derive(Drop)]
pub struct NumberedTypes<'a> {
    /// The types.
    pub types: &'a UniqueArena<Type_>,
    /// The name of each type.
    names: Vec<String>,
    ghost numbered: { AreNumbered types.now names.items },
}

impl<'a> NumberedTypes<'a> {
    /// The context of these types, of which each gets its name here.
    pub fn new(alloc: Global, types: &'a UniqueArena<Type_>) -> Result<Self, AllocError>
        ensures { IfOk result (λ c. c.types.now ≡ types.now) }
    {
        let mut names = Vec::new(alloc);
        for index in 0..types.len() {
            let name = format!(in alloc; "T{index}")?;
            names.push(name)?;
        }
        Ok(Self { types, names })
    }

    /// Whether each type stands after the type that it names, and each override that a length
    /// names is one of the first `overrides`. Then the types are in order.
    pub fn is_in_order(&self, overrides: usize) -> bool
        ensures { IsTrue result → IsInOrder (numbered_context self.now.types.now) }
    {
        types_in_order(self.types, overrides)
    }
}

#[tactic(auto, using(naga_words::proofs::SegmentWriting::begun_at_once, naga_words::proofs::SegmentWriting::outcomes))]
impl TypeContext for NumberedTypes<'_> {
    ghost context = { λ c. numbered_context c.types.now };

    fn lookup_type(&self, handle: Handle<Type_>) -> &Type_ {
        &self.types[handle]
    }

    fn type_name(&self, handle: Handle<Type_>) -> &str {
        self.names[handle.index()].as_str()
    }

    fn write_override<W: TextSink>(
        &self,
        alloc: Global,
        handle: Handle<Override>,
        out: &mut W,
    ) -> Result<(), TypeTextError> {
        let mut output = Output::new(out);
        write_number(alloc, handle.index(), &mut output);
        output.outcome()
    }

    fn write_unnamed_struct<W: TextSink>(
        &self,
        _alloc: Global,
        _inner: &TypeInner,
        _out: &mut W,
    ) -> Result<(), TypeTextError> {
        Err(TypeTextError::NoForm)
    }

    fn refuses(&self) -> bool {
        true
    }
}

/// Writes the name of an override by its index.
fn write_number<W: TextSink>(alloc: Global, index: usize, out: &mut Output<'_, W>)
    ensures { Spells W.text W.failures false out.old out.new
        (Word (override_number index) ∷ []) }
{
    match format!(in alloc; "O{index}") {
        Ok(name) => write_word(name.as_str(), out),
        Err(error) => out.remember(error),
    }
}
