//! Scalars, vectors of them, and pointers to these.
//!
//! Where `refuses` holds, a scalar without a word is refused; otherwise it is shown in braces.

ghost use Rattle.std.specs.Prelude.{codes, false};
ghost use Rattle.naga_words.specs.Output.{Spells};
ghost use Rattle.naga_spelling.specs.Segments.{shown_between};
ghost use Rattle.naga_spelling.specs.Values.{access_segments, pointer_in, template_segments};
ghost use Rattle.naga_spelling.specs.Values.{value_segments};
ghost use Rattle.naga_spelling.specs.Values.{braced_scalar_segments, unsupported_scalar_segments};
ghost use Rattle.naga_spelling.specs.Values.{scalar_segments};
ghost use Rattle.wgsl_words.specs.Words.{space_access_word};

use crate::output::Output;
use crate::sink::TextSink;
use crate::word_writing::{write_shown, write_three, write_word};
use naga_ir::{AddressSpace, Scalar, ScalarKind, VectorSize};
use naga_spelling::words::vector_str;
use std::alloc::Global;
use wgsl_words::{TryToWgsl, space_access_str};

/// Writes a scalar's debug text in braces.
fn write_shown_scalar<W: TextSink>(alloc: Global, scalar: Scalar, out: &mut Output<'_, W>)
    ensures { Spells W.text W.failures false out.old out.new
        (shown_between (codes "{non-WGSL Naga scalar ") (codes "}")) }
{
    match format!(in alloc; "{scalar:?}") {
        Ok(debug) => write_shown("{non-WGSL Naga scalar ", debug.as_str(), "}", out),
        Err(error) => out.remember(error),
    }
}

/// Writes a scalar without a word in braces.
fn write_braced_scalar<W: TextSink>(alloc: Global, scalar: Scalar, out: &mut Output<'_, W>)
    ensures { Spells W.text W.failures false out.old out.new
        (braced_scalar_segments scalar.kind) }
{
    match scalar.kind {
        ScalarKind::AbstractInt => write_word("{AbstractInt}", out),
        ScalarKind::AbstractFloat => write_word("{AbstractFloat}", out),
        ScalarKind::Bool => write_shown_scalar(alloc, scalar, out),
        ScalarKind::Sint => write_shown_scalar(alloc, scalar, out),
        ScalarKind::Uint => write_shown_scalar(alloc, scalar, out),
        ScalarKind::Float => write_shown_scalar(alloc, scalar, out),
    }
}

/// Writes a scalar without a word, or refuses it.
#[tactic(auto, using(crate::proofs::SegmentWriting::rows))]
pub fn write_unsupported_scalar<W: TextSink>(
    refuses: bool,
    alloc: Global,
    scalar: Scalar,
    out: &mut Output<'_, W>,
)
    ensures { Spells W.text W.failures refuses out.old out.new
        (unsupported_scalar_segments refuses scalar.kind) }
{
    if refuses {
        out.refuse();
    } else {
        write_braced_scalar(alloc, scalar, out);
    }
}

/// Writes a scalar, as `f32`.
#[tactic(auto, using(crate::proofs::SegmentWriting::rows))]
pub fn write_scalar<W: TextSink>(
    refuses: bool,
    alloc: Global,
    scalar: Scalar,
    out: &mut Output<'_, W>,
)
    ensures { Spells W.text W.failures refuses out.old out.new (scalar_segments refuses scalar) }
{
    match scalar.try_to_wgsl() {
        Some(word) => write_word(word, out),
        None => write_unsupported_scalar(refuses, alloc, scalar, out),
    }
}

/// Writes a word with a scalar in angle brackets, of which `tail` has the closing one.
#[tactic(auto, using(crate::proofs::SegmentWriting::rows))]
pub fn write_template<W: TextSink>(
    refuses: bool,
    alloc: Global,
    word: &str,
    scalar: Scalar,
    tail: &str,
    out: &mut Output<'_, W>,
)
    ensures { Spells W.text W.failures refuses out.old out.new
        (template_segments word.now (scalar_segments refuses scalar) tail.now) }
{
    out.put(word);
    out.put("<");
    write_scalar(refuses, alloc, scalar, out);
    out.put(tail);
}

/// Writes one scalar, or a vector of them: `vec3<f32>`.
pub fn write_value<W: TextSink>(
    refuses: bool,
    alloc: Global,
    size: Option<VectorSize>,
    scalar: Scalar,
    out: &mut Output<'_, W>,
)
    ensures { Spells W.text W.failures refuses out.old out.new
        (value_segments refuses size scalar) }
{
    match size {
        Some(size) => write_template(refuses, alloc, vector_str(size), scalar, ">", out),
        None => write_scalar(refuses, alloc, scalar, out),
    }
}

/// Writes the end of a pointer, with what may be done through it where that has a word:
/// `, read_write>`.
pub fn write_access<W: TextSink>(space: AddressSpace, out: &mut Output<'_, W>)
    ensures { Spells W.text W.failures false out.old out.new
        (access_segments (space_access_word space)) }
{
    match space_access_str(space) {
        Some(word) => write_three(", ", word, ">", out),
        None => write_word(">", out),
    }
}

/// Writes a pointer to a scalar or a vector in a space that has a word: `ptr<function, vec3<f32>>`.
#[tactic(auto, using(crate::proofs::SegmentWriting::rows))]
pub fn write_value_pointer_in<W: TextSink>(
    refuses: bool,
    alloc: Global,
    word: &str,
    size: Option<VectorSize>,
    scalar: Scalar,
    space: AddressSpace,
    out: &mut Output<'_, W>,
)
    ensures { Spells W.text W.failures refuses out.old out.new
        (pointer_in word.now (space_access_word space) (value_segments refuses size scalar)) }
{
    out.put("ptr<");
    out.put(word);
    out.put(", ");
    write_value(refuses, alloc, size, scalar, out);
    write_access(space, out);
}
