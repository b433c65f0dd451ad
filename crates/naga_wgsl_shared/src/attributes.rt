//! Attributes, each with one blank after it.

ghost use Rattle.naga_words.specs.Output.{Writes};
ghost use Rattle.naga_wgsl_shared.specs.Attributes.{interpolated_text, numbered_text, text_if};
ghost use Rattle.naga_wgsl_shared.specs.Attributes.{worded_text};

use itoa::Buffer;
use naga_words::{Output, TextSink};

/// The words of an interpolation and of a sampling.
pub fn write_interpolated<W: TextSink>(interpolation: &str, sampling: &str, out: &mut Output<'_, W>)
    ensures { Writes W.text W.failures out.old out.new
        (interpolated_text interpolation.now sampling.now) }
{
    out.put("@interpolate(");
    out.put(interpolation);
    out.put(", ");
    out.put(sampling);
    out.put(") ");
}

/// An attribute with a number, which closes what `front` opens.
#[tactic(auto, using(naga_words::proofs::Writing::writes_then, crate::proofs::AttributeRows::numbered_parts))]
pub fn write_numbered<W: TextSink>(front: &str, number: u32, out: &mut Output<'_, W>)
    ensures { Writes W.text W.failures out.old out.new (numbered_text front.now number) }
{
    let mut digits = Buffer::new();
    out.put(front);
    out.put(digits.format(number));
    out.put(") ");
}

/// An attribute with a word, which closes what `front` opens.
#[tactic(auto, using(naga_words::proofs::Writing::writes_then, crate::proofs::AttributeRows::worded_parts))]
pub fn write_worded<W: TextSink>(front: &str, word: &str, out: &mut Output<'_, W>)
    ensures { Writes W.text W.failures out.old out.new (worded_text front.now word.now) }
{
    out.put(front);
    out.put(word);
    out.put(") ");
}

/// Writes a piece if the condition holds.
#[tactic(auto, unfolding(crate::specs::Attributes::text_if))]
pub fn write_optional_chunk<W: TextSink>(there: bool, piece: &str, out: &mut Output<'_, W>)
    ensures { Writes W.text W.failures out.old out.new (text_if there piece.now) }
{
    out.put(if there { piece } else { "" });
}
