//! Words and debug texts, written to an output.

ghost use Rattle.std.specs.Prelude.{[], ◌∷◌, false};
ghost use Rattle.std.specs.Int.NonZero.{non_zero_u32_get};
ghost use Rattle.naga_words.specs.Output.{Spells};
ghost use Rattle.naga_spelling.specs.Segments.{shown_between, three, Word};
ghost use Rattle.naga_spelling.specs.Values.{length_of_number};

use crate::output::Output;
use crate::sink::TextSink;
use std::alloc::Global;
use std::num::NonZeroU32;

/// Writes a word.
#[tactic(auto, using(crate::proofs::SegmentWriting::rows))]
pub fn write_word<W: TextSink>(word: &str, out: &mut Output<'_, W>)
    ensures { Spells W.text W.failures false out.old out.new
        (Word word.now ∷ []) }
{
    out.put(word);
}

/// Writes three words.
#[tactic(auto, using(crate::proofs::SegmentWriting::rows))]
pub fn write_three<W: TextSink>(first: &str, second: &str, third: &str, out: &mut Output<'_, W>)
    ensures { Spells W.text W.failures false out.old out.new
        (three first.now second.now third.now) }
{
    out.put(first);
    out.put(second);
    out.put(third);
}

/// Writes a debug text between two words.
#[tactic(auto, using(crate::proofs::SegmentWriting::rows))]
pub fn write_shown<W: TextSink>(head: &str, debug: &str, tail: &str, out: &mut Output<'_, W>)
    ensures { Spells W.text W.failures false out.old out.new
        (shown_between head.now tail.now) }
{
    out.put(head);
    out.put(debug);
    out.put(tail);
}

/// Writes the length of an array that has so many elements, and the bracket that closes it: `, 4>`.
pub fn write_number_length<W: TextSink>(alloc: Global, number: NonZeroU32, out: &mut Output<'_, W>)
    ensures { Spells W.text W.failures false out.old out.new
        (length_of_number (non_zero_u32_get number)) }
{
    match number.get().to_string(alloc) {
        Ok(digits) => write_three(", ", digits.as_str(), ">", out),
        Err(error) => out.remember(error),
    }
}
