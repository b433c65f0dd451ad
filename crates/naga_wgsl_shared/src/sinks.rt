//! A chunk of text, written to a sink.

ghost use Rattle.naga_wgsl_shared.specs.Appends.{Appends};

use naga_refusals::Error;
use naga_words::TextSink;

/// Writes a chunk of text after what the sink holds. Want of memory is told as
/// [`Error::Memory`], a failure of the sink as [`Error::FmtError`]; a beginning of the chunk may then stand there.
pub fn put<W: TextSink>(chunk: &str, out: &mut W) -> Result<(), Error>
    ensures { Appends result (W.text out.old) (W.failures out.old) chunk.now
        (W.text out.new) (W.failures out.new) }
{
    out.write_str(chunk)?;
    Ok(())
}
