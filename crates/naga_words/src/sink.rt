//! What text is written to.

ghost use Rattle.std.specs.Prelude.{◌≡◌, ℕ, ◌<◌, IsErrOf, List, ◌++◌, OnErr, OnOk, alloc_error};
ghost use Rattle.std.specs.Prelude.{string_bytes};
ghost use Rattle.naga_words.specs.declared.sink.SinkError.TheVariants.{Memory};
ghost use Rattle.naga_spelling.specs.Sink.{IsAfter};

use std::alloc::AllocError;
use thiserror::Error;

/// Why a sink did not take a chunk of text.
#[derive(Clone, Copy, Debug, PartialEq, Eq, Error)]
pub enum SinkError {
    /// It failed.
    #[error("sink failed")]
    Failed,
    /// It found no memory.
    #[error("out of memory")]
    Memory(AllocError),
}

impl From<AllocError> for SinkError {
    ghost from_gives = { λ e r. r ≡ Memory e };

    fn from(error: AllocError) -> SinkError {
        SinkError::Memory(error)
    }
}

/// Takes text chunk by chunk.
///
/// A contract sees the text that it has taken, and the number of its failures, which it need not
/// keep and which has no greatest value. Where a chunk is refused, the sink may hold a beginning of
/// it after what it held.
///
/// A `String` is a sink, and what writes to one asks for no more than this:
///
/// ```text
/// fn write_call<W: TextSink>(function: &str, out: &mut W) -> Result<(), SinkError> {
///     out.write_str(function)?;
///     out.write_str("()")
/// }
/// ```
pub trait TextSink {
    ghost text: { Self → List ℕ };

    ghost failures: { Self → ℕ };

    /// Takes `chunk` after what it has taken. `Failed` comes only together with one more failure.
    fn write_str(&mut self, chunk: &str) -> Result<(), SinkError>
        ensures text_ok { OnOk result (text self.new ≡ text self.old ++ chunk.now) }
        ensures text_err { OnErr result (IsAfter (text self.old) chunk.now (text self.new)) }
        ensures failures_ok { OnOk result (failures self.new ≡ failures self.old) }
        ensures failed { IsErrOf result SinkError.Failed → failures self.old < failures self.new };
}

/// Refuses for want of memory alone, and is then unchanged.
impl TextSink for String {
    ghost text = { string_bytes };

    ghost failures = { λ _. 0 };

    fn write_str(&mut self, chunk: &str) -> Result<(), SinkError>
        ensures text_ok { OnOk result (string_bytes self.new ≡ string_bytes self.old ++ chunk.now) }
        ensures text_err { OnErr result (string_bytes self.new ≡ string_bytes self.old) }
        ensures memory { OnErr result (result ≡ Err (SinkError.Memory alloc_error)) }
    {
        self.push_str(chunk)?;
        Ok(())
    }
}
