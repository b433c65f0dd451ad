//! A sink over a writer of bytes.

ghost use Rattle.std.specs.Prelude.{◌≡◌, ◌<◌, ◌++◌, OnOk, OnErr, IsErrOf, [], string_bytes};
ghost use Rattle.std.specs.Io.KnownBytes.{Appends};
ghost use Rattle.naga_spelling.specs.Sink.{IsAfter};
ghost use Rattle.naga_words.specs.Handing.{Handing};

use crate::sink::{SinkError, TextSink};
use std::alloc::{AllocError, Global};
use std::io::Write;
use std::marker::Model;

/// Hands text to a writer of bytes, chunk by chunk, and keeps it as well.
///
/// Contracts see the writer, the text that was handed to it, and the number of failures. Where
/// contracts know what the writer holds, they know that each chunk that was taken stands after it.
///
/// ```text
/// let mut sink = IoSink::new(rt.alloc(), rt.stdout());
/// sink.write_str("// a shader\n")?;
/// let mut out = sink.finish();
/// out.flush()?;
/// ```
#[derive(Drop)]
pub struct IoSink<W: Write> {
    out: W,
    text: String,
    failures: u64,
}

impl<W: Write> Model for IoSink<W> {
    ghost Value = { Handing W };

    ghost view = { λ s.
        record { out = s.out; text = string_bytes s.text; failures = s.failures } };
}

impl<W: Write> IoSink<W> {
    /// A sink over this writer. It takes no memory.
    pub fn new(alloc: Global, out: W) -> Self
        ensures { result ≡ record { out = out; text = []; failures = 0 } }
    {
        IoSink {
            out,
            text: String::new(alloc),
            failures: 0,
        }
    }

    /// The text that was handed to the writer. After a failure the writer may hold a beginning of it
    /// alone.
    pub fn text(&self) -> &str
        ensures { result.now ≡ self.now.text }
    {
        self.text.as_str()
    }

    /// The writer, with what it took. It is not flushed.
    pub fn finish(self) -> W
        ensures { result ≡ self.out }
    {
        let IoSink { out, .. } = self;
        out
    }
}

/// An error of the writer is told as `Failed`, and the whole chunk counts as handed to it; after
/// 2^64 failures each further one is told as want of memory. Want of memory for the text comes
/// before the chunk is handed over, and changes nothing.
impl<W: Write> TextSink for IoSink<W> {
    ghost text = { λ s. s.text };

    ghost failures = { λ s. s.failures };

    fn write_str(&mut self, chunk: &str) -> Result<(), SinkError>
        ensures text_ok { OnOk result (self.new.text ≡ self.old.text ++ chunk.now) }
        ensures text_err { OnErr result (IsAfter self.old.text chunk.now self.new.text) }
        ensures written { OnOk result
            (Appends (W.contents self.old.out) (W.contents self.new.out) chunk.now) }
        ensures failures_ok { OnOk result (self.new.failures ≡ self.old.failures) }
        ensures failed { IsErrOf result SinkError.Failed → self.old.failures < self.new.failures }
    {
        self.text.push_str(chunk)?;
        match self.out.write_all(chunk.as_bytes()) {
            Ok(()) => Ok(()),
            Err(_) => Err(self.fail()),
        }
    }
}

impl<W: Write> IoSink<W> {
    /// Counts a failure, and tells it.
    fn fail(&mut self) -> SinkError
        ensures text { self.new.text ≡ self.old.text }
        ensures failed { result ≡ SinkError.Failed → self.old.failures < self.new.failures }
    {
        match self.failures.checked_add(1) {
            Some(failures) => {
                self.failures = failures;
                SinkError::Failed
            }
            None => SinkError::Memory(AllocError),
        }
    }
}
