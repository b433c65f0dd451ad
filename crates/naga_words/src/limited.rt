//! A sink with little room.

ghost use Rattle.std.specs.Prelude.{◌≡◌, ◌<◌, ◌++◌, OnOk, OnErr, IsErrOf, IsTrue, false, []};
ghost use Rattle.std.specs.Prelude.{alloc_error};
ghost use Rattle.naga_words.specs.Limited.{goes_past};

use crate::sink::{SinkError, TextSink};
use std::alloc::Global;
use std::marker::Model;

/// A text that refuses the first write which would take it past its limit, and then takes each
/// later one. So a program that goes on after a refusal is told by what it wrote.
///
/// Contracts see its text, its limit and the number of its failures.
///
/// ```text
/// let mut sink = Limited::new(alloc, 3);
/// sink.write_str("ab")?;
/// let refused = sink.write_str("cd"); // Err(SinkError::Failed)
/// sink.write_str("e")?;
/// let text = sink.text(); // abe
/// ```
#[derive(Drop)]
pub struct Limited {
    text: String,
    limit: usize,
    failures: u32,
}

impl Model for Limited {
    ghost use Rattle.std.specs.Prelude.{string_bytes};
    ghost use Rattle.naga_words.specs.Limited.{LimitedText};

    ghost Value = { LimitedText };

    ghost view = { λ s.
        record { text = string_bytes s.text; limit = s.limit; failures = s.failures } };
}

impl Limited {
    /// The empty text, with a limit in bytes.
    pub fn new(alloc: Global, limit: usize) -> Self
        ensures { result ≡ record { text = []; limit = limit; failures = 0 } }
    {
        Self {
            text: String::new(alloc),
            limit,
            failures: 0,
        }
    }

    /// What it has taken.
    pub fn text(&self) -> &str
        ensures { result.now ≡ self.now.text }
    {
        self.text.as_str()
    }

    /// Whether the chunk is the first that would take the text past its limit.
    fn refuses(&self, chunk: &str) -> bool
        ensures { result ≡ goes_past self.now chunk.now }
    {
        self.failures == 0 && chunk.len() > self.limit.saturating_sub(self.text.len())
    }
}

/// Is unchanged by a refusal, but for the count of its failures.
impl TextSink for Limited {
    ghost text = { λ s. s.text };

    ghost failures = { λ s. s.failures };

    fn write_str(&mut self, chunk: &str) -> Result<(), SinkError>
        ensures text_ok { OnOk result (self.new
            ≡ record self.old { text = self.old.text ++ chunk.now }) }
        ensures text_err { OnErr result (self.new.text ≡ self.old.text) }
        ensures taken { OnOk result (goes_past self.old chunk.now ≡ false) }
        ensures refused { IsTrue (goes_past self.old chunk.now) →
            (result ≡ Err SinkError.Failed) × (self.new ≡ record self.old { failures = 1 }) }
        ensures memory { goes_past self.old chunk.now ≡ false → OnErr result
            ((result ≡ Err (SinkError.Memory alloc_error)) × (self.new ≡ self.old)) }
        ensures failures_ok { OnOk result (self.new.failures ≡ self.old.failures) }
        ensures failed { IsErrOf result SinkError.Failed → self.old.failures < self.new.failures }
    {
        if self.refuses(chunk) {
            self.failures = 1;
            return Err(SinkError::Failed);
        }
        self.text.push_str(chunk)?;
        Ok(())
    }
}
