//! A text that does not grow without end.

ghost use Rattle.std.specs.Prelude.{◌≡◌, ◌<◌, ◌≤◌, ◌++◌, OnOk, OnErr, IsErrOf, [], length};

use naga_words::{SinkError, TextSink};
use std::alloc::{AllocError, Global};
use std::marker::Model;

/// A text that takes chunks as long as it has no more bytes than its size_limit, and refuses all after
/// the chunk that took it past. So one that refused a chunk has more bytes than its size_limit, of which
/// the caller can tell that the whole text has more; and one whose last chunk took it past has,
/// too, though it refused none.
///
/// Contracts see its text, its size_limit and the number of its failures.
///
/// ```text
/// let mut sink = BoundedText::new(alloc, 3);
/// sink.write_str("ab")?;
/// sink.write_str("cd")?; // abcd, which is past
/// let refused = sink.write_str("e"); // Err(SinkError::Failed)
/// ```
#[derive(Drop)]
pub struct BoundedText {
    text: String,
    size_limit: usize,
    failures: u64,
}

impl Model for BoundedText {
    ghost use Rattle.std.specs.Prelude.{string_bytes};
    ghost use Rattle.module_limits.specs.BoundedText.{BoundedText as Bounded};

    ghost Value = { Bounded };

    ghost view = { λ s.
        record { text = string_bytes s.text; size_limit = s.size_limit; failures = s.failures } };
}

impl BoundedText {
    ghost use Rattle.std.specs.Prelude.{nat_lt};
    ghost use Rattle.std.specs.Prelude.{string_bytes};

    /// The empty text, with a size_limit in bytes. It takes no memory.
    pub fn new(alloc: Global, size_limit: usize) -> Self
        ensures { result ≡ record { text = []; size_limit = size_limit; failures = 0 } }
    {
        BoundedText {
            text: String::new(alloc),
            size_limit,
            failures: 0,
        }
    }

    /// What it has taken.
    pub fn text(&self) -> &str
        ensures { result.now ≡ self.now.text }
    {
        self.text.as_str()
    }

    /// Whether it has more bytes than its size_limit, so that it takes no more.
    fn is_past(&self) -> bool
        ensures { result ≡ nat_lt self.now.size_limit (length self.now.text) }
    {
        self.text.len() > self.size_limit
    }

    /// What it has taken, as a string.
    pub fn finish(self) -> String
        ensures { string_bytes result ≡ self.text }
    {
        let BoundedText { text, .. } = self;
        text
    }

    /// Counts a failure, and tells it.
    fn fail(&mut self) -> SinkError
        ensures text { self.new.text ≡ self.old.text }
        ensures size_limit { self.new.size_limit ≡ self.old.size_limit }
        ensures failed { result ≡ SinkError.Failed → self.old.failures < self.new.failures }
    {
        match self.failures.checked_add(1) {
            Some(failures) => {
                self.failures = failures;
                SinkError::Failed
            }
            None => SinkError::Memory(AllocError),
        }
    }
}

/// It takes all of a chunk or nothing. After 2^64 failures each further one is told as want of
/// memory.
impl TextSink for BoundedText {
    ghost text = { λ s. s.text };

    ghost failures = { λ s. s.failures };

    fn write_str(&mut self, chunk: &str) -> Result<(), SinkError>
        ensures text_ok { OnOk result (self.new.text ≡ self.old.text ++ chunk.now) }
        ensures text_err { OnErr result (self.new.text ≡ self.old.text) }
        ensures size_limit { self.new.size_limit ≡ self.old.size_limit }
        ensures taken { OnOk result (length self.old.text ≤ self.old.size_limit) }
        ensures refused { IsErrOf result SinkError.Failed →
            self.old.size_limit < length self.old.text }
        ensures failures_ok { OnOk result (self.new.failures ≡ self.old.failures) }
        ensures failed { IsErrOf result SinkError.Failed → self.old.failures < self.new.failures }
    {
        if self.is_past() {
            return Err(self.fail());
        }
        self.text.push_str(chunk)?;
        Ok(())
    }
}
