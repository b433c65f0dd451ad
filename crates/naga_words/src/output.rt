//! Output that remembers its first want.

ghost use Rattle.std.specs.Prelude.{◌≡◌, ℕ, [], ◌∷◌, false, true, List, None, Some, OnOk, IfErr};
ghost use Rattle.std.specs.Option.{is_some};
ghost use Rattle.naga_words.specs.Output.{Spells, Writes};
ghost use Rattle.naga_spelling.specs.Segments.{Missing, Segment};

use crate::error::TypeTextError;
use crate::sink::TextSink;
use std::alloc::AllocError;

/// Takes text chunk by chunk for a sink, up to the first want: of memory, of a form for a type, or
/// a failure of the sink.
///
/// After a want nothing is written. So a writer goes on as if there were none, and whoever made
/// the output asks for its [outcome](Output::outcome) once, at the end.
#[derive(Drop)]
pub struct Output<'a, W: TextSink> {
    /// What takes the text. A call that writes to it directly is for where there is no want.
    pub(crate) sink: &'a mut W,
    /// The first want, if there was one.
    pub(crate) want: Option<TypeTextError>,
}

impl<'a, W: TextSink> Output<'a, W> {
    /// An output to a sink, with no want.
    pub fn new(sink: &'a mut W) -> Self
        ensures content { result.sink.now ≡ sink.old }
        ensures same { result.sink.ghost_name ≡ sink.entry.ghost_name }
        ensures want { result.want ≡ None }
    {
        Output { sink, want: None }
    }

    /// Whether there was a want, so that nothing more is written.
    pub fn is_wanting(&self) -> bool
        ensures { result ≡ is_some self.now.want }
    {
        self.want.is_some()
    }

    /// The first want, where there was one.
    pub fn outcome(&self) -> Result<(), TypeTextError>
        ensures whole { OnOk result (self.now.want ≡ None) }
        ensures wanting { IfErr result (λ want. self.now.want ≡ Some want) }
    {
        match self.want {
            None => Ok(()),
            Some(want) => Err(want),
        }
    }

    /// Writes a chunk of text.
    #[tactic(auto, unfolding(crate::specs::Output::AppendsText))]
    pub fn put(&mut self, chunk: &str)
        ensures { Writes W.text W.failures self.old self.new chunk.now }
    {
        if self.want.is_some() {
            return;
        }
        if let Err(error) = self.sink.write_str(chunk) {
            self.want = Some(TypeTextError::Sink(error));
        }
    }

    /// Remembers that there was no memory for what was to be written, whatever that is.
    #[tactic(auto, using(crate::proofs::SegmentWriting::begun_at_once), unfolding(crate::specs::Output::AppendsSegments))]
    pub fn remember(&mut self, error: AllocError)
        ensures text { (text : List ℕ) → Writes W.text W.failures self.old self.new text }
        ensures segments { (segments : List Segment) →
            Spells W.text W.failures false self.old self.new segments }
    {
        if self.want.is_none() {
            self.want = Some(TypeTextError::Memory(error));
        }
    }

    /// Remembers that a segment was refused.
    #[tactic(auto, using(crate::proofs::SegmentWriting::begun_at_once), unfolding(crate::specs::Output::AppendsSegments))]
    pub(crate) fn refuse(&mut self)
        ensures { Spells W.text W.failures true self.old self.new (Missing ∷ []) }
    {
        if self.want.is_none() {
            self.want = Some(TypeTextError::NoForm);
        }
    }
}
