//! The blanks in front of a line.

ghost use Rattle.std.specs.Prelude.{◌≡◌, ◌≤◌, ℕ, List, suc, OnOk, OnErr};
ghost use Rattle.naga_back.specs.Indentation.{indentation};
ghost use Rattle.naga_words.specs.Output.{OutputView, Wrote, output_view};

use naga_back::INDENT;
use naga_words::{Output, TextSink};
use std::alloc::{AllocError, Global};
use std::marker::Model;

/// The blanks in front of a line, as a text that grows and shrinks by a level. Contracts see how
/// many levels these are.
#[derive(Debug, Drop)]
pub(crate) struct Indent {
    blanks: String,
    level: usize,
}

impl Model for Indent {
    ghost use Rattle.std.specs.Prelude.{◌≡◌, ℕ, string_bytes};
    ghost use Rattle.naga_back.specs.Indentation.{indentation};

    ghost Value = { ℕ };

    ghost view = { λ i. i.level };

    ghost invariant = { λ i. string_bytes i.blanks ≡ indentation i.level };
}

impl Indent {
    /// None. It takes no memory.
    pub(crate) fn new(alloc: Global) -> Self
        ensures { result ≡ 0 }
    {
        Indent {
            blanks: String::new(alloc),
            level: 0,
        }
    }

    pub(crate) fn as_str(&self) -> &str
        ensures { result.now ≡ indentation self.now }
    {
        self.blanks.as_str()
    }

    /// How many levels they are.
    pub(crate) fn level(&self) -> usize
        ensures { result ≡ self.now }
    {
        self.level
    }

    /// One level deeper.
    fn grow(&mut self) -> Result<(), AllocError>
        ensures ok { OnOk result (self.new ≡ suc self.old) }
        ensures err { OnErr result (self.new ≡ self.old) }
    {
        self.blanks.push_str(INDENT)?;
        self.level = self.blanks.len() / INDENT.len();
        Ok(())
    }

    /// Indents what is written from here on one level deeper. Where there is no memory for that,
    /// the output remembers it as a want, so that no text with too few blanks comes after it.
    pub(crate) fn deepen<W: TextSink>(&mut self, out: &mut Output<'_, W>)
        ensures text { (text : ℕ → List ℕ) (after : OutputView) →
            Wrote (output_view W.text W.failures out.new) after (text self.new) →
            Wrote (output_view W.text W.failures out.old) after (text (suc self.old)) }
        ensures deeper { self.old ≤ self.new }
    {
        if let Err(error) = self.grow() {
            out.remember(error);
        }
    }

    /// Back at a level.
    pub(crate) fn back_to(&mut self, level: usize)
        requires { level ≤ self.old }
        ensures { self.new ≡ level }
    {
        let width = self.blanks.len();
        self.blanks
            .truncate(width - (self.level - level) * INDENT.len());
        self.level = level;
    }
}
