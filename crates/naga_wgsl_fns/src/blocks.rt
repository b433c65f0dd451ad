//! Writes blocks.

ghost use Rattle.std.specs.Prelude.{suc};
ghost use Rattle.naga_ir.specs.StatementTree.{block, branch, has_no_statements};
ghost use Rattle.naga_scope.specs.Changes.{block_changes, statement_changes};
ghost use Rattle.naga_scope.specs.Log.{Same};
ghost use Rattle.naga_words.specs.Output.{Writes};
ghost use Rattle.naga_wgsl_fns.specs.FunctionText.{CanWrite, CanWriteBlock, CanWriteStatement};
ghost use Rattle.naga_wgsl_fns.specs.BodyStates.{HasScope, PassesBlock, PassesStatement, text_at};
ghost use Rattle.naga_wgsl_fns.specs.Statements.{block_text, braces_text, else_text};
ghost use Rattle.naga_wgsl_fns.specs.Statements.{statement_text};

use crate::functions::FunctionText;
use crate::lines::BodyState;
use naga_ir::{Block, Expression, Handle};
use naga_words::{Output, TextSink};

impl FunctionText<'_> {
    /// A block's statements, after the blanks that there are. The scope stays.
    #[cycle(statement)]
    #[tactic(auto, using(naga_scope::proofs::Logs::reverts))]
    pub(crate) fn write_here<W: TextSink>(
        &self,
        body: &Block,
        at: &mut BodyState,
        out: &mut Output<'_, W>,
    )
        requires can { CanWrite self.now }
        requires body { CanWriteBlock self.now body.now }
        requires scope { HasScope self.now at.old.scope (block_changes body.now) }
        ensures text { Writes W.text W.failures out.old out.new
            (text_at self.now at.old.scope block_text at.old.indent body.now) }
        ensures passed { PassesBlock self.now at.old at.new body.now }
        ensures same { Same at.old.scope at.new.scope }
    {
        let mark = at.scope.mark();
        self.write_lines(body.as_slice(), at, out);
        at.scope.back_to(mark);
    }

    /// A block's statements, one level deeper. The scope stays.
    #[cycle(statement)]
    pub(crate) fn write_inner<W: TextSink>(
        &self,
        body: &Block,
        at: &mut BodyState,
        out: &mut Output<'_, W>,
    )
        requires can { CanWrite self.now }
        requires body { CanWriteBlock self.now body.now }
        requires scope { HasScope self.now at.old.scope (block_changes body.now) }
        ensures text { Writes W.text W.failures out.old out.new
            (text_at self.now at.old.scope block_text (suc at.old.indent) body.now) }
        ensures passed { PassesBlock self.now at.old at.new body.now }
        ensures same { Same at.old.scope at.new.scope }
    {
        let level = at.indent.level();
        at.indent.deepen(out);
        self.write_here(body, at, out);
        at.indent.back_to(level);
    }

    /// A block between braces, after what opens it. The scope stays.
    #[cycle(statement)]
    #[tactic(auto, using(naga_words::proofs::Writing::writes_then, crate::proofs::BlockRows::braces_row))]
    pub(crate) fn write_braces<W: TextSink>(
        &self,
        start: &str,
        body: &Block,
        at: &mut BodyState,
        out: &mut Output<'_, W>,
    )
        requires can { CanWrite self.now }
        requires body { CanWriteBlock self.now body.now }
        requires scope { HasScope self.now at.old.scope (block_changes body.now) }
        ensures text { Writes W.text W.failures out.old out.new (braces_text at.old.indent start.now
            (text_at self.now at.old.scope block_text (suc at.old.indent) body.now)) }
        ensures passed { PassesBlock self.now at.old at.new body.now }
        ensures same { Same at.old.scope at.new.scope }
    {
        at.write_start(start, out);
        self.write_inner(body, at, out);
        at.write_start("}\n", out);
    }

    /// Statements of their own.
    #[cycle(statement)]
    #[tactic(auto, using(crate::proofs::BlockRows::block_row, crate::proofs::StatementParts::block_inside))]
    pub(crate) fn write_nested<W: TextSink>(
        &self,
        nested: &Block,
        at: &mut BodyState,
        out: &mut Output<'_, W>,
    )
        requires can { CanWrite self.now }
        requires statement { CanWriteStatement self.now (block nested.now) }
        requires scope { HasScope self.now at.old.scope (statement_changes (block nested.now)) }
        ensures text { Writes W.text W.failures out.old out.new
            (text_at self.now at.old.scope statement_text at.old.indent (block nested.now)) }
        ensures passed { PassesStatement self.now at.old at.new (block nested.now) }
        ensures same { Same at.old.scope at.new.scope }
    {
        self.write_braces("{\n", nested, at, out);
    }

    /// What stands after the block of an `if`, up to the brace that closes the last one: an `else`
    /// where the module has statements for it.
    #[cycle(statement)]
    #[tactic(auto, using(naga_words::proofs::Writing::writes_then, naga_words::proofs::Writing::writes_nothing, crate::proofs::BlockRows::else_row, crate::proofs::BlockRows::no_else, crate::proofs::Passing::nothing_passed))]
    fn write_else<W: TextSink>(&self, reject: &Block, at: &mut BodyState, out: &mut Output<'_, W>)
        requires can { CanWrite self.now }
        requires reject { CanWriteBlock self.now reject.now }
        requires scope { HasScope self.now at.old.scope (block_changes reject.now) }
        ensures text { Writes W.text W.failures out.old out.new (else_text at.old.indent
            (has_no_statements reject.now)
            (text_at self.now at.old.scope block_text (suc at.old.indent) reject.now)) }
        ensures passed { PassesBlock self.now at.old at.new reject.now }
        ensures same { Same at.old.scope at.new.scope }
    {
        if reject.is_empty() {
            return;
        }
        at.write_start("} else {\n", out);
        self.write_inner(reject, at, out);
    }

    #[cycle(statement)]
    #[tactic(auto, using(naga_words::proofs::Writing::writes_then, crate::proofs::BlockRows::if_row, crate::proofs::StatementParts::branches))]
    pub(crate) fn write_if<W: TextSink>(
        &self,
        condition: Handle<Expression>,
        accept: &Block,
        reject: &Block,
        at: &mut BodyState,
        out: &mut Output<'_, W>,
    )
        requires can { CanWrite self.now }
        requires statement { CanWriteStatement self.now (branch condition accept.now reject.now) }
        requires scope { HasScope self.now at.old.scope
            (statement_changes (branch condition accept.now reject.now)) }
        ensures text { Writes W.text W.failures out.old out.new (text_at self.now at.old.scope
            statement_text at.old.indent (branch condition accept.now reject.now)) }
        ensures passed { PassesStatement self.now at.old at.new
            (branch condition accept.now reject.now) }
        ensures same { Same at.old.scope at.new.scope }
    {
        self.write_around("if ", condition, " {\n", at, out);
        self.write_inner(accept, at, out);
        self.write_else(reject, at, out);
        at.write_start("}\n", out);
    }
}
