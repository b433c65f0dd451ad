//! Writes loops.

ghost use Rattle.std.specs.Prelude.{◌≡◌, None, Some, suc};
ghost use Rattle.std.specs.Option.{option_to_list};
ghost use Rattle.naga_ir.specs.StatementTree.{loop};
ghost use Rattle.naga_scope.specs.Changes.{block_changes, statement_changes};
ghost use Rattle.naga_scope.specs.Log.{Reverts, Same};
ghost use Rattle.naga_words.specs.Output.{Writes};
ghost use Rattle.naga_wgsl_fns.specs.FunctionText.{AreInText, CanWrite, CanWriteBlock};
ghost use Rattle.naga_wgsl_fns.specs.FunctionText.{CanWriteStatement, IsInText, handles_in};
ghost use Rattle.naga_wgsl_fns.specs.BodyStates.{HasScope, PassesBlock, PassesStatement, text_at};
ghost use Rattle.naga_wgsl_fns.specs.Statements.{block_text, continuing_text, last_text};
ghost use Rattle.naga_wgsl_fns.specs.Statements.{left_to_continuing, statement_text, turn_text};

use crate::functions::FunctionText;
use crate::lines::BodyState;
use naga_ir::{Block, Expression, Handle};
use naga_scope::split_at_continue;
use naga_words::{Output, TextSink};

impl FunctionText<'_> {
    /// A loop. The scope stays.
    #[cycle(statement)]
    #[tactic(auto, using(naga_words::proofs::Writing::writes_then, crate::proofs::LoopRows::loop_row))]
    pub(crate) fn write_loop<W: TextSink>(
        &self,
        body: &Block,
        continuing: &Block,
        break_if: Option<Handle<Expression>>,
        at: &mut BodyState,
        out: &mut Output<'_, W>,
    )
        requires can { CanWrite self.now }
        requires statement { CanWriteStatement self.now (loop body.now continuing.now break_if) }
        requires scope { HasScope self.now at.old.scope
            (statement_changes (loop body.now continuing.now break_if)) }
        ensures text { Writes W.text W.failures out.old out.new (text_at self.now at.old.scope
            statement_text at.old.indent (loop body.now continuing.now break_if)) }
        ensures passed { PassesStatement self.now at.old at.new
            (loop body.now continuing.now break_if) }
        ensures same { Same at.old.scope at.new.scope }
    {
        at.write_start("loop {\n", out);
        self.write_turn(body, continuing, break_if, at, out);
        at.write_start("}\n", out);
    }

    /// What a loop repeats, one level deeper. The scope stays.
    #[cycle(statement)]
    fn write_turn<W: TextSink>(
        &self,
        body: &Block,
        continuing: &Block,
        break_if: Option<Handle<Expression>>,
        at: &mut BodyState,
        out: &mut Output<'_, W>,
    )
        requires can { CanWrite self.now }
        requires statement { CanWriteStatement self.now (loop body.now continuing.now break_if) }
        requires scope { HasScope self.now at.old.scope
            (statement_changes (loop body.now continuing.now break_if)) }
        ensures text { Writes W.text W.failures out.old out.new (text_at self.now at.old.scope
            turn_text (suc at.old.indent) body.now continuing.now break_if) }
        ensures passed { PassesStatement self.now at.old at.new
            (loop body.now continuing.now break_if) }
        ensures same { Same at.old.scope at.new.scope }
    {
        let mark = at.scope.mark();
        let level = at.indent.level();
        at.indent.deepen(out);
        self.write_turn_here(body, continuing, break_if, at, out);
        at.indent.back_to(level);
        at.scope.back_to(mark);
    }

    #[cycle(statement)]
    #[tactic(auto, using(naga_words::proofs::Writing::writes_then, crate::proofs::LoopRows::turn_row, naga_scope::proofs::Logs::reverts_then, crate::proofs::StatementParts::turns))]
    fn write_turn_here<W: TextSink>(
        &self,
        body: &Block,
        continuing: &Block,
        break_if: Option<Handle<Expression>>,
        at: &mut BodyState,
        out: &mut Output<'_, W>,
    )
        requires can { CanWrite self.now }
        requires statement { CanWriteStatement self.now (loop body.now continuing.now break_if) }
        requires scope { HasScope self.now at.old.scope
            (statement_changes (loop body.now continuing.now break_if)) }
        ensures text { Writes W.text W.failures out.old out.new
            (text_at self.now at.old.scope turn_text at.old.indent body.now continuing.now break_if) }
        ensures passed { PassesStatement self.now at.old at.new
            (loop body.now continuing.now break_if) }
        ensures kept { Reverts at.old.scope at.new.scope }
    {
        self.write_loop_body(body, at, out);
        self.write_continuing(continuing, break_if, at, out);
    }

    /// A loop's body. After the call, the scope is that in `continuing`.
    #[cycle(statement)]
    #[tactic(auto, using(naga_words::proofs::Writing::writes_then))]
    fn write_loop_body<W: TextSink>(
        &self,
        body: &Block,
        at: &mut BodyState,
        out: &mut Output<'_, W>,
    )
        requires can { CanWrite self.now }
        requires body { CanWriteBlock self.now body.now }
        requires scope { HasScope self.now at.old.scope (block_changes body.now) }
        ensures text { Writes W.text W.failures out.old out.new
            (text_at self.now at.old.scope block_text at.old.indent body.now) }
        ensures passed { PassesBlock self.now at.old at.new body.now }
        ensures after { handles_in self.now at.new.scope.table
            ≡ left_to_continuing self.now at.old.scope.named body.now
            (handles_in self.now at.old.scope.table) }
        ensures kept { Reverts at.old.scope at.new.scope }
    {
        let (before, from) = split_at_continue(body);
        self.write_lines(before, at, out);
        let mark = at.scope.mark();
        self.write_lines(from, at, out);
        at.scope.forget_from(mark);
    }

    /// What stands after the body: `continuing`, where the module has statements for it, or where
    /// the loop has a `break if`.
    #[cycle(statement)]
    #[tactic(auto, using(naga_scope::proofs::Logs::reverts_same))]
    fn write_continuing<W: TextSink>(
        &self,
        continuing: &Block,
        break_if: Option<Handle<Expression>>,
        at: &mut BodyState,
        out: &mut Output<'_, W>,
    )
        requires can { CanWrite self.now }
        requires continuing { CanWriteBlock self.now continuing.now }
        requires scope { HasScope self.now at.old.scope (block_changes continuing.now) }
        requires break_if { AreInText self.now (option_to_list break_if) }
        ensures text { Writes W.text W.failures out.old out.new
            (text_at self.now at.old.scope continuing_text at.old.indent continuing.now break_if) }
        ensures passed { PassesBlock self.now at.old at.new continuing.now }
        ensures kept { Reverts at.old.scope at.new.scope }
    {
        match break_if {
            Some(condition) => self.write_break_if(continuing, condition, at, out),
            None => self.write_plain_continuing(continuing, at, out),
        }
    }

    #[cycle(statement)]
    #[tactic(auto, using(naga_words::proofs::Writing::writes_nothing, crate::proofs::LoopRows::continuing_row, crate::proofs::LoopRows::no_continuing, crate::proofs::Passing::nothing_passed))]
    fn write_plain_continuing<W: TextSink>(
        &self,
        continuing: &Block,
        at: &mut BodyState,
        out: &mut Output<'_, W>,
    )
        requires can { CanWrite self.now }
        requires continuing { CanWriteBlock self.now continuing.now }
        requires scope { HasScope self.now at.old.scope (block_changes continuing.now) }
        ensures text { Writes W.text W.failures out.old out.new
            (text_at self.now at.old.scope continuing_text at.old.indent continuing.now None) }
        ensures passed { PassesBlock self.now at.old at.new continuing.now }
        ensures same { Same at.old.scope at.new.scope }
    {
        if continuing.is_empty() {
            return;
        }
        self.write_braces("continuing {\n", continuing, at, out);
    }

    /// `continuing` with a `break if`.
    #[cycle(statement)]
    #[tactic(auto, using(naga_words::proofs::Writing::writes_then, crate::proofs::LoopRows::break_if_row))]
    fn write_break_if<W: TextSink>(
        &self,
        continuing: &Block,
        condition: Handle<Expression>,
        at: &mut BodyState,
        out: &mut Output<'_, W>,
    )
        requires can { CanWrite self.now }
        requires continuing { CanWriteBlock self.now continuing.now }
        requires scope { HasScope self.now at.old.scope (block_changes continuing.now) }
        requires condition { IsInText self.now condition }
        ensures text { Writes W.text W.failures out.old out.new (text_at self.now at.old.scope
            continuing_text at.old.indent continuing.now (Some condition)) }
        ensures passed { PassesBlock self.now at.old at.new continuing.now }
        ensures kept { Reverts at.old.scope at.new.scope }
    {
        at.write_start("continuing {\n", out);
        let level = at.indent.level();
        at.indent.deepen(out);
        self.write_last(continuing, condition, at, out);
        at.indent.back_to(level);
        at.write_start("}\n", out);
    }

    /// What a loop does last, with its `break if`.
    #[cycle(statement)]
    #[tactic(auto, using(naga_words::proofs::Writing::writes_then, crate::proofs::LoopRows::last_row))]
    fn write_last<W: TextSink>(
        &self,
        continuing: &Block,
        condition: Handle<Expression>,
        at: &mut BodyState,
        out: &mut Output<'_, W>,
    )
        requires can { CanWrite self.now }
        requires continuing { CanWriteBlock self.now continuing.now }
        requires scope { HasScope self.now at.old.scope (block_changes continuing.now) }
        requires condition { IsInText self.now condition }
        ensures text { Writes W.text W.failures out.old out.new
            (text_at self.now at.old.scope last_text at.old.indent continuing.now condition) }
        ensures passed { PassesBlock self.now at.old at.new continuing.now }
        ensures kept { Reverts at.old.scope at.new.scope }
    {
        self.write_loop_body(continuing, at, out);
        self.write_around("break if ", condition, ";\n", at, out);
    }
}
