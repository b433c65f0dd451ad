//! Statements of one line, and the lines that begin others.

ghost use Rattle.std.specs.Prelude.{◌≡◌, ◌<◌, IsTrue, length};
ghost use Rattle.std.specs.Option.{option_to_list};
ghost use Rattle.naga_ir.specs.StatementTree.{emit, return, simple, store};
ghost use Rattle.naga_ir.specs.StatementViews.{tree_of};
ghost use Rattle.naga_scope.specs.Changes.{statement_changes};
ghost use Rattle.naga_scope.specs.Log.{Extends};
ghost use Rattle.naga_words.specs.Output.{Writes};
ghost use Rattle.naga_wgsl_fns.specs.FunctionText.{AreInText, CanWrite, CanWriteStatement};
ghost use Rattle.naga_wgsl_fns.specs.FunctionText.{IsInText, IsLet, bound, handles_in};
ghost use Rattle.naga_wgsl_fns.specs.BodyStates.{HasScope, PassesStatement, text_at};
ghost use Rattle.naga_wgsl_fns.specs.Statements.{after_statement, around_text, assignment_text};
ghost use Rattle.naga_wgsl_fns.specs.Statements.{emitted_text, let_text, line_start};
ghost use Rattle.naga_wgsl_fns.specs.Statements.{statement_text};

use crate::functions::FunctionText;
use crate::indent::Indent;
use naga_ir::{Expression, Handle, ItemIndex, Range, Statement};
use naga_scope::{Scope, binds};
use naga_words::{Output, TextSink};

/// The state in front of a line of a function's body: what is in scope, and how deep the line is.
#[derive(Drop)]
pub(crate) struct BodyState {
    pub(crate) scope: Scope,
    pub(crate) indent: Indent,
}

impl BodyState {
    /// Writes the blanks before a line, and what it starts with, which may be all of it.
    #[tactic(auto, using(naga_words::proofs::Writing::writes_then, crate::proofs::StatementRows::line_start_row))]
    pub(crate) fn write_start<W: TextSink>(&self, words: &str, out: &mut Output<'_, W>)
        ensures { Writes W.text W.failures out.old out.new (line_start self.now.indent words.now) }
    {
        out.put(self.indent.as_str());
        out.put(words);
    }
}

impl FunctionText<'_> {
    /// A `let` for each of these expressions that is to be bound. After the call, the scope is
    /// that after the `Emit`.
    #[tactic(auto, using(naga_words::proofs::Writing::loop_writes))]
    pub(crate) fn write_emit<W: TextSink>(
        &self,
        range: Range,
        at: &mut BodyState,
        out: &mut Output<'_, W>,
    )
        requires can { CanWrite self.now }
        requires statement { CanWriteStatement self.now (simple (emit range.first range.end)) }
        requires scope { HasScope self.now at.old.scope
            (statement_changes (simple (emit range.first range.end))) }
        ensures text { Writes W.text W.failures out.old out.new (text_at self.now at.old.scope
            statement_text at.old.indent (simple (emit range.first range.end))) }
        ensures passed { PassesStatement self.now at.old at.new
            (simple (emit range.first range.end)) }
        ensures after { handles_in self.now at.new.scope.table
            ≡ after_statement self.now at.old.scope.named
            (simple (emit range.first range.end))
            (handles_in self.now at.old.scope.table) }
        ensures kept { Extends at.old.scope at.new.scope }
    {
        for index in range.first..range.end {
            let handle = ItemIndex::from_index(index);
            let is_bound = binds(&self.known.shader.types, self.function, self.info, handle);
            self.write_emitted(is_bound, handle, at, out);
            at.scope.emit(is_bound, self.function, handle);
        }
    }

    /// The `let` of an expression, if it is to be bound.
    #[tactic(auto, using(naga_words::proofs::Writing::writes_nothing), unfolding(crate::specs::Statements::emitted_text))]
    fn write_emitted<W: TextSink>(
        &self,
        is_bound: bool,
        handle: Handle<Expression>,
        at: &BodyState,
        out: &mut Output<'_, W>,
    )
        requires can { CanWrite self.now }
        requires bound { is_bound ≡ bound self.now handle }
        requires handle { handle < length self.now.function.now.expressions }
        requires in_text { IsTrue (bound self.now handle) → IsInText self.now handle }
        requires named { IsTrue (bound self.now handle) → IsLet self.now handle }
        ensures { Writes W.text W.failures out.old out.new
            (text_at self.now at.now.scope emitted_text at.now.indent handle) }
    {
        if is_bound {
            self.write_let(handle, at, out);
        }
    }

    fn write_let<W: TextSink>(
        &self,
        handle: Handle<Expression>,
        at: &BodyState,
        out: &mut Output<'_, W>,
    )
        requires can { CanWrite self.now }
        requires handle { IsInText self.now handle }
        requires named { IsLet self.now handle }
        ensures { Writes W.text W.failures out.old out.new
            (text_at self.now at.now.scope let_text at.now.indent handle) }
    {
        at.write_start("let ", out);
        self.write_next_name(&at.scope, handle, out);
        self.write_let_annotation(handle, out);
        out.put(" = ");
        self.write_own(&at.scope, handle, out);
        out.put(";\n");
    }

    /// A store: to an atomic by `atomicStore`, else an assignment to what is pointed to.
    pub(crate) fn write_store<W: TextSink>(
        &self,
        statement: &Statement,
        pointer: Handle<Expression>,
        value: Handle<Expression>,
        at: &BodyState,
        out: &mut Output<'_, W>,
    )
        requires can { CanWrite self.now }
        requires stored { tree_of statement.now ≡ simple (store pointer value) }
        requires statement { CanWriteStatement self.now (tree_of statement.now) }
        ensures { Writes W.text W.failures out.old out.new
            (text_at self.now at.now.scope statement_text at.now.indent (tree_of statement.now)) }
    {
        if self.is_atomic_pointer(pointer) {
            self.write_act_line("atomicStore", statement, at, out);
        } else {
            self.write_assignment(pointer, value, at, out);
        }
    }

    fn write_assignment<W: TextSink>(
        &self,
        pointer: Handle<Expression>,
        value: Handle<Expression>,
        at: &BodyState,
        out: &mut Output<'_, W>,
    )
        requires can { CanWrite self.now }
        requires pointer { IsInText self.now pointer }
        requires value { IsInText self.now value }
        ensures { Writes W.text W.failures out.old out.new (assignment_text self.now
            (handles_in self.now at.now.scope.table) at.now.indent pointer value) }
    {
        out.put(at.indent.as_str());
        self.write_reference(&at.scope, pointer, out);
        out.put(" = ");
        self.write_value(&at.scope, value, out);
        out.put(";\n");
    }

    pub(crate) fn write_return<W: TextSink>(
        &self,
        value: Option<Handle<Expression>>,
        at: &BodyState,
        out: &mut Output<'_, W>,
    )
        requires can { CanWrite self.now }
        requires value { AreInText self.now (option_to_list value) }
        ensures { Writes W.text W.failures out.old out.new
            (text_at self.now at.now.scope statement_text at.now.indent (simple (return value))) }
    {
        match value {
            Some(value) => self.write_around("return ", value, ";\n", at, out),
            None => at.write_start("return;\n", out),
        }
    }

    /// A value between what a line starts with and what it ends with.
    pub(crate) fn write_around<W: TextSink>(
        &self,
        start: &str,
        value: Handle<Expression>,
        end: &str,
        at: &BodyState,
        out: &mut Output<'_, W>,
    )
        requires can { CanWrite self.now }
        requires value { IsInText self.now value }
        ensures { Writes W.text W.failures out.old out.new (around_text self.now
            (handles_in self.now at.now.scope.table) at.now.indent start.now value end.now) }
    {
        at.write_start(start, out);
        self.write_value(&at.scope, value, out);
        out.put(end);
    }
}
