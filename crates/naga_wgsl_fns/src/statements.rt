//! Writes statements in order.

ghost use Rattle.std.specs.Prelude.{◌≡◌};
ghost use Rattle.naga_ir.specs.StatementViews.{block_of, tree_of};
ghost use Rattle.naga_scope.specs.Changes.{block_changes, statement_changes};
ghost use Rattle.naga_scope.specs.Log.{Extends};
ghost use Rattle.naga_words.specs.Output.{Writes};
ghost use Rattle.naga_wgsl_fns.specs.FunctionText.{CanWrite, CanWriteBlock, CanWriteStatement};
ghost use Rattle.naga_wgsl_fns.specs.FunctionText.{handles_in};
ghost use Rattle.naga_wgsl_fns.specs.BodyStates.{HasScope, PassesBlock, PassesStatement, text_at};
ghost use Rattle.naga_wgsl_fns.specs.Statements.{after_statement, after_statements, block_text};
ghost use Rattle.naga_wgsl_fns.specs.Statements.{statement_text};

use crate::acts::write_barrier;
use crate::functions::FunctionText;
use crate::lines::BodyState;
use naga_ir::Statement;
use naga_words::{Output, TextSink};

// Each of these calls goes on after a want as if there were none, so that what it says of the
// scope holds in any case; no expression is looked at then.
impl FunctionText<'_> {
    /// The statements in order. After the call, the scope is that after the last.
    #[cycle(statement)]
    #[tactic(auto, using(naga_words::proofs::Writing::loop_writes, crate::proofs::StatementRows::lines, crate::proofs::StatementParts::first_at, naga_scope::proofs::Logs::extending))]
    pub(crate) fn write_lines<W: TextSink>(
        &self,
        statements: &[Statement],
        at: &mut BodyState,
        out: &mut Output<'_, W>,
    )
        requires can { CanWrite self.now }
        requires block { CanWriteBlock self.now (block_of statements.now) }
        requires scope { HasScope self.now at.old.scope (block_changes (block_of statements.now)) }
        ensures text { Writes W.text W.failures out.old out.new
            (text_at self.now at.old.scope block_text at.old.indent (block_of statements.now)) }
        ensures passed { PassesBlock self.now at.old at.new (block_of statements.now) }
        ensures after { handles_in self.now at.new.scope.table
            ≡ after_statements self.now at.old.scope.named (block_of statements.now)
            (handles_in self.now at.old.scope.table) }
        ensures kept { Extends at.old.scope at.new.scope }
    {
        for statement in statements {
            self.write_statement(statement, at, out);
        }
    }

    /// A statement. After the call, the scope is that after it.
    #[cycle(statement)]
    #[tactic(auto, using(crate::proofs::StatementRows::jump_row, naga_scope::proofs::Logs::extends_refl, naga_scope::proofs::Logs::extends_same))]
    fn write_statement<W: TextSink>(
        &self,
        statement: &Statement,
        at: &mut BodyState,
        out: &mut Output<'_, W>,
    )
        requires can { CanWrite self.now }
        requires statement { CanWriteStatement self.now (tree_of statement.now) }
        requires scope { HasScope self.now at.old.scope (statement_changes (tree_of statement.now)) }
        ensures text { Writes W.text W.failures out.old out.new
            (text_at self.now at.old.scope statement_text at.old.indent (tree_of statement.now)) }
        ensures passed { PassesStatement self.now at.old at.new (tree_of statement.now) }
        ensures after { handles_in self.now at.new.scope.table
            ≡ after_statement self.now at.old.scope.named (tree_of statement.now)
            (handles_in self.now at.old.scope.table) }
        ensures kept { Extends at.old.scope at.new.scope }
    {
        match statement {
            Statement::Emit(range) => self.write_emit(*range, at, out),
            Statement::Block(nested) => self.write_nested(nested, at, out),
            Statement::If {
                condition,
                accept,
                reject,
            } => self.write_if(*condition, accept, reject, at, out),
            Statement::Switch { selector, cases } => self.write_switch(*selector, cases, at, out),
            Statement::Loop {
                body,
                continuing,
                break_if,
            } => self.write_loop(body, continuing, *break_if, at, out),
            Statement::Break => at.write_start("break;\n", out),
            Statement::Continue => at.write_start("continue;\n", out),
            Statement::Return { value } => self.write_return(*value, at, out),
            Statement::Kill => at.write_start("discard;\n", out),
            Statement::ControlBarrier(kept) => { write_barrier(*kept, at, out) }
            Statement::MemoryBarrier(kept) => write_barrier(*kept, at, out),
            Statement::Store { pointer, value } => {
                self.write_store(statement, *pointer, *value, at, out)
            }
            _ => self.write_act(statement, at, out),
        }
    }
}
