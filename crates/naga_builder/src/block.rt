//! Blocks of statements.

ghost use Rattle.std.specs.Prelude.{◌≡◌, OnErr, OnOk, None, Some};
ghost use Rattle.naga_ir.specs.StatementTree.{no_statements, with_statement, simple, store, return};
ghost use Rattle.naga_ir.specs.StatementTree.{block, branch, loop, switch};
ghost use Rattle.naga_ir.specs.StatementViews.{cases_of, tree_of};
ghost use Rattle.naga_builder.specs.Building.{emitted};

use naga_ir::{Block, Expression, Handle, Range, Statement, SwitchCase};
use std::alloc::{AllocError, Global};
use std::marker::Model;

/// Statements that are being built, one after another. Where memory is refused, a call adds
/// nothing.
///
/// ```text
/// let mut accept = BlockBuilder::new(alloc);
/// accept.store(pointer, sum)?;
/// body.emit(sum, condition)?;
/// body.if_else(condition, accept, BlockBuilder::new(alloc))?;
/// body.return_nothing()?;
/// ```
pub struct BlockBuilder {
    block: Block,
}

/// Contracts see a block.
impl Model for BlockBuilder {
    ghost use Rattle.naga_ir.specs.StatementTree.{BlockTree};
    ghost use Rattle.naga_ir.specs.StatementCode.{block_coded};

    ghost Value = { BlockTree };

    ghost coded = { block_coded };

    ghost view = { λ b. b.block };
}

impl Drop for BlockBuilder {
    fn drop(self) {
        let BlockBuilder { block } = self;
        drop(block);
    }
}

impl BlockBuilder {
    /// A block without statements. It takes no memory.
    pub fn new(alloc: Global) -> Self
        ensures { result ≡ no_statements }
    {
        BlockBuilder {
            block: Block::new(alloc),
        }
    }

    /// The block.
    pub fn finish(self) -> Block
        ensures { result ≡ self }
    {
        let BlockBuilder { block } = self;
        block
    }

    /// Adds a statement.
    pub fn push(&mut self, statement: Statement) -> Result<(), AllocError>
        ensures ok { OnOk result (self.new ≡ with_statement self.old (tree_of statement)) }
        ensures err { OnErr result (self.new ≡ self.old) }
    {
        self.block.push(statement)
    }

    /// Adds the `Emit` of all expressions from the first to the last.
    pub fn emit(
        &mut self,
        first: Handle<Expression>,
        last: Handle<Expression>,
    ) -> Result<(), AllocError>
        ensures ok { OnOk result (self.new ≡ with_statement self.old (emitted first last)) }
        ensures err { OnErr result (self.new ≡ self.old) }
    {
        self.push(Statement::Emit(Range::new_from_bounds(first, last)))
    }

    /// Adds a store.
    pub fn store(
        &mut self,
        pointer: Handle<Expression>,
        value: Handle<Expression>,
    ) -> Result<(), AllocError>
        ensures ok { OnOk result
            (self.new ≡ with_statement self.old (simple (store pointer value))) }
        ensures err { OnErr result (self.new ≡ self.old) }
    {
        self.push(Statement::Store { pointer, value })
    }

    /// Adds the return of a value.
    pub fn return_value(&mut self, value: Handle<Expression>) -> Result<(), AllocError>
        ensures ok { OnOk result
            (self.new ≡ with_statement self.old (simple (return (Some value)))) }
        ensures err { OnErr result (self.new ≡ self.old) }
    {
        self.push(Statement::Return { value: Some(value) })
    }

    /// Adds a return without a value.
    pub fn return_nothing(&mut self) -> Result<(), AllocError>
        ensures ok { OnOk result (self.new ≡ with_statement self.old (simple (return None))) }
        ensures err { OnErr result (self.new ≡ self.old) }
    {
        self.push(Statement::Return { value: None })
    }

    /// Adds statements of their own.
    pub fn block(&mut self, inner: BlockBuilder) -> Result<(), AllocError>
        ensures ok { OnOk result (self.new ≡ with_statement self.old (block inner)) }
        ensures err { OnErr result (self.new ≡ self.old) }
    {
        self.push(Statement::Block(inner.finish()))
    }

    /// Adds an `if`.
    pub fn if_else(
        &mut self,
        condition: Handle<Expression>,
        accept: BlockBuilder,
        reject: BlockBuilder,
    ) -> Result<(), AllocError>
        ensures ok { OnOk result
            (self.new ≡ with_statement self.old (branch condition accept reject)) }
        ensures err { OnErr result (self.new ≡ self.old) }
    {
        self.push(Statement::If {
            condition,
            accept: accept.finish(),
            reject: reject.finish(),
        })
    }

    /// Adds a loop, which `break_if` ends where it is true after `continuing`.
    pub fn loop_(
        &mut self,
        body: BlockBuilder,
        continuing: BlockBuilder,
        break_if: Option<Handle<Expression>>,
    ) -> Result<(), AllocError>
        ensures ok { OnOk result
            (self.new ≡ with_statement self.old (loop body continuing break_if)) }
        ensures err { OnErr result (self.new ≡ self.old) }
    {
        self.push(Statement::Loop {
            body: body.finish(),
            continuing: continuing.finish(),
            break_if,
        })
    }

    /// Adds a `switch`.
    pub fn switch(
        &mut self,
        selector: Handle<Expression>,
        cases: Vec<SwitchCase>,
    ) -> Result<(), AllocError>
        ensures ok { OnOk result
            (self.new ≡ with_statement self.old (switch selector (cases_of cases.items))) }
        ensures err { OnErr result (self.new ≡ self.old) }
    {
        self.push(Statement::Switch { selector, cases })
    }
}
