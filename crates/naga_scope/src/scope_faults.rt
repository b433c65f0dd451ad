//! Which rule of scope a function breaks, and where.

use naga_ir::{Expression, Handle, LocalVariable};

/// Which rule of scope a function breaks, and where. A statement is told by its number in the order
/// of the text: those in blocks are counted too, each after the one that holds the block, from 0.
#[derive(Clone, Copy, Debug, PartialEq, Eq)]
pub enum ScopeFault {
    /// The first value of this local is out of scope where the local is declared.
    FirstValue {
        /// The local.
        local: Handle<LocalVariable>,
        /// Its first value.
        value: Handle<Expression>,
    },
    /// The statement uses this expression, which is out of scope there. It is not by its `break if`.
    Operand {
        /// The number of the statement.
        statement: usize,
        /// The expression that it uses.
        operand: Handle<Expression>,
    },
    /// The `break if` of this loop, after which the statement with the number `next` would stand, uses
    /// this expression, which is out of scope there.
    BreakIf {
        /// The number of the loop.
        statement: usize,
        /// The number that a statement after the loop would have.
        next: usize,
        /// The expression that the `break if` uses.
        operand: Handle<Expression>,
    },
    /// The statement is an `Emit` that binds the expression, of which this operand is out of scope
    /// there.
    EmittedOperand {
        /// The number of the `Emit`.
        statement: usize,
        /// The expression that it binds.
        expression: Handle<Expression>,
        /// The operand of that expression.
        operand: Handle<Expression>,
    },
    /// The statement gives this expression, which was given before.
    IntroducedBefore {
        /// The number of the statement.
        statement: usize,
        /// The expression that it gives.
        expression: Handle<Expression>,
    },
    /// The statement is an `Emit` of this expression, which needs none.
    NeedsNoEmit {
        /// The number of the `Emit`.
        statement: usize,
        /// The expression that needs none.
        expression: Handle<Expression>,
    },
}
