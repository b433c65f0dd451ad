//! The lines of a function's text, and what declares a type on them.

use naga_ir::{Handle, LocalVariable};

/// A line of a function's text. A statement is told by its number in the order of the text: those in
/// blocks are counted too, each after the one that holds the block, from 0.
#[derive(Clone, Copy, Debug, PartialEq, Eq)]
pub enum Line {
    /// The arguments and the result.
    Signature,
    /// This local, with its type and its first value.
    Local(Handle<LocalVariable>),
    /// The statement with this number, without those in its blocks. A loop's `break if` has a line of
    /// its own.
    Statement(usize),
    /// The `break if` of the loop with this number, after which the statement with the number `next`
    /// would stand: it comes after all statements in the loop.
    BreakIf {
        /// The number of the loop.
        number: usize,
        /// The number that a statement after the loop would have.
        next: usize,
    },
}

/// What declares a type in a function.
#[derive(Clone, Copy, Debug, PartialEq, Eq)]
pub enum Declared {
    /// The argument with this index.
    Argument(usize),
    /// The result.
    Result,
    /// This local.
    Local(Handle<LocalVariable>),
}
