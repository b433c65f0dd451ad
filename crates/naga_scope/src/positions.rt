//! Where what has no text stands in a module.

use crate::lines::{Declared, Line};
use crate::scope_faults::ScopeFault;
use naga_ir::{Expression, Function, Handle, Type_};
use naga_tables::DeclarationPosition;

/// A part of a function, or of an entry point, for which it is refused. A statement is told by its
/// number in the order of the text: those in blocks are counted too, each after the one that holds
/// the block, from 0.
#[derive(Clone, Copy, Debug, PartialEq, Eq)]
pub enum FunctionRefusalPosition {
    /// The labels that front ends gave in it.
    Labels,
    /// Where it breaks a rule of scope.
    Scope(ScopeFault),
    /// The statement with this number.
    Statement(usize),
    /// An expression that this line writes.
    Expression(Line, Handle<Expression>),
    /// The type of what is declared here: an argument, the result or a local.
    Type_(Declared, Handle<Type_>),
    /// The type that the `let` of this expression states in the statement with this number.
    Let(usize, Handle<Expression>),
}

/// Where a construct stands for which a module is refused.
#[derive(Clone, Copy, Debug, PartialEq, Eq)]
pub enum RefusalPosition {
    /// Among the labels of the module's items.
    Labels,
    /// In a declaration.
    Declaration(DeclarationPosition),
    /// In the function with this handle.
    Function(Handle<Function>, FunctionRefusalPosition),
    /// In the entry point with this index.
    EntryPoint(usize, FunctionRefusalPosition),
}
