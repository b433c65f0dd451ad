//! Positions in a module, and the lines of a listing.

ghost use Rattle.std.specs.Prelude.{◌≡◌, None};

use naga_ir::{
    Constant, Expression, Function, GlobalVariable, Handle, LocalVariable, Override, SwitchValue,
    Type_,
};

/// Which part of a module is listed.
#[derive(Clone, Copy, Debug, PartialEq, Eq)]
pub enum Listed {
    /// The module's types, constants, overrides, variables and own expressions.
    Declarations,
    /// The function with this handle.
    Function(Handle<Function>),
    /// The function of the entry point with this index.
    EntryPoint(usize),
}

/// What a line of a listing can be about.
#[derive(Clone, Copy, Debug, PartialEq, Eq)]
pub enum Spot {
    /// All that is listed: its first line.
    Whole,
    /// A type of the module.
    Type_(Handle<Type_>),
    /// A constant of the module.
    Constant(Handle<Constant>),
    /// An override of the module.
    Override(Handle<Override>),
    /// A variable of the module.
    GlobalVariable(Handle<GlobalVariable>),
    /// One of the module's own expressions.
    GlobalExpression(Handle<Expression>),
    /// A variable of the listed function.
    Local(Handle<LocalVariable>),
    /// An expression of the listed function.
    Expression(Handle<Expression>),
    /// The statement of the listed function with this number in the order of the text. Those in
    /// blocks are counted too, each after the one that holds the block, from 0 (modulo 2^64).
    Statement(usize),
}

/// A position in a module.
#[derive(Clone, Copy, Debug, PartialEq, Eq)]
pub struct ListingPosition {
    /// What it is in.
    pub listed: Listed,
    /// What stands there.
    pub spot: Spot,
    /// What else is to be seen: for an expression that is out of scope, the statement that uses it.
    pub beside: Option<Spot>,
}

impl ListingPosition {
    /// The position of this, with nothing beside it.
    pub fn of(listed: Listed, spot: Spot) -> Self
        ensures { result ≡ record { listed = listed; spot = spot; beside = None } }
    {
        ListingPosition {
            listed,
            spot,
            beside: None,
        }
    }
}

/// The title of one list of a listing.
#[derive(Clone, Copy, Debug, PartialEq, Eq)]
pub enum Title {
    /// Of the module's types.
    Types,
    /// Of the module's constants.
    Constants,
    /// Of the module's overrides.
    Overrides,
    /// Of the module's variables.
    GlobalVariables,
    /// Of the module's own expressions.
    GlobalExpressions,
    /// Of the variables of the listed function.
    Locals,
    /// Of the expressions of the listed function.
    Expressions,
    /// Of the statements of the listed function.
    Statements,
}

/// What a line shows.
#[derive(Clone, Copy, Debug, PartialEq, Eq)]
pub enum LineKind {
    /// That lines are left out.
    Gap,
    /// What is wrong with the line before it.
    Mark,
    /// The title of a list.
    Title(Title),
    /// What this is about.
    Item(Spot),
    /// The beginning of what an `If` does otherwise.
    Else,
    /// The beginning of a case of a `Switch`: its value, and whether it falls through.
    Case(SwitchValue, bool),
    /// The beginning of what a `Loop` does after each turn.
    Continuing,
}

/// A line of a listing.
#[derive(Clone, Copy, Debug, PartialEq, Eq)]
pub struct Line {
    /// How deep it stands: what is inside another line's item stands deeper than that line. The
    /// first line stands at 0, titles at 1, and items from 2 on, two deeper with each block.
    pub level: usize,
    /// What it shows.
    pub kind: LineKind,
}
