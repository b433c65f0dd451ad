//! Where a module is not accepted, and which kind of fault is there.

ghost use Rattle.std.specs.Prelude.{◌≡◌, Some};
ghost use Rattle.naga_acceptance.specs.FaultTexts.{fault_text, item_text, function_position_text};
ghost use Rattle.naga_acceptance.specs.FaultTexts.{unaccepted_text};
ghost use Rattle.naga_acceptance.specs.FirstFaults.{at, at_entry_point, at_expression, at_function};

use naga_ir::{
    Constant, Expression, Function, GlobalVariable, Handle, LocalVariable, Override, Type_,
};
use std::fmt;

/// A position at which a module is not accepted, and the kind of fault.
#[derive(Debug, Clone, Copy, PartialEq, Eq)]
pub struct Unaccepted {
    pub item: FaultPosition,
    pub fault: Fault,
}

/// An item of a module, or the module itself with what is known of it.
#[derive(Debug, Clone, Copy, PartialEq, Eq)]
pub enum FaultPosition {
    Module,
    Type(Handle<Type_>),
    Constant(Handle<Constant>),
    Override(Handle<Override>),
    GlobalVariable(Handle<GlobalVariable>),
    GlobalExpression(Handle<Expression>),
    Function(Handle<Function>, FunctionPosition),
    /// The entry point with this index.
    EntryPoint(usize, FunctionPosition),
}

/// A part of a function or of an entry point.
#[derive(Debug, Clone, Copy, PartialEq, Eq)]
pub enum FunctionPosition {
    Whole,
    Local(Handle<LocalVariable>),
    Expression(Handle<Expression>),
    /// The statement with this number in the order of the text. Those in blocks are counted too,
    /// each after the one that holds the block, from 0 (modulo 2^64).
    Statement(usize),
}

/// A kind of fault.
#[derive(Debug, Clone, Copy, PartialEq, Eq)]
pub enum Fault {
    /// Of a function, an entry point or the module's own expressions not as many things are known
    /// as there are expressions, or not of as many functions or entry points as there are.
    InfoSize,
    /// A type is a pointer in the space of handles.
    HandlePointer,
    /// A type's parts do not stand before it.
    TypeParts,
    /// The override of a type's length is not there.
    TypeLength,
    /// A type with a meaning of its own is not there.
    SpecialTypes,
    /// What is named is not there: the type or the initialiser of a constant, an override or a
    /// variable, the variables of an entry point, what an expression names beside its operands, or
    /// what a statement names.
    Names,
    /// The numeral of a literal is out of range, or denotes an infinity. (A number of another
    /// expression always is one of its type.)
    Numeral,
    /// The type of an argument or of the result is not there.
    Signature,
    /// A front end's name is given to an expression that is not there.
    NamedExpressions,
    /// An expression's operands do not stand before it.
    Operands,
    /// The initialiser of the constant or override that a global expression names does not stand
    /// before it.
    LaterInitialiser,
    /// The type that is known of an expression has a form that it may not have, or names what is
    /// not there.
    KnownType,
    /// An expression has another type than what it stands for.
    OtherType,
    /// An expression does not take operands of these types.
    OperandTypes,
    /// The initialiser has another type.
    InitialiserType,
    /// A statement does not get what it needs.
    Unsatisfied,
    /// An operator's type is not like that of the same operator, over operands of types alike,
    /// which stands before it.
    Disagreement,
}

pub(crate) fn at(item: FaultPosition, fault: Fault) -> Unaccepted
    ensures { result ≡ at item fault }
{
    Unaccepted { item, fault }
}

/// A fault of a part of the function with this handle.
pub(crate) fn at_function(handle: Handle<Function>, found: (FunctionPosition, Fault)) -> Unaccepted
    ensures { result ≡ at_function handle found }
{
    at(FaultPosition::Function(handle, found.0), found.1)
}

/// A fault of a part of the entry point with this index.
pub(crate) fn at_entry_point(index: usize, found: (FunctionPosition, Fault)) -> Unaccepted
    ensures { result ≡ at_entry_point index found }
{
    at(FaultPosition::EntryPoint(index, found.0), found.1)
}

/// A fault of an expression of a function.
pub(crate) fn at_expression(found: (Handle<Expression>, Fault)) -> (FunctionPosition, Fault)
    ensures { result ≡ at_expression found }
{
    (FunctionPosition::Expression(found.0), found.1)
}

impl fmt::Display for Unaccepted {
    ghost output = { λ u. Some (unaccepted_text u) };

    fn fmt<W: fmt::Write>(&self, f: &mut fmt::Formatter<W>) -> fmt::Result {
        write!(f, "{}: {}", self.item, self.fault)
    }
}

impl fmt::Display for FaultPosition {
    ghost output = { λ position. Some (item_text position) };

    fn fmt<W: fmt::Write>(&self, f: &mut fmt::Formatter<W>) -> fmt::Result {
        match self {
            FaultPosition::Module => f.write_str("module"),
            FaultPosition::Type(handle) => write!(f, "type {}", handle.index()),
            FaultPosition::Constant(handle) => write!(f, "constant {}", handle.index()),
            FaultPosition::Override(handle) => write!(f, "override {}", handle.index()),
            FaultPosition::GlobalVariable(handle) => write!(
                f,
                "global variable {}",
                handle.index()
            ),
            FaultPosition::GlobalExpression(handle) => write!(
                f,
                "global expression {}",
                handle.index()
            ),
            FaultPosition::Function(handle, part) => write!(
                f,
                "function {}{}",
                handle.index(),
                part
            ),
            FaultPosition::EntryPoint(index, part) => write!(f, "entry point {}{}", index, part),
        }
    }
}

impl fmt::Display for FunctionPosition {
    ghost output = { λ position. Some (function_position_text position) };

    fn fmt<W: fmt::Write>(&self, f: &mut fmt::Formatter<W>) -> fmt::Result {
        match self {
            FunctionPosition::Whole => Ok(()),
            FunctionPosition::Local(handle) => write!(f, ", local {}", handle.index()),
            FunctionPosition::Expression(handle) => write!(f, ", expression {}", handle.index()),
            FunctionPosition::Statement(number) => write!(f, ", statement {}", number),
        }
    }
}

impl fmt::Display for Fault {
    ghost output = { λ kind. Some (fault_text kind) };

    fn fmt<W: fmt::Write>(&self, f: &mut fmt::Formatter<W>) -> fmt::Result {
        f.write_str(match self {
            Fault::InfoSize => "not one thing is known of each",
            Fault::HandlePointer => "a pointer in the space of handles",
            Fault::TypeParts => "a part does not stand before the type",
            Fault::TypeLength => "the override of the length is not there",
            Fault::SpecialTypes => "a special type is not there",
            Fault::Names => "what is named is not there",
            Fault::Numeral => "the numeral is out of range",
            Fault::Signature => "a type of the signature is not there",
            Fault::NamedExpressions => "a named expression is not there",
            Fault::Operands => "an operand does not stand before the expression",
            Fault::LaterInitialiser => "an initialiser does not stand before the expression",
            Fault::KnownType => "the known type may not be there",
            Fault::OtherType => "the known type is another",
            Fault::OperandTypes => "the operands are of types that it does not take",
            Fault::InitialiserType => "the initialiser is of another type",
            Fault::Unsatisfied => "the statement does not get what it needs",
            Fault::Disagreement => "the operator does not agree with an earlier one",
        })
    }
}
