//! Where a module is not accepted or refused, as a position of a listing.

use naga_acceptance::{FaultPosition, FunctionPosition};
use naga_listing::{Listed, ListingPosition, Spot};
use naga_scope::{Declared, FunctionRefusalPosition, Line, RefusalPosition, ScopeFault};
use naga_tables::DeclarationPosition;

/// The position of an item in a listing of what it is in.
pub fn listed_position(item: FaultPosition) -> ListingPosition {
    match item {
        FaultPosition::Module => declared(Spot::Whole),
        FaultPosition::Type(handle) => declared(Spot::Type_(handle)),
        FaultPosition::Constant(handle) => declared(Spot::Constant(handle)),
        FaultPosition::Override(handle) => declared(Spot::Override(handle)),
        FaultPosition::GlobalVariable(handle) => declared(Spot::GlobalVariable(handle)),
        FaultPosition::GlobalExpression(handle) => declared(Spot::GlobalExpression(handle)),
        FaultPosition::Function(handle, part) => ListingPosition::of(
            Listed::Function(handle),
            function_spot(part),
        ),
        FaultPosition::EntryPoint(index, part) => ListingPosition::of(
            Listed::EntryPoint(index),
            function_spot(part),
        ),
    }
}

/// The position of a construct for which a module is refused in a listing of what it is in: of what
/// is out of scope the expression, with the statement that uses or gives it beside; of an
/// expression without a form, or whose `let` states a type without one, the expression with its line
/// beside.
pub fn refused_position(position: RefusalPosition) -> ListingPosition {
    match position {
        RefusalPosition::Labels => declared(Spot::Whole),
        RefusalPosition::Declaration(position) => declaration_position(position),
        RefusalPosition::Function(handle, part) => refused_in(Listed::Function(handle), part),
        RefusalPosition::EntryPoint(index, part) => refused_in(Listed::EntryPoint(index), part),
    }
}

fn declared(spot: Spot) -> ListingPosition {
    ListingPosition::of(Listed::Declarations, spot)
}

fn function_spot(part: FunctionPosition) -> Spot {
    match part {
        FunctionPosition::Whole => Spot::Whole,
        FunctionPosition::Local(handle) => Spot::Local(handle),
        FunctionPosition::Expression(handle) => Spot::Expression(handle),
        FunctionPosition::Statement(number) => Spot::Statement(number),
    }
}

fn declaration_position(position: DeclarationPosition) -> ListingPosition {
    match position {
        DeclarationPosition::Struct(handle) => declared(Spot::Type_(handle)),
        DeclarationPosition::Constant(handle) => declared(Spot::Constant(handle)),
        DeclarationPosition::Override(handle) => declared(Spot::Override(handle)),
        DeclarationPosition::GlobalVariable(handle) => declared(Spot::GlobalVariable(handle)),
        DeclarationPosition::Function(handle) => ListingPosition::of(
            Listed::Function(handle),
            Spot::Whole,
        ),
        DeclarationPosition::EntryPoint(index) => ListingPosition::of(
            Listed::EntryPoint(index),
            Spot::Whole,
        ),
    }
}

fn refused_in(listed: Listed, part: FunctionRefusalPosition) -> ListingPosition {
    match part {
        FunctionRefusalPosition::Labels => ListingPosition::of(listed, Spot::Whole),
        FunctionRefusalPosition::Type_(declared, _) => ListingPosition::of(
            listed,
            declared_spot(declared),
        ),
        FunctionRefusalPosition::Scope(fault) => {
            let (spot, beside) = fault_spots(fault);
            ListingPosition {
                listed,
                spot,
                beside: Some(beside),
            }
        }
        FunctionRefusalPosition::Statement(number) => ListingPosition::of(
            listed,
            Spot::Statement(number),
        ),
        FunctionRefusalPosition::Expression(line, handle) => ListingPosition {
            listed,
            spot: Spot::Expression(handle),
            beside: line_spot(line),
        },
        FunctionRefusalPosition::Let(number, handle) => ListingPosition {
            listed,
            spot: Spot::Expression(handle),
            beside: Some(Spot::Statement(number)),
        },
    }
}

/// What declares a type, where it is a local.
fn declared_spot(declared: Declared) -> Spot {
    match declared {
        Declared::Argument(_) | Declared::Result => Spot::Whole,
        Declared::Local(local) => Spot::Local(local),
    }
}

/// The line that writes an expression.
fn line_spot(line: Line) -> Option<Spot> {
    match line {
        Line::Signature => None,
        Line::Local(local) => Some(Spot::Local(local)),
        Line::Statement(number) | Line::BreakIf { number, .. } => Some(Spot::Statement(number)),
    }
}

/// The expression that is out of scope, and what uses or gives it.
fn fault_spots(fault: ScopeFault) -> (Spot, Spot) {
    match fault {
        ScopeFault::FirstValue { local, value } => (Spot::Expression(value), Spot::Local(local)),
        ScopeFault::Operand { statement, operand }
        | ScopeFault::BreakIf {
            statement,
            operand,
            ..
        }
        | ScopeFault::EmittedOperand {
            statement,
            operand,
            ..
        } => (Spot::Expression(operand), Spot::Statement(statement)),
        ScopeFault::IntroducedBefore {
            statement,
            expression,
        }
        | ScopeFault::NeedsNoEmit {
            statement,
            expression,
        } => (Spot::Expression(expression), Spot::Statement(statement)),
    }
}
