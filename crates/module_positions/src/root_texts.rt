//! Why an operand that is out of scope has no value: the expression that it comes from, and the
//! statement that gives that one.

ghost use Rattle.std.specs.Prelude.{◌≡◌, IfOk, Some, string_bytes};
ghost use Rattle.module_positions.specs.ScopeRoots.{asked_by, asked_root};
ghost use Rattle.module_positions.specs.ScopeRoots.{giver_by, giver_text, root_after, root_end};
ghost use Rattle.module_positions.specs.ScopeRoots.{root_in, root_text, scope_root, told_root};

use crate::roots::{Root, Stop, Value, root_by, root_of, value_at, values_at};
use naga_ir::{Expression, Function, Handle, Module};
use naga_listing::{Spot, entry_point_at, giver_of, item_at};
use naga_scope::{FunctionRefusalPosition, RefusalPosition, ScopeFault};
use std::alloc::{AllocError, Global};
use std::fmt;

/// What gives an expression that has no value where it is needed.
#[derive(Clone, Copy, Debug, PartialEq, Eq)]
pub enum Giver {
    /// No statement does.
    Nothing,
    /// The first statement that does has this number, and stands in a block that has ended.
    Ended(usize),
    /// The statement with this number does, in the body of a loop, where a `continue` may skip it.
    Skipped(usize),
    /// The first statement that does has this number, and gives it too late.
    Later(usize),
}

/// Why an operand that is out of scope has no value.
#[derive(Clone, Copy, Debug, PartialEq, Eq)]
pub struct ScopeRoot {
    /// The expression that has none by itself: the operand, or an operand of it, or of that ..
    pub expression: Handle<Expression>,
    /// The number of the statement where it had none: that of the fault, or the `Emit` of an
    /// expression that it is an operand of.
    pub statement: usize,
    /// What gives it.
    pub giver: Giver,
    /// Whether it is the operand itself.
    pub is_operand: bool,
}

/// Why the operand that is out of scope at this position has no value, if one is.
pub fn root_at(
    alloc: Global,
    module: &Module,
    position: &RefusalPosition,
) -> Result<Option<ScopeRoot>, AllocError>
    ensures { IfOk result (λ root. root ≡ root_in «module».now position.now) }
{
    match position {
        RefusalPosition::Function(handle, FunctionRefusalPosition::Scope(fault)) => {
            match item_at(&module.functions, *handle) {
                Some(function) => scope_root(alloc, function, *fault),
                None => Ok(None),
            }
        }
        RefusalPosition::EntryPoint(index, FunctionRefusalPosition::Scope(fault)) => {
            match entry_point_at(module, *index) {
                Some(entry_point) => scope_root(alloc, &entry_point.function, *fault),
                None => Ok(None),
            }
        }
        _ => Ok(None),
    }
}

/// What a fault asks for.
#[derive(Clone, Copy, Debug)]
struct Asked {
    /// The number of the statement that asks for it.
    statement: usize,
    /// Where in the statement it does.
    stop: Stop,
    operand: Handle<Expression>,
}

/// What this fault asks for, if it asks for an operand.
fn asked_by(fault: ScopeFault) -> Option<Asked>
    ensures { result ≡ asked_by fault }
{
    match fault {
        ScopeFault::Operand { statement, operand } => Some(Asked {
            statement,
            stop: Stop::Before,
            operand,
        }),
        ScopeFault::BreakIf {
            statement,
            next,
            operand,
        } => Some(Asked {
            statement,
            stop: Stop::BreakIf(next),
            operand,
        }),
        ScopeFault::EmittedOperand {
            statement,
            expression,
            operand,
        } => Some(Asked {
            statement,
            stop: Stop::Giving(expression),
            operand,
        }),
        ScopeFault::FirstValue { .. }
        | ScopeFault::IntroducedBefore { .. }
        | ScopeFault::NeedsNoEmit { .. } => None,
    }
}

/// The same of a fault of this function.
fn scope_root(
    alloc: Global,
    function: &Function,
    fault: ScopeFault,
) -> Result<Option<ScopeRoot>, AllocError>
    ensures { IfOk result (λ root. root ≡ scope_root function.now fault) }
{
    match asked_by(fault) {
        Some(asked) => asked_root(alloc, function, &asked),
        None => Ok(None),
    }
}

/// Why what is asked for has no value.
fn asked_root(
    alloc: Global,
    function: &Function,
    asked: &Asked,
) -> Result<Option<ScopeRoot>, AllocError>
    ensures { IfOk result (λ root. root ≡ asked_root function.now asked.now) }
{
    match root_of(alloc, function, asked.statement, asked.stop, asked.operand)? {
        Some(root) => Ok(Some(told_root(function, asked, &root))),
        None => Ok(None),
    }
}

/// The same once it is found.
fn told_root(function: &Function, asked: &Asked, root: &Root) -> ScopeRoot
    ensures { result ≡ told_root function.now asked.now root.now }
{
    let is_there = root.statement == asked.statement;
    let end = root_end(is_there, asked.stop, root.statement);
    let first = giver_of(&function.body, root.expression);
    ScopeRoot {
        expression: root.expression,
        statement: root.statement,
        giver: giver_by(root.skipped, end, first),
        is_operand: is_there && root.expression.index() == asked.operand.index(),
    }
}

/// The number of the first statement that stands after the point where a root is needed, or of the
/// one that needs it.
fn root_end(is_there: bool, stop: Stop, statement: usize) -> usize
    ensures { result ≡ root_end is_there stop statement }
{
    match stop {
        Stop::BreakIf(next) => { if is_there { next } else { statement } }
        Stop::Before | Stop::Giving(_) => statement,
    }
}

/// What gives a root, by the statement that a `continue` may skip and the first that gives it.
fn giver_by(skipped: Option<usize>, end: usize, first: Option<usize>) -> Giver
    ensures { result ≡ giver_by skipped end first }
{
    match skipped {
        Some(number) => Giver::Skipped(number),
        None => match first {
            None => Giver::Nothing,
            Some(number) => {
                if number < end {
                    Giver::Ended(number)
                } else {
                    Giver::Later(number)
                }
            }
        },
    }
}

impl fmt::Display for Giver {
    ghost output = { λ giver. Some (giver_text giver) };

    fn fmt<W: fmt::Write>(&self, f: &mut fmt::Formatter<W>) -> fmt::Result {
        match self {
            Giver::Nothing => f.write_str("no statement gives it"),
            Giver::Ended(number) => {
                write!(
                    f,
                    "statement {} gives it, in a block that has ended",
                    number
                )
            }
            Giver::Skipped(number) => {
                write!(
                    f,
                    "statement {} gives it, where a continue may skip it",
                    number
                )
            }
            Giver::Later(number) => write!(f, "statement {} gives it, too late", number),
        }
    }
}

/// `expressions[12] has no value at statement 8; statement 4 gives it, in a block that has ended`,
/// and of the operand itself what gives it alone.
impl fmt::Display for ScopeRoot {
    ghost output = { λ root. Some (root_text root) };

    fn fmt<W: fmt::Write>(&self, f: &mut fmt::Formatter<W>) -> fmt::Result {
        if self.is_operand {
            write!(f, "{}", self.giver)
        } else {
            write!(
                f,
                "expressions[{}] has no value at statement {}; {}",
                self.expression.index(),
                self.statement,
                self.giver
            )
        }
    }
}

/// A root, told under its line in a listing.
#[derive(Clone, Copy, Debug, PartialEq, Eq)]
pub struct MarkedRoot(pub ScopeRoot);

impl fmt::Display for MarkedRoot {
    fn fmt<W: fmt::Write>(&self, f: &mut fmt::Formatter<W>) -> fmt::Result {
        write!(
            f,
            "no value at statement {}; {}",
            self.0.statement, self.0.giver
        )
    }
}

/// What is told of why an operand has no value, after all else.
pub fn root_after(alloc: Global, root: Option<ScopeRoot>) -> Result<String, AllocError>
    ensures { IfOk result (λ text. string_bytes text ≡ root_after root) }
{
    match root {
        Some(root) => format!(in alloc; ": {root}"),
        None => Ok(String::new(alloc)),
    }
}

// ---- a listing

/// At most so many expressions of a chain are shown.
const MOST_SHOWN: usize = 12;

/// What is to be seen of an operand that is out of scope at this position: it and the operands down
/// to the one that has no value by itself, and the statements that give them.
pub fn root_spots(
    alloc: Global,
    module: &Module,
    position: &RefusalPosition,
) -> Result<Vec<Spot>, AllocError> {
    match position {
        RefusalPosition::Function(handle, FunctionRefusalPosition::Scope(fault)) => {
            match item_at(&module.functions, *handle) {
                Some(function) => chain_spots(alloc, function, *fault),
                None => Ok(Vec::new(alloc)),
            }
        }
        RefusalPosition::EntryPoint(index, FunctionRefusalPosition::Scope(fault)) => {
            match entry_point_at(module, *index) {
                Some(entry_point) => chain_spots(alloc, &entry_point.function, *fault),
                None => Ok(Vec::new(alloc)),
            }
        }
        _ => Ok(Vec::new(alloc)),
    }
}

fn chain_spots(
    alloc: Global,
    function: &Function,
    fault: ScopeFault,
) -> Result<Vec<Spot>, AllocError> {
    match asked_by(fault) {
        Some(asked) => asked_spots(alloc, function, &asked),
        None => Ok(Vec::new(alloc)),
    }
}

fn asked_spots(alloc: Global, function: &Function, asked: &Asked) -> Result<Vec<Spot>, AllocError> {
    let mut spots = Vec::new(alloc);
    let values = values_at(alloc, function, asked.statement, asked.stop)?;
    let mut at = asked.operand;
    for _ in 0..MOST_SHOWN {
        spots.push(Spot::Expression(at))?;
        match value_at(&values, at) {
            Value::Lacking(number, operand, _) => {
                spots.push(Spot::Statement(number))?;
                at = operand;
            }
            _ => break,
        }
    }
    match root_by(
        asked.statement,
        asked.operand,
        value_at(&values, asked.operand),
    ) {
        Some(root) => push_root(function, root, &mut spots)?,
        None => {}
    }
    Ok(spots)
}

/// What is to be seen of a root, however long the way to it is: it, the statement that needed it, and
/// the one that gives it, as the line has it.
fn push_root(function: &Function, root: Root, spots: &mut Vec<Spot>) -> Result<(), AllocError> {
    spots.push(Spot::Expression(root.expression))?;
    spots.push(Spot::Statement(root.statement))?;
    let giver = match root.skipped {
        Some(number) => Some(number),
        None => giver_of(&function.body, root.expression),
    };
    if let Some(number) = giver {
        spots.push(Spot::Statement(number))?;
    }
    Ok(())
}
