//! Statements, each in a line, without their blocks.

use crate::expressions::push_function;
use crate::operands::{MOST_FIELDS, push_field, push_list};
use naga_fields::{statement_field, statement_name};
use naga_ir::{AtomicFunction, Direction, GatherMode, Module, Range, Statement, SwitchValue};
use std::alloc::AllocError;

/// Appends what a statement is: `Store pointer: [0], value: [2]`.
pub(crate) fn push_statement(
    module: &Module,
    statement: &Statement,
    out: &mut String,
) -> Result<(), AllocError> {
    out.push_str(statement_name(statement))?;
    push_choice(module, statement, out)?;
    push_of_statement(statement, out)
}

/// Appends which of its kind the statement is.
fn push_choice(module: &Module, statement: &Statement, out: &mut String) -> Result<(), AllocError> {
    match statement {
        Statement::Emit(range) => push_range(*range, out),
        Statement::ControlBarrier(flags) => write!(out, " {flags:?}"),
        Statement::MemoryBarrier(flags) => write!(out, " {flags:?}"),
        Statement::Atomic { fun, .. } => out.push_str(atomic_name(*fun)),
        Statement::ImageAtomic { fun, .. } => out.push_str(atomic_name(*fun)),
        Statement::Call { function, .. } => push_function(module, *function, out),
        Statement::SubgroupGather { mode, .. } => out.push_str(gather_name(*mode)),
        Statement::SubgroupCollectiveOperation {
            op,
            collective_op,
            ..
        } => write!(out, " {op:?} {collective_op:?}"),
        _ => Ok(()),
    }
}

/// Appends the expressions of an `Emit`, from the first to before the end: ` 1..3`.
fn push_range(range: Range, out: &mut String) -> Result<(), AllocError> {
    write!(out, " {}..{}", range.first, range.end)
}

fn atomic_name(fun: AtomicFunction) -> &'static str {
    match fun {
        AtomicFunction::Add => " Add",
        AtomicFunction::Subtract => " Subtract",
        AtomicFunction::And => " And",
        AtomicFunction::ExclusiveOr => " ExclusiveOr",
        AtomicFunction::InclusiveOr => " InclusiveOr",
        AtomicFunction::Min => " Min",
        AtomicFunction::Max => " Max",
        AtomicFunction::Exchange { .. } => " Exchange",
    }
}

fn gather_name(mode: GatherMode) -> &'static str {
    match mode {
        GatherMode::BroadcastFirst => " BroadcastFirst",
        GatherMode::Broadcast(_) => " Broadcast",
        GatherMode::Shuffle(_) => " Shuffle",
        GatherMode::ShuffleDown(_) => " ShuffleDown",
        GatherMode::ShuffleUp(_) => " ShuffleUp",
        GatherMode::ShuffleXor(_) => " ShuffleXor",
        GatherMode::QuadBroadcast(_) => " QuadBroadcast",
        GatherMode::QuadSwap(direction) => match direction {
            Direction::X => " QuadSwap X",
            Direction::Y => " QuadSwap Y",
            Direction::Diagonal => " QuadSwap Diagonal",
        },
    }
}

/// Appends the operands and the result by their names.
fn push_of_statement(statement: &Statement, out: &mut String) -> Result<(), AllocError> {
    if let Statement::Call { arguments, .. } = statement {
        push_list("arguments", arguments, out)?;
    }
    let mut separator = " ";
    for number in 0..MOST_FIELDS {
        if let Some((name, operand)) = statement_field(statement, number) {
            if push_field(separator, name, operand, out)? {
                separator = ", ";
            }
        }
    }
    Ok(())
}

/// Appends the first line of a case of a `Switch`: `case 1`, `default, falls through`.
pub(crate) fn push_case(
    value: SwitchValue,
    fall_through: bool,
    out: &mut String,
) -> Result<(), AllocError> {
    match value {
        SwitchValue::I32(number) => write!(out, "case {number}")?,
        SwitchValue::U32(number) => write!(out, "case {number}u")?,
        SwitchValue::Default => out.push_str("default")?,
    }
    if fall_through {
        out.push_str(", falls through")?;
    }
    Ok(())
}
