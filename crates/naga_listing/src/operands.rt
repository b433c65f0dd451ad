//! Operands by their names, and labels.

use naga_ir::{Expression, Handle};
use std::alloc::AllocError;

/// At most so many items of a list are told.
const MOST_TOLD: usize = 8;

/// An expression or a statement has at most so many fields.
pub const MOST_FIELDS: usize = 6;

/// Appends a field, if it holds an operand: `left: [0]`. Whether it does is returned.
pub(crate) fn push_field(
    separator: &str,
    name: &str,
    operand: Option<Handle<Expression>>,
    out: &mut String,
) -> Result<bool, AllocError> {
    match operand {
        Some(handle) => {
            push_operand(separator, name, handle, out)?;
            Ok(true)
        }
        None => Ok(false),
    }
}

/// Appends one operand.
pub(crate) fn push_operand(
    separator: &str,
    name: &str,
    handle: Handle<Expression>,
    out: &mut String,
) -> Result<(), AllocError> {
    write!(out, "{separator}{name}: [{}]", handle.index())
}

/// Appends a list of operands, as far as a line has room for it, if there are any:
/// ` components: [0] [1]`.
pub(crate) fn push_list(
    name: &str,
    operands: &[Handle<Expression>],
    out: &mut String,
) -> Result<(), AllocError> {
    if operands.is_empty() {
        return Ok(());
    }
    write!(out, " {name}:")?;
    for handle in operands.iter().take(MOST_TOLD) {
        write!(out, " [{}]", handle.index())?;
    }
    if operands.len() > MOST_TOLD {
        write!(out, " .. of {}", operands.len())?;
    }
    Ok(())
}

/// Appends the number of an item and its label, if it has one: ` 3 "sun"`.
pub(crate) fn push_numbered(
    number: usize,
    label: Option<&String>,
    out: &mut String,
) -> Result<(), AllocError> {
    write!(out, " {number}")?;
    push_label(label, out)
}

/// Appends a label, if there is one, in quotes: ` "sun"`.
pub(crate) fn push_label(label: Option<&String>, out: &mut String) -> Result<(), AllocError> {
    match label {
        Some(label) => write!(out, " {:?}", label.as_str()),
        None => Ok(()),
    }
}
