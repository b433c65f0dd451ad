//! The text of a listing.

use crate::choice::listing_with;
use crate::items::Lister;
use crate::positions::{Line, LineKind, ListingPosition, Spot, Title};
use crate::statement_words::push_case;
use naga_info::ModuleInfo;
use naga_ir::Module;
use std::alloc::{AllocError, Global};

/// The lines of a position as a text, each with its end: items with their numbers, their operands
/// by name and handle, and their types as WGSL spells them, where they are known; statements under
/// those that hold them; and the message under the position's own line.
///
/// ```text
/// let position = ListingPosition::of(Listed::Function(double), Spot::Expression(sum));
/// let text = explain(alloc, &module, &info, &position, "an operand is no number")?;
/// // function 0 "double"("x": i32) -> i32
/// //   expressions
/// //      0  FunctionArgument 0 "x"                                      i32
/// //      1  Binary Add left: [0], right: [0]                            i32
/// //         ^ an operand is no number
/// //   statements
/// //      0  Emit 1..2
/// //      1  Return value: [1]
/// ```
///
/// The only error is want of memory. Neither the module nor what is known of it need be accepted.
pub fn explain(
    alloc: Global,
    module: &Module,
    info: &ModuleInfo,
    position: &ListingPosition,
    message: &str,
) -> Result<String, AllocError> {
    explain_with(alloc, module, info, position, &[], message)
}

/// The text that [`explain`] gives, with the lines of the items `more` beside them: of what led to the
/// position. The only error is want of memory.
pub fn explain_with(
    alloc: Global,
    module: &Module,
    info: &ModuleInfo,
    position: &ListingPosition,
    more: &[Spot],
    message: &str,
) -> Result<String, AllocError> {
    let lines = listing_with(alloc, module, position, more)?;
    let lister = Lister::new(alloc, module, info, &position.listed);
    let mut text = String::new(alloc);
    for line in &lines {
        push_line(&lister, line, message, &mut text)?;
        text.push_str("\n")?;
    }
    Ok(text)
}

fn push_line(
    lister: &Lister<'_, '_, '_>,
    line: &Line,
    message: &str,
    out: &mut String,
) -> Result<(), AllocError> {
    let level = line.level;
    match &line.kind {
        LineKind::Gap => out.push_str("    .."),
        LineKind::Title(title) => out.push_str(title_words(*title)),
        LineKind::Item(spot) => push_item(lister, level, spot, out),
        kind => {
            push_margin(level, out)?;
            push_bars(level, out)?;
            push_words(kind, message, out)
        }
    }
}

/// Appends what a line is about after its number and a bar for each block around it.
fn push_item(
    lister: &Lister<'_, '_, '_>,
    level: usize,
    spot: &Spot,
    out: &mut String,
) -> Result<(), AllocError> {
    push_number(spot, out)?;
    push_bars(level, out)?;
    lister.push_item(spot, out)
}

/// Appends what a line says that has no number.
fn push_words(kind: &LineKind, message: &str, out: &mut String) -> Result<(), AllocError> {
    match kind {
        LineKind::Mark => {
            out.push_str("^ ")?;
            out.push_str(message)
        }
        LineKind::Else => out.push_str("else"),
        LineKind::Case(value, fall_through) => push_case(*value, *fall_through, out),
        LineKind::Continuing => out.push_str("continuing"),
        _ => Ok(()),
    }
}

fn title_words(title: Title) -> &'static str {
    match title {
        Title::Types => "  types",
        Title::Constants => "  constants",
        Title::Overrides => "  overrides",
        Title::GlobalVariables => "  global variables",
        Title::GlobalExpressions => "  global expressions",
        Title::Locals => "  locals",
        Title::Expressions => "  expressions",
        Title::Statements => "  statements",
    }
}

/// Appends the number of an item, if it has one, in a column.
fn push_number(spot: &Spot, out: &mut String) -> Result<(), AllocError> {
    match number_of(spot) {
        Some(number) => write!(out, "{number:>6}  "),
        None => Ok(()),
    }
}

fn number_of(spot: &Spot) -> Option<usize> {
    match spot {
        Spot::Whole => None,
        Spot::Type_(handle) => Some(handle.index()),
        Spot::Constant(handle) => Some(handle.index()),
        Spot::Override(handle) => Some(handle.index()),
        Spot::GlobalVariable(handle) => Some(handle.index()),
        Spot::GlobalExpression(handle) => Some(handle.index()),
        Spot::Local(handle) => Some(handle.index()),
        Spot::Expression(handle) => Some(handle.index()),
        Spot::Statement(number) => Some(*number),
    }
}

/// Appends blanks as wide as a number, for a line that stands deeper than titles.
fn push_margin(level: usize, out: &mut String) -> Result<(), AllocError> {
    if level >= 2 {
        out.push_str("        ")?;
    }
    Ok(())
}

/// Appends a bar for each block around a statement.
fn push_bars(level: usize, out: &mut String) -> Result<(), AllocError> {
    for _ in 0..level.saturating_sub(2) / 2 {
        out.push_str("| ")?;
    }
    Ok(())
}
