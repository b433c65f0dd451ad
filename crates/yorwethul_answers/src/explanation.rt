//! Why a module has no text, with the lines around its position.

use crate::answer::Answer;
use crate::texts::write_in;
use crate::untyped::types_before;
use module_answers::{
    NoOutcome, Shader, Unasked, WriteOutcome, refusal_line, rule_name_line, untyped_line,
};
use module_positions::{
    JsonHolder, MarkedRoot, fault_text, labelled_position, listed_position, refused_position,
    root_at, root_spots,
};
use naga_acceptance::Unaccepted;
use naga_inference::Untyped;
use naga_ir::Module;
use naga_listing::{ListingPosition, Spot, explain, explain_with};
use naga_wgsl_out::wgsl::Refusal;
use naga_wgsl_shared::Error;
use std::alloc::{AllocError, Global};
use yorwethul_input::Style;
use yorwethul_progress::Outcome;

/// Tells why a module has no text in this style, if it has none.
pub fn explained(alloc: Global, style: Style, shader: &mut Shader) -> Result<Answer, AllocError> {
    match write_in(alloc, style, shader) {
        Ok(written) => of_written(alloc, shader, written),
        Err(reason) => of_unwritten(alloc, shader, &reason),
    }
}

/// Tells why the writer was not asked for a module, or was stopped at it.
fn of_unwritten(alloc: Global, shader: &Shader, reason: &NoOutcome) -> Result<Answer, AllocError> {
    match reason {
        NoOutcome::NotAccepted(fault) => of_unaccepted(alloc, shader, *fault),
        NoOutcome::TooLong => { refused(format!(in alloc; "refused: {}\n", NoOutcome::TooLong)) }
        NoOutcome::RuleName(filter) => {
            let line = rule_name_line(alloc, *filter, shader.holder)?;
            refused(format!(in alloc; "refused: {line}\n"))
        }
        NoOutcome::Memory(_) => Err(AllocError),
    }
}

/// Tells why nothing more is asked of a module.
pub fn unasked_explained(
    alloc: Global,
    module: &Module,
    unasked: Unasked,
    holder: JsonHolder,
) -> Result<Answer, AllocError> {
    match unasked {
        Unasked::TooDeep(nested) => refused(format!(in alloc; "refused: {nested}\n")),
        Unasked::Untyped(untyped) => of_untyped(alloc, module, untyped, holder),
        Unasked::Memory(error) => Err(error),
    }
}

/// Tells which expression has no type, and shows the lines around, with the types of those before it.
fn of_untyped(
    alloc: Global,
    module: &Module,
    untyped: Untyped,
    holder: JsonHolder,
) -> Result<Answer, AllocError> {
    let line = untyped_line(alloc, module, untyped, holder)?;
    let item = listed_position(untyped.position);
    let info = types_before(alloc, module, untyped.position)?;
    let message = format!(in alloc; "{}", untyped.missing)?;
    let listing = explain(alloc, module, &info, &item, message.as_str())?;
    not_accepted(format!(in alloc; "not accepted: {line}\n\n{listing}"))
}

fn of_written(
    alloc: Global,
    shader: &Shader,
    written: WriteOutcome<String>,
) -> Result<Answer, AllocError> {
    let WriteOutcome {
        answer,
        refusal,
        sink: _,
    } = written;
    match (answer, refusal) {
        (Ok(()), _) => {
            let text = String::from_str(alloc, "written\n")?;
            Ok(Answer::Printed(text, Outcome::Written))
        }
        (Err(Error::Memory(error)), _) => Err(error),
        (Err(_), Some(refusal)) => of_refusal(alloc, shader, refusal),
        (Err(reason), None) => refused(format!(in alloc; "refused: {reason}\n")),
    }
}

/// Tells what a module is refused for and where, and shows the lines around: of an operand that is
/// out of scope those around the expression that it has no value for.
fn of_refusal(alloc: Global, shader: &Shader, refusal: Refusal) -> Result<Answer, AllocError> {
    let position = refused_position(refusal.position);
    let (spot, message) = match root_at(alloc, &shader.module, &refusal.position)? {
        Some(root) => (
            Spot::Expression(root.expression),
            format!(in alloc; "{}", MarkedRoot(root))?,
        ),
        None => (position.spot, format!(in alloc; "{}", refusal.construct)?),
    };
    let more = root_spots(alloc, &shader.module, &refusal.position)?;
    let listing = explain_with(
        alloc,
        &shader.module,
        &shader.info,
        &ListingPosition { spot, ..position },
        &more,
        message.as_str(),
    )?;
    let line = refusal_line(alloc, &shader.module, refusal, shader.holder)?;
    refused(format!(in alloc; "refused: {line}\n\n{listing}"))
}

/// Tells where a module is not accepted and why, and shows the lines around.
fn of_unaccepted(
    alloc: Global,
    shader: &Shader,
    unaccepted: Unaccepted,
) -> Result<Answer, AllocError> {
    let Shader {
        module,
        info,
        holder,
    } = shader;
    let position = labelled_position(alloc, module, unaccepted.item, *holder)?;
    let item = listed_position(unaccepted.item);
    let fault = fault_text(alloc, module, info, unaccepted, *holder)?;
    let listing = explain(alloc, module, info, &item, fault.as_str())?;
    not_accepted(format!(in alloc; "not accepted: {position}: {fault}\n\n{listing}"))
}

fn refused(text: Result<String, AllocError>) -> Result<Answer, AllocError> {
    Ok(Answer::Printed(text?, Outcome::Refused))
}

fn not_accepted(text: Result<String, AllocError>) -> Result<Answer, AllocError> {
    Ok(Answer::Printed(text?, Outcome::NotAccepted))
}
