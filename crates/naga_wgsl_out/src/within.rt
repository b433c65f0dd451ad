//! The writer, for modules that others made: within limits that the caller sets.

ghost use Rattle.std.specs.Prelude.{◌≡◌, IsTrue, None};
ghost use Rattle.module_limits.specs.Nesting.{nested_past};
ghost use Rattle.module_semantics.specs.acceptance.Accepted.{is_accepted};
ghost use Rattle.naga_wgsl_out.specs.Within.{AnswersBounded, AnswersWithin, TellsBounded, unfailed};
ghost use Rattle.naga_wgsl_out.specs.Within.{unfailed_error};

use crate::writer::Writer;
use module_limits::{BoundedText, Limits, Nested, nested_past};
use naga_acceptance::{Unaccepted, count, unaccepted};
use naga_back::WriterFlags;
use naga_info::ModuleInfo;
use naga_ir::Module;
use naga_wgsl_shared::Error;
use std::alloc::{AllocError, Global};
use std::fmt::Display;
use thiserror::Error as DisplayedError;

/// Why [`write_checked_within`] gives no text;
/// [`write_inferred_within`](crate::wgsl::write_inferred_within) has another `Fault`.
#[derive(Debug, Drop, DisplayedError)]
#[error_bound(Fault: Display)]
pub enum LimitedError<Fault = Unaccepted> {
    /// This of the module is nested deeper than the limit.
    #[error("{0}")]
    TooDeep(Nested),
    /// The module is not accepted: at this position, for a fault of this kind.
    #[error("not accepted: {0}")]
    NotAccepted(Fault),
    /// What was written of the module has more bytes than the limit.
    #[error("text too long")]
    TooLong,
    /// The module is accepted, and the writer refuses it; or memory was wanting.
    #[error("{0}")]
    Refused(Error),
}

/// Does with a module what [`write_checked`](crate::wgsl::write_checked) does, within limits: for a
/// module that others made, of which nothing is known.
///
/// [`LimitedError::TooDeep`] comes where something of the module is nested deeper than
/// `limits.nesting`, by [`nested_past`], if there is memory to find out; before anything else is
/// asked of it, and before the stack is taken. [`LimitedError::TooLong`] comes only where the
/// module's text has more than `limits.text` bytes, or of a module that is refused, what stands in
/// front of the function that it is refused for. A text that has more never comes: it is cut as soon
/// as it is longer than the limit, so that it takes no more bytes than that and a chunk more, and no
/// more time.
/// What is known of the module is as it was where it is nested too deep or not accepted; else its
/// uses are counted, but where memory was wanting before.
///
/// ```text
/// let limits = Limits { nesting: 4_000, text: 16_777_216 };
/// match write_checked_within(alloc, &shader.module, &mut shader.info, no_flags(), limits) {
///     Ok(text) => println!(rt; "{text}")?,
///     Err(error) => println!(rt; "no text: {error}")?, // as `nested too deep: operands`
/// }
/// ```
pub fn write_checked_within(
    alloc: Global,
    module: &Module,
    info: &mut ModuleInfo,
    flags: WriterFlags,
    limits: Limits,
) -> Result<String, LimitedError>
    ensures { AnswersWithin flags limits «module».now info.old info.new result }
{
    match nested_past(alloc, module, limits.nesting) {
        Ok(None) => write_flat(alloc, module, info, flags, limits),
        Ok(Some(nested)) => Err(LimitedError::TooDeep(nested)),
        Err(error) => Err(LimitedError::Refused(Error::Memory(error))),
    }
}

/// The answer of [`write_checked_within`] for a module that is nested no deeper than it may be.
#[tactic(auto, using(crate::proofs::Bounded::answers_within))]
fn write_flat(
    alloc: Global,
    module: &Module,
    info: &mut ModuleInfo,
    flags: WriterFlags,
    limits: Limits,
) -> Result<String, LimitedError>
    requires flat { nested_past limits.nesting «module».now ≡ None }
    ensures { AnswersWithin flags limits «module».now info.old info.new result }
{
    if let Some(fault) = unaccepted(module, info) {
        return Err(LimitedError::NotAccepted(fault));
    }
    count(info, module);
    write_bounded(alloc, module, info, flags, limits.text)
}

/// Writes an accepted module, up to so many bytes and a chunk more.
pub(crate) fn write_bounded<Fault: Drop>(
    alloc: Global,
    module: &Module,
    info: &ModuleInfo,
    flags: WriterFlags,
    bound: usize,
) -> Result<String, LimitedError<Fault>>
    requires accepted { IsTrue (is_accepted «module».now info.now) }
    ensures { AnswersBounded flags bound «module».now info.now result }
{
    let empty = BoundedText::new(alloc, bound);
    let mut writer = Writer::new(alloc, empty, flags);
    let answer = writer.write(module, info);
    let sink = writer.finish();
    within_limit(answer, sink, bound)
}

/// The answer of the writer, or that the text is too long, by the length of what its sink took.
fn within_limit<Fault: Drop>(
    answer: Result<(), Error>,
    sink: BoundedText,
    bound: usize,
) -> Result<String, LimitedError<Fault>>
    ensures { TellsBounded bound (unfailed answer) sink.text result }
{
    if sink.text().len() > bound {
        return Err(LimitedError::TooLong);
    }
    match unfailed(answer) {
        Ok(()) => Ok(sink.finish()),
        Err(error) => Err(LimitedError::Refused(error)),
    }
}

/// What a writer to a [`BoundedText`] answers that is not past its bound.
///
/// Such a sink has not failed. No contract of a sink says so: a failure that were told all the same
/// is told as want of memory.
pub fn unfailed(answer: Result<(), Error>) -> Result<(), Error>
    ensures { result ≡ unfailed answer }
{
    match answer {
        Ok(()) => Ok(()),
        Err(error) => Err(unfailed_error(error)),
    }
}

/// The error, but want of memory for a failure of the sink.
fn unfailed_error(error: Error) -> Error
    ensures { result ≡ unfailed_error error }
{
    match error {
        Error::FmtError(_) => Error::Memory(AllocError),
        error => error,
    }
}
