//! Writes a module that comes without an info.

ghost use Rattle.std.specs.Prelude.{◌≡◌, IsTrue, None};
ghost use Rattle.module_limits.specs.Nesting.{nested_past};
ghost use Rattle.module_semantics.specs.acceptance.Accepted.{is_accepted};
ghost use Rattle.naga_inference.specs.Inferred.{IsTyped};
ghost use Rattle.naga_wgsl_out.specs.Inferring.{AnswersInferred, AnswersInferredWithin};
ghost use Rattle.naga_wgsl_out.specs.Inferring.{IsInferred, IsWritten};

use crate::checked::CheckedError;
use crate::within::{LimitedError, write_bounded};
use crate::writer::write_string;
use module_limits::{Limits, nested_past};
use naga_acceptance::count;
use naga_back::WriterFlags;
use naga_inference::{InferenceError, infer};
use naga_info::ModuleInfo;
use naga_ir::Module;
use naga_wgsl_shared::Error;
use std::alloc::Global;

/// Finds the types of the module's expressions, counts how often each is used, and gives the
/// module's WGSL text.
///
/// [`CheckedError::NotAccepted`] comes only where no info that follows the rules of types is
/// accepted; it tells where and why, as [`infer`] does. Otherwise the text and the refusals are
/// those of [`write_string`] with the info that [`infer`] gives; and
/// [`CheckedError::Refused`] of [`Error::Memory`] may say that memory was refused before. The
/// module stays as it is.
///
/// ```text
/// match write_inferred(alloc, &module, no_flags()) {
///     Ok(text) => println!(rt; "{text}")?,
///     Err(error) => println!(rt; "no text: {error}")?,
/// }
/// ```
#[tactic(auto, using(crate::proofs::Inferring::refused))]
pub fn write_inferred(
    alloc: Global,
    module: &Module,
    flags: WriterFlags,
) -> Result<String, CheckedError<InferenceError>>
    ensures { AnswersInferred flags «module».now result }
{
    match infer(alloc, module) {
        Ok(Ok(info)) => match write_typed(alloc, module, info, flags) {
            Ok(text) => Ok(text),
            Err(error) => Err(CheckedError::Refused(error)),
        },
        Ok(Err(error)) => Err(CheckedError::NotAccepted(error)),
        Err(error) => Err(CheckedError::Refused(Error::Memory(error))),
    }
}

/// Counts the uses, and writes a module with the info that was inferred.
fn write_typed(
    alloc: Global,
    module: &Module,
    info: ModuleInfo,
    flags: WriterFlags,
) -> Result<String, Error>
    requires typed { IsTyped «module».now info }
    requires accepted { IsTrue (is_accepted «module».now info) }
    ensures { IsWritten flags «module».now result }
{
    let info = counted(module, info);
    write_string(alloc, module, &info, flags)
}

/// The info that was inferred, with the uses counted.
fn counted(module: &Module, info: ModuleInfo) -> ModuleInfo
    requires typed { IsTyped «module».now info }
    requires accepted { IsTrue (is_accepted «module».now info) }
    ensures inferred { IsInferred «module».now result }
    ensures accepted { IsTrue (is_accepted «module».now result) }
{
    let mut info = info;
    count(&mut info, module);
    info
}

/// Does with a module what [`write_inferred`] does, within limits, as
/// [`write_checked_within`](crate::wgsl::write_checked_within) does what
/// [`write_checked`](crate::wgsl::write_checked) does: how deep it is nested is asked before its types
/// are.
///
/// ```text
/// let limits = Limits { nesting: 4_000, text: 16_777_216 };
/// match write_inferred_within(alloc, &module, no_flags(), limits) {
///     Ok(text) => println!(rt; "{text}")?,
///     Err(error) => println!(rt; "no text: {error}")?,
/// }
/// ```
pub fn write_inferred_within(
    alloc: Global,
    module: &Module,
    flags: WriterFlags,
    limits: Limits,
) -> Result<String, LimitedError<InferenceError>>
    ensures { AnswersInferredWithin flags limits «module».now result }
{
    match nested_past(alloc, module, limits.nesting) {
        Ok(None) => write_flat(alloc, module, flags, limits),
        Ok(Some(nested)) => Err(LimitedError::TooDeep(nested)),
        Err(error) => Err(LimitedError::Refused(Error::Memory(error))),
    }
}

/// The answer of [`write_inferred_within`] for a module that is nested no deeper than it may be.
fn write_flat(
    alloc: Global,
    module: &Module,
    flags: WriterFlags,
    limits: Limits,
) -> Result<String, LimitedError<InferenceError>>
    requires flat { nested_past limits.nesting «module».now ≡ None }
    ensures { AnswersInferredWithin flags limits «module».now result }
{
    match infer(alloc, module) {
        Ok(Ok(info)) => write_typed_within(alloc, module, info, flags, limits),
        Ok(Err(error)) => Err(LimitedError::NotAccepted(error)),
        Err(error) => Err(LimitedError::Refused(Error::Memory(error))),
    }
}

/// Counts the uses, and writes a module with the info that was inferred, within the limits.
fn write_typed_within(
    alloc: Global,
    module: &Module,
    info: ModuleInfo,
    flags: WriterFlags,
    limits: Limits,
) -> Result<String, LimitedError<InferenceError>>
    requires flat { nested_past limits.nesting «module».now ≡ None }
    requires typed { IsTyped «module».now info }
    requires accepted { IsTrue (is_accepted «module».now info) }
    ensures { AnswersInferredWithin flags limits «module».now result }
{
    let info = counted(module, info);
    write_bounded(alloc, module, &info, flags, limits.text)
}
