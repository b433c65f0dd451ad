//! A module with what is known of it, which may come without an info.

ghost use Rattle.std.specs.Prelude.{◌≡◌, IfErr, IfOk, None, OnOk, string_bytes};
ghost use Rattle.module_limits.specs.Nesting.{nested_past};
ghost use Rattle.module_answers.specs.Shaders.{IsInfoOf, TellsUnasked, TellsUntypedAt, holder_of};

use module_limits::{Nested, nested_past};
use module_positions::{JsonHolder, labelled_position};
use naga_inference::{Untyped, inferred_types};
use naga_info::ModuleInfo;
use naga_ir::Module;
use std::alloc::{AllocError, Global};
use thiserror::Error as DisplayedError;

/// A module with what is known of it.
#[derive(Debug, Drop)]
pub struct Shader {
    /// The module.
    pub module: Module,
    /// What is known of it.
    pub info: ModuleInfo,
    /// What the JSON holds from which it was read, by which positions are told.
    pub holder: JsonHolder,
}

/// Why nothing more is asked of a module.
#[derive(Debug, Drop, DisplayedError)]
pub enum Unasked {
    /// This of the module is nested deeper than the limit.
    #[error("{0}")]
    TooDeep(Nested),
    /// It came without an info, and the rules of types give an expression no type.
    #[error("not accepted: {0}")]
    Untyped(Untyped),
    /// Memory was wanting for how deep it is nested, or for its types.
    #[error("out of memory")]
    Memory(AllocError),
}

/// What is known of a module that is nested no deeper than so many levels: the info that came with
/// it, or if none did, the types by the rules, of which no use is counted.
///
/// Whether the module is accepted is not asked. One that came without an info is accepted with one
/// that follows the rules only if it is with this.
pub fn info_within(
    alloc: Global,
    module: &Module,
    came: Option<ModuleInfo>,
    levels: usize,
) -> Result<ModuleInfo, Unasked>
    ensures nested { OnOk result (nested_past levels «module».now ≡ None) }
    ensures info { IfOk result (IsInfoOf «module».now came) }
    ensures unasked { IfErr result (TellsUnasked levels «module».now came) }
{
    match nested_past(alloc, module, levels) {
        Ok(None) => {}
        Ok(Some(nested)) => return Err(Unasked::TooDeep(nested)),
        Err(error) => return Err(Unasked::Memory(error)),
    }
    match came {
        Some(info) => Ok(info),
        None => types_of(alloc, module, levels),
    }
}

/// The types of a module that came without an info.
#[tactic(auto, using(crate::proofs::Alone::untyped_unasked))]
fn types_of(alloc: Global, module: &Module, levels: usize) -> Result<ModuleInfo, Unasked>
    requires nested { nested_past levels «module».now ≡ None }
    ensures info { IfOk result (IsInfoOf «module».now None) }
    ensures unasked { IfErr result (TellsUnasked levels «module».now None) }
{
    match inferred_types(alloc, module) {
        Ok(Ok(info)) => Ok(info),
        Ok(Err(untyped)) => Err(Unasked::Untyped(untyped)),
        Err(error) => Err(Unasked::Memory(error)),
    }
}

/// What the JSON holds: the module itself, if it is bare.
pub fn holder_of(is_bare: bool) -> JsonHolder
    ensures { result ≡ holder_of is_bare }
{
    if is_bare {
        JsonHolder::Module
    } else {
        JsonHolder::Member
    }
}

/// An expression without a type as one line: its position in the JSON, with the label of the
/// function or the entry point there, and what it lacks.
///
/// `module.functions[0].expressions[3], in "half": it has no type`
pub fn untyped_line(
    alloc: Global,
    module: &Module,
    untyped: Untyped,
    holder: JsonHolder,
) -> Result<String, AllocError>
    ensures { IfOk result (λ line. TellsUntypedAt holder «module».now untyped
        (string_bytes line)) }
{
    let position = labelled_position(alloc, module, untyped.position, holder)?;
    format!(in alloc; "{position}: {}", untyped.missing)
}
