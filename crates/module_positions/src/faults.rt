//! Where a module is not accepted, why, and what was expected there.

ghost use Rattle.std.specs.Prelude.{IfOk, string_bytes};
ghost use Rattle.std.specs.Option.{option_map};
ghost use Rattle.module_positions.specs.Faults.{TellsFault, TellsFaultAt, TellsKind, TellsMismatch};
ghost use Rattle.module_positions.specs.Faults.{TellsPosition};
ghost use Rattle.module_positions.specs.Positions.{IsKnownText, in_function};

use crate::positions::{InFunction, JsonHolder, JsonPosition, label_of};
use fault_details::{Mismatch, explain};
use naga_acceptance::{Fault, FaultPosition, Unaccepted};
use naga_info::ModuleInfo;
use naga_ir::Module;
use std::alloc::{AllocError, Global};

/// A fault of the module as one line: its position in the JSON, with the label of the function or
/// the entry point there, its kind, and what was expected, if more can be told than the kind.
///
/// `module.functions[0].expressions[3], in "half": the known type is another: the expression gives
/// i32, the info has f32`
pub fn fault_line(
    alloc: Global,
    module: &Module,
    info: &ModuleInfo,
    unaccepted: Unaccepted,
    holder: JsonHolder,
) -> Result<String, AllocError>
    ensures { IfOk result (λ line. TellsFaultAt holder «module».now info.now unaccepted
        (string_bytes line)) }
{
    let position = labelled_position(alloc, module, unaccepted.item, holder)?;
    let fault = fault_text(alloc, module, info, unaccepted, holder)?;
    format!(in alloc; "{position}: {fault}")
}

/// An item of a module, told as its position in the JSON, with the label of the function or the entry
/// point that it is in: `module.functions[0].expressions[3], in "half"`.
pub fn labelled_position(
    alloc: Global,
    module: &Module,
    item: FaultPosition,
    holder: JsonHolder,
) -> Result<String, AllocError>
    ensures { IfOk result (λ text. TellsPosition holder «module».now item (string_bytes text)) }
{
    let label = label_text(alloc, label_of(module, &item))?;
    format!(in alloc; "{}{label}", JsonPosition(holder, item))
}

/// A label, told after a position; nothing where there is none.
pub fn label_text(alloc: Global, label: Option<&str>) -> Result<String, AllocError>
    ensures { IfOk result (λ text. IsKnownText
        (in_function (option_map (λ label. label.now) label.entry)) (string_bytes text)) }
{
    let label = InFunction(label);
    format!(in alloc; "{label}")
}

/// A fault of the module without its position: its kind, and what was expected where more can be
/// told than the kind.
pub fn fault_text(
    alloc: Global,
    module: &Module,
    info: &ModuleInfo,
    unaccepted: Unaccepted,
    holder: JsonHolder,
) -> Result<String, AllocError>
    ensures { IfOk result (λ text. TellsFault holder «module».now info.now unaccepted
        (string_bytes text)) }
{
    let fault = unaccepted.fault;
    let expected = explain(alloc, module, info, unaccepted)?;
    kind_text(alloc, module, fault, expected, holder)
}

/// A kind of fault with what was expected.
fn kind_text(
    alloc: Global,
    module: &Module,
    fault: Fault,
    expected: Option<Mismatch>,
    holder: JsonHolder,
) -> Result<String, AllocError>
    ensures { IfOk result (λ text. TellsKind holder «module».now fault expected
        (string_bytes text)) }
{
    match expected {
        Some(expected) => {
            let reason = mismatch_text(alloc, module, expected, holder)?;
            format!(in alloc; "{fault}: {reason}")
        }
        None => format!(in alloc; "{fault}"),
    }
}

/// What was expected, and what stands there, with the position of another use of an operator as in
/// the JSON: `expected i32 as at module.functions[0].expressions[1], in "half", got f32`.
pub fn mismatch_text(
    alloc: Global,
    module: &Module,
    mismatch: Mismatch,
    holder: JsonHolder,
) -> Result<String, AllocError>
    ensures { IfOk result (λ text. TellsMismatch holder «module».now mismatch
        (string_bytes text)) }
{
    match mismatch {
        Mismatch::Use {
            item,
            expected,
            got,
        } => {
            let position = labelled_position(alloc, module, item, holder)?;
            format!(in alloc; "expected {expected} as at {position}, got {got}")
        }
        other => format!(in alloc; "{other}"),
    }
}
