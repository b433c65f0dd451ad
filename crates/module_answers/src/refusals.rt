//! What a module is refused for, and where.

ghost use Rattle.std.specs.Prelude.{IfOk, string_bytes};
ghost use Rattle.module_positions.specs.Positions.{IsKnownText};
ghost use Rattle.module_answers.specs.Refusals.{TellsConstructAt, TellsRefusalAt};
ghost use Rattle.naga_refusals.specs.Constructs.{construct_text};

use module_positions::{
    JsonHolder, JsonRefusalPosition, label_at, label_text, root_after, root_at,
};
use naga_ir::Module;
use naga_wgsl_out::wgsl::Refusal;
use naga_wgsl_shared::Construct;
use std::alloc::{AllocError, Global};

/// A refusal of the module as one line: its construct, its position in the JSON with the label of the
/// function or the entry point there, and of an operand that is out of scope why it has no value.
///
/// `operand out of scope: module.functions[0].expressions[24], operand value of statement 11, in
/// "half": expressions[12] has no value at statement 8; statement 4 gives it, in a block that has ended`
pub fn refusal_line(
    alloc: Global,
    module: &Module,
    refusal: Refusal,
    holder: JsonHolder,
) -> Result<String, AllocError>
    ensures { IfOk result (λ line. TellsRefusalAt holder «module».now refusal
        (string_bytes line)) }
{
    let mut line = positioned_construct(alloc, module, refusal, holder)?;
    let more = root_after(alloc, root_at(alloc, module, &refusal.position)?)?;
    line.push_str(more.as_str())?;
    Ok(line)
}

/// The construct and its position.
///
/// `float literal: module.functions[0].expressions[3], in statement 1, in "half"`
fn positioned_construct(
    alloc: Global,
    module: &Module,
    refusal: Refusal,
    holder: JsonHolder,
) -> Result<String, AllocError>
    ensures { IfOk result (λ text. TellsConstructAt holder «module».now refusal
        (string_bytes text)) }
{
    let construct = construct_text(alloc, refusal.construct)?;
    let position = JsonRefusalPosition::of(holder, module, refusal.position);
    let label = label_text(alloc, label_at(module, refusal.position))?;
    format!(in alloc; "{construct}: {position}{label}")
}

/// A construct by its words.
fn construct_text(alloc: Global, construct: Construct) -> Result<String, AllocError>
    ensures { IfOk result (λ text. IsKnownText (construct_text construct) (string_bytes text)) }
{
    format!(in alloc; "{construct}")
}
