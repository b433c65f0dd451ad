//! What stands in front of a module's text: the directives of its filters of diagnostics.

ghost use Rattle.std.specs.Prelude.{◌≡◌, IfErr, IfOk, OnOk, string_bytes};
ghost use Rattle.module_answers.specs.Opening.{HasNoOpening, IsFaultOrRule, IsNotBegun};
ghost use Rattle.module_answers.specs.Opening.{OpensWithNames, TellsRuleAt, filter_position};
ghost use Rattle.module_answers.specs.Opening.{opening};

use crate::within::NoOutcome;
use diagnostic_directives::{DirectiveError, module_directives};
use module_limits::BoundedText;
use module_positions::JsonHolder;
use naga_acceptance::unaccepted;
use naga_back::{WriterFlags, is_portable};
use naga_info::ModuleInfo;
use naga_ir::{DiagnosticFilterNode, Handle, Module};
use naga_words::TextSink;
use std::alloc::{AllocError, Global};

/// A text of so many bytes that begins with the directives of the module, where the text is to have
/// what standard compilers ask for. Where the module gets none for a rule's name, it is asked whether it
/// is accepted, so that this is told first.
pub(crate) fn begun(
    alloc: Global,
    module: &Module,
    info: &ModuleInfo,
    flags: WriterFlags,
    bound: usize,
) -> Result<BoundedText, NoOutcome>
    ensures text { IfOk result (λ text. text ≡ record {
      text = opening flags «module».now;
      size_limit = bound;
      failures = 0;
    }) }
    ensures named { OnOk result (OpensWithNames flags «module».now) }
    ensures none { IfErr result (IsNotBegun flags «module».now info.now) }
{
    match opened(alloc, module, flags, bound) {
        Ok(text) => Ok(text),
        Err(error) => Err(not_begun(module, info, &error)),
    }
}

/// What becomes of a module for which no text was opened. A text that is empty refuses no chunk but for
/// want of memory.
#[tactic(auto, using(crate::proofs::Openings::fault_or_rule))]
fn not_begun(module: &Module, info: &ModuleInfo, error: &DirectiveError) -> NoOutcome
    ensures { (flags : WriterFlags) → HasNoOpening flags «module».now error.now →
        IsNotBegun flags «module».now info.now result }
{
    match error {
        DirectiveError::RuleName(filter) => fault_or_rule(module, info, *filter),
        DirectiveError::Sink(_) => NoOutcome::Memory(AllocError),
    }
}

/// What is told of a module of which the rule of this filter has no name: that, if it is accepted, and
/// else for what it is not.
fn fault_or_rule(
    module: &Module,
    info: &ModuleInfo,
    filter: Handle<DiagnosticFilterNode>,
) -> NoOutcome
    ensures { IsFaultOrRule «module».now info.now filter result }
{
    match unaccepted(module, info) {
        Some(fault) => NoOutcome::NotAccepted(fault),
        None => NoOutcome::RuleName(filter),
    }
}

/// The text, before it is asked whether the module is accepted.
#[tactic(auto, unfolding(crate::specs::Opening::opening, crate::specs::Opening::OpensWithNames))]
fn opened(
    alloc: Global,
    module: &Module,
    flags: WriterFlags,
    bound: usize,
) -> Result<BoundedText, DirectiveError>
    ensures text { IfOk result (λ text. text ≡ record {
      text = opening flags «module».now;
      size_limit = bound;
      failures = 0;
    }) }
    ensures named { OnOk result (OpensWithNames flags «module».now) }
    ensures none { IfErr result (HasNoOpening flags «module».now) }
{
    let mut text = BoundedText::new(alloc, bound);
    if !is_portable(flags) {
        return Ok(text);
    }
    let opening = module_directives(alloc, module)?;
    match text.write_str(opening.as_str()) {
        Ok(()) => Ok(text),
        Err(error) => Err(DirectiveError::Sink(error)),
    }
}

/// A filter of diagnostics whose rule has no name as one line, with its position in the JSON.
///
/// `diagnostic rule without a WGSL name: module.diagnostic_filters[2]`
pub fn rule_name_line(
    alloc: Global,
    filter: Handle<DiagnosticFilterNode>,
    holder: JsonHolder,
) -> Result<String, AllocError>
    ensures { IfOk result (λ line. TellsRuleAt holder filter (string_bytes line)) }
{
    let position = filter_position(alloc, filter, holder)?;
    format!(in alloc; "{UNNAMED_RULE}: {position}")
}

/// What is told of a filter of diagnostics whose rule has no name.
pub const UNNAMED_RULE: &str = "diagnostic rule without a WGSL name";

/// The position of a filter of diagnostics in the JSON.
///
/// `module.diagnostic_filters[2]`
pub fn filter_position(
    alloc: Global,
    filter: Handle<DiagnosticFilterNode>,
    holder: JsonHolder,
) -> Result<String, AllocError>
    ensures { IfOk result (λ text. string_bytes text ≡ filter_position holder filter) }
{
    format!(in alloc; "{holder}diagnostic_filters[{}]", filter.index())
}
