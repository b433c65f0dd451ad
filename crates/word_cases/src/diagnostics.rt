//! Words of diagnostics.

use crate::answers::{push_line, text_in};
use json::Value;
use naga_ir::{FilterableTriggeringRule, Severity, StandardFilterableTriggeringRule};
use naga_words::diagnostics::{DisplayWgslIdent, FromWgslIdent, ToWgslIdent};
use std::alloc::{AllocError, Global};

/// Adds which severity the word of the case is.
pub fn push_severity(
    alloc: Global,
    case: &Value<'_>,
    answer: &mut String,
) -> Result<(), AllocError> {
    let word = text_in(case, "severity").unwrap_or("");
    let line = match Severity::from_wgsl_ident(word) {
        Some(severity) => format!(in alloc; "{severity:?}")?,
        None => String::from_str(alloc, "none")?,
    };
    push_line(line.as_str(), answer)
}

/// Adds which rule the word of the case is, and how the rule is shown.
pub fn push_rule(alloc: Global, case: &Value<'_>, answer: &mut String) -> Result<(), AllocError> {
    let word = text_in(case, "rule").unwrap_or("");
    let read = match StandardFilterableTriggeringRule::from_wgsl_ident(word) {
        Some(rule) => rule.to_wgsl_ident(),
        None => "none",
    };
    let rule = rule_of(alloc, text_in(case, "tool"), word)?;
    let shown = rule.display_wgsl_ident().to_string(alloc)?;
    let line = format!(in alloc; "{read}, shown {shown:?}")?;
    push_line(line.as_str(), answer)
}

/// The rule of this word, or of a tool.
fn rule_of(
    alloc: Global,
    tool: Option<&str>,
    word: &str,
) -> Result<FilterableTriggeringRule, AllocError> {
    if let Some(tool) = tool {
        let tool = String::from_str(alloc, tool)?;
        let rule = String::from_str(alloc, word)?;
        return Ok(FilterableTriggeringRule::User([tool, rule]));
    }
    match StandardFilterableTriggeringRule::from_wgsl_ident(word) {
        Some(rule) => Ok(FilterableTriggeringRule::Standard(rule)),
        None => Ok(FilterableTriggeringRule::Unknown(String::from_str(alloc, word)?)),
    }
}
