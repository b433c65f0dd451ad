//! The filters that hold in a module, from its leaf to the outermost.

ghost use Rattle.std.specs.Prelude.{◌≡◌, ◌<◌, ◌++◌, ◌∷◌, [], IfErr, IfOk, List, OnOk, codes};
ghost use Rattle.std.specs.Prelude.{cond, length, string_bytes, true, ℕ};
ghost use Rattle.std.specs.BTreeSet.{contains_text};
ghost use Rattle.std.specs.Str.{bytes_eq};
ghost use Rattle.naga_ir.specs.declared.diagnostics.DiagnosticFilter as ir;
ghost use Rattle.naga_words.specs.Diagnostics.{rule_name, severity_word};
ghost use Rattle.diagnostic_directives.specs.Directives.{HasNoDirectives, with_empty_line};
ghost use Rattle.diagnostic_directives.specs.Filters.{ends_at, module_chain};
ghost use Rattle.diagnostic_directives.specs.Found.{IsWant, NoStep, NotAdded, Steps, Tells};
ghost use Rattle.diagnostic_directives.specs.Found.{joined_backwards};

use crate::error::DirectiveError;
use crate::names::has_name;
use naga_ir::{
    Arena, DiagnosticFilter, DiagnosticFilterNode, FilterableTriggeringRule, Handle, ItemIndex,
    Module, Severity,
};
use naga_words::diagnostics::DisplayWgslIdent;
use std::alloc::{AllocError, Global};
use std::collections::BTreeSet;

/// Directives that are in force, by the filters of a chain that were met so far.
#[derive(Drop)]
pub(crate) struct Found {
    /// The directives, of which the outermost comes last.
    lines: Vec<String>,
    /// The names of the rules that were met.
    rules: BTreeSet<String>,
}

/// The directives of the module.
///
/// Parents stand before their filters, so that one pass from the last filter to the first meets all
/// of the chain.
pub(crate) fn found_directives(alloc: Global, module: &Module) -> Result<Found, DirectiveError>
    ensures ok { IfOk result (Tells (module_chain «module».now)) }
    ensures err { IfErr result (HasNoDirectives «module».now) }
{
    let filters = &module.diagnostic_filters;
    let mut found = Found::new(alloc);
    let mut last = module.diagnostic_filter_leaf;
    for index in (0..filters.len()).rev() {
        last = found.step(alloc, filters, ItemIndex::from_index(index), last)?;
    }
    Ok(found)
}

/// Whether this filter is the last of a chain.
fn ends_at(last: &Option<Handle<DiagnosticFilterNode>>, here: Handle<DiagnosticFilterNode>) -> bool
    ensures { result ≡ ends_at last.now here }
{
    match last {
        Some(last) => last.index() == here.index(),
        None => false,
    }
}

impl Found {
    /// None are found yet. It takes no memory.
    fn new(alloc: Global) -> Self
        ensures { Tells [] result }
    {
        Found {
            lines: Vec::new(alloc),
            rules: BTreeSet::new(alloc),
        }
    }

    /// Adds the filter here if a chain ends at it, and gives what the rest of the chain ends at.
    fn step(
        &mut self,
        alloc: Global,
        filters: &Arena<DiagnosticFilterNode>,
        here: Handle<DiagnosticFilterNode>,
        last: Option<Handle<DiagnosticFilterNode>>,
    ) -> Result<Option<Handle<DiagnosticFilterNode>>, DirectiveError>
        requires { here < length filters.now }
        ensures ok { (met : List ir.DiagnosticFilter) → Tells met self.old →
            IfOk result (λ below. Steps filters.now here last below met self.new) }
        ensures err { (met : List ir.DiagnosticFilter) → Tells met self.old →
            IfErr result (NoStep filters.now here last met) }
    {
        if !ends_at(&last, here) {
            return Ok(last);
        }
        let node = &filters[here];
        self.add(alloc, here, &node.inner)?;
        Ok(node.parent)
    }

    /// Adds the directive of the filter here, unless a filter of the same rule was met.
    fn add(
        &mut self,
        alloc: Global,
        here: Handle<DiagnosticFilterNode>,
        filter: &DiagnosticFilter,
    ) -> Result<(), DirectiveError>
        ensures ok { (met : List ir.DiagnosticFilter) → Tells met self.old →
            OnOk result (Tells (filter.now ∷ met) self.new) }
        ensures err { IfErr result (NotAdded self.old here filter.now) }
    {
        let name = name_of(alloc, &filter.triggering_rule)?;
        if self.was_met(name.as_str()) {
            return Ok(());
        }
        if !has_name(alloc, &filter.triggering_rule) {
            return Err(DirectiveError::RuleName(here));
        }
        let line = directive_line(alloc, filter.new_severity, name.as_str())?;
        self.keep(name, line)?;
        Ok(())
    }

    /// Whether a filter was met whose rule has this name.
    fn was_met(&self, name: &str) -> bool
        ensures { result ≡ contains_text self.now.rules name.now }
    {
        self.rules.contains(name)
    }

    /// Keeps the directive of a rule, and its name.
    #[tactic(auto, using(std::proofs::lemmas::Map::Text::btree_set_updates_text))]
    fn keep(&mut self, name: String, line: String) -> Result<(), DirectiveError>
        ensures lines { OnOk result (self.new.lines.items ≡ self.old.lines.items ++ line ∷ []) }
        ensures rules { OnOk result ((of : List ℕ) → contains_text self.new.rules of
            ≡ cond (bytes_eq (string_bytes name) of) true (contains_text self.old.rules of)) }
        ensures err { IfErr result IsWant }
    {
        self.lines.push(line)?;
        self.rules.insert(name)?;
        Ok(())
    }

    /// The directives, the outermost first, with an empty line after them, if there are any.
    pub(crate) fn text(&self, alloc: Global) -> Result<String, AllocError>
        ensures { IfOk result (λ text. string_bytes text
            ≡ with_empty_line (joined_backwards self.now.lines.items)) }
    {
        let text = joined_backwards(alloc, &self.lines)?;
        ended(text)
    }
}

/// The texts after one another, of which the last comes first.
#[tactic(auto, using(crate::proofs::Keeping::joined_next))]
fn joined_backwards(alloc: Global, texts: &[String]) -> Result<String, AllocError>
    ensures { IfOk result (λ all. string_bytes all ≡ joined_backwards texts.now) }
{
    let mut all = String::new(alloc);
    for index in (0..texts.len()).rev() {
        all.push_str(texts[index].as_str())?;
    }
    Ok(all)
}

/// The lines, with an empty one after them, if there are any.
#[tactic(auto, using(crate::proofs::Keeping::ended))]
fn ended(mut lines: String) -> Result<String, AllocError>
    ensures { IfOk result (λ text. string_bytes text ≡ with_empty_line (string_bytes lines)) }
{
    if !lines.is_empty() {
        lines.push_str("\n")?;
    }
    Ok(lines)
}

/// The name of a rule.
fn name_of(alloc: Global, rule: &FilterableTriggeringRule) -> Result<String, AllocError>
    ensures { IfOk result (λ name. string_bytes name ≡ rule_name rule.now) }
{
    rule.display_wgsl_ident().to_string(alloc)
}

/// The directive for a rule of this name, as a line.
fn directive_line(alloc: Global, severity: Severity, name: &str) -> Result<String, AllocError>
    ensures { IfOk result (λ line. string_bytes line ≡ codes "diagnostic("
        ++ (severity_word severity ++ (codes ", " ++ (name.now ++ codes ");\n")))) }
{
    let severity = severity_word(severity);
    format!(in alloc; "diagnostic({severity}, {name});\n")
}

/// WGSL's word for how bad a diagnostic is.
fn severity_word(severity: Severity) -> &'static str
    ensures { result.now ≡ severity_word severity }
{
    match severity {
        Severity::Off => "off",
        Severity::Info => "info",
        Severity::Warning => "warning",
        Severity::Error => "error",
    }
}
