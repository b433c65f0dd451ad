//! Filters of diagnostics, which hold in a whole module.

ghost use Rattle.std.specs.Prelude.{◌≡◌, List, None, Option, Some, cond, map, option_map, string_bytes, ℕ};
ghost use Rattle.json.specs.Find.{as_str};
ghost use Rattle.json.specs.Value.{items_view, value_view};
ghost use Rattle.naga_json.specs.Diagnostics.{can_hold, each_item, entry_without_own, filter_said};
ghost use Rattle.naga_json.specs.Diagnostics.{filters_said, follow_parents, follows, is_leaf_of, list_at};
ghost use Rattle.naga_json.specs.Diagnostics.{no_own_filters, node_said, rule_names, rule_payload};
ghost use Rattle.naga_json.specs.Diagnostics.{rule_said, severity_said, standard_rule_said};
ghost use Rattle.naga_json.specs.Diagnostics.{without_own};
ghost use Rattle.naga_json.specs.Said.{Gives, same, tuple_said, unseen};
ghost use Rattle.naga_json.specs.Seen.{SeenFilter, SeenNode, SeenRule, seen_filter, seen_filters};
ghost use Rattle.naga_json.specs.Seen.{seen_node, seen_rule};

use crate::error::{Problem, ReadError};
use crate::shape::{
    FromJson, Variants, expect_members, fill, in_item, in_member, item_of, items_of, member,
    optional_member, read_variant, word,
};
use json::Value;
use naga_ir::{
    Arena, DiagnosticFilter, DiagnosticFilterNode, FilterableTriggeringRule, Handle, Severity,
    StandardFilterableTriggeringRule,
};
use std::alloc::Global;

/// The words of [`Severity`].
const SEVERITY_WORDS: &[(&str, Severity)] = &[
    ("Off", Severity::Off),
    ("Info", Severity::Info),
    ("Warning", Severity::Warning),
    ("Error", Severity::Error),
];

impl FromJson for Severity {
    ghost Seen = { Self };

    ghost seen = { same };

    ghost said = { severity_said };

    fn from_json(alloc: Global, value: &Value) -> Result<Severity, ReadError> {
        word(alloc, value, SEVERITY_WORDS)
    }
}

/// The words of [`StandardFilterableTriggeringRule`].
const STANDARD_RULE_WORDS: &[(&str, StandardFilterableTriggeringRule)] = &[(
    "DerivativeUniformity",
    StandardFilterableTriggeringRule::DerivativeUniformity,
)];

impl FromJson for StandardFilterableTriggeringRule {
    ghost Seen = { Self };

    ghost seen = { same };

    ghost said = { standard_rule_said };

    fn from_json(
        alloc: Global,
        value: &Value,
    ) -> Result<StandardFilterableTriggeringRule, ReadError> {
        word(alloc, value, STANDARD_RULE_WORDS)
    }
}

/// The variants of [`FilterableTriggeringRule`].
#[derive(Clone, Copy)]
pub(crate) enum RuleName {
    Standard,
    Unknown,
    User,
}

/// The names of [`FilterableTriggeringRule`].
const RULE_NAMES: &[(&str, RuleName)] = &[
    ("Standard", RuleName::Standard),
    ("Unknown", RuleName::Unknown),
    ("User", RuleName::User),
];

impl FromJson for FilterableTriggeringRule {
    ghost Seen = { SeenRule };

    ghost seen = { seen_rule };

    ghost said = { rule_said };

    fn from_json(alloc: Global, value: &Value) -> Result<FilterableTriggeringRule, ReadError> {
        read_variant(alloc, value)
    }
}

impl Variants for FilterableTriggeringRule {
    type Name = RuleName;

    ghost Sight = { SeenRule };

    ghost sight = { seen_rule };

    ghost table = { rule_names };

    ghost payload_said = { rule_payload };

    fn names() -> &'static [(&'static str, RuleName)] {
        RULE_NAMES
    }

    fn from_payload(
        alloc: Global,
        variant: RuleName,
        payload: &Value,
    ) -> Result<FilterableTriggeringRule, ReadError> {
        match variant {
            RuleName::Standard => Ok(FilterableTriggeringRule::Standard(FromJson::from_json(
                alloc, payload,
            )?)),
            RuleName::Unknown => Ok(FilterableTriggeringRule::Unknown(FromJson::from_json(
                alloc, payload,
            )?)),
            RuleName::User => Ok(FilterableTriggeringRule::User(FromJson::from_json(
                alloc, payload,
            )?)),
        }
    }
}

impl FromJson for [String; 2] {
    ghost Seen = { List (List ℕ) };

    ghost seen = { map string_bytes };

    ghost said = { tuple_said 2 as_str };

    fn from_json(alloc: Global, value: &Value) -> Result<[String; 2], ReadError> {
        match items_of(alloc, value)?.as_slice() {
            [tool, rule] => Ok([item_of(alloc, tool, 0)?, item_of(alloc, rule, 1)?]),
            _ => Err(ReadError::at(alloc, Problem::WrongLength(2))),
        }
    }
}

impl FromJson for DiagnosticFilter {
    ghost Seen = { SeenFilter };

    ghost seen = { seen_filter };

    ghost said = { filter_said };

    fn from_json(alloc: Global, payload: &Value) -> Result<DiagnosticFilter, ReadError> {
        expect_members(alloc, payload, &["new_severity", "triggering_rule"])?;
        Ok(DiagnosticFilter {
            new_severity: member(alloc, payload, "new_severity")?,
            triggering_rule: member(alloc, payload, "triggering_rule")?,
        })
    }
}

impl FromJson for DiagnosticFilterNode {
    ghost Seen = { SeenNode };

    ghost seen = { seen_node };

    ghost said = { node_said };

    fn from_json(alloc: Global, payload: &Value) -> Result<DiagnosticFilterNode, ReadError> {
        expect_members(alloc, payload, &["inner", "parent"])?;
        Ok(DiagnosticFilterNode {
            inner: member(alloc, payload, "inner")?,
            parent: optional_member(alloc, payload, "parent")?,
        })
    }
}

/// The member of a module, and of a function, that tells the last of the filters that hold in it.
const LEAF: &str = "diagnostic_filter_leaf";

/// The filters of a module.
#[derive(Drop)]
pub(crate) struct Filters {
    /// All of them, with their parents.
    pub nodes: Arena<DiagnosticFilterNode>,
    /// The last of those that hold in the whole module, if some do.
    pub leaf: Option<Handle<DiagnosticFilterNode>>,
}

/// Reads a module's filters. Refused are a filter whose parent does not stand before it, a leaf that
/// is none of them, and a function that has filters of its own.
#[tactic(auto, unfolding(crate::specs::Diagnostics::filters_said))]
pub(crate) fn filters_of(alloc: Global, value: &Value) -> Result<Filters, ReadError>
    ensures { Gives (λ filters. seen_filters filters.nodes filters.leaf)
        (filters_said (value_view value.now)) result }
{
    let mut nodes = Arena::new(alloc);
    fill(alloc, value, "diagnostic_filters", &mut nodes)?;
    let leaf: Option<Handle<DiagnosticFilterNode>> = optional_member(alloc, value, LEAF)?;
    expect_filters(alloc, &nodes, &leaf)?;
    expect_no_own_filters(alloc, value, &leaf)?;
    Ok(Filters { nodes, leaf })
}

/// Refuses filters of which one has a parent that does not stand before it, and a leaf that is none
/// of them.
fn expect_filters(
    alloc: Global,
    filters: &Arena<DiagnosticFilterNode>,
    leaf: &Option<Handle<DiagnosticFilterNode>>,
) -> Result<(), ReadError>
    ensures { Gives unseen
        (can_hold (map (λ node. node.parent) (map seen_node filters.now)) leaf.now) result }
{
    in_member(alloc, "diagnostic_filters", expect_parents(alloc, filters))?;
    match leaf {
        Some(leaf) if leaf.index() >= filters.len() => {
            in_member(alloc, LEAF, Err(ReadError::at(alloc, Problem::NoFilter)))
        }
        _ => Ok(()),
    }
}

/// Refuses filters of which one has a parent that does not stand before it.
#[tactic(auto, using(crate::proofs::Filters::same_parents))]
fn expect_parents(alloc: Global, filters: &Arena<DiagnosticFilterNode>) -> Result<(), ReadError>
    ensures { Gives unseen
        (cond (follow_parents (map (λ node. node.parent) (map seen_node filters.now)))
        (Some tt) None) result }
{
    for (handle, node) in filters.iter() {
        if !follows(handle, &node.parent) {
            let problem = ReadError::at(alloc, Problem::NoEarlierFilter);
            let read = in_member(alloc, "parent", Err(problem));
            return in_item(alloc, handle.index(), read);
        }
    }
    Ok(())
}

/// Whether the parent of the filter here stands before it, if it has one.
fn follows(
    here: Handle<DiagnosticFilterNode>,
    parent: &Option<Handle<DiagnosticFilterNode>>,
) -> bool
    ensures { result ≡ follows here parent.now }
{
    match parent {
        Some(parent) => parent.index() < here.index(),
        None => true,
    }
}

/// Refuses a module of which a function has filters of its own: another leaf than that of the
/// module. A function without a leaf has none of its own.
fn expect_no_own_filters(
    alloc: Global,
    value: &Value,
    leaf: &Option<Handle<DiagnosticFilterNode>>,
) -> Result<(), ReadError>
    ensures { Gives unseen (no_own_filters leaf.now (value_view value.now)) result }
{
    if let Some(functions) = list_at(value, "functions") {
        in_member(alloc, "functions", expect_leaves(alloc, functions, leaf))?;
    }
    if let Some(entry_points) = list_at(value, "entry_points") {
        let read = expect_entry_leaves(alloc, entry_points, leaf);
        in_member(alloc, "entry_points", read)?;
    }
    Ok(())
}

/// The items of the member of this name, where it is a list.
pub(crate) fn list_at<'v, 'a>(value: &'v Value<'a>, name: &str) -> Option<&'v Vec<Value<'a>>>
    ensures { option_map (λ v. items_view v.now.items) result
        ≡ list_at name.now (value_view value.now) }
{
    match value.get(name) {
        Some(Value::Array(items)) => Some(items),
        _ => None,
    }
}

/// Refuses functions of which one has filters of its own.
fn expect_leaves(
    alloc: Global,
    functions: &Vec<Value>,
    leaf: &Option<Handle<DiagnosticFilterNode>>,
) -> Result<(), ReadError>
    ensures { Gives unseen
        (each_item (without_own leaf.now) (items_view functions.now.items)) result }
{
    for (index, function) in functions.iter().enumerate() {
        in_item(alloc, index, expect_leaf(alloc, function, leaf))?;
    }
    Ok(())
}

/// Refuses entry points of which one has a function with filters of its own.
fn expect_entry_leaves(
    alloc: Global,
    entry_points: &Vec<Value>,
    leaf: &Option<Handle<DiagnosticFilterNode>>,
) -> Result<(), ReadError>
    ensures { Gives unseen
        (each_item (entry_without_own leaf.now) (items_view entry_points.now.items)) result }
{
    for (index, entry_point) in entry_points.iter().enumerate() {
        in_item(alloc, index, expect_entry_leaf(alloc, entry_point, leaf))?;
    }
    Ok(())
}

/// Refuses an entry point whose function has filters of its own.
fn expect_entry_leaf(
    alloc: Global,
    entry_point: &Value,
    leaf: &Option<Handle<DiagnosticFilterNode>>,
) -> Result<(), ReadError>
    ensures { Gives unseen (entry_without_own leaf.now (value_view entry_point.now)) result }
{
    match entry_point.get("function") {
        Some(function) => in_member(alloc, "function", expect_leaf(alloc, function, leaf)),
        None => Ok(()),
    }
}

/// Refuses a function that has filters of its own.
fn expect_leaf(
    alloc: Global,
    function: &Value,
    leaf: &Option<Handle<DiagnosticFilterNode>>,
) -> Result<(), ReadError>
    ensures { Gives unseen (without_own leaf.now (value_view function.now)) result }
{
    let own: Option<Handle<DiagnosticFilterNode>> = optional_member(alloc, function, LEAF)?;
    if is_leaf_of(leaf, &own) {
        Ok(())
    } else {
        in_member(alloc, LEAF, Err(ReadError::at(alloc, Problem::OwnFilters)))
    }
}

/// Whether a function has no leaf, or that of the module.
fn is_leaf_of(
    leaf: &Option<Handle<DiagnosticFilterNode>>,
    own: &Option<Handle<DiagnosticFilterNode>>,
) -> bool
    ensures { result ≡ is_leaf_of leaf.now own.now }
{
    match (own, leaf) {
        (None, _) => true,
        (Some(own), Some(leaf)) => own.index() == leaf.index(),
        (Some(_), None) => false,
    }
}
