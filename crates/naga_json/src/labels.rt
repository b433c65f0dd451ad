//! The labels that a source gave to values.

ghost use Rattle.std.specs.Prelude.{◌≡◌, ℕ, List, [], Some, string_bytes};
ghost use Rattle.json.specs.Value.{value_view, members_view};
ghost use Rattle.naga_json.specs.Labels.{by_name, index_named, is_short, is_shortest, label_said};
ghost use Rattle.naga_json.specs.Labels.{labels_from, labels_said, seen_by_name, seen_labels};
ghost use Rattle.naga_json.specs.Numbers.{all_digits};
ghost use Rattle.naga_json.specs.Said.{Gives, same};

use crate::error::{JsonKind, Problem, ReadError};
use crate::shape::{FromJson, Member, in_member, members_of, mistyped};
use indexmap::IndexMap;
use json::Value;
use naga_ir::{Expression, Handle, ItemIndex};
use std::alloc::Global;
use std::collections::BTreeMap;

impl FromJson for IndexMap<Handle<Expression>, String> {
    ghost Seen = { List (ℕ × List ℕ) };

    ghost seen = { λ m. seen_labels m.entries };

    ghost said = { labels_said };

    #[tactic(auto, unfolding(crate::specs::Labels::labels_said))]
    fn from_json(
        alloc: Global,
        value: &Value,
    ) -> Result<IndexMap<Handle<Expression>, String>, ReadError> {
        let members = members_by_name(alloc, members_of(alloc, value)?)?;
        let labels = labels_by_index(alloc, &members)?;
        in_order(alloc, labels)
    }
}

/// The members by their names. Of a name that comes twice, the last value stays.
fn members_by_name<'v, 'a>(
    alloc: Global,
    members: &'v Vec<Member<'a>>,
) -> Result<BTreeMap<&'a str, &'v Value<'a>>, ReadError>
    ensures { Gives (λ m. seen_by_name m.entries)
        (Some (by_name [] (members_view members.now.items))) result }
{
    let mut found = BTreeMap::new(alloc);
    for member in members {
        found.insert(member.0, &member.1)?;
    }
    Ok(found)
}

/// The labels by the indices that the names are. The members' order is that of texts: "10" stands
/// before "2".
fn labels_by_index(
    alloc: Global,
    members: &BTreeMap<&str, &Value>,
) -> Result<BTreeMap<usize, String>, ReadError>
    ensures { Gives (λ m. seen_labels m.entries)
        (labels_from [] (seen_by_name members.now.entries)) result }
{
    let mut labels = BTreeMap::new(alloc);
    for (name, label) in members.iter() {
        let name = *name;
        let label = in_member(alloc, name, label_of(alloc, name, *label))?;
        labels.insert(label.index, label.label)?;
    }
    Ok(labels)
}

/// The same, as functions have them.
fn in_order(
    alloc: Global,
    labels: BTreeMap<usize, String>,
) -> Result<IndexMap<Handle<Expression>, String>, ReadError>
    ensures { Gives (λ m. m.entries) (Some labels.entries) result }
{
    let mut read = IndexMap::new(alloc);
    for (index, label) in labels {
        read.insert(ItemIndex::from_index(index), label)?;
    }
    Ok(read)
}

/// A label, with the index of the expression that it is for.
#[derive(Drop)]
struct Label {
    index: usize,
    label: String,
}

/// The label of an expression, whose index is the member's name.
fn label_of(alloc: Global, name: &str, label: &Value) -> Result<Label, ReadError>
    ensures { Gives (λ l. (l.index, string_bytes l.label))
        (label_said name.now (value_view label.now)) result }
{
    let index = index_named(alloc, name)?;
    let label = String::from_json(alloc, label)?;
    Ok(Label { index, label })
}

/// The index that a member's name is.
#[tactic(auto, using(crate::proofs::LabelMaps::index_read))]
fn index_named(alloc: Global, name: &str) -> Result<usize, ReadError>
    ensures { Gives same (index_named name.now) result }
{
    if !is_shortest(name) {
        return Err(mistyped(alloc, JsonKind::WholeNumber));
    }
    match name.parse::<usize>() {
        Ok(index) => Ok(index),
        Err(_) => Err(ReadError::at(alloc, Problem::OutOfRange)),
    }
}

/// Whether the text is a number in the one way that numbers are written: so no two keys are one.
fn is_shortest(text: &str) -> bool
    ensures { result ≡ is_shortest text.now }
{
    all_digits(text.as_bytes()) && is_short(text.as_bytes())
}

/// Whether each of these is a digit.
fn all_digits(bytes: &[u8]) -> bool
    ensures { result ≡ all_digits bytes.now }
{
    for byte in bytes {
        if !char::from(*byte).is_digit(10) {
            return false;
        }
    }
    true
}

/// Whether there is one digit, or more that do not begin with a zero.
fn is_short(digits: &[u8]) -> bool
    ensures { result ≡ is_short digits.now }
{
    match digits {
        [] => false,
        [_] => true,
        [first, ..] => *first != b'0',
    }
}
