//! What to do about an input that is not read.

use naga_json::{JsonKind, Problem, ReadError};
use std::fmt;

/// What an input is to hold.
#[derive(Clone, Copy, Debug, PartialEq, Eq)]
pub enum Wanted {
    /// A module, or an object with a module and what is known of it.
    Given,
    /// A module alone, since what is known of it comes from another file.
    Module,
    /// What is known of a module.
    Info,
}

/// What to do about an input that is not read.
#[derive(Clone, Copy, Debug, PartialEq, Eq)]
pub enum Hint {
    /// A byte order mark stands in front, which JSON has not.
    ByteOrderMark,
    /// It is something else than JSON from its beginning on, as a shader's source.
    Source,
    /// It is a list, as of a module and what is known of it.
    Pair,
    /// A module has other members beside it.
    Beside,
    /// What is known of a module stands beside it, and not beside a member that is the module.
    InfoBeside,
    /// A module is wanted alone, and stands with something else in an object.
    Alone,
    /// A float is no number, as an infinity is not.
    Float,
}

impl fmt::Display for Hint {
    fn fmt<W: fmt::Write>(&self, f: &mut fmt::Formatter<W>) -> fmt::Result {
        match self {
            Hint::ByteOrderMark => {
                f.write_str("a byte order mark stands in front: save it as UTF-8 without one")
            }
            Hint::Source => f.write_str(
                "a module is read as JSON, which naga's front ends make of WGSL, SPIR-V and GLSL: \
                 `convert`, an example of the crate yorwethul-naga, does that",
            ),
            Hint::Pair => f.write_str(
                "a module and what is known of it are the members `module` and `info` of an object",
            ),
            Hint::Beside => {
                f.write_str("a module with other members beside it stands in a member `module`")
            }
            Hint::InfoBeside => f.write_str(
                "beside an info the module stands in a member `module`",
            ),
            Hint::Alone => f.write_str("with --info this file holds the module alone"),
            Hint::Float => f.write_str(
                "JSON has no infinity and no NaN, for which serde_json writes null: give the bits of \
                 its type, as {\"bits\": 2143289344} of an F32",
            ),
        }
    }
}

/// What to do about a text that is not read for this reason, where more can be said.
pub fn hint_of(text: &str, error: &ReadError, wanted: Wanted) -> Option<Hint> {
    match error {
        ReadError::NoJson { .. } => hint_of_text(text),
        ReadError::Misfit { position, problem } if position.is_empty() => {
            hint_of_whole(text, problem, wanted)
        }
        ReadError::Misfit { position, problem } => hint_at(position.as_str(), problem, wanted),
        ReadError::OutOfMemory => None,
    }
}

/// What to do about a text that is no JSON.
fn hint_of_text(text: &str) -> Option<Hint> {
    if text.starts_with('\u{feff}') {
        return Some(Hint::ByteOrderMark);
    }
    match text.trim_start().chars().next() {
        None | Some('{' | '[') => None,
        Some(_) => Some(Hint::Source),
    }
}

/// What to do about JSON that is no module or info for this reason.
fn hint_of_whole(text: &str, problem: &Problem, wanted: Wanted) -> Option<Hint> {
    match (problem, wanted) {
        (Problem::Mistyped(JsonKind::Object), Wanted::Given)
            if text.trim_start().starts_with('[') => { Some(Hint::Pair) }
        (Problem::UnknownMember(_), Wanted::Given) => Some(Hint::Beside),
        (Problem::UnknownMember(name), Wanted::Module)
            if name.as_str() == "module" || name.as_str() == "info" => { Some(Hint::Alone) }
        _ => None,
    }
}

/// What to do about a value at this position.
fn hint_at(position: &str, problem: &Problem, wanted: Wanted) -> Option<Hint> {
    match (problem, wanted) {
        (Problem::Missing, Wanted::Given) if position == "module" => Some(Hint::InfoBeside),
        (Problem::Mistyped(JsonKind::Number), _) if is_float(position) => Some(Hint::Float),
        _ => None,
    }
}

/// Whether this is the position of a literal that is a float.
fn is_float(position: &str) -> bool {
    position.ends_with(".Literal.F32")
        || position.ends_with(".Literal.F64")
        || position.ends_with(".Literal.AbstractFloat")
}
