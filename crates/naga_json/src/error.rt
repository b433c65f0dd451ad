//! Why nothing was read.

ghost use Rattle.naga_json.specs.Said.{IsRefusal};

use std::alloc::{AllocError, AllocFailed, Global};
use std::error::Error;
use std::fmt;

/// What a JSON value should be.
#[derive(Clone, Copy, Debug, PartialEq, Eq)]
pub enum JsonKind {
    /// A number.
    Number,
    /// A whole number, told without a point or an exponent: `1.0` is none.
    WholeNumber,
    /// A text.
    Text,
    /// A list.
    List,
    /// An object.
    Object,
    /// `true` or `false`.
    TruthValue,
    /// A variant of an enum: its name, or an object with this name for its one member.
    Variant,
    /// The type of an expression: a handle, or a variant.
    Resolution,
    /// Nothing, which `null` tells too: the payload of a variant that has none.
    Null,
}

impl fmt::Display for JsonKind {
    fn fmt<W: fmt::Write>(&self, f: &mut fmt::Formatter<W>) -> fmt::Result {
        match self {
            JsonKind::Number => f.write_str("number"),
            JsonKind::WholeNumber => f.write_str("whole number"),
            JsonKind::Text => f.write_str("text"),
            JsonKind::List => f.write_str("list"),
            JsonKind::Object => f.write_str("object"),
            JsonKind::TruthValue => f.write_str("truth value"),
            JsonKind::Variant => f.write_str("name and no object with one member"),
            JsonKind::Resolution => f.write_str("number and no object with one member"),
            JsonKind::Null => f.write_str("null"),
        }
    }
}

/// What is wrong with a JSON value.
#[derive(Debug, Drop)]
pub enum Problem {
    /// It is absent.
    Missing,
    /// It is something else than is wanted.
    Mistyped(JsonKind),
    /// It is a number that the wanted type does not have. No number is cut.
    OutOfRange,
    /// It is a list of another length than this.
    WrongLength(usize),
    /// It is, or has for its one member, this name, which is none of those that are wanted. Special
    /// characters are escaped, and of a long name only the front is told.
    UnknownName(String),
    /// It is an object with a member of this name, which is none of those that are read or let be
    /// there. The name is told as an unknown one is.
    UnknownMember(String),
    /// It is not null, and says what modules here have no room for, as an early depth test, or a
    /// workgroup's size that a sum sets.
    Unsupported,
    /// It is an object with members, of which the info that is wanted has none.
    NoKnownMember,
    /// It is a type that equals one before it. The types of a module differ, and so do the
    /// predeclared ones.
    Doubled,
    /// It is a block in too many others. Those of a text, whose nesting is bounded, are few enough.
    TooDeep,
    /// It is a handle of no filter of diagnostics.
    NoFilter,
    /// It is the parent of a filter of diagnostics, and no handle of an earlier one.
    NoEarlierFilter,
    /// It says that filters of diagnostics hold in one function alone, which modules here have no
    /// room for: it is neither null nor the leaf of the module.
    OwnFilters,
}

impl fmt::Display for Problem {
    fn fmt<W: fmt::Write>(&self, f: &mut fmt::Formatter<W>) -> fmt::Result {
        match self {
            Problem::Missing => f.write_str("missing"),
            Problem::Mistyped(wanted) => write!(f, "no {wanted}"),
            Problem::OutOfRange => f.write_str("number out of range"),
            Problem::WrongLength(length) => write!(f, "no list of {length}"),
            Problem::UnknownName(name) => write!(f, "unknown name `{name}`"),
            Problem::UnknownMember(name) => write!(f, "unknown member `{name}`"),
            Problem::Unsupported => f.write_str("not supported unless null"),
            Problem::NoKnownMember => f.write_str("no known member"),
            Problem::Doubled => f.write_str("equals an earlier type"),
            Problem::TooDeep => f.write_str("blocks nest too deep"),
            Problem::NoFilter => f.write_str("no such filter"),
            Problem::NoEarlierFilter => f.write_str("no earlier filter"),
            Problem::OwnFilters => f.write_str("not supported unless null or the module's"),
        }
    }
}

/// Why nothing was read. It displays as `functions[2].expressions[7].Binary.left: no number`.
#[derive(Debug, Drop)]
pub enum ReadError {
    /// Memory was refused.
    OutOfMemory,
    /// The text is no JSON from about this position on. It is said too where lists and objects nest
    /// more than 127 deep there, or where a number is beyond those of eight bytes: the parser
    /// refuses both, and tells them no otherwise.
    NoJson {
        /// The line, counted from 1.
        line: usize,
        /// The column in bytes, counted from 1; where the text ends too early, how many bytes its
        /// last line has.
        column: usize,
    },
    /// The JSON is no such module or info.
    Misfit {
        /// Where: the names of members and variants and the numbers of items, counted from zero,
        /// that lead there from the outermost value. At that value itself it is empty. A member's
        /// name is told as an unknown one is.
        position: String,
        /// What is wrong there.
        problem: Problem,
    },
}

impl fmt::Display for ReadError {
    fn fmt<W: fmt::Write>(&self, f: &mut fmt::Formatter<W>) -> fmt::Result {
        match self {
            ReadError::OutOfMemory => f.write_str("out of memory"),
            ReadError::NoJson { line, column } => {
                write!(f, "no JSON at line {line}, column {column}")
            }
            ReadError::Misfit { position, problem } => {
                if position.is_empty() {
                    write!(f, "{problem}")
                } else {
                    write!(f, "{position}: {problem}")
                }
            }
        }
    }
}

impl Error for ReadError {}

impl ReadError {
    /// The problem, at the value itself.
    pub(crate) fn at(alloc: Global, problem: Problem) -> ReadError {
        ReadError::Misfit {
            position: String::new(alloc),
            problem,
        }
    }

    /// The same, seen from the value around it.
    pub(crate) fn within(self, alloc: Global, step: &str) -> ReadError
        ensures { IsRefusal result → IsRefusal self }
    {
        match self {
            ReadError::Misfit { position, problem } => match joined(
                alloc,
                step,
                position.as_str(),
            ) {
                Ok(position) => ReadError::Misfit { position, problem },
                Err(_) => ReadError::OutOfMemory,
            },
            error => error,
        }
    }
}

/// How many characters of a name are told.
const MOST_TOLD: usize = 40;

/// What is told of a name from JSON: its front, in which special characters are escaped.
pub(crate) fn told_name(alloc: Global, name: &str) -> Result<String, AllocError> {
    let mut told = String::new(alloc);
    for character in name.chars().take(MOST_TOLD) {
        write_escaped(&mut told, character)?;
    }
    if name.chars().nth(MOST_TOLD).is_some() {
        told.push_str("..")?;
    }
    Ok(told)
}

/// Adds a character as `Debug` shows it in a text.
fn write_escaped(told: &mut String, character: char) -> Result<(), AllocError> {
    for shown in character.escape_debug() {
        told.push(shown)?;
    }
    Ok(())
}

/// The position after a step.
fn joined(alloc: Global, step: &str, position: &str) -> Result<String, AllocError> {
    let step = told_name(alloc, step)?;
    if position.is_empty() || position.starts_with('[') {
        format!(in alloc; "{step}{position}")
    } else {
        format!(in alloc; "{step}.{position}")
    }
}

impl<T: Drop> From<AllocFailed<T>> for ReadError {
    ghost use Rattle.std.specs.Prelude.{◌≡◌};
    ghost use Rattle.naga_json.specs.declared.error.ReadError.TheVariants.{OutOfMemory};

    ghost from_gives = { λ _ e. e ≡ OutOfMemory };

    fn from(_failed: AllocFailed<T>) -> ReadError {
        ReadError::OutOfMemory
    }
}

impl From<AllocError> for ReadError {
    ghost use Rattle.std.specs.Prelude.{◌≡◌};
    ghost use Rattle.naga_json.specs.declared.error.ReadError.TheVariants.{OutOfMemory};

    ghost from_gives = { λ _ e. e ≡ OutOfMemory };

    fn from(_error: AllocError) -> ReadError {
        ReadError::OutOfMemory
    }
}
