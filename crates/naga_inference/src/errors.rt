//! Why a module has no info that is accepted.

ghost use Rattle.std.specs.Prelude.{Some};
ghost use Rattle.naga_inference.specs.ErrorTexts.{error_text, missing_text, untyped_text};

use crate::rules::Missing;
use naga_acceptance::{FaultPosition, Unaccepted};
use std::fmt;

/// An expression to which the rules give no type.
#[derive(Debug, Clone, Copy, PartialEq, Eq)]
pub struct Untyped {
    /// Where it stands.
    pub position: FaultPosition,
    /// What it lacks.
    pub missing: Missing,
}

impl fmt::Display for Untyped {
    ghost output = { λ untyped. Some (untyped_text untyped) };

    fn fmt<W: fmt::Write>(&self, f: &mut fmt::Formatter<W>) -> fmt::Result {
        write!(f, "{}: {}", self.position, self.missing)
    }
}

impl fmt::Display for Missing {
    ghost output = { λ missing. Some (missing_text missing) };

    fn fmt<W: fmt::Write>(&self, f: &mut fmt::Formatter<W>) -> fmt::Result {
        match self {
            Missing::Rule => f.write_str("it has no type"),
            Missing::SpecialType => f.write_str("the module has no special type for it"),
        }
    }
}

/// Why a module has no info by the rules of types that is accepted.
#[derive(Debug, Clone, Copy, PartialEq, Eq)]
pub enum InferenceError {
    /// The expression at this position is the first to which the rules give no type.
    Untyped(FaultPosition),
    /// The same, of an expression whose type is a special one of the module
    /// ([`has_special_type`](crate::has_special_type)): the module has none for it, or its operand has
    /// no type for which there could be one.
    Undeclared(FaultPosition),
    /// All expressions have types, and with these the module is not accepted.
    Unaccepted(Unaccepted),
}

impl fmt::Display for InferenceError {
    ghost output = { λ error. Some (error_text error) };

    fn fmt<W: fmt::Write>(&self, f: &mut fmt::Formatter<W>) -> fmt::Result {
        match self {
            InferenceError::Untyped(position) => write!(f, "{}: {}", position, Missing::Rule),
            InferenceError::Undeclared(position) => {
                write!(f, "{}: {}", position, Missing::SpecialType)
            }
            InferenceError::Unaccepted(unaccepted) => write!(f, "{}", unaccepted),
        }
    }
}
