//! Why nothing was added.

ghost use Rattle.std.specs.Prelude.{◌≡◌, alloc_error};
ghost use Rattle.naga_builder.specs.declared.error.BuildError.TheVariants.{Memory};

use std::alloc::{AllocError, AllocFailed};
use thiserror::Error;

/// Why an expression was not added.
#[derive(Clone, Copy, Debug, PartialEq, Eq, Error)]
pub enum BuildError {
    /// The rules of types give the expression none
    /// ([`inferred_type`](naga_inference::inferred_type)).
    #[error("an expression has no type")]
    Untyped,
    /// Memory has run out.
    #[error("out of memory")]
    Memory(AllocError),
}

impl From<AllocError> for BuildError {
    ghost from_gives = { λ refusal error. error ≡ Memory refusal };

    fn from(refusal: AllocError) -> BuildError {
        BuildError::Memory(refusal)
    }
}

impl<T: Drop> From<AllocFailed<T>> for BuildError {
    ghost from_gives = { λ refusal error. error ≡ Memory alloc_error };

    fn from(refusal: AllocFailed<T>) -> BuildError {
        BuildError::Memory(AllocError::from(refusal))
    }
}
