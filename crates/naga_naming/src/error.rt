//! Why a label or an item gets no name.

ghost use Rattle.std.specs.Prelude.{◌≡◌, alloc_error};
ghost use Rattle.naga_naming.specs.declared.error.NamerError.TheVariants.{Memory};

use std::alloc::{AllocError, AllocFailed};
use thiserror::Error;

/// Why a name could not be given.
#[derive(Debug, Drop, PartialEq, Eq, Error)]
pub enum NamerError {
    /// A stem has been used so often that no further name can be counted: 4,294,967,295 times after
    /// its first use.
    #[error("namer is full")]
    Full,
    /// The module has more entry points than an `EntryPointIndex` can tell apart, or a member or an
    /// argument whose index is no `u32`.
    #[error("name key out of range")]
    KeyFull,
    /// Memory has run out.
    #[error("out of memory")]
    Memory(AllocError),
}

impl From<AllocError> for NamerError {
    ghost from_gives = { λ refusal error. error ≡ Memory refusal };

    fn from(refusal: AllocError) -> NamerError {
        NamerError::Memory(refusal)
    }
}

impl<T: Drop> From<AllocFailed<T>> for NamerError {
    ghost from_gives = { λ refusal error. error ≡ Memory alloc_error };

    fn from(refusal: AllocFailed<T>) -> NamerError {
        NamerError::Memory(AllocError::from(refusal))
    }
}
