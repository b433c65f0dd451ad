//! Why a type was not written.

ghost use Rattle.std.specs.Prelude.{◌≡◌};
ghost use Rattle.naga_words.specs.declared.error.TypeTextError.TheVariants as error;

use crate::sink::SinkError;
use std::alloc::AllocError;
use thiserror::Error;

/// Why a type was not written.
#[derive(Clone, Copy, Debug, PartialEq, Eq, Error)]
pub enum TypeTextError {
    /// The sink refused a chunk.
    #[error("{0}")]
    Sink(SinkError),
    /// There was not enough memory for a text on the way.
    #[error("out of memory")]
    Memory(AllocError),
    /// The type has no form in WGSL, and the context refuses such types.
    #[error("type without a WGSL form")]
    NoForm,
}

impl From<SinkError> for TypeTextError {
    ghost from_gives = { λ s e. e ≡ error.Sink s };

    fn from(error: SinkError) -> TypeTextError {
        TypeTextError::Sink(error)
    }
}

impl From<AllocError> for TypeTextError {
    ghost from_gives = { λ a e. e ≡ error.Memory a };

    fn from(error: AllocError) -> TypeTextError {
        TypeTextError::Memory(error)
    }
}
