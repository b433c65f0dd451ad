//! Why a module has no directives.

ghost use Rattle.std.specs.Prelude.{◌≡◌, alloc_error};
ghost use Rattle.diagnostic_directives.specs.declared.error.DirectiveError.TheVariants as error;
ghost use Rattle.naga_words.specs.declared.sink.SinkError.TheVariants as sink;

use naga_ir::{DiagnosticFilterNode, Handle};
use naga_words::SinkError;
use std::alloc::{AllocError, AllocFailed};
use thiserror::Error;

/// Why a module has no directives, or they were not written.
#[derive(Clone, Copy, Debug, PartialEq, Eq, Error)]
pub enum DirectiveError {
    /// The rule of this filter has a name that is none in WGSL: no identifier, or for a rule of a
    /// tool not two of them.
    #[error("diagnostic rule without a WGSL name")]
    RuleName(Handle<DiagnosticFilterNode>),
    /// The sink refused the directives, or there was not enough memory for them.
    #[error("{0}")]
    Sink(SinkError),
}

impl From<SinkError> for DirectiveError {
    ghost from_gives = { λ s e. e ≡ error.Sink s };

    fn from(error: SinkError) -> DirectiveError {
        DirectiveError::Sink(error)
    }
}

impl From<AllocError> for DirectiveError {
    ghost from_gives = { λ a e. e ≡ error.Sink (sink.Memory a) };

    fn from(error: AllocError) -> DirectiveError {
        DirectiveError::Sink(SinkError::Memory(error))
    }
}

impl<T: Drop> From<AllocFailed<T>> for DirectiveError {
    ghost from_gives = { λ a e. e ≡ error.Sink (sink.Memory alloc_error) };

    fn from(_failed: AllocFailed<T>) -> DirectiveError {
        DirectiveError::Sink(SinkError::Memory(AllocError))
    }
}
