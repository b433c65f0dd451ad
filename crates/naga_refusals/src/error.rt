//! Why a module is not written.

ghost use Rattle.std.specs.Prelude.{◌≡◌};
ghost use Rattle.naga_refusals.specs.declared.error.Error.TheVariants.{Memory};
ghost use Rattle.naga_refusals.specs.Errors.{error_of_sink, IsCustom, IsErrorOf, IsErrorOfNames};
ghost use Rattle.naga_refusals.specs.Errors.{IsUnimplemented, IsUnsupported};
ghost use Rattle.naga_words.specs.declared.error.TypeTextError.TheVariants as type_error;

use naga_ir::RelationalFunction;
use naga_naming::NamerError;
use naga_words::{SinkError, TypeTextError};
use std::alloc::{AllocError, Global};
use thiserror::Error as DisplayedError;

/// Why a module is not written, by the construct that has no form in WGSL, or by what was wanting.
#[derive(Debug, Drop, DisplayedError)]
pub enum Error {
    /// The sink failed.
    #[error("{0}")]
    FmtError(SinkError),
    /// The module holds something that cannot be written, as the text says.
    #[error("{0}")]
    Custom(String),
    /// The module holds something that this writer does not write, as the text says.
    #[error("{0}")]
    Unimplemented(String),
    /// The module tests a number by a function that WGSL lacks.
    #[error("Unsupported relational function: {0:?}")]
    UnsupportedRelationalFunction(RelationalFunction),
    /// The module holds something that WGSL has no word for.
    #[error("Unsupported {kind}: {value}")]
    Unsupported {
        /// What kind of thing it is: `math function`, `builtin value` or `scalar type`.
        kind: &'static str,
        /// The thing itself, as its debug text.
        value: String,
    },
    /// There was not enough memory, here or in the sink.
    #[error("out of memory")]
    Memory(AllocError),
}

/// A sink's want of memory is told as [`Error::Memory`], its failure as [`Error::FmtError`].
impl From<SinkError> for Error {
    ghost from_gives = { λ s e. e ≡ error_of_sink s };

    fn from(error: SinkError) -> Error {
        match error {
            SinkError::Failed => Error::FmtError(SinkError::Failed),
            SinkError::Memory(error) => Error::Memory(error),
        }
    }
}

impl From<AllocError> for Error {
    ghost from_gives = { λ a e. e ≡ Memory a };

    fn from(error: AllocError) -> Error {
        Error::Memory(error)
    }
}

/// The error for what kept an output from taking a text whose types all have forms.
pub fn error_of_want(want: TypeTextError) -> Error
    requires { want ≡ type_error.NoForm → ⊥ }
    ensures { IsErrorOf want result }
{
    match want {
        TypeTextError::Sink(error) => Error::from(error),
        TypeTextError::Memory(error) => Error::Memory(error),
        TypeTextError::NoForm => unreachable!(),
    }
}

/// The refusal of what this writer does not write, which says `text`; want of memory where there is
/// none for the text.
pub fn unimplemented(alloc: Global, text: &str) -> Error
    ensures { IsUnimplemented text.now result }
{
    match String::from_str(alloc, text) {
        Ok(text) => Error::Unimplemented(text),
        Err(error) => Error::Memory(error),
    }
}

/// The refusal that says `text`; want of memory where there is none for the text.
pub fn custom(alloc: Global, text: &str) -> Error
    ensures { IsCustom text.now result }
{
    match String::from_str(alloc, text) {
        Ok(text) => Error::Custom(text),
        Err(error) => Error::Memory(error),
    }
}

/// The refusal of what WGSL has no word for, which tells its kind and its debug text; want of memory
/// where there is none for that.
pub fn unsupported(kind: &'static str, debug_text: Result<String, AllocError>) -> Error
    ensures { IsUnsupported kind.now result }
{
    match debug_text {
        Ok(value) => Error::Unsupported { kind, value },
        Err(error) => Error::Memory(error),
    }
}

/// The refusal of a module of which an item or a label gets no name: `namer is full`, or `name key
/// out of range`; want of memory where there was none for the name, or is none for the text.
pub fn names_error(alloc: Global, error: NamerError) -> Error
    ensures { IsErrorOfNames error result }
{
    match error {
        NamerError::Full => custom(alloc, "namer is full"),
        NamerError::KeyFull => custom(alloc, "name key out of range"),
        NamerError::Memory(error) => Error::Memory(error),
    }
}
