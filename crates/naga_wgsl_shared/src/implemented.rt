//! The word of a value, or the refusal where WGSL has none.

ghost use Rattle.std.specs.Prelude.{◌≡◌, IfErr, IfOk, IsErr, None, Some};
ghost use Rattle.naga_refusals.specs.Errors.{IsUnsupported};

use naga_refusals::Error;
use std::alloc::Global;
use std::fmt::Debug;
use wgsl_words::TryToWgsl;

/// WGSL's word for a value. Where it has none the error is [`Error::Unsupported`], with the kind of the
/// value and its debug text, or [`Error::Memory`] where there is no memory for that text. A value with
/// a word needs no memory, and gives no error.
pub fn to_wgsl_if_implemented<T: TryToWgsl + Debug + Copy>(
    alloc: Global,
    value: T,
) -> Result<&'static str, Error>
    ensures word { IfOk result (λ word. T.try_word value ≡ Some word.now) }
    ensures missing { IsErr result → T.try_word value ≡ None }
    ensures refused { IfErr result (IsUnsupported T.description) }
{
    match value.try_to_wgsl() {
        Some(word) => Ok(word),
        None => {
            let text = format!(in alloc; "{value:?}")?;
            Err(Error::Unsupported {
                kind: T::described(),
                value: text,
            })
        }
    }
}
