//! Which scalar without a word keeps a type from having a form.

ghost use Rattle.std.specs.Prelude.{◌≡◌};
ghost use Rattle.module_semantics.specs.LackingScalars.{handle_lacks, lacking_scalar};

use crate::single_types::{base_type, own_unwritable_scalar};
use naga_info::TypeResolution;
use naga_ir::{Handle, Scalar, Type_, UniqueArena};

/// What the type with this handle lacks, by the types before it that it is over.
fn handle_lacks(types: &UniqueArena<Type_>, handle: Handle<Type_>) -> Option<Scalar>
    ensures { result ≡ handle_lacks types.now handle }
{
    if handle.index() >= types.len() {
        return None;
    }
    let mut at = handle;
    let mut levels = handle.index() + 1;
    while levels > 0 {
        levels -= 1;
        if at.index() >= types.len() {
            return None;
        }
        let inner = &types[at].inner;
        match base_type(inner) {
            Some(base) => at = base,
            None => return own_unwritable_scalar(inner),
        }
    }
    None
}

/// The scalar that the type of an expression lacks, if it lacks one.
pub(crate) fn lacking_scalar(types: &UniqueArena<Type_>, ty: &TypeResolution) -> Option<Scalar>
    ensures { result ≡ lacking_scalar types.now ty.now }
{
    match ty {
        TypeResolution::Handle(handle) => handle_lacks(types, *handle),
        TypeResolution::Value(inner) => match base_type(inner) {
            Some(base) => handle_lacks(types, base),
            None => own_unwritable_scalar(inner),
        },
    }
}
