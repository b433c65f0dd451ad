//! Questions about one type, and not about those that it is made of.

ghost use Rattle.std.specs.Prelude.{◌≡◌};
ghost use Rattle.std.specs.Option.{is_some};
ghost use Rattle.module_semantics.specs.LackingScalars.{image_lacks, base_type, own_unwritable_scalar};
ghost use Rattle.module_semantics.specs.LackingScalars.{wordless};
ghost use Rattle.naga_tables.specs.Tables.{has_type_form_alone, stands_alone};
ghost use Rattle.wgsl_words.specs.Words.{space_word};

use crate::forms::has_word;
use naga_ir::{AddressSpace, Handle, ImageClass, Scalar, Type_, TypeInner};
use wgsl_words::space_str;

/// The type that a pointer or an array is over.
pub fn base_type(inner: &TypeInner) -> Option<Handle<Type_>>
    ensures { result ≡ base_type inner.now }
{
    match inner {
        TypeInner::Pointer { base, .. }
        | TypeInner::Array { base, .. }
        | TypeInner::BindingArray { base, .. } => Some(*base),
        _ => None,
    }
}

/// The scalar without a word in WGSL that it is made of, if it is made of such a one. A pointer and an
/// array are made of a type, and lack none by themselves.
pub fn own_unwritable_scalar(inner: &TypeInner) -> Option<Scalar>
    ensures { result ≡ own_unwritable_scalar inner.now }
{
    match inner {
        TypeInner::Scalar(scalar)
        | TypeInner::Vector { scalar, .. }
        | TypeInner::Matrix { scalar, .. }
        | TypeInner::CooperativeMatrix { scalar, .. }
        | TypeInner::Atomic(scalar)
        | TypeInner::ValuePointer { scalar, .. } => wordless(*scalar),
        TypeInner::Image { class, .. } => image_lacks(*class),
        _ => None,
    }
}

/// The scalar that an image lacks: one that is sampled has scalars of four bytes.
fn image_lacks(class: ImageClass) -> Option<Scalar>
    ensures { result ≡ image_lacks class }
{
    match class {
        ImageClass::Sampled { kind, .. } => wordless(Scalar { kind, width: 4 }),
        _ => None,
    }
}

/// The scalar, where WGSL has no word for it.
fn wordless(scalar: Scalar) -> Option<Scalar>
    ensures { result ≡ wordless scalar }
{
    if has_word(scalar) { None } else { Some(scalar) }
}

/// Whether it is over no type of the module, and neither a struct nor a pointer into a space
/// without a word.
fn stands_alone(inner: &TypeInner) -> bool
    ensures { result ≡ stands_alone inner.now }
{
    match inner {
        TypeInner::Pointer { .. }
        | TypeInner::Array { .. }
        | TypeInner::BindingArray { .. }
        | TypeInner::Struct { .. } => false,
        TypeInner::ValuePointer { space, .. } => has_space_word(*space),
        _ => true,
    }
}

/// Whether WGSL has a word for the space.
fn has_space_word(space: AddressSpace) -> bool
    ensures { result ≡ is_some (space_word space) }
{
    space_str(space).is_some()
}

/// Whether WGSL spells it, where it is over no type of the module. A struct it spells by its handle,
/// and so none by itself.
pub(crate) fn has_type_form_alone(inner: &TypeInner) -> bool
    ensures { result ≡ has_type_form_alone inner.now }
{
    stands_alone(inner) && own_unwritable_scalar(inner).is_none()
}
