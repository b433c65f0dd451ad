//! Whether a type has a spelling in its module: types stand in order, and what it names is there.

ghost use Rattle.std.specs.Prelude.{◌≡◌, ◌≤◌, ◌↔◌, IsTrue};
ghost use Rattle.naga_spelling.specs.Contexts.{global_context};
ghost use Rattle.naga_spelling.specs.Spelling.{FitsResolution, IsInOrder, StandsAfter, end_of_base};
ghost use Rattle.naga_spelling.specs.Spelling.{length_within};

use naga_info::TypeResolution;
use naga_ir::{ArraySize, Handle, ItemIndex, Module, Type_, TypeInner};

/// Whether the type that a type names is one of the first `types`.
fn base_fits(types: usize, inner: &TypeInner) -> bool
    ensures { IsTrue result ↔ end_of_base inner.now ≤ types }
{
    match inner {
        TypeInner::Pointer { base, .. }
        | TypeInner::Array { base, .. }
        | TypeInner::BindingArray { base, .. } => base.index() < types,
        _ => true,
    }
}

/// Whether the override of its length is one of so many.
fn length_fits(overrides: usize, inner: &TypeInner) -> bool
    ensures { result ≡ length_within overrides inner.now }
{
    match inner {
        TypeInner::Array { size, .. } | TypeInner::BindingArray { size, .. } => match size {
            ArraySize::Pending(handle) => handle.index() < overrides,
            ArraySize::Constant(_) | ArraySize::Dynamic => true,
        },
        _ => true,
    }
}

/// Both.
fn stands_following(types: usize, overrides: usize, inner: &TypeInner) -> bool
    ensures { IsTrue result ↔ StandsAfter types overrides inner.now }
{
    base_fits(types, inner) && length_fits(overrides, inner)
}

/// Whether each type of the module stands after those that it names, and the overrides of lengths
/// are there.
pub(crate) fn is_in_order(module: &Module) -> bool
    ensures { IsTrue result
        ↔ IsInOrder (global_context «module».now.types «module».now.overrides) }
{
    for index in 0..module.types.len() {
        let handle: Handle<Type_> = ItemIndex::from_index(index);
        if !stands_following(index, module.overrides.len(), &module.types[handle].inner) {
            return false;
        }
    }
    true
}

/// Whether what a type names is there.
pub(crate) fn fits(module: &Module, ty: &TypeResolution) -> bool
    ensures { IsTrue result ↔ FitsResolution
        (global_context «module».now.types «module».now.overrides) ty.now }
{
    let types = module.types.len();
    match ty {
        TypeResolution::Handle(handle) => handle.index() < types,
        TypeResolution::Value(inner) => stands_following(types, module.overrides.len(), inner),
    }
}
