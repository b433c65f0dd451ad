//! Tests of what the spelling of a type asks of its context.

ghost use Rattle.std.specs.Prelude.{◌≡◌, ℕ, List, length, IsTrue};
ghost use Rattle.naga_ir.specs.declared.module.Override.{Override};
ghost use Rattle.naga_naming.specs.Keys.{NameMap};
ghost use Rattle.naga_spelling.specs.Contexts.{arena_context, global_context, names_context};
ghost use Rattle.naga_spelling.specs.Spelling.{IsInOrder, StandsAfter, size_within};

use naga_ir::{ArraySize, Handle, ItemIndex, Type_, TypeInner, UniqueArena};

fn size_fits(overrides: usize, size: ArraySize) -> bool
    ensures { result ≡ size_within overrides size }
{
    match size {
        ArraySize::Pending(handle) => handle.index() < overrides,
        ArraySize::Constant(_) => true,
        ArraySize::Dynamic => true,
    }
}

/// Whether the type that a type names is one of the first `types`, and the override of its length
/// one of the first `overrides`.
pub fn type_fits(types: usize, overrides: usize, inner: &TypeInner) -> bool
    ensures { IsTrue result → StandsAfter types overrides inner.now }
{
    match inner {
        TypeInner::Pointer { base, .. } => base.index() < types,
        TypeInner::Array { base, size, .. } => {
            base.index() < types && size_fits(overrides, *size)
        }
        TypeInner::BindingArray { base, size } => {
            base.index() < types && size_fits(overrides, *size)
        }
        TypeInner::Scalar(_) => true,
        TypeInner::Vector { .. } => true,
        TypeInner::Matrix { .. } => true,
        TypeInner::CooperativeMatrix { .. } => true,
        TypeInner::Atomic(_) => true,
        TypeInner::ValuePointer { .. } => true,
        TypeInner::Struct { .. } => true,
        TypeInner::Image { .. } => true,
        TypeInner::Sampler { .. } => true,
        TypeInner::AccelerationStructure { .. } => true,
        TypeInner::RayQuery { .. } => true,
    }
}

/// Whether each type stands after the type that it names, and each override that a length names is
/// one of the first `overrides`. Then the types are in order for each context.
pub fn types_in_order(types: &UniqueArena<Type_>, overrides: usize) -> bool
    ensures arena { IsTrue result → IsInOrder (arena_context types.now) }
    ensures global { IsTrue result → (os : List Override) → length os ≡ overrides →
        IsInOrder (global_context types.now os) }
    ensures names { IsTrue result → (names : NameMap) → IsInOrder (names_context types.now names) }
{
    for index in 0..types.len() {
        let handle: Handle<Type_> = ItemIndex::from_index(index);
        if !type_fits(index, overrides, &types[handle].inner) {
            return false;
        }
    }
    true
}
