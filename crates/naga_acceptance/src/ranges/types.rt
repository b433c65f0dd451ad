//! Whether what types name is there, and stands before them.

ghost use Rattle.std.specs.Prelude.{◌≡◌, length};
ghost use Rattle.std.specs.List.{enumerate_from, list_all};
ghost use Rattle.naga_acceptance.specs.FirstFaults.{types_range_fault};
ghost use Rattle.naga_acceptance.specs.Searching.{first_unfit};
ghost use Rattle.naga_spelling.specs.Spelling.{length_within, size_within};
ghost use Rattle.module_semantics.specs.acceptance.Ranges.{members_before, numbers_in_range};
ghost use Rattle.module_semantics.specs.acceptance.Ranges.{parts_before};
ghost use Rattle.module_semantics.specs.acceptance.Ranges.{resolution_in_range, type_in_range};

use crate::faults::{Fault, FaultPosition, Unaccepted, at};
use crate::ranges::numbers::type_fits_32_bits;
use naga_info::TypeResolution;
use naga_ir::{ArraySize, Handle, Module, StructMember, Type_, TypeInner, UniqueArena};

/// Whether the members' types are among the first `types`.
fn members_before(types: usize, members: &[StructMember]) -> bool
    ensures { result ≡ members_before types members.now }
{
    for member in members {
        if member.ty.index() >= types {
            return false;
        }
    }
    true
}

/// Whether the types that a type is made of are among the first `types`.
pub(crate) fn parts_before(types: usize, inner: &TypeInner) -> bool
    ensures { result ≡ parts_before types inner.now }
{
    match inner {
        TypeInner::Scalar(_)
        | TypeInner::Vector { .. }
        | TypeInner::Matrix { .. }
        | TypeInner::CooperativeMatrix { .. }
        | TypeInner::Atomic(_)
        | TypeInner::ValuePointer { .. }
        | TypeInner::Image { .. }
        | TypeInner::Sampler { .. }
        | TypeInner::AccelerationStructure { .. }
        | TypeInner::RayQuery { .. } => true,
        TypeInner::Pointer { base, .. }
        | TypeInner::Array { base, .. }
        | TypeInner::BindingArray { base, .. } => base.index() < types,
        TypeInner::Struct { members, .. } => members_before(types, members),
    }
}

/// The first type whose parts do not stand before it.
fn first_early(types: &UniqueArena<Type_>) -> Option<Handle<Type_>>
    ensures { result ≡ first_unfit (λ h t. parts_before h t.inner) (enumerate_from 0 types.now) }
{
    for (handle, ty) in types.iter() {
        if !parts_before(handle.index(), &ty.inner) {
            return Some(handle);
        }
    }
    None
}

fn size_within(overrides: usize, size: ArraySize) -> bool
    ensures { result ≡ size_within overrides size }
{
    match size {
        ArraySize::Pending(handle) => handle.index() < overrides,
        ArraySize::Constant(_) => true,
        ArraySize::Dynamic => true,
    }
}

/// Whether the override that a type's length names is one of so many.
pub(crate) fn length_within(overrides: usize, inner: &TypeInner) -> bool
    ensures { result ≡ length_within overrides inner.now }
{
    match inner {
        TypeInner::Array { size, .. } | TypeInner::BindingArray { size, .. } => {
            size_within(overrides, *size)
        }
        _ => true,
    }
}

/// Whether the override that a type's length names is one of so many, and its numbers have 32 bits.
fn numbers_in_range(overrides: usize, inner: &TypeInner) -> bool
    ensures { result ≡ numbers_in_range overrides inner.now }
{
    length_within(overrides, inner) && type_fits_32_bits(inner)
}

/// The first type whose length names an override that is not one of so many.
fn first_without_length(overrides: usize, types: &UniqueArena<Type_>) -> Option<Handle<Type_>>
    ensures { result ≡ first_unfit (λ _ t. numbers_in_range overrides t.inner)
        (enumerate_from 0 types.now) }
{
    for (handle, ty) in types.iter() {
        if !numbers_in_range(overrides, &ty.inner) {
            return Some(handle);
        }
    }
    None
}

/// The first type whose parts do not stand before it, or else the first whose length names an
/// override that is not there.
pub(crate) fn types_range_fault(module: &Module) -> Option<Unaccepted>
    ensures { result ≡ types_range_fault «module».now }
{
    if let Some(handle) = first_early(&module.types) {
        return Some(at(FaultPosition::Type(handle), Fault::TypeParts));
    }
    match first_without_length(module.overrides.len(), &module.types) {
        Some(handle) => Some(at(FaultPosition::Type(handle), Fault::TypeLength)),
        None => None,
    }
}

fn type_in_range(overrides: usize, types: usize, inner: &TypeInner) -> bool
    ensures { result ≡ type_in_range overrides types inner.now }
{
    parts_before(types, inner) && numbers_in_range(overrides, inner)
}

/// Whether a known type names types and an override that there are.
pub(crate) fn resolution_in_range(overrides: usize, types: usize, ty: &TypeResolution) -> bool
    ensures { result ≡ resolution_in_range overrides types ty.now }
{
    match ty {
        TypeResolution::Handle(handle) => handle.index() < types,
        TypeResolution::Value(inner) => type_in_range(overrides, types, inner),
    }
}
