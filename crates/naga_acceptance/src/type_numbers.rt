//! Numbers for what types and operators are made of: different ones for different things.

ghost use Rattle.std.specs.Prelude.{◌≡◌};
ghost use Rattle.std.specs.Str.{bytes_eq};
ghost use Rattle.module_semantics.specs.AlikeTypes.{access_number, buffer_access_number};
ghost use Rattle.module_semantics.specs.AlikeTypes.{image_access_number};
ghost use Rattle.module_semantics.specs.TypeIdentity.{components_number, cooperative_number};
ghost use Rattle.module_semantics.specs.TypeIdentity.{dimension_number, kind_number, length_kind};
ghost use Rattle.module_semantics.specs.TypeIdentity.{length_number, level, matrix_role_number, space_bits};
ghost use Rattle.module_semantics.specs.TypeIdentity.{space_number, truth_number};
ghost use Rattle.naga_acceptance.specs.Views.{numbers};

use crate::parts::component_count;
use bitflags::Flags;
use naga_ir::{
    AddressSpace, ArraySize, CooperativeRole, CooperativeSize, ImageDimension, Scalar, ScalarKind,
    StorageAccess, VectorSize,
};

/// Six numbers of a type, apart from what it is over, or of an operator: its kind, and what it is
/// made of.
#[derive(Debug, Clone, Copy)]
pub(crate) struct Level {
    pub(crate) tag: usize,
    pub(crate) first: usize,
    pub(crate) second: usize,
    pub(crate) third: usize,
    pub(crate) fourth: usize,
    pub(crate) fifth: usize,
}

pub(crate) fn kind_number(kind: ScalarKind) -> usize
    ensures { result ≡ kind_number kind }
{
    match kind {
        ScalarKind::Sint => 0,
        ScalarKind::Uint => 1,
        ScalarKind::Float => 2,
        ScalarKind::Bool => 3,
        ScalarKind::AbstractInt => 4,
        ScalarKind::AbstractFloat => 5,
    }
}

pub(crate) fn cooperative_number(size: CooperativeSize) -> usize
    ensures { result ≡ cooperative_number size }
{
    match size {
        CooperativeSize::Eight => 8,
        CooperativeSize::Sixteen => 16,
    }
}

pub(crate) fn matrix_role_number(role: CooperativeRole) -> usize
    ensures { result ≡ matrix_role_number role }
{
    match role {
        CooperativeRole::A => 0,
        CooperativeRole::B => 1,
        CooperativeRole::C => 2,
    }
}

pub(crate) fn space_number(space: AddressSpace) -> usize
    ensures { result ≡ space_number space }
{
    match space {
        AddressSpace::Function => 0,
        AddressSpace::Private => 1,
        AddressSpace::WorkGroup => 2,
        AddressSpace::Uniform => 3,
        AddressSpace::Storage { .. } => 4,
        AddressSpace::Handle => 5,
        AddressSpace::Immediate => 6,
        AddressSpace::TaskPayload => 7,
        AddressSpace::RayPayload => 8,
        AddressSpace::IncomingRayPayload => 9,
    }
}

pub(crate) fn dimension_number(dim: ImageDimension) -> usize
    ensures { result ≡ dimension_number dim }
{
    match dim {
        ImageDimension::D1 => 1,
        ImageDimension::D2 => 2,
        ImageDimension::D3 => 3,
        ImageDimension::Cube => 4,
    }
}

pub(crate) fn truth_number(flag: bool) -> usize
    ensures { result ≡ truth_number flag }
{
    if flag { 1 } else { 0 }
}

/// What may be done with a storage buffer, as its word tells.
pub(crate) fn buffer_access_number(access: StorageAccess) -> usize
    ensures { result ≡ buffer_access_number access }
{
    if access.contains(StorageAccess::ATOMIC) {
        2
    } else if access.contains(StorageAccess::STORE) {
        1
    } else {
        0
    }
}

pub(crate) fn access_number(space: AddressSpace) -> usize
    ensures { result ≡ access_number space }
{
    match space {
        AddressSpace::Storage { access } => buffer_access_number(access),
        _ => 0,
    }
}

/// What may be done with a storage image, as its word tells.
pub(crate) fn image_access_number(access: StorageAccess) -> usize
    ensures { result ≡ image_access_number access }
{
    if access.contains(StorageAccess::ATOMIC) {
        3
    } else if access.contains(StorageAccess::LOAD) {
        if access.contains(StorageAccess::STORE) {
            2
        } else {
            1
        }
    } else {
        0
    }
}

pub(crate) fn level_of(
    tag: usize,
    first: usize,
    second: usize,
    third: usize,
    fourth: usize,
    fifth: usize,
) -> Level
    ensures { numbers result ≡ level tag first second third fourth fifth }
{
    Level {
        tag,
        first,
        second,
        third,
        fourth,
        fifth,
    }
}

/// The numbers of a type that is made of one truth value.
pub(crate) fn level_of_truth(tag: usize, flag: bool) -> Level
    ensures { numbers result ≡ level tag (truth_number flag) 0 0 0 0 }
{
    level_of(tag, truth_number(flag), 0, 0, 0, 0)
}

pub(crate) fn level_of_scalar(
    tag: usize,
    scalar: Scalar,
    third: usize,
    fourth: usize,
    fifth: usize,
) -> Level
    ensures { numbers result
        ≡ level tag (kind_number scalar.kind) scalar.width third fourth fifth }
{
    level_of(
        tag,
        kind_number(scalar.kind),
        scalar.width as usize,
        third,
        fourth,
        fifth,
    )
}

/// How many components, where one stands by itself.
pub(crate) fn components_number(size: Option<VectorSize>) -> usize
    ensures { result ≡ components_number size }
{
    match size {
        Some(size) => component_count(size),
        None => 1,
    }
}

/// What may be done with the memory of the space, as bits.
pub(crate) fn space_bits(space: AddressSpace) -> usize
    ensures { result ≡ space_bits space }
{
    match space {
        AddressSpace::Storage { access } => access.bits() as usize,
        _ => 0,
    }
}

pub(crate) fn length_kind(size: &ArraySize) -> usize
    ensures { result ≡ length_kind size.now }
{
    match size {
        ArraySize::Constant(_) => 0,
        ArraySize::Pending(_) => 1,
        ArraySize::Dynamic => 2,
    }
}

pub(crate) fn length_number(size: &ArraySize) -> usize
    ensures { result ≡ length_number size.now }
{
    match size {
        ArraySize::Constant(length) => length.get() as usize,
        ArraySize::Pending(handle) => handle.index(),
        ArraySize::Dynamic => 0,
    }
}

pub(crate) fn is_same_level(a: &Level, b: &Level) -> bool
    ensures { result ≡ bytes_eq (numbers a.now) (numbers b.now) }
{
    a.tag == b.tag
        && a.first == b.first
        && a.second == b.second
        && a.third == b.third
        && a.fourth == b.fourth
        && a.fifth == b.fifth
}
