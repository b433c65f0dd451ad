//! Whether two types are alike: whether WGSL spells them alike, each struct and each override
//! standing for its handle. A type without a form is alike only to itself.

ghost use Rattle.std.specs.Prelude.{◌≡◌, ◌≤◌, ◌&&◌, ◌++◌, ℕ, suc, List, [], true, unwrap_or, Some};
ghost use Rattle.std.specs.Prelude.{None};
ghost use Rattle.std.specs.Option.{IfSome, is_some, option_and_then, option_map};
ghost use Rattle.std.specs.Str.{bytes_eq};
ghost use Rattle.module_semantics.specs.AlikeTypes.{are_alike as types_alike, key_within};
ghost use Rattle.module_semantics.specs.AlikeTypes.{handle_key, has_type_form, image_key};
ghost use Rattle.module_semantics.specs.AlikeTypes.{access_number, inner_key_by, over_scalar};
ghost use Rattle.module_semantics.specs.AlikeTypes.{type_key, type_identity, value_key};
ghost use Rattle.module_semantics.specs.AlikeTypes.{value_pointer_key};
ghost use Rattle.module_semantics.specs.TypeIdentity.{identity, identity_code, image_code};
ghost use Rattle.module_semantics.specs.TypeIdentity.{inner_code, length_kind, length_number, level};
ghost use Rattle.module_semantics.specs.TypeIdentity.{space_number};
ghost use Rattle.naga_acceptance.specs.KnownTypes.{inferred};
ghost use Rattle.naga_acceptance.specs.Views.{bases, depth, unsupported_code, is_whole, next_key};
ghost use Rattle.naga_acceptance.specs.Views.{numbers, over_key, rank, identity_numbers, top_key};
ghost use Rattle.naga_acceptance.specs.declared.alike.Over.TheVariants.{Nothing};
ghost use Rattle.naga_info.specs.declared.info.TypeResolution.TheVariants.{Handle};
ghost use Rattle.naga_ir.specs.declared.types.Type_ as ir_type;
ghost use Rattle.wgsl_words.specs.Words.{scalar_word};

use crate::parts::{InferredType, component_count};
use crate::type_numbers::{
    Level, access_number, components_number, cooperative_number, dimension_number,
    image_access_number, is_same_level, kind_number, length_kind, length_number, level_of,
    level_of_scalar, level_of_truth, matrix_role_number, space_bits, space_number, truth_number,
};
use bitflags::Flags;
use naga_info::TypeResolution;
use naga_ir::{
    AddressSpace, ArraySize, Handle, ImageClass, ImageDimension, Scalar, ScalarKind, Type_,
    TypeInner, UniqueArena, VectorSize,
};

/// What a type is over.
#[derive(Debug, Clone, Copy)]
pub(crate) enum Over {
    /// Nothing that has a form of its own.
    Nothing,
    /// A type of the module, of which no more than `deeper` further levels are looked at.
    Type_ {
        handle: Handle<Type_>,
        deeper: usize,
    },
    /// A vector, or a scalar.
    Value {
        size: Option<VectorSize>,
        scalar: Scalar,
    },
}

/// A type with a form, if what it is over has one.
#[derive(Debug, Clone, Copy)]
pub(crate) struct Top {
    pub(crate) level: Level,
    pub(crate) over: Over,
}

/// What tells a type.
#[derive(Debug, Clone, Copy)]
pub(crate) enum Identity {
    /// Its form.
    Formed(Top),
    /// What it is, where WGSL has no form for it: the type by itself, or nothing.
    Unsupported(Option<Level>),
}

/// Whether WGSL has a word for the scalar.
fn has_scalar_word(scalar: Scalar) -> bool
    ensures { result ≡ is_some (scalar_word scalar) }
{
    match scalar.kind {
        ScalarKind::Bool => scalar.width == 1,
        ScalarKind::Sint | ScalarKind::Uint | ScalarKind::Float => {
            scalar.width == 2 || scalar.width == 4 || scalar.width == 8
        }
        ScalarKind::AbstractInt | ScalarKind::AbstractFloat => false,
    }
}

fn over_scalar(tag: usize, scalar: Scalar, third: usize, fourth: usize, fifth: usize) -> Option<Top>
    ensures form { (types : List ir_type.Type_) →
        top_key types result ≡ over_scalar tag scalar third fourth fifth }
    ensures over { IfSome result (λ top. top.over ≡ Nothing) }
{
    if has_scalar_word(scalar) {
        let level = level_of_scalar(tag, scalar, third, fourth, fifth);
        Some(Top {
            level,
            over: Over::Nothing,
        })
    } else {
        None
    }
}

fn value_top(size: Option<VectorSize>, scalar: Scalar) -> Option<Top>
    ensures form { (types : List ir_type.Type_) → top_key types result ≡ value_key size scalar }
    ensures over { IfSome result (λ top. top.over ≡ Nothing) }
{
    match size {
        Some(size) => over_scalar(1, scalar, component_count(size), 0, 0),
        None => over_scalar(0, scalar, 0, 0, 0),
    }
}

/// The type that a type is over: whole, or at most `within` levels deep.
#[tactic(auto, unfolding(module_semantics::specs::AlikeTypes::handle_key))]
fn over_base(base: Handle<Type_>, within: Option<usize>) -> Option<Over>
    ensures form { (types : List ir_type.Type_) →
        option_and_then (over_key types) result ≡ bases types within base }
    ensures depth { (levels : ℕ) → within ≡ Some levels →
        IfSome result (λ over. depth over ≤ levels) }
{
    match within {
        None => Some(Over::Type_ {
            handle: base,
            deeper: base.index(),
        }),
        Some(0) => None,
        Some(levels) => Some(Over::Type_ {
            handle: base,
            deeper: levels - 1,
        }),
    }
}

/// A level over a type that has a form, if it has one.
fn level_over(level: Level, over: Option<Over>) -> Option<Top>
    ensures form { (types : List ir_type.Type_) → top_key types result
        ≡ option_map (λ rest. numbers level ++ rest) (option_and_then (over_key types) over) }
    ensures depth { (levels : ℕ) → IfSome over (λ o. depth o ≤ levels) →
        IfSome result (λ top. depth top.over ≤ levels) }
{
    match over {
        Some(over) => Some(Top { level, over }),
        None => None,
    }
}

fn pointer_level(space: AddressSpace) -> Level
    ensures { numbers result ≡ level 5 (space_number space) (access_number space) 0 0 0 }
{
    level_of(5, space_number(space), access_number(space), 0, 0, 0)
}

fn array_level(tag: usize, size: &ArraySize) -> Level
    ensures { numbers result ≡ level tag (length_kind size.now) (length_number size.now) 0 0 0 }
{
    level_of(tag, length_kind(size), length_number(size), 0, 0, 0)
}

/// A type that is over nothing, with this level.
fn alone(tag: usize, first: usize, second: usize, third: usize, fourth: usize, fifth: usize) -> Top
    ensures form { (types : List ir_type.Type_) →
        top_key types (Some result) ≡ Some (level tag first second third fourth fifth) }
    ensures over { result.over ≡ Nothing }
{
    let level = level_of(tag, first, second, third, fourth, fifth);
    Top {
        level,
        over: Over::Nothing,
    }
}

fn image_top(dim: ImageDimension, arrayed: bool, class: ImageClass) -> Option<Top>
    ensures form { (types : List ir_type.Type_) →
        top_key types result ≡ image_key dim arrayed class }
    ensures over { IfSome result (λ top. top.over ≡ Nothing) }
{
    let dimension = dimension_number(dim);
    let arrays = truth_number(arrayed);
    match class {
        ImageClass::Sampled { kind, multi } => {
            if has_scalar_word(Scalar { kind, width: 4 }) {
                Some(alone(
                    9,
                    dimension,
                    arrays,
                    0,
                    kind_number(kind),
                    truth_number(multi),
                ))
            } else {
                None
            }
        }
        ImageClass::Depth { multi } => {
            Some(alone(9, dimension, arrays, 1, truth_number(multi), 0))
        }
        ImageClass::Storage { format, access } => {
            Some(alone(
                9,
                dimension,
                arrays,
                2,
                format as usize,
                image_access_number(access),
            ))
        }
        ImageClass::External => Some(alone(9, 0, 0, 3, 0, 0)),
    }
}

/// A type by itself that is over the type with the handle `base`, or over none.
fn inner_top(inner: &TypeInner, within: Option<usize>) -> Option<Top>
    ensures form { (types : List ir_type.Type_) →
        top_key types result ≡ inner_key_by (bases types within) inner.now }
    ensures depth { (levels : ℕ) → within ≡ Some levels →
        IfSome result (λ top. depth top.over ≤ levels) }
{
    match inner {
        TypeInner::Scalar(scalar) => value_top(None, *scalar),
        TypeInner::Vector { size, scalar } => value_top(Some(*size), *scalar),
        TypeInner::Matrix {
            columns,
            rows,
            scalar,
        } => {
            over_scalar(
                2,
                *scalar,
                component_count(*columns),
                component_count(*rows),
                0,
            )
        }
        TypeInner::CooperativeMatrix {
            columns,
            rows,
            scalar,
            role,
        } => over_scalar(
            3,
            *scalar,
            cooperative_number(*columns),
            cooperative_number(*rows),
            matrix_role_number(*role),
        ),
        TypeInner::Atomic(scalar) => over_scalar(4, *scalar, 0, 0, 0),
        TypeInner::Pointer { base, space } => {
            level_over(pointer_level(*space), over_base(*base, within))
        }
        TypeInner::ValuePointer {
            size,
            scalar,
            space,
        } => { value_pointer_top(*size, *scalar, *space) }
        TypeInner::Array { base, size, .. } => {
            level_over(array_level(6, size), over_base(*base, within))
        }
        TypeInner::BindingArray { base, size } => {
            level_over(array_level(7, size), over_base(*base, within))
        }
        TypeInner::Struct { .. } => None,
        TypeInner::Image {
            dim,
            arrayed,
            class,
        } => image_top(*dim, *arrayed, *class),
        TypeInner::Sampler { comparison } => Some(alone(10, truth_number(*comparison), 0, 0, 0, 0)),
        TypeInner::AccelerationStructure { vertex_return } => {
            Some(alone(11, truth_number(*vertex_return), 0, 0, 0, 0))
        }
        TypeInner::RayQuery { vertex_return } => {
            Some(alone(12, truth_number(*vertex_return), 0, 0, 0, 0))
        }
    }
}

fn value_pointer_top(size: Option<VectorSize>, scalar: Scalar, space: AddressSpace) -> Option<Top>
    ensures form { (types : List ir_type.Type_) →
        top_key types result ≡ value_pointer_key space (value_key size scalar) }
    ensures depth { IfSome result (λ top. depth top.over ≡ 0) }
{
    match space {
        AddressSpace::Handle => None,
        _ => Some(Top {
            level: pointer_level(space),
            over: Over::Value { size, scalar },
        }),
    }
}

/// The type with this handle, of which no more than `deeper` further levels are looked at.
fn type_top(types: &UniqueArena<Type_>, handle: Handle<Type_>, deeper: usize) -> Option<Top>
    ensures form { top_key types.now result ≡ key_within (suc deeper) types.now handle }
    ensures depth { IfSome result (λ top. depth top.over ≤ deeper) }
{
    if handle.index() >= types.len() {
        return None;
    }
    match &types[handle].inner {
        TypeInner::Struct { .. } => Some(alone(8, handle.index(), 0, 0, 0, 0)),
        inner => inner_top(inner, Some(deeper)),
    }
}

#[tactic(auto, unfolding(module_semantics::specs::AlikeTypes::handle_key))]
fn inferred_top(types: &UniqueArena<Type_>, ty: &InferredType) -> Option<Top>
    ensures { top_key types.now result ≡ type_key types.now (inferred ty.now) }
{
    match *ty {
        InferredType::Handle(handle) => type_top(types, handle, handle.index()),
        InferredType::Scalar(scalar) => value_top(None, scalar),
        InferredType::Vector { size, scalar } => value_top(Some(size), scalar),
        InferredType::Matrix {
            columns,
            rows,
            scalar,
        } => over_scalar(
            2,
            scalar,
            component_count(columns),
            component_count(rows),
            0,
        ),
        InferredType::Pointer { base, space } => {
            level_over(pointer_level(space), over_base(base, None))
        }
        InferredType::ValuePointer {
            size,
            scalar,
            space,
        } => value_pointer_top(size, scalar, space),
    }
}

#[tactic(auto, unfolding(module_semantics::specs::AlikeTypes::handle_key))]
fn resolution_top(types: &UniqueArena<Type_>, ty: &TypeResolution) -> Option<Top>
    ensures { top_key types.now result ≡ type_key types.now ty.now }
{
    match ty {
        TypeResolution::Handle(handle) => type_top(types, *handle, handle.index()),
        TypeResolution::Value(inner) => inner_top(inner, None),
    }
}

/// Whether what a type is over has a form.
fn over_has_type_form(types: &UniqueArena<Type_>, over: Over) -> bool
    ensures { result ≡ is_some (over_key types.now over) }
{
    let mut over = over;
    loop {
        match over {
            Over::Nothing => return true,
            Over::Value { scalar, .. } => return has_scalar_word(scalar),
            Over::Type_ { handle, deeper } => match type_top(types, handle, deeper) {
                Some(top) => over = top.over,
                None => return false,
            },
        }
    }
}

fn top_has_type_form(types: &UniqueArena<Type_>, top: Option<Top>) -> bool
    ensures { result ≡ is_some (top_key types.now top) }
{
    match top {
        Some(top) => over_has_type_form(types, top.over),
        None => false,
    }
}

/// Whether WGSL spells the type.
pub(crate) fn inferred_has_type_form(types: &UniqueArena<Type_>, ty: &InferredType) -> bool
    ensures { result ≡ has_type_form types.now (inferred ty.now) }
{
    top_has_type_form(types, inferred_top(types, ty))
}

/// What `over` is, if it is something that has a level.
pub(crate) fn next(types: &UniqueArena<Type_>, over: Over) -> Option<Top>
    ensures form { next_key over (top_key types.now result) ≡ over_key types.now over }
    ensures rank { IfSome result (λ top. suc (rank top.over) ≤ rank over) }
{
    match over {
        Over::Nothing => None,
        Over::Value { size, scalar } => value_top(size, scalar),
        Over::Type_ { handle, deeper } => type_top(types, handle, deeper),
    }
}

/// Whether what two types are over, which has a form, has the same levels.
fn is_over_same(types: &UniqueArena<Type_>, a: Over, b: Over) -> bool
    requires a { is_some (over_key types.now a) ≡ true }
    requires b { is_some (over_key types.now b) ≡ true }
    ensures { result ≡ bytes_eq
        (unwrap_or (over_key types.now a) []) (unwrap_or (over_key types.now b) []) }
{
    let (mut one, mut other) = (a, b);
    loop {
        match next(types, one) {
            Some(x) => match next(types, other) {
                Some(y) => {
                    if !is_same_level(&x.level, &y.level) {
                        return false;
                    }
                    one = x.over;
                    other = y.over;
                }
                None => return false,
            },
            None => match next(types, other) {
                Some(_) => return false,
                None => return true,
            },
        }
    }
}

/// The top, if what it is over has a form.
fn formed(types: &UniqueArena<Type_>, top: Option<Top>) -> Option<Top>
    ensures form { top_key types.now result ≡ top_key types.now top }
    ensures over { IfSome result (λ top. is_some (over_key types.now top.over) ≡ true) }
{
    match top {
        Some(top) if over_has_type_form(types, top.over) => Some(top),
        _ => None,
    }
}

/// The numbers of a type by itself, whether it has a form or not.
fn own_level(inner: &TypeInner) -> Level
    ensures { numbers result ≡ inner_code inner.now }
{
    match inner {
        TypeInner::Scalar(scalar) => level_of_scalar(0, *scalar, 0, 0, 0),
        TypeInner::Vector { size, scalar } => {
            level_of_scalar(1, *scalar, component_count(*size), 0, 0)
        }
        TypeInner::Matrix {
            columns,
            rows,
            scalar,
        } => level_of_scalar(
            2,
            *scalar,
            component_count(*columns),
            component_count(*rows),
            0,
        ),
        TypeInner::CooperativeMatrix {
            columns,
            rows,
            scalar,
            role,
        } => level_of_scalar(
            3,
            *scalar,
            cooperative_number(*columns),
            cooperative_number(*rows),
            matrix_role_number(*role),
        ),
        TypeInner::Atomic(scalar) => level_of_scalar(4, *scalar, 0, 0, 0),
        TypeInner::Pointer { base, space } => level_of(
            5,
            base.index(),
            space_number(*space),
            space_bits(*space),
            0,
            0,
        ),
        TypeInner::ValuePointer {
            size,
            scalar,
            space,
        } => level_of_scalar(
            6,
            *scalar,
            components_number(*size),
            space_number(*space),
            space_bits(*space),
        ),
        TypeInner::Array { base, size, stride } => level_of(
            7,
            base.index(),
            *stride as usize,
            length_kind(size),
            length_number(size),
            0,
        ),
        TypeInner::BindingArray { base, size } => level_of(
            8,
            base.index(),
            length_kind(size),
            length_number(size),
            0,
            0,
        ),
        TypeInner::Image {
            dim,
            arrayed,
            class,
        } => own_image_level(*dim, *arrayed, *class),
        TypeInner::Sampler { comparison } => level_of_truth(10, *comparison),
        TypeInner::AccelerationStructure { vertex_return } => level_of_truth(11, *vertex_return),
        TypeInner::RayQuery { vertex_return } => level_of_truth(12, *vertex_return),
        TypeInner::Struct { .. } => level_of(13, 0, 0, 0, 0, 0),
    }
}

fn own_image_level(dim: ImageDimension, arrayed: bool, class: ImageClass) -> Level
    ensures { numbers result ≡ image_code dim arrayed class }
{
    let dimension = dimension_number(dim);
    let arrays = truth_number(arrayed);
    match class {
        ImageClass::Sampled { kind, multi } => {
            level_of(
                9,
                dimension,
                arrays,
                0,
                kind_number(kind),
                truth_number(multi),
            )
        }
        ImageClass::Depth { multi } => level_of(9, dimension, arrays, 1, truth_number(multi), 0),
        ImageClass::Storage { format, access } => {
            level_of(
                9,
                dimension,
                arrays,
                2,
                format as usize,
                access.bits() as usize,
            )
        }
        ImageClass::External => level_of(9, dimension, arrays, 3, 0, 0),
    }
}

/// The numbers of a type of the module without a form, if there is such a type.
fn unsupported_level_at(types: &UniqueArena<Type_>, handle: Handle<Type_>) -> Option<Level>
    ensures { handle_key types.now handle ≡ None → unsupported_code (option_map numbers result)
        ≡ identity_code (identity types.now (Handle handle)) }
{
    if handle.index() < types.len() {
        Some(own_level(&types[handle].inner))
    } else {
        None
    }
}

fn resolution_unsupported_level(types: &UniqueArena<Type_>, ty: &TypeResolution) -> Option<Level>
    ensures { type_key types.now ty.now ≡ None → unsupported_code (option_map numbers result)
        ≡ identity_code (identity types.now ty.now) }
{
    match ty {
        TypeResolution::Handle(handle) => unsupported_level_at(types, *handle),
        TypeResolution::Value(inner) => match inner {
            TypeInner::Struct { .. } => None,
            _ => Some(own_level(inner)),
        },
    }
}

fn inferred_unsupported_level(types: &UniqueArena<Type_>, ty: &InferredType) -> Option<Level>
    ensures { type_key types.now (inferred ty.now) ≡ None →
        unsupported_code (option_map numbers result)
        ≡ identity_code (identity types.now (inferred ty.now)) }
{
    match *ty {
        InferredType::Handle(handle) => unsupported_level_at(types, handle),
        InferredType::Scalar(scalar) => Some(level_of_scalar(0, scalar, 0, 0, 0)),
        InferredType::Vector { size, scalar } => {
            Some(level_of_scalar(1, scalar, component_count(size), 0, 0))
        }
        InferredType::Matrix {
            columns,
            rows,
            scalar,
        } => Some(level_of_scalar(
            2,
            scalar,
            component_count(columns),
            component_count(rows),
            0,
        )),
        InferredType::Pointer { base, space } => {
            Some(level_of(
                5,
                base.index(),
                space_number(space),
                space_bits(space),
                0,
                0,
            ))
        }
        InferredType::ValuePointer {
            size,
            scalar,
            space,
        } => Some(level_of_scalar(
            6,
            scalar,
            components_number(size),
            space_number(space),
            space_bits(space),
        )),
    }
}

/// What tells a known type.
pub(crate) fn identity_of(types: &UniqueArena<Type_>, ty: &TypeResolution) -> Identity
    ensures identity_numbers { identity_numbers types.now result ≡ type_identity types.now ty.now }
    ensures whole { is_whole types.now result ≡ true }
{
    match formed(types, resolution_top(types, ty)) {
        Some(top) => Identity::Formed(top),
        None => Identity::Unsupported(resolution_unsupported_level(types, ty)),
    }
}

/// What tells a type that is given.
pub(crate) fn inferred_identity(types: &UniqueArena<Type_>, ty: &InferredType) -> Identity
    ensures identity_numbers { identity_numbers types.now result ≡ type_identity types.now
        (inferred ty.now) }
    ensures whole { is_whole types.now result ≡ true }
{
    match formed(types, inferred_top(types, ty)) {
        Some(top) => Identity::Formed(top),
        None => Identity::Unsupported(inferred_unsupported_level(types, ty)),
    }
}

/// Whether two types without a form are told by the same.
fn is_same_unsupported(a: Option<Level>, b: Option<Level>) -> bool
    ensures { result ≡ bytes_eq (unsupported_code (option_map numbers a))
        (unsupported_code (option_map numbers b)) }
{
    match (a, b) {
        (Some(a), Some(b)) => is_same_level(&a, &b),
        (None, None) => true,
        _ => false,
    }
}

/// Whether two types are told by the same.
pub(crate) fn are_alike(types: &UniqueArena<Type_>, a: Identity, b: Identity) -> bool
    requires a { is_whole types.now a ≡ true }
    requires b { is_whole types.now b ≡ true }
    ensures { result ≡ bytes_eq (identity_numbers types.now a) (identity_numbers types.now b) }
{
    match (a, b) {
        (Identity::Formed(x), Identity::Formed(y)) => {
            is_same_level(&x.level, &y.level) && is_over_same(types, x.over, y.over)
        }
        (Identity::Unsupported(x), Identity::Unsupported(y)) => is_same_unsupported(x, y),
        _ => false,
    }
}

/// Whether both are one handle. Most types of a module are told by handles, which need no numbers.
fn is_one_handle(a: &TypeResolution, b: &TypeResolution) -> bool
    ensures { result ≡ true → a.now ≡ b.now }
{
    match (a, b) {
        (TypeResolution::Handle(x), TypeResolution::Handle(y)) => x == y,
        _ => false,
    }
}

/// Whether two known types are alike.
pub(crate) fn are_known_alike(
    types: &UniqueArena<Type_>,
    a: &TypeResolution,
    b: &TypeResolution,
) -> bool
    ensures { result ≡ types_alike types.now a.now b.now }
{
    is_one_handle(a, b) || are_alike(types, identity_of(types, a), identity_of(types, b))
}

/// Whether a known type is the given one by its handle.
fn is_inferred_handle(own: &TypeResolution, expected: &InferredType) -> bool
    ensures { result ≡ true → own.now ≡ inferred expected.now }
{
    match (own, expected) {
        (TypeResolution::Handle(x), InferredType::Handle(y)) => x == y,
        _ => false,
    }
}

/// Whether a known type is like a given one.
pub fn is_like(types: &UniqueArena<Type_>, own: &TypeResolution, expected: &InferredType) -> bool
    ensures { result ≡ types_alike types.now own.now (inferred expected.now) }
{
    is_inferred_handle(own, expected)
        || are_alike(
            types,
            identity_of(types, own),
            inferred_identity(types, expected),
        )
}
