//! Whether initialisers have their items' types.

ghost use Rattle.std.specs.Prelude.{◌≡◌};
ghost use Rattle.std.specs.List.{enumerate_from};
ghost use Rattle.naga_acceptance.specs.FirstFaults.{initialisers_fault};
ghost use Rattle.naga_acceptance.specs.KnownTypes.{known_types};
ghost use Rattle.naga_acceptance.specs.Searching.{first_unfit};
ghost use Rattle.module_semantics.specs.acceptance.Initialisers.{constant_is_sound, global_is_sound};
ghost use Rattle.module_semantics.specs.acceptance.Initialisers.{initialiser_fits};
ghost use Rattle.module_semantics.specs.acceptance.Initialisers.{local_is_sound};
ghost use Rattle.module_semantics.specs.acceptance.Initialisers.{override_is_sound};

use crate::faults::{Fault, FaultPosition, Unaccepted, at};
use crate::parts::{InferredType, Known};
use crate::statements::value_has_type;
use naga_ir::{
    Arena, Constant, Expression, GlobalVariable, Handle, LocalVariable, Module, Override, Type_,
    UniqueArena,
};

/// Whether the initialiser, if there is one, has the type with this handle.
fn initialiser_fits(
    types: &UniqueArena<Type_>,
    known: Known<'_>,
    ty: Handle<Type_>,
    value: Option<Handle<Expression>>,
) -> bool
    ensures { result ≡ initialiser_fits types.now (known_types known.entry) ty value }
{
    match value {
        Some(value) => value_has_type(types, known, value, InferredType::Handle(ty)),
        None => true,
    }
}

/// Whether the first value of a function's variable has its type.
pub(crate) fn local_is_sound(
    types: &UniqueArena<Type_>,
    known: Known<'_>,
    local: &LocalVariable,
) -> bool
    ensures { result ≡ local_is_sound types.now (known_types known.entry) local.now }
{
    initialiser_fits(types, known, local.ty, local.init)
}

/// The first local whose initialiser has another type.
pub(crate) fn first_unsound_local(
    types: &UniqueArena<Type_>,
    known: Known<'_>,
    locals: &Arena<LocalVariable>,
) -> Option<Handle<LocalVariable>>
    ensures { result ≡ first_unfit (λ _. local_is_sound types.now (known_types known.entry))
        (enumerate_from 0 locals.now) }
{
    for (handle, local) in locals.iter() {
        if !local_is_sound(types, known, local) {
            return Some(handle);
        }
    }
    None
}

pub(crate) fn constant_is_sound(
    types: &UniqueArena<Type_>,
    known: Known<'_>,
    constant: &Constant,
) -> bool
    ensures { result ≡ constant_is_sound types.now (known_types known.entry) constant.now }
{
    initialiser_fits(types, known, constant.ty, Some(constant.init))
}

pub(crate) fn override_is_sound(
    types: &UniqueArena<Type_>,
    known: Known<'_>,
    item: &Override,
) -> bool
    ensures { result ≡ override_is_sound types.now (known_types known.entry) item.now }
{
    initialiser_fits(types, known, item.ty, item.init)
}

pub(crate) fn global_is_sound(
    types: &UniqueArena<Type_>,
    known: Known<'_>,
    global: &GlobalVariable,
) -> bool
    ensures { result ≡ global_is_sound types.now (known_types known.entry) global.now }
{
    initialiser_fits(types, known, global.ty, global.init)
}

/// The first constant whose initialiser has another type.
fn first_unsound_constant(
    types: &UniqueArena<Type_>,
    known: Known<'_>,
    constants: &Arena<Constant>,
) -> Option<Handle<Constant>>
    ensures { result ≡ first_unfit (λ _. constant_is_sound types.now (known_types known.entry))
        (enumerate_from 0 constants.now) }
{
    for (handle, constant) in constants.iter() {
        if !constant_is_sound(types, known, constant) {
            return Some(handle);
        }
    }
    None
}

/// The first override whose initialiser has another type.
fn first_unsound_override(
    types: &UniqueArena<Type_>,
    known: Known<'_>,
    overrides: &Arena<Override>,
) -> Option<Handle<Override>>
    ensures { result ≡ first_unfit (λ _. override_is_sound types.now (known_types known.entry))
        (enumerate_from 0 overrides.now) }
{
    for (handle, item) in overrides.iter() {
        if !override_is_sound(types, known, item) {
            return Some(handle);
        }
    }
    None
}

/// The first global whose initialiser has another type.
fn first_unsound_global(
    types: &UniqueArena<Type_>,
    known: Known<'_>,
    globals: &Arena<GlobalVariable>,
) -> Option<Handle<GlobalVariable>>
    ensures { result ≡ first_unfit (λ _. global_is_sound types.now (known_types known.entry))
        (enumerate_from 0 globals.now) }
{
    for (handle, global) in globals.iter() {
        if !global_is_sound(types, known, global) {
            return Some(handle);
        }
    }
    None
}

/// The first of a module's constants, overrides and variables whose initialiser has another type,
/// `known` being the types of the module's expressions.
pub(crate) fn initialisers_fault(module: &Module, known: Known<'_>) -> Option<Unaccepted>
    ensures { result ≡ initialisers_fault «module».now (known_types known.entry) }
{
    let types = &module.types;
    if let Some(handle) = first_unsound_constant(types, known, &module.constants) {
        return Some(at(FaultPosition::Constant(handle), Fault::InitialiserType));
    }
    if let Some(handle) = first_unsound_override(types, known, &module.overrides) {
        return Some(at(FaultPosition::Override(handle), Fault::InitialiserType));
    }
    match first_unsound_global(types, known, &module.global_variables) {
        Some(handle) => Some(at(
            FaultPosition::GlobalVariable(handle),
            Fault::InitialiserType,
        )),
        None => None,
    }
}
