//! The lists of items, one for each kind.

ghost use Rattle.std.specs.Prelude.{◌≡◌, ◌≤◌, ◌^◌, IfOk, false, length, nat_eq};
ghost use Rattle.std.specs.List.{list_any};
ghost use Rattle.std.specs.Option.{option_map, option_map_or};
ghost use Rattle.indexmap.specs.IndexMap.{values};
ghost use Rattle.module_semantics.specs.Undeclared.{is_undeclared};
ghost use Rattle.naga_naming.specs.Keys.{names_in};
ghost use Rattle.naga_naming.specs.Refusal.{HasLongStruct};
ghost use Rattle.naga_naming.specs.Reset.{members_of};
ghost use Rattle.serde_json.specs.View.{view};
ghost use Rattle.name_maps.specs.NameMaps.{constant_rows, declared_struct, entry_point_rows};
ghost use Rattle.name_maps.specs.NameMaps.{function_rows, global_rows, member_rows, override_rows};
ghost use Rattle.name_maps.specs.NameMaps.{struct_row, struct_rows};

use crate::rows::{
    constant_row, entry_point_row, function_row, global_row, label_or_null, member_row, name_in,
    override_row,
};
use naga_ir::{
    Arena, Constant, EntryPoint, Function, GlobalVariable, Handle, Module, Override, SpecialTypes,
    StructMember, Type_, TypeInner,
};
use naga_naming::NameKey;
use serde_json::{Value, json};
use std::alloc::{AllocError, Global};
use std::collections::HashMap;

/// The constants that a text declares: those with labels.
#[tactic(auto, using(crate::proofs::MadeRows::picks, crate::proofs::MadeRows::skips, crate::proofs::MadeRows::all_picked))]
pub fn constant_rows(
    alloc: Global,
    constants: &Arena<Constant>,
    names: &HashMap<NameKey, String>,
) -> Result<Value, AllocError>
    ensures { IfOk result (λ v. view v ≡ constant_rows (names_in names.now) constants.now) }
{
    let mut rows = Vec::new(alloc);
    for (handle, constant) in constants.iter() {
        if constant.name.is_some() {
            let row = constant_row(alloc, names, handle, constant)?;
            rows.push(row)?;
        }
    }
    Ok(Value::Array(rows))
}

#[tactic(auto, using(crate::proofs::MadeRows::goes_on, crate::proofs::MadeRows::ends))]
pub fn entry_point_rows(
    alloc: Global,
    entry_points: &[EntryPoint],
    names: &HashMap<NameKey, String>,
) -> Result<Value, AllocError>
    requires few { length entry_points.now ≤ 2 ^ 16 }
    ensures { IfOk result (λ v. view v ≡ entry_point_rows (names_in names.now) entry_points.now) }
{
    let mut rows = Vec::new(alloc);
    for (index, entry_point) in entry_points.iter().enumerate() {
        let row = entry_point_row(alloc, names, index as u16, entry_point)?;
        rows.push(row)?;
    }
    Ok(Value::Array(rows))
}

#[tactic(auto, using(crate::proofs::MadeRows::goes_on, crate::proofs::MadeRows::ends))]
pub fn function_rows(
    alloc: Global,
    functions: &Arena<Function>,
    names: &HashMap<NameKey, String>,
) -> Result<Value, AllocError>
    ensures { IfOk result (λ v. view v ≡ function_rows (names_in names.now) functions.now) }
{
    let mut rows = Vec::new(alloc);
    for (handle, function) in functions.iter() {
        let row = function_row(alloc, names, handle, function)?;
        rows.push(row)?;
    }
    Ok(Value::Array(rows))
}

#[tactic(auto, using(crate::proofs::MadeRows::goes_on, crate::proofs::MadeRows::ends))]
pub fn global_rows(
    alloc: Global,
    globals: &Arena<GlobalVariable>,
    names: &HashMap<NameKey, String>,
) -> Result<Value, AllocError>
    ensures { IfOk result (λ v. view v ≡ global_rows (names_in names.now) globals.now) }
{
    let mut rows = Vec::new(alloc);
    for (handle, global) in globals.iter() {
        let row = global_row(alloc, names, handle, global)?;
        rows.push(row)?;
    }
    Ok(Value::Array(rows))
}

#[tactic(auto, using(crate::proofs::MadeRows::goes_on, crate::proofs::MadeRows::ends))]
pub fn override_rows(
    alloc: Global,
    overrides: &Arena<Override>,
    names: &HashMap<NameKey, String>,
) -> Result<Value, AllocError>
    ensures { IfOk result (λ v. view v ≡ override_rows (names_in names.now) overrides.now) }
{
    let mut rows = Vec::new(alloc);
    for (handle, item) in overrides.iter() {
        let row = override_row(alloc, names, handle, item)?;
        rows.push(row)?;
    }
    Ok(Value::Array(rows))
}

/// The structs that a text declares, each with its members.
#[tactic(auto, using(crate::proofs::MadeRows::all_picked))]
pub fn struct_rows(
    alloc: Global,
    module: &Module,
    names: &HashMap<NameKey, String>,
) -> Result<Value, AllocError>
    requires counted { HasLongStruct «module».now → ⊥ }
    ensures { IfOk result (λ v. view v ≡ struct_rows (names_in names.now) «module».now) }
{
    let mut rows = Vec::new(alloc);
    for (handle, ty) in module.types.iter() {
        if let Some(row) = declared_struct(alloc, &module.special_types, names, handle, ty)? {
            rows.push(row)?;
        }
    }
    Ok(Value::Array(rows))
}

/// What is told of a type, if it is a struct that a text declares.
fn declared_struct(
    alloc: Global,
    special: &SpecialTypes,
    names: &HashMap<NameKey, String>,
    handle: Handle<Type_>,
    ty: &Type_,
) -> Result<Option<Value>, AllocError>
    requires counted { length (members_of ty.now.inner) ≤ 2 ^ 32 }
    ensures { IfOk result (λ row. option_map view row
        ≡ declared_struct (names_in names.now) special.now (handle, ty.now)) }
{
    match &ty.inner {
        TypeInner::Struct { members, .. } if !is_undeclared(special, handle) => {
            let row = struct_row(alloc, names, handle, &ty.name, members)?;
            Ok(Some(row))
        }
        _ => Ok(None),
    }
}

fn struct_row(
    alloc: Global,
    names: &HashMap<NameKey, String>,
    handle: Handle<Type_>,
    label: &Option<String>,
    members: &[StructMember],
) -> Result<Value, AllocError>
    requires counted { length members.now ≤ 2 ^ 32 }
    ensures { IfOk result
        (λ v. view v ≡ struct_row (names_in names.now) handle label.now members.now) }
{
    let label = label_or_null(alloc, label)?;
    let members = member_rows(alloc, names, handle, members)?;
    json!(in alloc; {
        "handle": handle.index(),
        "identifier": name_in(names, &NameKey::Type_(handle)),
        "label": label,
        "members": members
    })
}

#[tactic(auto, using(crate::proofs::MadeRows::goes_on, crate::proofs::MadeRows::ends))]
fn member_rows(
    alloc: Global,
    names: &HashMap<NameKey, String>,
    handle: Handle<Type_>,
    members: &[StructMember],
) -> Result<Value, AllocError>
    requires counted { length members.now ≤ 2 ^ 32 }
    ensures { IfOk result (λ v. view v ≡ member_rows (names_in names.now) handle members.now) }
{
    let mut rows = Vec::new(alloc);
    for (index, member) in members.iter().enumerate() {
        let row = member_row(alloc, names, handle, index as u32, member)?;
        rows.push(row)?;
    }
    Ok(Value::Array(rows))
}

/// Whether no text declares the struct with this handle: a function of WGSL gives it, or it is one of
/// those of external textures.
fn is_undeclared(special: &SpecialTypes, handle: Handle<Type_>) -> bool
    ensures { result ≡ is_undeclared special.now handle }
{
    is_predeclared(special, handle)
        || is_at(special.external_texture_params, handle)
        || is_at(special.external_texture_transfer_function, handle)
}

/// Whether a function of WGSL gives it.
fn is_predeclared(special: &SpecialTypes, handle: Handle<Type_>) -> bool
    ensures { result ≡ list_any (nat_eq handle) (values special.now.predeclared_types) }
{
    special
        .predeclared_types
        .values()
        .any(|known| handle == *known)
}

fn is_at(place: Option<Handle<Type_>>, handle: Handle<Type_>) -> bool
    ensures { result ≡ option_map_or (nat_eq handle) place false }
{
    match place {
        Some(place) => handle == place,
        None => false,
    }
}
