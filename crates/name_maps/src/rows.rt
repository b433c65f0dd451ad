//! What is told of one item.

ghost use Rattle.std.specs.Prelude.{◌≡◌, IfOk};
ghost use Rattle.naga_naming.specs.Keys.{names_in};
ghost use Rattle.module_semantics.specs.Names.{name_in};
ghost use Rattle.serde_json.specs.View.{view};
ghost use Rattle.name_maps.specs.NameMaps.{binding_or_null, constant_row, entry_point_row};
ghost use Rattle.name_maps.specs.NameMaps.{function_row, global_row, group_or_null, label_or_null};
ghost use Rattle.name_maps.specs.NameMaps.{member_row, override_row, space_or_null, stage_word};

use naga_ir::{
    AddressSpace, Constant, EntryPoint, Function, GlobalVariable, Handle, Override,
    ResourceBinding, ShaderStage, StructMember, Type_,
};
use naga_naming::NameKey;
use serde_json::{Value, json};
use std::alloc::{AllocError, Global};
use std::collections::HashMap;
use wgsl_words::space_str;

/// A named constant: its handle, its label and its identifier.
pub fn constant_row(
    alloc: Global,
    names: &HashMap<NameKey, String>,
    handle: Handle<Constant>,
    constant: &Constant,
) -> Result<Value, AllocError>
    ensures { IfOk result
        (λ v. view v ≡ constant_row (names_in names.now) (handle, constant.now)) }
{
    let label = label_or_null(alloc, &constant.name)?;
    json!(in alloc; {
        "handle": handle.index(),
        "identifier": name_in(names, &NameKey::Constant(handle)),
        "label": label
    })
}

/// An entry point: its index, its label, its identifier and its stage.
pub fn entry_point_row(
    alloc: Global,
    names: &HashMap<NameKey, String>,
    index: u16,
    entry_point: &EntryPoint,
) -> Result<Value, AllocError>
    ensures { IfOk result
        (λ v. view v ≡ entry_point_row (names_in names.now) (index, entry_point.now)) }
{
    json!(in alloc; {
        "identifier": name_in(names, &NameKey::EntryPoint(index)),
        "index": index,
        "label": &entry_point.name,
        "stage": stage_word(entry_point.stage)
    })
}

/// A function: its handle, its label, or null, and its identifier.
pub fn function_row(
    alloc: Global,
    names: &HashMap<NameKey, String>,
    handle: Handle<Function>,
    function: &Function,
) -> Result<Value, AllocError>
    ensures { IfOk result
        (λ v. view v ≡ function_row (names_in names.now) (handle, function.now)) }
{
    let label = label_or_null(alloc, &function.name)?;
    json!(in alloc; {
        "handle": handle.index(),
        "identifier": name_in(names, &NameKey::Function(handle)),
        "label": label
    })
}

/// A variable of the module: its handle, label and identifier, where it is bound and where it lives.
pub fn global_row(
    alloc: Global,
    names: &HashMap<NameKey, String>,
    handle: Handle<GlobalVariable>,
    global: &GlobalVariable,
) -> Result<Value, AllocError>
    ensures { IfOk result (λ v. view v ≡ global_row (names_in names.now) (handle, global.now)) }
{
    let label = label_or_null(alloc, &global.name)?;
    let space = space_or_null(alloc, global.space)?;
    json!(in alloc; {
        "address_space": space,
        "binding": binding_or_null(global.binding),
        "group": group_or_null(global.binding),
        "handle": handle.index(),
        "identifier": name_in(names, &NameKey::GlobalVariable(handle)),
        "label": label
    })
}

/// An override: its handle, label and identifier, and the number by which a pipeline names it.
pub fn override_row(
    alloc: Global,
    names: &HashMap<NameKey, String>,
    handle: Handle<Override>,
    item: &Override,
) -> Result<Value, AllocError>
    ensures { IfOk result (λ v. view v ≡ override_row (names_in names.now) (handle, item.now)) }
{
    let label = label_or_null(alloc, &item.name)?;
    json!(in alloc; {
        "handle": handle.index(),
        "id": item.id,
        "identifier": name_in(names, &NameKey::Override(handle)),
        "label": label
    })
}

/// A member of a struct: its index, its label, or null, and its identifier.
pub fn member_row(
    alloc: Global,
    names: &HashMap<NameKey, String>,
    handle: Handle<Type_>,
    index: u32,
    member: &StructMember,
) -> Result<Value, AllocError>
    ensures { IfOk result
        (λ v. view v ≡ member_row (names_in names.now) handle (index, member.now)) }
{
    let label = label_or_null(alloc, &member.name)?;
    json!(in alloc; {
        "identifier": name_in(names, &NameKey::StructMember(handle, index)),
        "index": index,
        "label": label
    })
}

// ---- parts of a row

/// The name of an item.
pub fn name_in<'a>(names: &'a HashMap<NameKey, String>, key: &NameKey) -> &'a str
    ensures { result.now ≡ name_in (names_in names.now) key.now }
{
    match names.get(key) {
        Some(name) => name.as_str(),
        None => "",
    }
}

/// The label as JSON has it; null where there is none.
pub fn label_or_null(alloc: Global, label: &Option<String>) -> Result<Value, AllocError>
    ensures { IfOk result (λ v. view v ≡ label_or_null label.now) }
{
    match label {
        Some(label) => Value::try_from_str(alloc, label.as_str()),
        None => Ok(Value::Null),
    }
}

/// WGSL's word for an address space, if it has one.
fn space_or_null(alloc: Global, space: AddressSpace) -> Result<Value, AllocError>
    ensures { IfOk result (λ v. view v ≡ space_or_null space) }
{
    match space_str(space) {
        Some(word) => Value::try_from_str(alloc, word),
        None => Ok(Value::Null),
    }
}

fn group_or_null(binding: Option<ResourceBinding>) -> Value
    ensures { view result ≡ group_or_null binding }
{
    match binding {
        Some(ResourceBinding { group, .. }) => Value::from(group),
        None => Value::Null,
    }
}

fn binding_or_null(binding: Option<ResourceBinding>) -> Value
    ensures { view result ≡ binding_or_null binding }
{
    match binding {
        Some(ResourceBinding { binding, .. }) => Value::from(binding),
        None => Value::Null,
    }
}

/// The word by which WGSL's attribute tells a stage.
fn stage_word(stage: ShaderStage) -> &'static str
    ensures { result.now ≡ stage_word stage }
{
    match stage {
        ShaderStage::Vertex => "vertex",
        ShaderStage::Task => "task",
        ShaderStage::Mesh => "mesh",
        ShaderStage::Fragment => "fragment",
        ShaderStage::Compute => "compute",
        ShaderStage::RayGeneration => "ray_generation",
        ShaderStage::Miss => "miss",
        ShaderStage::AnyHit => "any_hit",
        ShaderStage::ClosestHit => "closest_hit",
    }
}
