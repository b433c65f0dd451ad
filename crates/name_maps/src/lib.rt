//! Which identifier of a text stands for which item of its module, as JSON. Names are the caller's, so
//! that it needs no writer.
#![tactic(auto)]

mod items;
pub mod laws;
mod rows;

ghost use Rattle.std.specs.Prelude.{◌≡◌, IfOk, string_bytes};
ghost use Rattle.naga_naming.specs.Keys.{names_in};
ghost use Rattle.naga_naming.specs.Refusal.{KeysRunOut};
ghost use Rattle.serde_json.specs.View.{view};
ghost use Rattle.name_maps.specs.NameMaps.{map_text, name_map};

use crate::items::{
    constant_rows, entry_point_rows, function_rows, global_rows, override_rows, struct_rows,
};
use naga_ir::Module;
use naga_naming::NameKey;
use serde_json::{Value, json};
use std::alloc::{AllocError, Global};
use std::collections::HashMap;

/// What a text under these names declares, each item by its label in the module and its identifier in
/// the text: an object with a list for each kind of item, in the order of their handles.
///
/// ```text
/// {"constants": [], "entry_points": [{"identifier": "main", "index": 0, "label": "main",
/// "stage": "vertex"}], "functions": [], "globals": [{"address_space": "uniform", "binding": 1,
/// "group": 0, "handle": 0, "identifier": "light_", "label": "light_"}], "overrides": [], "structs": []}
/// ```
///
/// A constant without a label and a struct that WGSL's own functions give are left out, since no text
/// declares them. A label is `null` where the module has none, and so are the group and the binding of
/// a variable that is no resource, the id of an override without one, and the address space of an
/// image or a sampler, for which WGSL has no word.
#[tactic(auto, unfolding(crate::specs::NameMaps::name_map))]
pub fn name_map(
    alloc: Global,
    module: &Module,
    names: &HashMap<NameKey, String>,
) -> Result<Value, AllocError>
    requires counted { KeysRunOut «module».now → ⊥ }
    ensures { IfOk result (λ v. view v ≡ name_map «module».now (names_in names.now)) }
{
    let constants = constant_rows(alloc, &module.constants, names)?;
    let entry_points = entry_point_rows(alloc, &module.entry_points, names)?;
    let functions = function_rows(alloc, &module.functions, names)?;
    let globals = global_rows(alloc, &module.global_variables, names)?;
    let overrides = override_rows(alloc, &module.overrides, names)?;
    let structs = struct_rows(alloc, module, names)?;
    json!(in alloc; {
        "constants": constants,
        "entry_points": entry_points,
        "functions": functions,
        "globals": globals,
        "overrides": overrides,
        "structs": structs
    })
}

/// The same as a text, without blanks or line ends.
#[tactic(auto, using(crate::proofs::NoFloats::map_has_none), unfolding(crate::specs::NameMaps::map_text))]
pub fn map_text(
    alloc: Global,
    module: &Module,
    names: &HashMap<NameKey, String>,
) -> Result<String, AllocError>
    requires counted { KeysRunOut «module».now → ⊥ }
    ensures { IfOk result
        (λ text. string_bytes text ≡ map_text «module».now (names_in names.now)) }
{
    let map = name_map(alloc, module, names)?;
    map.to_string(alloc)
}
