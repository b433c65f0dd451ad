//! Functions, and what modules declare.

ghost use Rattle.std.specs.Prelude.{◌≡◌, ℕ, List, IfOk, Some};
ghost use Rattle.json.specs.Value.{value_view};
ghost use Rattle.naga_json.specs.Declarations.{shader_stage_said, constant_said, override_said};
ghost use Rattle.naga_json.specs.Declarations.{global_variable_said, local_variable_said};
ghost use Rattle.naga_json.specs.Declarations.{function_argument_said, function_result_said};
ghost use Rattle.naga_json.specs.Declarations.{mesh_stage_info_said};
ghost use Rattle.naga_json.specs.Diagnostics.{filters_said};
ghost use Rattle.naga_json.specs.Functions.{SeenEntryPoint, SeenFunction, entry_point_said};
ghost use Rattle.naga_json.specs.Functions.{function_members, function_said, no_function};
ghost use Rattle.naga_json.specs.Functions.{seen_entry_point, seen_function};
ghost use Rattle.naga_json.specs.Modules.{SeenModule, module_members, module_said, no_module};
ghost use Rattle.naga_json.specs.Modules.{seen_module};
ghost use Rattle.naga_json.specs.Numbers.{unsigned_said};
ghost use Rattle.naga_json.specs.Said.{Gives, same, tuple_said};
ghost use Rattle.naga_json.specs.Seen.{SeenArgument, SeenConstant, SeenGlobal, SeenLocal};
ghost use Rattle.naga_json.specs.Seen.{SeenOverride, filters_of, seen_argument, seen_constant};
ghost use Rattle.naga_json.specs.Seen.{seen_global, seen_local, seen_override};

use crate::diagnostics::filters_of;
use crate::error::{Problem, ReadError};
use crate::let_be;
use crate::shape::{
    FromJson, expect_members, expect_members_beside, expect_null, fill, in_member, item_of,
    items_of, member, optional_member, word,
};
use crate::sizes::{fill_size_overrides, size_expressions};
use json::Value;
use naga_ir::{
    Constant, EntryPoint, Function, FunctionArgument, FunctionResult, GlobalVariable,
    LocalVariable, MeshStageInfo, Module, Override, ShaderStage,
};
use std::alloc::Global;

/// The words of [`ShaderStage`].
const SHADER_STAGE_WORDS: &[(&str, ShaderStage)] = &[
    ("Vertex", ShaderStage::Vertex),
    ("Task", ShaderStage::Task),
    ("Mesh", ShaderStage::Mesh),
    ("Fragment", ShaderStage::Fragment),
    ("Compute", ShaderStage::Compute),
    ("RayGeneration", ShaderStage::RayGeneration),
    ("Miss", ShaderStage::Miss),
    ("AnyHit", ShaderStage::AnyHit),
    ("ClosestHit", ShaderStage::ClosestHit),
];

impl FromJson for ShaderStage {
    ghost Seen = { Self };

    ghost seen = { same };

    ghost said = { shader_stage_said };

    fn from_json(alloc: Global, value: &Value) -> Result<ShaderStage, ReadError> {
        word(alloc, value, SHADER_STAGE_WORDS)
    }
}

impl FromJson for Constant {
    ghost Seen = { SeenConstant };

    ghost seen = { seen_constant };

    ghost said = { constant_said };

    fn from_json(alloc: Global, payload: &Value) -> Result<Constant, ReadError> {
        expect_members(alloc, payload, &["name", "ty", "init"])?;
        Ok(Constant {
            name: optional_member(alloc, payload, "name")?,
            ty: member(alloc, payload, "ty")?,
            init: member(alloc, payload, "init")?,
        })
    }
}

impl FromJson for Override {
    ghost Seen = { SeenOverride };

    ghost seen = { seen_override };

    ghost said = { override_said };

    fn from_json(alloc: Global, payload: &Value) -> Result<Override, ReadError> {
        expect_members(alloc, payload, &["name", "id", "ty", "init"])?;
        Ok(Override {
            name: optional_member(alloc, payload, "name")?,
            id: optional_member(alloc, payload, "id")?,
            ty: member(alloc, payload, "ty")?,
            init: optional_member(alloc, payload, "init")?,
        })
    }
}

impl FromJson for GlobalVariable {
    ghost Seen = { SeenGlobal };

    ghost seen = { seen_global };

    ghost said = { global_variable_said };

    fn from_json(alloc: Global, payload: &Value) -> Result<GlobalVariable, ReadError> {
        expect_members(
            alloc,
            payload,
            &[
                "name",
                "space",
                "binding",
                "ty",
                "init",
                "memory_decorations",
            ],
        )?;
        Ok(GlobalVariable {
            name: optional_member(alloc, payload, "name")?,
            space: member(alloc, payload, "space")?,
            binding: optional_member(alloc, payload, "binding")?,
            ty: member(alloc, payload, "ty")?,
            init: optional_member(alloc, payload, "init")?,
            memory_decorations: optional_member(alloc, payload, "memory_decorations")?,
        })
    }
}

impl FromJson for LocalVariable {
    ghost Seen = { SeenLocal };

    ghost seen = { seen_local };

    ghost said = { local_variable_said };

    fn from_json(alloc: Global, payload: &Value) -> Result<LocalVariable, ReadError> {
        expect_members(alloc, payload, &["name", "ty", "init"])?;
        Ok(LocalVariable {
            name: optional_member(alloc, payload, "name")?,
            ty: member(alloc, payload, "ty")?,
            init: optional_member(alloc, payload, "init")?,
        })
    }
}

impl FromJson for FunctionArgument {
    ghost Seen = { SeenArgument };

    ghost seen = { seen_argument };

    ghost said = { function_argument_said };

    fn from_json(alloc: Global, payload: &Value) -> Result<FunctionArgument, ReadError> {
        expect_members(alloc, payload, &["name", "ty", "binding"])?;
        Ok(FunctionArgument {
            name: optional_member(alloc, payload, "name")?,
            ty: member(alloc, payload, "ty")?,
            binding: optional_member(alloc, payload, "binding")?,
        })
    }
}

impl FromJson for FunctionResult {
    ghost Seen = { Self };

    ghost seen = { same };

    ghost said = { function_result_said };

    fn from_json(alloc: Global, payload: &Value) -> Result<FunctionResult, ReadError> {
        expect_members(alloc, payload, &["ty", "binding"])?;
        Ok(FunctionResult {
            ty: member(alloc, payload, "ty")?,
            binding: optional_member(alloc, payload, "binding")?,
        })
    }
}

impl FromJson for MeshStageInfo {
    ghost Seen = { Self };

    ghost seen = { same };

    ghost said = { mesh_stage_info_said };

    fn from_json(alloc: Global, payload: &Value) -> Result<MeshStageInfo, ReadError> {
        expect_members_beside(alloc, payload, &["output_variable"], let_be::OF_MESH_INFO)?;
        Ok(MeshStageInfo {
            output_variable: member(alloc, payload, "output_variable")?,
        })
    }
}

/// The members of [`EntryPoint`], and the one that says what it has no place for. The overrides of a
/// workgroup's size are read once the module's expressions are there.
const ENTRY_POINT_MEMBERS: &[&str] = &[
    "name",
    "stage",
    "workgroup_size",
    "function",
    "mesh_info",
    "task_payload",
    "incoming_ray_payload",
    "early_depth_test",
    "workgroup_size_overrides",
];

impl FromJson for EntryPoint {
    ghost Seen = { SeenEntryPoint };

    ghost seen = { seen_entry_point };

    ghost said = { entry_point_said };

    #[tactic(auto, unfolding(crate::specs::Functions::entry_point_said))]
    fn from_json(alloc: Global, payload: &Value) -> Result<EntryPoint, ReadError> {
        expect_members(alloc, payload, ENTRY_POINT_MEMBERS)?;
        if let Some(test) = payload.get("early_depth_test") {
            in_member(alloc, "early_depth_test", expect_null(alloc, test))?;
        }
        size_expressions(alloc, payload)?;
        Ok(EntryPoint {
            name: member(alloc, payload, "name")?,
            stage: member(alloc, payload, "stage")?,
            workgroup_size: member(alloc, payload, "workgroup_size")?,
            workgroup_size_overrides: [None, None, None],
            function: member(alloc, payload, "function")?,
            mesh_info: optional_member(alloc, payload, "mesh_info")?,
            task_payload: optional_member(alloc, payload, "task_payload")?,
            incoming_ray_payload: optional_member(alloc, payload, "incoming_ray_payload")?,
        })
    }
}

impl FromJson for [u32; 3] {
    ghost Seen = { List ℕ };

    ghost seen = { same };

    ghost said = { tuple_said 3 (unsigned_said 32) };

    fn from_json(alloc: Global, value: &Value) -> Result<[u32; 3], ReadError> {
        match items_of(alloc, value)?.as_slice() {
            [x, y, z] => Ok([
                item_of(alloc, x, 0)?,
                item_of(alloc, y, 1)?,
                item_of(alloc, z, 2)?,
            ]),
            _ => Err(ReadError::at(alloc, Problem::WrongLength(3))),
        }
    }
}

/// The members of [`Function`], and the leaf of its filters, which is looked at with the module's.
const FUNCTION_MEMBERS: &[&str] = &[
    "name",
    "result",
    "arguments",
    "local_variables",
    "expressions",
    "named_expressions",
    "body",
    "diagnostic_filter_leaf",
];

impl FromJson for Function {
    ghost Seen = { SeenFunction };

    ghost seen = { seen_function };

    ghost said = { function_said };

    #[tactic(auto, using(crate::proofs::SeenModules::function_empty), unfolding(crate::specs::Functions::function_said))]
    fn from_json(alloc: Global, value: &Value) -> Result<Function, ReadError> {
        expect_members(alloc, value, FUNCTION_MEMBERS)?;
        let mut function = Function::new(alloc);
        fill_function(alloc, value, &mut function)?;
        Ok(function)
    }
}

#[tactic(auto, unfolding(crate::specs::Functions::function_members))]
fn fill_function(alloc: Global, value: &Value, function: &mut Function) -> Result<(), ReadError>
    requires { seen_function function.old ≡ no_function }
    ensures { Gives (λ _. seen_function function.new)
        (function_members (value_view value.now)) result }
{
    fill(alloc, value, "name", &mut function.name)?;
    fill(alloc, value, "result", &mut function.result)?;
    fill(alloc, value, "arguments", &mut function.arguments)?;
    fill(
        alloc,
        value,
        "local_variables",
        &mut function.local_variables,
    )?;
    fill(alloc, value, "expressions", &mut function.expressions)?;
    fill(
        alloc,
        value,
        "named_expressions",
        &mut function.named_expressions,
    )?;
    fill(alloc, value, "body", &mut function.body)
}

/// The members of [`Module`].
const MODULE_MEMBERS: &[&str] = &[
    "types",
    "special_types",
    "constants",
    "overrides",
    "global_variables",
    "global_expressions",
    "functions",
    "entry_points",
    "diagnostic_filters",
    "diagnostic_filter_leaf",
];

impl FromJson for Module {
    ghost Seen = { SeenModule };

    ghost seen = { seen_module };

    ghost said = { module_said };

    #[tactic(auto, using(crate::proofs::SeenModules::module_empty), unfolding(crate::specs::Modules::module_said))]
    fn from_json(alloc: Global, value: &Value) -> Result<Module, ReadError>
        ensures said { Gives seen_module (module_said (value_view value.now)) result }
        ensures filters { IfOk result
            (λ m. filters_said (value_view value.now) ≡ Some (filters_of m)) }
    {
        expect_members_beside(alloc, value, MODULE_MEMBERS, let_be::OF_MODULE)?;
        let mut module = Module::new(alloc);
        fill_module(alloc, value, &mut module)?;
        fill_size_overrides(alloc, value, &mut module)?;
        let filters = filters_of(alloc, value)?;
        module.diagnostic_filters = filters.nodes;
        module.diagnostic_filter_leaf = filters.leaf;
        Ok(module)
    }
}

/// Reads all but the overrides of the sizes of workgroups.
#[tactic(auto, unfolding(crate::specs::Modules::module_members))]
fn fill_module(alloc: Global, value: &Value, module: &mut Module) -> Result<(), ReadError>
    requires { seen_module «module».old ≡ no_module }
    ensures { Gives (λ _. seen_module «module».new) (module_members (value_view value.now)) result }
{
    fill(alloc, value, "types", &mut module.types)?;
    fill(alloc, value, "special_types", &mut module.special_types)?;
    fill(alloc, value, "constants", &mut module.constants)?;
    fill(alloc, value, "overrides", &mut module.overrides)?;
    fill(
        alloc,
        value,
        "global_variables",
        &mut module.global_variables,
    )?;
    fill(
        alloc,
        value,
        "global_expressions",
        &mut module.global_expressions,
    )?;
    fill(alloc, value, "functions", &mut module.functions)?;
    fill(alloc, value, "entry_points", &mut module.entry_points)
}
