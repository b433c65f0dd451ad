//! What is known of modules.

ghost use Rattle.std.specs.Prelude.{◌≡◌, List, map};
ghost use Rattle.json.specs.Value.{value_view};
ghost use Rattle.naga_json.specs.Infos.{type_resolution_said, expression_info_said};
ghost use Rattle.naga_json.specs.Infos.{function_info_said, module_info_said, info_members, no_info};
ghost use Rattle.naga_json.specs.Infos.{type_resolution_names, type_resolution_payload};
ghost use Rattle.naga_json.specs.Said.{Gives};
ghost use Rattle.naga_json.specs.Seen.{SeenResolution, SeenExpressionInfo, SeenModuleInfo};
ghost use Rattle.naga_json.specs.Seen.{seen_resolution, seen_expression_info, seen_module_info};

use crate::error::{JsonKind, ReadError};
use crate::shape::{FromJson, Variants, expect_known, fill, member, mistyped, read_variant};
use json::Value;
use naga_info::{ExpressionInfo, FunctionInfo, ModuleInfo, TypeResolution};
use naga_ir::ItemIndex;
use std::alloc::Global;

/// The variants of [`TypeResolution`].
#[derive(Clone, Copy)]
pub(crate) enum TypeResolutionName {
    Handle,
    Value,
}

/// The names of [`TypeResolution`].
const TYPE_RESOLUTION_NAMES: &[(&str, TypeResolutionName)] = &[
    ("Handle", TypeResolutionName::Handle),
    ("Value", TypeResolutionName::Value),
];

/// A number by itself is the handle of a type.
impl FromJson for TypeResolution {
    ghost Seen = { SeenResolution };

    ghost seen = { seen_resolution };

    ghost said = { type_resolution_said };

    fn from_json(alloc: Global, value: &Value) -> Result<TypeResolution, ReadError> {
        match value {
            Value::Number(_) => Ok(TypeResolution::Handle(ItemIndex::from_json(alloc, value)?)),
            Value::Object(_) => read_variant(alloc, value),
            _ => Err(mistyped(alloc, JsonKind::Resolution)),
        }
    }
}

impl Variants for TypeResolution {
    type Name = TypeResolutionName;

    ghost Sight = { SeenResolution };

    ghost sight = { seen_resolution };

    ghost table = { type_resolution_names };

    ghost payload_said = { type_resolution_payload };

    fn names() -> &'static [(&'static str, TypeResolutionName)] {
        TYPE_RESOLUTION_NAMES
    }

    fn from_payload(
        alloc: Global,
        variant: TypeResolutionName,
        payload: &Value,
    ) -> Result<TypeResolution, ReadError> {
        match variant {
            TypeResolutionName::Handle => Ok(TypeResolution::Handle(FromJson::from_json(
                alloc, payload,
            )?)),
            TypeResolutionName::Value => Ok(TypeResolution::Value(FromJson::from_json(
                alloc, payload,
            )?)),
        }
    }
}

/// A type by itself is that of an expression whose uses are not counted.
impl FromJson for ExpressionInfo {
    ghost Seen = { SeenExpressionInfo };

    ghost seen = { seen_expression_info };

    ghost said = { expression_info_said };

    fn from_json(alloc: Global, value: &Value) -> Result<ExpressionInfo, ReadError> {
        if value.get("ref_count").is_some() || value.get("ty").is_some() {
            Ok(ExpressionInfo {
                ref_count: member(alloc, value, "ref_count")?,
                ty: member(alloc, value, "ty")?,
            })
        } else {
            Ok(ExpressionInfo {
                ref_count: 0,
                ty: TypeResolution::from_json(alloc, value)?,
            })
        }
    }
}

/// A list by itself is that of the expressions.
impl FromJson for FunctionInfo {
    ghost Seen = { List SeenExpressionInfo };

    ghost seen = { map seen_expression_info };

    ghost said = { function_info_said };

    fn from_json(alloc: Global, value: &Value) -> Result<FunctionInfo, ReadError> {
        if matches!(value, Value::Array(_)) {
            return Ok(FunctionInfo {
                expressions: FromJson::from_json(alloc, value)?,
            });
        }
        let mut expressions = Vec::new(alloc);
        fill(alloc, value, "expressions", &mut expressions)?;
        Ok(FunctionInfo { expressions })
    }
}

/// The members of [`ModuleInfo`].
const INFO_MEMBERS: &[&str] = &["functions", "entry_points", "const_expression_types"];

impl FromJson for ModuleInfo {
    ghost Seen = { SeenModuleInfo };

    ghost seen = { seen_module_info };

    ghost said = { module_info_said };

    fn from_json(alloc: Global, value: &Value) -> Result<ModuleInfo, ReadError> {
        expect_known(alloc, value, INFO_MEMBERS)?;
        let mut info = ModuleInfo {
            functions: Vec::new(alloc),
            entry_points: Vec::new(alloc),
            const_expression_types: Vec::new(alloc),
        };
        fill_info(alloc, value, &mut info)?;
        Ok(info)
    }
}

fn fill_info(alloc: Global, value: &Value, info: &mut ModuleInfo) -> Result<(), ReadError>
    requires { seen_module_info info.old ≡ no_info }
    ensures { Gives (λ _. seen_module_info info.new) (info_members (value_view value.now)) result }
{
    fill(alloc, value, "functions", &mut info.functions)?;
    fill(alloc, value, "entry_points", &mut info.entry_points)?;
    fill(
        alloc,
        value,
        "const_expression_types",
        &mut info.const_expression_types,
    )
}
