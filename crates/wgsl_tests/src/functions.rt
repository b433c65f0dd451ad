//! Functions and entry points, each written by itself.

ghost use Rattle.std.specs.Prelude.{IsTrue};
ghost use Rattle.module_semantics.specs.acceptance.Accepted.{is_accepted};
ghost use Rattle.module_semantics.specs.Names.{HasNamesOf};
ghost use Rattle.naga_naming.specs.Keys.{names_in};
ghost use Rattle.naga_wgsl_fns.specs.Items.{HasNamedItemsOf};

use crate::modules::read;
use naga_json::Known;
use naga_wgsl_out::back::FunctionType;
use naga_wgsl_out::ir::ItemIndex;
use naga_wgsl_out::namer::{NameKey, Namer};
use naga_wgsl_out::wgsl::{names_of, no_flags, write_function, write_string};
use std::alloc::Global;
use std::collections::HashMap;
use std::process::Abort;

/// A function with a label of a front end, one that returns what was loaded nowhere, a mesh stage
/// that lacks its output, and a compute stage that does nothing.
const MODULE: &str = r#"{
    "module": {
        "types": [{"inner": {"Scalar": {"kind": "Sint", "width": 4}}}],
        "functions": [
            {
                "name": "e",
                "arguments": [{"name": "x", "ty": 0}],
                "result": {"ty": 0},
                "expressions": [
                    {"FunctionArgument": 0},
                    {"Binary": {"op": "Add", "left": 0, "right": 0}}
                ],
                "named_expressions": {"1": "x"},
                "body": [{"Emit": {"start": 1, "end": 2}}, {"Return": {"value": 1}}]
            },
            {
                "name": "h",
                "result": {"ty": 0},
                "local_variables": [{"name": "a", "ty": 0}],
                "expressions": [{"LocalVariable": 0}, {"Load": {"pointer": 0}}],
                "body": [{"Return": {"value": 1}}]
            }
        ],
        "entry_points": [
            {"name": "ms", "stage": "Mesh", "workgroup_size": [1, 1, 1], "function": {}},
            {"name": "main", "stage": "Compute", "workgroup_size": [64, 1, 1], "function": {}}
        ]
    },
    "info": {
        "functions": [
            [0, 0],
            [{"Value": {"Pointer": {"base": 0, "space": "Function"}}}, 0]
        ],
        "entry_points": [[], []]
    }
}"#;

const NAMED: &str = "fn e(x: i32) -> i32 {\n    let x_1 = (x + x);\n    return x_1;\n}\n";

const NAMED_AGAIN: &str = "fn e(x: i32) -> i32 {\n    let x_2 = (x + x);\n    return x_2;\n}\n";

const COMPUTE: &str = "@compute @workgroup_size(64, 1, 1) \nfn main() {\n}\n";

/// The function has this text after what stands in a sink, or is refused, and nothing is written.
fn is_written(
    rt: &impl Abort,
    alloc: Global,
    known: &Known,
    ty: FunctionType,
    names: &HashMap<NameKey, String>,
    namer: &mut Namer,
    want: Option<&str>,
)
    requires accepted { IsTrue (is_accepted known.now.module known.now.info) }
    requires names { HasNamesOf known.now.module (names_in names.now) }
    requires namer { HasNamedItemsOf known.now.module namer.old }
    ensures { HasNamedItemsOf known.now.module namer.new }
{
    match ty {
        FunctionType::Function(handle) => {
            assert!(rt; handle.index() < known.module.functions.len());
        }
        FunctionType::EntryPoint(index) => {
            assert!(rt; (index as usize) < known.module.entry_points.len());
        }
    }
    let mut text = String::from_str(alloc, "before ").expect(rt, "memory");
    let (module, info) = (&known.module, &known.info);
    let written = write_function(alloc, module, info, ty, names, namer, no_flags(), &mut text);
    assert_eq!(rt; written.is_ok(), want.is_some());
    assert_eq!(rt;
        text.as_str().strip_prefix("before "),
        Some(want.unwrap_or(""))
    );
}

/// What stands before or after a function is nothing to its text: not the body of another, nor the
/// head of a stage. After its own text a label gets another name.
#[test]
fn a_function_is_written_by_itself(rt: HostRuntime) {
    let alloc = rt.alloc();
    let known = read(&rt, alloc, MODULE);
    assert!(rt; write_string(alloc, &known.module, &known.info, no_flags()).is_err());
    let (names, mut namer) = names_of(alloc, &known.module).expect(&rt, "names");
    let e = ItemIndex::from_index(0);
    let h = ItemIndex::from_index(1);
    is_written(
        &rt,
        alloc,
        &known,
        FunctionType::Function(e),
        &names,
        &mut namer,
        Some(NAMED),
    );
    is_written(
        &rt,
        alloc,
        &known,
        FunctionType::Function(e),
        &names,
        &mut namer,
        Some(NAMED_AGAIN),
    );
    is_written(
        &rt,
        alloc,
        &known,
        FunctionType::Function(h),
        &names,
        &mut namer,
        None,
    );
    is_written(
        &rt,
        alloc,
        &known,
        FunctionType::EntryPoint(0),
        &names,
        &mut namer,
        None,
    );
    is_written(
        &rt,
        alloc,
        &known,
        FunctionType::EntryPoint(1),
        &names,
        &mut namer,
        Some(COMPUTE),
    );
}
