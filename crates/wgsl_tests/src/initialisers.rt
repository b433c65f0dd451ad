//! One of a module's own expressions, written by itself.
ghost use Rattle.std.specs.Prelude.{◌<◌, IsTrue, length};
ghost use Rattle.module_semantics.specs.acceptance.Accepted.{is_accepted};
ghost use Rattle.module_semantics.specs.Names.{HasNamesOf};
ghost use Rattle.naga_naming.specs.Keys.{names_in};

use crate::modules::read;
use naga_wgsl_out::info::ModuleInfo;
use naga_wgsl_out::ir::{Expression, Handle, ItemIndex, Module};
use naga_wgsl_out::namer::NameKey;
use naga_wgsl_out::wgsl::{Error, names_of, write_global_expression};
use std::alloc::Global;
use std::collections::HashMap;

/// The text of an initialiser. What is known of the module is asked for here, since the call itself
/// asks for it in its condition alone.
fn text_of(
    alloc: Global,
    shader: &Module,
    info: &ModuleInfo,
    names: &HashMap<NameKey, String>,
    handle: Handle<Expression>,
) -> Result<String, Error>
    requires accepted { IsTrue (is_accepted shader.now info.now) }
    requires there { handle < length shader.now.global_expressions }
    requires names { HasNamesOf shader.now (names_in names.now) }
{
    let mut text = String::new(alloc);
    write_global_expression(alloc, shader, names, handle, &mut text)?;
    Ok(text)
}

/// A constant without a name, and a vector of it.
const VECTOR: &str = r#"{
    "module": {
        "types": [
            {"inner": {"Scalar": {"kind": "Sint", "width": 4}}},
            {"inner": {"Vector": {"size": "Bi", "scalar": {"kind": "Sint", "width": 4}}}}
        ],
        "constants": [{"ty": 0, "init": 0}],
        "global_expressions": [
            {"Literal": {"I32": -7}},
            {"Constant": 0},
            {"Compose": {"ty": 1, "components": [1, 0]}}
        ]
    },
    "info": {"const_expression_types": [0, 0, 1]}
}"#;

#[test]
fn an_initialiser_is_written(rt: HostRuntime) {
    let known = read(&rt, rt.alloc(), VECTOR);
    let vector = ItemIndex::from_index(2);
    assert!(rt; vector.index() < known.module.global_expressions.len());
    let (names, _namer) = names_of(rt.alloc(), &known.module).expect(&rt, "names");
    let text = text_of(rt.alloc(), &known.module, &known.info, &names, vector);
    assert_eq!(rt; text.expect(&rt, "a text").as_str(), "vec2<i32>(-7i, -7i)");
}
