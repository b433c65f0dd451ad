//! Modules as texts of JSON or as they are built, and the texts that are written for them.

ghost use Rattle.std.specs.Prelude.{IsTrue};
ghost use Rattle.module_semantics.specs.acceptance.Accepted.{is_accepted};

use naga_json::{Known, read_known};
use naga_wgsl_out::builder::ModuleBuilder;
use naga_wgsl_out::info::{accepts, count};
use naga_wgsl_out::wgsl::{no_flags, write_string};
use std::alloc::Global;
use std::process::Abort;

/// `fn f(x: i32) -> i32 { return x; }`, with what is known of it.
pub const IDENTITY: &str = r#"{
    "module": {
        "types": [{"inner": {"Scalar": {"kind": "Sint", "width": 4}}}],
        "functions": [{
            "name": "f",
            "arguments": [{"name": "x", "ty": 0}],
            "result": {"ty": 0},
            "expressions": [{"FunctionArgument": 0}],
            "body": [{"Return": {"value": 0}}]
        }]
    },
    "info": {"functions": [[0]]}
}"#;

/// A module that is accepted, with what is known of it. Uses are counted.
pub fn read(rt: &impl Abort, alloc: Global, text: &str) -> Known
    ensures { IsTrue (is_accepted result.module result.info) }
{
    let mut known = read_known(alloc, text).expect(rt, "a module");
    count(&mut known.info, &known.module);
    assert!(rt; accepts(&known.module, &known.info));
    known
}

/// The text of such a module.
pub fn written(rt: &impl Abort, alloc: Global, text: &str) -> String {
    let known = read(rt, alloc, text);
    write_string(alloc, &known.module, &known.info, no_flags()).expect(rt, "a text")
}

/// The text of a module that is built, whose uses need no counting.
pub fn built_text(rt: &impl Abort, alloc: Global, shader: &ModuleBuilder) -> String {
    assert!(rt; accepts(&shader.module, &shader.info));
    write_string(alloc, &shader.module, &shader.info, no_flags()).expect(rt, "a text")
}
