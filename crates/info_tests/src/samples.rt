//! Each sample module without its info.

use naga_builder::ModuleBuilder;
use naga_inference::{InferenceError, infer};
use naga_info::ModuleInfo;
use naga_ir::Module;
use sample_modules::SampleModule;
use std::alloc::Global;
use std::process::Abort;

const SAMPLES: [&str; 48] = [
    "empty",
    "identity",
    "negative",
    "same",
    "type",
    "hostile",
    "store",
    "unused",
    "late",
    "inline",
    "twofold",
    "named",
    "pointer",
    "select",
    "negate",
    "double",
    "numeral",
    "float",
    "idle",
    "sample",
    "modf",
    "f16",
    "switch",
    "through",
    "default",
    "barriers",
    "call",
    "sibling",
    "twice",
    "deep",
    "loop",
    "tail",
    "folded",
    "continue",
    "compute",
    "struct",
    "override",
    "global",
    "vertex",
    "const",
    "flat",
    "atomic",
    "operator",
    "natural",
    "gap",
    "stride",
    "misplaced",
    "stretched",
];

/// What is inferred. Where one allocation is refused, as `rt try --test --fail-alloc` does, a second
/// call goes on.
fn inferred(rt: &impl Abort, alloc: Global, module: &Module) -> Result<ModuleInfo, InferenceError> {
    match infer(alloc, module) {
        Ok(found) => found,
        Err(_) => infer(alloc, module).expect(rt, "memory"),
    }
}

/// An info as `Debug` shows it.
fn shown(rt: &impl Abort, alloc: Global, info: &ModuleInfo) -> String {
    format!(in alloc; "{info:?}").expect(rt, "memory")
}

/// The info that is found is the one that the builder made.
#[test]
fn each_sample_gets_its_info(rt: HostRuntime) {
    let alloc = rt.alloc();
    for name in SAMPLES {
        let sample = SampleModule::from_name(name).expect(&rt, "a sample");
        let mut shader = ModuleBuilder::new(alloc);
        sample.build(alloc, &mut shader).expect(&rt, "memory");
        let found = inferred(&rt, alloc, &shader.module);
        match found {
            Ok(info) => {
                let built = shown(&rt, alloc, &shader.info);
                let found = shown(&rt, alloc, &info);
                assert!(rt; found.as_str() == built.as_str(), "{name}");
            }
            Err(error) => panic!(rt; "{name}: {error}"),
        }
        drop(shader);
    }
}
