//! How many entry points a module may have.
use crate::modules::built_text;
use naga_wgsl_out::builder::ModuleBuilder;
use naga_wgsl_out::info::accepts;
use naga_wgsl_out::ir::ShaderStage;
use naga_wgsl_out::wgsl::{Error, Writer, no_flags};
use std::alloc::Global;
use std::process::Abort;

/// How many entry points their keys tell apart.
const MOST: u32 = 65_536;

/// Adds compute stages that do nothing, each with a label of its own, by their numbers.
fn add_entry_points(
    rt: &impl Abort,
    alloc: Global,
    shader: &mut ModuleBuilder,
    first: u32,
    end: u32,
) {
    for index in first..end {
        let label = format!(in alloc; "p{index}_").expect(rt, "memory");
        let function = shader.unlabelled_function().finish();
        shader
            .add_entry_point(label.as_str(), ShaderStage::Compute, [1, 1, 1], function)
            .expect(rt, "memory");
    }
}

/// The text has them all: the first, the last, and as many bytes as they and empty lines between.
fn all_are_written(rt: &impl Abort, alloc: Global, shader: &ModuleBuilder) {
    let text = built_text(rt, alloc, shader);
    let text = text.as_str();
    assert_eq!(rt; text.len(), 3_462_297);
    assert!(rt; text.starts_with("@compute @workgroup_size(1, 1, 1) \nfn p0_() {\n}\n\n@compute "));
    assert!(rt; text.ends_with("@workgroup_size(1, 1, 1) \nfn p65535_() {\n}\n"));
}

/// A module with one more is refused, and nothing stands after what the sink had.
fn one_more_is_refused(rt: &impl Abort, alloc: Global, shader: &ModuleBuilder) {
    assert!(rt; accepts(&shader.module, &shader.info));
    let sink = String::from_str(alloc, "before").expect(rt, "memory");
    let mut writer = Writer::new(alloc, sink, no_flags());
    match writer.write(&shader.module, &shader.info) {
        Err(Error::Custom(told)) => assert_eq!(rt; told.as_str(), "name key out of range"),
        _ => panic!(rt; "the module is not refused"),
    }
    assert_eq!(rt; writer.finish().as_str(), "before");
}

#[test]
fn as_many_entry_points_are_written_as_keys_tell(rt: HostRuntime) {
    let mut shader = ModuleBuilder::new(rt.alloc());
    add_entry_points(&rt, rt.alloc(), &mut shader, 0, MOST);
    all_are_written(&rt, rt.alloc(), &shader);
    add_entry_points(&rt, rt.alloc(), &mut shader, MOST, MOST + 1);
    one_more_is_refused(&rt, rt.alloc(), &shader);
}
