use super::answer;
use bitflags::Flags;
use naga_wgsl_out::builder::ModuleBuilder;
use naga_wgsl_out::wgsl::WriterFlags;
use sample_modules::SampleModule;
use std::test::Fail;

#[test]
fn module_that_is_not_accepted_is_told(rt: HostRuntime) -> Result<(), Fail> {
    let mut shader = ModuleBuilder::new(rt.alloc());
    SampleModule::Identity.build(rt.alloc(), &mut shader)?;
    // nothing is known of its function any more
    shader.info.functions.clear();
    let mut out = Vec::new(rt.alloc());
    let mut err = Vec::new(rt.alloc());
    let status = answer(
        rt.alloc(),
        &mut shader,
        WriterFlags::empty(),
        &mut out,
        &mut err,
    );
    drop(shader);
    assert_eq!(rt; status, 1);
    assert_eq!(rt; out.as_slice(), b"".as_slice());
    assert_eq!(rt; err.as_slice(), b"refused: invalid module\n".as_slice());
    Ok(())
}
