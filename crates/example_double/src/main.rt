//! Prints the text of a function that doubles its argument.
#![tactic(auto)]

use naga_wgsl_out::builder::{BuildError, ModuleBuilder};
use naga_wgsl_out::ir::{BinaryOperator, Scalar};
use naga_wgsl_out::wgsl::{no_flags, write_checked};

/// `fn double(x: i32) -> i32 { return (x + x); }`
fn add_double(shader: &mut ModuleBuilder) -> Result<(), BuildError> {
    let i32_type = shader.scalar(Scalar::I32)?;
    let mut double = shader.function("double")?;
    let x = double.argument("x", i32_type)?;
    double.returns(i32_type);
    let sum = double.binary(BinaryOperator::Add, x, x)?;
    double.body.emit(sum, sum)?;
    double.body.return_value(sum)?;
    let double = double.finish();
    shader.add_function(double)?;
    Ok(())
}

/// What the module has: apart from `main`, so that a change here leaves the proof of `main` as it is.
fn build(shader: &mut ModuleBuilder) -> Result<(), BuildError> {
    add_double(shader)?;
    Ok(())
}

fn main(rt: HostRuntime) -> anyhow::Result<()> {
    let alloc = rt.alloc();
    let mut shader = ModuleBuilder::new(alloc);
    build(&mut shader)?;
    let text = write_checked(alloc, &shader.module, &mut shader.info, no_flags())?;
    print!(rt; "{text}")?;
    Ok(())
}
