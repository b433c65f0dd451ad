//! Prints the text of two functions: one stores into a local and loads from it, the other chooses between two values.
#![tactic(auto)]

use naga_wgsl_out::builder::{BuildError, ModuleBuilder};
use naga_wgsl_out::ir::{BinaryOperator, Literal, Scalar, UnaryOperator, VectorSize};
use naga_wgsl_out::wgsl::{no_flags, write_checked};
use std::alloc::Global;

/// `fn tint(colour: vec3<f32>, hue: vec3<f32>, strength: f32) -> vec3<f32>`, through a local.
fn add_tint(shader: &mut ModuleBuilder) -> Result<(), BuildError> {
    let f32_type = shader.scalar(Scalar::F32)?;
    let colour_type = shader.vector(VectorSize::Tri, Scalar::F32)?;
    let mut tint = shader.function("tint")?;
    let colour = tint.argument("colour", colour_type)?;
    let hue = tint.argument("hue", colour_type)?;
    let strength = tint.argument("strength", f32_type)?;
    tint.returns(colour_type);
    let mixed = tint.local("mixed", colour_type, None)?;
    let pointer = tint.pointer_to(mixed)?;
    let weights = tint.splat(VectorSize::Tri, strength)?;
    let weighted = tint.binary(BinaryOperator::Multiply, hue, weights)?;
    let sum = tint.binary(BinaryOperator::Add, colour, weighted)?;
    tint.body.emit(weights, sum)?;
    tint.body.store(pointer, sum)?;
    // emitted after the store, so that it sees what was stored
    let stored = tint.load(pointer)?;
    let inverted = tint.unary(UnaryOperator::Negate, stored)?;
    tint.body.emit(stored, inverted)?;
    tint.body.return_value(inverted)?;
    let tint = tint.finish();
    shader.add_function(tint)?;
    Ok(())
}

/// `fn corner(near: f32, far: f32, step: u32, steps: u32) -> vec2<f32>`, by a choice.
fn add_corner(alloc: Global, shader: &mut ModuleBuilder) -> Result<(), BuildError> {
    let f32_type = shader.scalar(Scalar::F32)?;
    let u32_type = shader.scalar(Scalar::U32)?;
    let corner_type = shader.vector(VectorSize::Bi, Scalar::F32)?;
    let mut corner = shader.function("corner")?;
    let near = corner.argument("near", f32_type)?;
    let far = corner.argument("far", f32_type)?;
    let step = corner.argument("step", u32_type)?;
    let steps = corner.argument("steps", u32_type)?;
    corner.returns(corner_type);
    let one = corner.literal(Literal::U32(1))?;
    let last = corner.binary(BinaryOperator::Subtract, steps, one)?;
    let is_early = corner.binary(BinaryOperator::Less, step, last)?;
    let x = corner.select(is_early, near, far)?;
    let point = corner.compose(corner_type, [x, near].to_vec(alloc)?)?;
    corner.body.emit(last, point)?;
    corner.body.return_value(point)?;
    let corner = corner.finish();
    shader.add_function(corner)?;
    Ok(())
}

fn main(rt: HostRuntime) -> anyhow::Result<()> {
    let alloc = rt.alloc();
    let mut shader = ModuleBuilder::new(alloc);
    add_tint(&mut shader)?;
    add_corner(alloc, &mut shader)?;
    let text = write_checked(alloc, &shader.module, &mut shader.info, no_flags())?;
    print!(rt; "{text}")?;
    Ok(())
}
