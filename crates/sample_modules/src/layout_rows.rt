//! The rows of structs whose members stand at offsets.

use crate::structs::add_placed_struct;
use naga_builder::{BuildError, ModuleBuilder};
use naga_ir::{ArraySize, Handle, Scalar, Type_, TypeInner, VectorSize};
use std::alloc::{AllocError, Global};
use std::num::NonZeroU32;

/// A struct whose members stand where they do by themselves.
pub fn build_natural(alloc: Global, shader: &mut ModuleBuilder) -> Result<(), BuildError> {
    let f32_type = shader.scalar(Scalar::F32)?;
    let vector = shader.vector(VectorSize::Tri, Scalar::F32)?;
    let members = [("a", f32_type, 0), ("b", vector, 16), ("c", f32_type, 28)];
    add_placed_struct(alloc, shader, "P", &members, 32)?;
    Ok(())
}

/// A struct of two integers, of which the second stands at this offset.
fn build_pair(
    alloc: Global,
    shader: &mut ModuleBuilder,
    offset: u32,
    span: u32,
) -> Result<(), BuildError> {
    let u32_type = shader.scalar(Scalar::U32)?;
    let members = [("a", u32_type, 0), ("b", u32_type, offset)];
    add_placed_struct(alloc, shader, "Q", &members, span)?;
    Ok(())
}

/// A struct with a gap after its first member.
pub fn build_gap(alloc: Global, shader: &mut ModuleBuilder) -> Result<(), BuildError> {
    build_pair(alloc, shader, 16, 20)
}

/// A struct with a member at no multiple of its alignment, which is refused.
pub fn build_misplaced(alloc: Global, shader: &mut ModuleBuilder) -> Result<(), BuildError> {
    build_pair(alloc, shader, 6, 12)
}

/// A struct of so many bytes with two elements of 16 bytes, which begin so many bytes apart.
fn build_elements(
    alloc: Global,
    shader: &mut ModuleBuilder,
    stride: u32,
    span: u32,
) -> Result<(), BuildError> {
    let u32_type = shader.scalar(Scalar::U32)?;
    let element = add_placed_struct(alloc, shader, "I", &[("a", u32_type, 0)], 16)?;
    let elements = add_two(shader, element, stride)?;
    add_placed_struct(alloc, shader, "O", &[("v", elements, 0)], span)?;
    Ok(())
}

fn add_two(
    shader: &mut ModuleBuilder,
    base: Handle<Type_>,
    stride: u32,
) -> Result<Handle<Type_>, AllocError> {
    let size = match NonZeroU32::new(2) {
        Some(length) => ArraySize::Constant(length),
        None => ArraySize::Dynamic,
    };
    shader.type_of(TypeInner::Array { base, size, stride })
}

/// A struct of 16 bytes with one integer, and an array of two of it.
pub fn build_stride(alloc: Global, shader: &mut ModuleBuilder) -> Result<(), BuildError> {
    build_elements(alloc, shader, 16, 32)
}

/// The same, but the elements begin 32 bytes apart, which is refused.
pub fn build_stretched(alloc: Global, shader: &mut ModuleBuilder) -> Result<(), BuildError> {
    build_elements(alloc, shader, 32, 64)
}
