//! Structs by the labels of their members.

use naga_builder::ModuleBuilder;
use naga_ir::{Handle, StructMember, Type_};
use std::alloc::{AllocError, Global};

/// The struct of this label, with members of these labels and types. All stand at offset 0.
pub fn add_struct(
    alloc: Global,
    shader: &mut ModuleBuilder,
    label: &str,
    members: &[(&str, Handle<Type_>)],
) -> Result<Handle<Type_>, AllocError> {
    let mut listed = Vec::new(alloc);
    for (label, ty) in members {
        push_member(alloc, &mut listed, *label, *ty, 0)?;
    }
    shader.structure(label, listed, 0)
}

/// The struct of this label and of so many bytes, with members of these labels, types and offsets.
pub fn add_placed_struct(
    alloc: Global,
    shader: &mut ModuleBuilder,
    label: &str,
    members: &[(&str, Handle<Type_>, u32)],
    span: u32,
) -> Result<Handle<Type_>, AllocError> {
    let mut listed = Vec::new(alloc);
    for (label, ty, offset) in members {
        push_member(alloc, &mut listed, *label, *ty, *offset)?;
    }
    shader.structure(label, listed, span)
}

fn push_member(
    alloc: Global,
    members: &mut Vec<StructMember>,
    label: &str,
    ty: Handle<Type_>,
    offset: u32,
) -> Result<(), AllocError> {
    members.push(StructMember {
        name: Some(String::from_str(alloc, label)?),
        ty,
        binding: None,
        offset,
    })?;
    Ok(())
}
