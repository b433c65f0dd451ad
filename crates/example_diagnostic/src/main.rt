//! Prints a diagnostic that tells two types, as WGSL spells them.
#![tactic(auto)]

use anyhow::ensure;
use naga_wgsl_out::builder::ModuleBuilder;
use naga_wgsl_out::info::{ToCtx, TypeResolution};
use naga_wgsl_out::ir::{ArraySize, Handle, Module, Scalar, Type_, TypeInner, VectorSize};
use naga_wgsl_out::types::{TypeContext, types_in_order};
use std::alloc::{AllocError, Global};
use std::num::NonZeroU32;

/// Four numbers in a row.
fn add_numbers(shader: &mut ModuleBuilder) -> Result<Handle<Type_>, AllocError> {
    let base = shader.scalar(Scalar::I32)?;
    let size = match NonZeroU32::new(4) {
        Some(length) => ArraySize::Constant(length),
        None => ArraySize::Dynamic,
    };
    shader.type_of(TypeInner::Array {
        base,
        size,
        stride: 4,
    })
}

/// That a vector was expected where the module's type at this handle was found. A type by itself
/// needs no handle.
fn mismatch(alloc: Global, module: &Module, found: Handle<Type_>) -> anyhow::Result<String> {
    let context = module.to_ctx();
    ensure!(found.index() < context.types.len(), "no such type");
    ensure!(
        types_in_order(context.types, context.overrides.len()),
        "types out of order"
    );
    let expected = TypeResolution::Value(TypeInner::Vector {
        size: VectorSize::Tri,
        scalar: Scalar::F32,
    });
    let expected = context.type_resolution_to_string(alloc, &expected)?;
    let found = context.type_to_string(alloc, found)?;
    Ok(format!(in alloc; "expected {expected}, found {found}")?)
}

fn main(rt: HostRuntime) -> anyhow::Result<()> {
    let alloc = rt.alloc();
    let mut shader = ModuleBuilder::new(alloc);
    let numbers = add_numbers(&mut shader)?;
    let text = mismatch(alloc, &shader.module, numbers)?;
    println!(rt; "{text}")?;
    Ok(())
}
