//! Types, as WGSL spells them under the labels of the module.

use crate::one_line::on_one_line;
use naga_info::{ToCtx, TypeResolution};
use naga_ir::{Handle, Module, Type_, TypeInner};
use naga_words::types::{type_fits, types_in_order};
use naga_words::{SinkError, TypeContext, TypeTextError};
use std::alloc::{AllocError, Global};

/// Appends the type of an expression. One that names what the module has not is told by its number.
pub(crate) fn push_resolution(
    alloc: Global,
    module: &Module,
    resolution: &TypeResolution,
    out: &mut String,
) -> Result<(), AllocError> {
    match resolution {
        TypeResolution::Handle(handle) => push_type(alloc, module, *handle, out),
        TypeResolution::Value(inner) => push_inner(alloc, module, inner, out),
    }
}

/// Appends the type with this handle; by its number, where it or another type names what the module
/// has not.
pub(crate) fn push_type(
    alloc: Global,
    module: &Module,
    handle: Handle<Type_>,
    out: &mut String,
) -> Result<(), AllocError> {
    let context = module.to_ctx();
    if handle.index() < context.types.len() {
        if types_in_order(context.types, context.overrides.len()) {
            let mut text = String::new(alloc);
            only_memory(context.write_type(alloc, handle, &mut text))?;
            return push_on_one_line(alloc, text.as_str(), out);
        }
    }
    write!(out, "type {}", handle.index())
}

/// Appends a type by itself, and nothing where it or another type names what the module has not.
#[tactic(auto, using(crate::proofs::FittingTypes::fits))]
fn push_inner(
    alloc: Global,
    module: &Module,
    inner: &TypeInner,
    out: &mut String,
) -> Result<(), AllocError> {
    let context = module.to_ctx();
    let overrides = context.overrides.len();
    if type_fits(context.types.len(), overrides, inner) {
        if types_in_order(context.types, overrides) {
            let mut text = String::new(alloc);
            only_memory(context.write_type_inner(alloc, inner, &mut text))?;
            return push_on_one_line(alloc, text.as_str(), out);
        }
    }
    Ok(())
}

fn push_on_one_line(alloc: Global, text: &str, out: &mut String) -> Result<(), AllocError> {
    let line = on_one_line(alloc, text)?;
    out.push_str(line.as_str())
}

/// Want of memory alone: these contexts refuse no type, and a text does not fail otherwise.
fn only_memory(written: Result<(), TypeTextError>) -> Result<(), AllocError> {
    match written {
        Err(TypeTextError::Memory(error)) => Err(error),
        Err(TypeTextError::Sink(SinkError::Memory(error))) => Err(error),
        _ => Ok(()),
    }
}
