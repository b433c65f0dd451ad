//! Declarations, each in a line.

use crate::lookup::{item_at, type_at};
use crate::operands::push_label;
use crate::types::push_type;
use naga_ir::{
    ArraySize, Constant, Expression, GlobalVariable, Handle, Module, Override, StructMember, Type_,
    TypeInner,
};
use std::alloc::{AllocError, Global};

/// At most so many members of a struct are told.
const MOST_MEMBERS: usize = 6;

/// Appends a type of the module, with the types that it names by their numbers:
/// `Array of 3, 4 elements, stride 16`.
pub(crate) fn push_listed_type(
    alloc: Global,
    module: &Module,
    handle: Handle<Type_>,
    out: &mut String,
) -> Result<(), AllocError> {
    let Some(ty) = type_at(module, handle) else {
        return Ok(());
    };
    push_inner(alloc, module, handle, &ty.inner, out)?;
    push_label(ty.name.as_ref(), out)
}

fn push_inner(
    alloc: Global,
    module: &Module,
    handle: Handle<Type_>,
    inner: &TypeInner,
    out: &mut String,
) -> Result<(), AllocError> {
    match inner {
        TypeInner::Struct { members, span } => push_struct(members, *span, out),
        TypeInner::Array { base, size, stride } => {
            write!(out, "Array of type {}", base.index())?;
            push_size(*size, out)?;
            write!(out, ", stride {stride}")
        }
        TypeInner::BindingArray { base, size } => {
            write!(out, "BindingArray of type {}", base.index())?;
            push_size(*size, out)
        }
        TypeInner::Pointer { base, space } => {
            write!(out, "Pointer to type {}, {space:?}", base.index())
        }
        _ => push_type(alloc, module, handle, out),
    }
}

fn push_size(size: ArraySize, out: &mut String) -> Result<(), AllocError> {
    match size {
        ArraySize::Constant(length) => write!(out, ", {length} elements"),
        ArraySize::Pending(handle) => write!(out, ", as many as override {}", handle.index()),
        ArraySize::Dynamic => out.push_str(", as many as there is room for"),
    }
}

/// Appends a struct: `Struct { "at": type 2 at 0, "lit": type 0 at 16 }, span 32`.
fn push_struct(members: &[StructMember], span: u32, out: &mut String) -> Result<(), AllocError> {
    out.push_str("Struct {")?;
    for member in members.iter().take(MOST_MEMBERS) {
        push_member(member, out)?;
    }
    if members.len() > MOST_MEMBERS {
        write!(out, " .. of {}", members.len())?;
    }
    write!(out, " }}, span {span}")
}

fn push_member(member: &StructMember, out: &mut String) -> Result<(), AllocError> {
    push_label(member.name.as_ref(), out)?;
    write!(out, " type {} at {};", member.ty.index(), member.offset)
}

/// Appends a constant: its initialiser, and its label.
pub(crate) fn push_constant(
    module: &Module,
    handle: Handle<Constant>,
    out: &mut String,
) -> Result<(), AllocError> {
    let Some(constant) = item_at(&module.constants, handle) else {
        return Ok(());
    };
    write!(out, "= [{}]", constant.init.index())?;
    push_label(constant.name.as_ref(), out)
}

/// Appends an override: its number in pipelines, its initialiser, and its label.
pub(crate) fn push_override(
    module: &Module,
    handle: Handle<Override>,
    out: &mut String,
) -> Result<(), AllocError> {
    let Some(item) = item_at(&module.overrides, handle) else {
        return Ok(());
    };
    if let Some(id) = item.id {
        write!(out, "@id({id}) ")?;
    }
    push_init(item.init, out)?;
    push_label(item.name.as_ref(), out)
}

/// Appends a variable of the module: its space, where it is bound, its initialiser and its label.
pub(crate) fn push_variable(
    module: &Module,
    handle: Handle<GlobalVariable>,
    out: &mut String,
) -> Result<(), AllocError> {
    let Some(variable) = item_at(&module.global_variables, handle) else {
        return Ok(());
    };
    write!(out, "{:?} ", variable.space)?;
    if let Some(binding) = variable.binding {
        write!(out, "group {} binding {} ", binding.group, binding.binding)?;
    }
    push_init(variable.init, out)?;
    push_label(variable.name.as_ref(), out)
}

/// Appends an initialiser.
pub(crate) fn push_init(
    init: Option<Handle<Expression>>,
    out: &mut String,
) -> Result<(), AllocError> {
    match init {
        Some(handle) => write!(out, "= [{}]", handle.index()),
        None => out.push_str("no initialiser"),
    }
}
