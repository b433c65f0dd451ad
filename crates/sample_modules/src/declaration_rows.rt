//! The rows of declarations and of entry points.

use crate::structs::add_placed_struct;
use bitflags::Flags;
use naga_builder::{BuildError, ModuleBuilder};
use naga_ir::{
    AddressSpace, ArraySize, AtomicFunction, BinaryOperator, Binding, BuiltIn, Constant,
    Expression, FunctionArgument, GlobalVariable, Handle, Interpolation, Literal,
    MemoryDecorations, Override, ResourceBinding, Scalar, ShaderStage, Statement, StorageAccess,
    StructMember, Type_, TypeInner, VectorSize,
};
use std::alloc::Global;

// ---- entry points

/// A compute stage of 64 invocations that does nothing.
pub fn build_compute(shader: &mut ModuleBuilder) -> Result<(), BuildError> {
    let built = shader.unlabelled_function().finish();
    shader.add_entry_point("main", ShaderStage::Compute, [64, 1, 1], built)?;
    Ok(())
}

/// A vertex stage that gives the zero value of a struct without a label.
pub fn build_vertex(alloc: Global, shader: &mut ModuleBuilder) -> Result<(), BuildError> {
    let position = shader.vector(VectorSize::Quad, Scalar::F32)?;
    let mut members = Vec::new(alloc);
    members.push(StructMember {
        name: Some(String::from_str(alloc, "pos")?),
        ty: position,
        binding: Some(Binding::BuiltIn(BuiltIn::Position { invariant: false })),
        offset: 0,
    })?;
    let output = shader.type_of(TypeInner::Struct { members, span: 16 })?;
    let mut function = shader.unlabelled_function();
    function.returns(output);
    let zero = function.zero(output)?;
    function.body.return_value(zero)?;
    let built = function.finish();
    shader.add_entry_point("main", ShaderStage::Vertex, [0, 0, 0], built)?;
    Ok(())
}

/// A fragment stage that takes an integer at a location, not interpolated.
pub fn build_flat(alloc: Global, shader: &mut ModuleBuilder) -> Result<(), BuildError> {
    let u32_type = shader.scalar(Scalar::U32)?;
    let mut function = shader.unlabelled_function();
    function.add_argument(FunctionArgument {
        name: Some(String::from_str(alloc, "i")?),
        ty: u32_type,
        binding: Some(Binding::Location {
            location: 0,
            interpolation: Some(Interpolation::Flat),
            sampling: None,
            blend_src: None,
            per_primitive: false,
        }),
    })?;
    let built = function.finish();
    shader.add_entry_point("main", ShaderStage::Fragment, [0, 0, 0], built)?;
    Ok(())
}

/// A compute stage that counts its invocations in a variable of its workgroup.
pub fn build_atomic(alloc: Global, shader: &mut ModuleBuilder) -> Result<(), BuildError> {
    let u32_type = shader.scalar(Scalar::U32)?;
    let counter = shader.type_of(TypeInner::Atomic(Scalar::U32))?;
    let variable = shader.add_global(GlobalVariable {
        name: Some(String::from_str(alloc, "c")?),
        space: AddressSpace::WorkGroup,
        binding: None,
        ty: counter,
        init: None,
        memory_decorations: MemoryDecorations::empty(),
    })?;
    let mut function = shader.unlabelled_function();
    let pointer = function.global(variable)?;
    let one = function.literal(Literal::U32(1))?;
    let result = function.expression(Expression::AtomicResult {
        ty: u32_type,
        comparison: false,
    })?;
    function.body.push(Statement::Atomic {
        pointer,
        fun: AtomicFunction::Add,
        value: one,
        result: Some(result),
    })?;
    let built = function.finish();
    shader.add_entry_point("main", ShaderStage::Compute, [1, 1, 1], built)?;
    Ok(())
}

// ---- structs, constants, overrides and variables

/// A struct with two members, of which one has the label of a keyword.
pub fn build_struct(alloc: Global, shader: &mut ModuleBuilder) -> Result<(), BuildError> {
    let i32_type = shader.scalar(Scalar::I32)?;
    let members = [("fract", i32_type, 0), ("fn", i32_type, 4)];
    add_placed_struct(alloc, shader, "S", &members, 8)?;
    Ok(())
}

/// A constant with a label.
pub fn build_constant(alloc: Global, shader: &mut ModuleBuilder) -> Result<(), BuildError> {
    let i32_type = shader.scalar(Scalar::I32)?;
    let init = shader.global_expression(Expression::Literal(Literal::I32(7)))?;
    let name = Some(String::from_str(alloc, "N")?);
    shader.add_constant(Constant {
        name,
        ty: i32_type,
        init,
    })?;
    Ok(())
}

/// An override without a label, which has a number.
pub fn build_override(shader: &mut ModuleBuilder) -> Result<(), BuildError> {
    let u32_type = shader.scalar(Scalar::U32)?;
    shader.add_override(Override {
        name: None,
        id: Some(3),
        ty: u32_type,
        init: None,
    })?;
    Ok(())
}

/// An override whose value is a sum, which is refused.
pub fn build_operator(alloc: Global, shader: &mut ModuleBuilder) -> Result<(), BuildError> {
    let i32_type = shader.scalar(Scalar::I32)?;
    let m = shader.add_override(Override {
        name: Some(String::from_str(alloc, "m")?),
        id: None,
        ty: i32_type,
        init: None,
    })?;
    let left = shader.global_expression(Expression::Override(m))?;
    let right = shader.global_expression(Expression::Literal(Literal::I32(1)))?;
    let op = BinaryOperator::Add;
    let sum = shader.global_expression(Expression::Binary { op, left, right })?;
    shader.add_override(Override {
        name: Some(String::from_str(alloc, "n")?),
        id: None,
        ty: i32_type,
        init: Some(sum),
    })?;
    Ok(())
}

/// A buffer of integers that may be read and written.
pub fn build_global(alloc: Global, shader: &mut ModuleBuilder) -> Result<(), BuildError> {
    let u32_type = shader.scalar(Scalar::U32)?;
    let integers = shader.type_of(TypeInner::Array {
        base: u32_type,
        size: ArraySize::Dynamic,
        stride: 4,
    })?;
    shader.add_global(GlobalVariable {
        name: Some(String::from_str(alloc, "buf")?),
        space: AddressSpace::Storage {
            access: StorageAccess::LOAD | StorageAccess::STORE,
        },
        binding: Some(ResourceBinding {
            group: 0,
            binding: 1,
        }),
        ty: integers,
        init: None,
        memory_decorations: MemoryDecorations::empty(),
    })?;
    Ok(())
}
