//! What can be told of an expression without a type.

use naga_acceptance::FaultPosition;
use naga_acceptance::parts::Known;
use naga_inference::inferred_type;
use naga_info::{ExpressionInfo, FunctionInfo, ModuleInfo, TypeResolution};
use naga_ir::{Function, Module};
use naga_listing::{entry_point_at, item_at};
use std::alloc::{AllocError, Global};

/// What is known of a module for the listing around its first expression without a type: the types of
/// those that stand before it in the same function, or in the module.
pub fn types_before(
    alloc: Global,
    module: &Module,
    position: FaultPosition,
) -> Result<ModuleInfo, AllocError> {
    let mut info = ModuleInfo {
        functions: Vec::new(alloc),
        entry_points: Vec::new(alloc),
        const_expression_types: Vec::new(alloc),
    };
    match position {
        FaultPosition::Function(handle, _) => {
            if let Some(function) = item_at(&module.functions, handle) {
                put_at(alloc, module, function, handle.index(), &mut info.functions)?;
            }
        }
        FaultPosition::EntryPoint(index, _) => {
            if let Some(entry_point) = entry_point_at(module, index) {
                let function = &entry_point.function;
                put_at(alloc, module, function, index, &mut info.entry_points)?;
            }
        }
        _ => put_own(module, &mut info.const_expression_types)?,
    }
    Ok(info)
}

/// Puts what is known of a function at its index, behind others of which nothing is.
fn put_at(
    alloc: Global,
    module: &Module,
    function: &Function,
    index: usize,
    infos: &mut Vec<FunctionInfo>,
) -> Result<(), AllocError> {
    for _ in 0..index {
        infos.push(FunctionInfo {
            expressions: Vec::new(alloc),
        })?;
    }
    let mut expressions: Vec<ExpressionInfo> = Vec::new(alloc);
    for (_, expression) in function.expressions.iter() {
        let known = Known::Function(expressions.as_slice());
        match inferred_type(module, Some(function), known, expression) {
            Some(ty) => expressions.push(ExpressionInfo { ref_count: 0, ty })?,
            None => break,
        }
    }
    infos.push(FunctionInfo { expressions })?;
    Ok(())
}

/// Puts the types of the module's own expressions.
fn put_own(module: &Module, types: &mut Vec<TypeResolution>) -> Result<(), AllocError> {
    for (_, expression) in module.global_expressions.iter() {
        match inferred_type(module, None, Known::Global(types.as_slice()), expression) {
            Some(ty) => types.push(ty)?,
            None => break,
        }
    }
    Ok(())
}
