//! Whether what is known of a module has the module's size, and types have a form that they may
//! have there.

ghost use Rattle.std.specs.Prelude.{◌≡◌, ◌==◌, length};
ghost use Rattle.std.specs.List.{enumerate_from};
ghost use Rattle.naga_acceptance.specs.FirstFaults.{entry_point_sizes_fault};
ghost use Rattle.naga_acceptance.specs.FirstFaults.{function_sizes_fault, sizes_fault};
ghost use Rattle.naga_acceptance.specs.Searching.{first_unfit};
ghost use Rattle.module_semantics.specs.acceptance.InfoSizes.{function_size_fits, is_handle_pointer};
ghost use Rattle.module_semantics.specs.acceptance.InfoSizes.{is_handle_space, resolution_is_fit};
ghost use Rattle.module_semantics.specs.acceptance.InfoSizes.{type_is_fit};
ghost use Rattle.naga_spelling.specs.Spelling.{is_struct};

use crate::faults::{Fault, FaultPosition, FunctionPosition, Unaccepted, at};
use naga_info::{FunctionInfo, ModuleInfo, TypeResolution};
use naga_ir::{
    AddressSpace, Arena, EntryPoint, Function, Handle, ItemIndex, Module, Type_, TypeInner,
    UniqueArena,
};

/// Whether one thing is known of each of the function's expressions.
pub(crate) fn function_size_fits(function: &Function, info: &FunctionInfo) -> bool
    ensures { result ≡ function_size_fits function.now info.now }
{
    function.expressions.len() == info.expressions.len()
}

fn function_sizes_fault(functions: &Arena<Function>, infos: &[FunctionInfo]) -> Option<Unaccepted>
    ensures { result ≡ function_sizes_fault functions.now infos.now }
{
    if functions.len() != infos.len() {
        return Some(at(FaultPosition::Module, Fault::InfoSize));
    }
    for (index, info) in infos.iter().enumerate() {
        let handle = ItemIndex::from_index(index);
        if !function_size_fits(&functions[handle], info) {
            return Some(at(
                FaultPosition::Function(handle, FunctionPosition::Whole),
                Fault::InfoSize,
            ));
        }
    }
    None
}

fn entry_point_sizes_fault(
    entry_points: &[EntryPoint],
    infos: &[FunctionInfo],
) -> Option<Unaccepted>
    ensures { result ≡ entry_point_sizes_fault entry_points.now infos.now }
{
    if entry_points.len() != infos.len() {
        return Some(at(FaultPosition::Module, Fault::InfoSize));
    }
    for (index, info) in infos.iter().enumerate() {
        if !function_size_fits(&entry_points[index].function, info) {
            return Some(at(
                FaultPosition::EntryPoint(index, FunctionPosition::Whole),
                Fault::InfoSize,
            ));
        }
    }
    None
}

/// The first position where there is not one entry for each function, entry point, expression and
/// global expression.
pub(crate) fn sizes_fault(module: &Module, info: &ModuleInfo) -> Option<Unaccepted>
    ensures { result ≡ sizes_fault «module».now info.now }
{
    let functions = function_sizes_fault(&module.functions, info.functions.as_slice());
    if functions.is_some() {
        return functions;
    }
    let entry_points = entry_point_sizes_fault(&module.entry_points, info.entry_points.as_slice());
    if entry_points.is_some() {
        return entry_points;
    }
    if module.global_expressions.len() != info.const_expression_types.len() {
        return Some(at(FaultPosition::Module, Fault::InfoSize));
    }
    None
}

fn is_handle_space(space: AddressSpace) -> bool
    ensures { result ≡ is_handle_space space }
{
    match space {
        AddressSpace::Handle => true,
        _ => false,
    }
}

/// Whether it is a pointer to one of the module's types, in the space of handles.
pub(crate) fn is_handle_pointer(inner: &TypeInner) -> bool
    ensures { result ≡ is_handle_pointer inner.now }
{
    match inner {
        TypeInner::Pointer { space, .. } => is_handle_space(*space),
        _ => false,
    }
}

pub(crate) fn is_struct(inner: &TypeInner) -> bool
    ensures { result ≡ is_struct inner.now }
{
    match inner {
        TypeInner::Struct { .. } => true,
        _ => false,
    }
}

/// The first type of the module that is a pointer in the space of handles.
pub(crate) fn first_handle_pointer(types: &UniqueArena<Type_>) -> Option<Handle<Type_>>
    ensures { result ≡ first_unfit (λ _. type_is_fit) (enumerate_from 0 types.now) }
{
    for (handle, ty) in types.iter() {
        if is_handle_pointer(&ty.inner) {
            return Some(handle);
        }
    }
    None
}

/// Whether a known type is no struct by itself, and no pointer in the space of handles.
pub(crate) fn resolution_is_fit(ty: &TypeResolution) -> bool
    ensures { result ≡ resolution_is_fit ty.now }
{
    match ty {
        TypeResolution::Handle(_) => true,
        TypeResolution::Value(inner) => !is_struct(inner) && !is_handle_pointer(inner),
    }
}
