//! Whether every item that a module or its info names exists and comes early enough, and numbers
//! fit their types.

ghost use Rattle.std.specs.Prelude.{◌≡◌, length, nat_lt};
ghost use Rattle.std.specs.List.{enumerate_from, list_all};
ghost use Rattle.indexmap.specs.IndexMap.{values};
ghost use Rattle.naga_acceptance.specs.Faults.{entry_names_fit};
ghost use Rattle.naga_acceptance.specs.FirstFaults.{declarations_range_fault};
ghost use Rattle.naga_acceptance.specs.FirstFaults.{entry_point_range_fault};
ghost use Rattle.naga_acceptance.specs.FirstFaults.{entry_points_range_fault, first_known_fault};
ghost use Rattle.naga_acceptance.specs.FirstFaults.{first_unknown, function_range_fault};
ghost use Rattle.naga_acceptance.specs.FirstFaults.{functions_range_fault, info_fault};
ghost use Rattle.naga_acceptance.specs.FirstFaults.{items_range_fault, module_range_fault};
ghost use Rattle.naga_acceptance.specs.FirstFaults.{ranges_fault};
ghost use Rattle.naga_acceptance.specs.Searching.{first_unfit};
ghost use Rattle.module_semantics.specs.acceptance.Ranges.{constant_in_range, global_in_range};
ghost use Rattle.module_semantics.specs.acceptance.Ranges.{is_below};
ghost use Rattle.module_semantics.specs.acceptance.Ranges.{local_in_range, module_ranges_fit};
ghost use Rattle.module_semantics.specs.acceptance.Ranges.{names_fit};
ghost use Rattle.module_semantics.specs.acceptance.Ranges.{override_in_range, resolution_fits};
ghost use Rattle.module_semantics.specs.acceptance.Ranges.{signature_fits};
ghost use Rattle.module_semantics.specs.acceptance.Ranges.{ray_types_fit, signature_types_fit};
ghost use Rattle.module_semantics.specs.acceptance.Ranges.{special_types_fit};

pub(crate) mod expressions;
pub(crate) mod numbers;
pub(crate) mod sizes;
pub(crate) mod statements;
pub(crate) mod types;

use crate::faults::{
    Fault, FaultPosition, FunctionPosition, Unaccepted, at, at_entry_point, at_expression,
    at_function,
};
use crate::ranges::expressions::{
    first_expression_out_of_range, first_global_expression_out_of_range,
};
use crate::ranges::numbers::{
    id_fits_16_bits, resource_fits_32_bits, signature_fits_32_bits, workgroup_fits_32_bits,
};
use crate::ranges::sizes::{first_handle_pointer, resolution_is_fit, sizes_fault};
use crate::ranges::statements::first_out_of_range;
use crate::ranges::types::{resolution_in_range, types_range_fault};
use naga_info::{ExpressionInfo, FunctionInfo, ModuleInfo, TypeResolution};
use naga_ir::{
    Arena, Constant, EntryPoint, Expression, Function, FunctionArgument, GlobalVariable, Handle,
    ItemIndex, LocalVariable, Module, Override, SpecialTypes,
};

/// Whether the handle, if there is one, lies below the bound.
pub(crate) fn is_below<M>(bound: usize, handle: Option<ItemIndex<M>>) -> bool
    ensures { result ≡ is_below bound handle }
{
    match handle {
        Some(handle) => handle.index() < bound,
        None => true,
    }
}

fn constant_in_range(types: usize, expressions: usize, constant: &Constant) -> bool
    ensures { result ≡ constant_in_range types expressions constant.now }
{
    constant.ty.index() < types && constant.init.index() < expressions
}

/// The first constant that names what is not there.
fn first_constant_out_of_range(
    types: usize,
    expressions: usize,
    constants: &Arena<Constant>,
) -> Option<Handle<Constant>>
    ensures { result ≡ first_unfit (λ _. constant_in_range types expressions)
        (enumerate_from 0 constants.now) }
{
    for (handle, constant) in constants.iter() {
        if !constant_in_range(types, expressions, constant) {
            return Some(handle);
        }
    }
    None
}

fn override_in_range(types: usize, expressions: usize, item: &Override) -> bool
    ensures { result ≡ override_in_range types expressions item.now }
{
    item.ty.index() < types && is_below(expressions, item.init) && id_fits_16_bits(item.id)
}

/// The first override that names what is not there.
fn first_override_out_of_range(
    types: usize,
    expressions: usize,
    overrides: &Arena<Override>,
) -> Option<Handle<Override>>
    ensures { result ≡ first_unfit (λ _. override_in_range types expressions)
        (enumerate_from 0 overrides.now) }
{
    for (handle, item) in overrides.iter() {
        if !override_in_range(types, expressions, item) {
            return Some(handle);
        }
    }
    None
}

fn global_in_range(types: usize, expressions: usize, global: &GlobalVariable) -> bool
    ensures { result ≡ global_in_range types expressions global.now }
{
    global.ty.index() < types
        && is_below(expressions, global.init)
        && resource_fits_32_bits(global.binding)
}

/// The first global that names what is not there.
fn first_global_out_of_range(
    types: usize,
    expressions: usize,
    globals: &Arena<GlobalVariable>,
) -> Option<Handle<GlobalVariable>>
    ensures { result ≡ first_unfit (λ _. global_in_range types expressions)
        (enumerate_from 0 globals.now) }
{
    for (handle, global) in globals.iter() {
        if !global_in_range(types, expressions, global) {
            return Some(handle);
        }
    }
    None
}

fn special_types_fit(type_count: usize, special_types: &SpecialTypes) -> bool
    ensures { result ≡ special_types_fit type_count special_types.now }
{
    predeclared_types_fit(type_count, special_types)
        && is_below(type_count, special_types.external_texture_params)
        && is_below(type_count, special_types.external_texture_transfer_function)
        && ray_types_fit(type_count, special_types)
}

fn ray_types_fit(type_count: usize, special_types: &SpecialTypes) -> bool
    ensures { result ≡ ray_types_fit type_count special_types.now }
{
    is_below(type_count, special_types.ray_desc)
        && is_below(type_count, special_types.ray_intersection)
        && is_below(type_count, special_types.ray_vertex_return)
}

fn predeclared_types_fit(type_count: usize, special_types: &SpecialTypes) -> bool
    ensures { result ≡ list_all (λ h. nat_lt h type_count)
        (values special_types.now.predeclared_types) }
{
    special_types
        .predeclared_types
        .values()
        .all(|handle| handle.index() < type_count)
}

/// The first constant, override, variable or global expression of a module that names what is not
/// there.
fn items_range_fault(module: &Module) -> Option<Unaccepted>
    ensures { result ≡ items_range_fault «module».now }
{
    let types = module.types.len();
    let expressions = module.global_expressions.len();
    if let Some(handle) = first_constant_out_of_range(types, expressions, &module.constants) {
        return Some(at(FaultPosition::Constant(handle), Fault::Names));
    }
    if let Some(handle) = first_override_out_of_range(types, expressions, &module.overrides) {
        return Some(at(FaultPosition::Override(handle), Fault::Names));
    }
    if let Some(handle) = first_global_out_of_range(types, expressions, &module.global_variables) {
        return Some(at(FaultPosition::GlobalVariable(handle), Fault::Names));
    }
    match first_global_expression_out_of_range(module) {
        Some((handle, fault)) => Some(at(FaultPosition::GlobalExpression(handle), fault)),
        None => None,
    }
}

/// The first item that a module declares beside functions and entry points, and that names what is
/// not there.
fn declarations_range_fault(module: &Module) -> Option<Unaccepted>
    ensures { result ≡ declarations_range_fault «module».now }
{
    let types = types_range_fault(module);
    if types.is_some() {
        return types;
    }
    if !special_types_fit(module.types.len(), &module.special_types) {
        return Some(at(FaultPosition::Module, Fault::SpecialTypes));
    }
    items_range_fault(module)
}

fn local_in_range(types: usize, expressions: usize, local: &LocalVariable) -> bool
    ensures { result ≡ local_in_range types expressions local.now }
{
    local.ty.index() < types && is_below(expressions, local.init)
}

/// The first local that names what is not there.
fn first_local_out_of_range(
    types: usize,
    expressions: usize,
    locals: &Arena<LocalVariable>,
) -> Option<Handle<LocalVariable>>
    ensures { result ≡ first_unfit (λ _. local_in_range types expressions)
        (enumerate_from 0 locals.now) }
{
    for (handle, local) in locals.iter() {
        if !local_in_range(types, expressions, local) {
            return Some(handle);
        }
    }
    None
}

/// Whether the types of the arguments and of the result are among the first `type_count`.
fn signature_types_fit(type_count: usize, function: &Function) -> bool
    ensures { result ≡ signature_types_fit type_count function.now }
{
    arguments_fit(type_count, &function.arguments)
        && match &function.result {
            Some(answer) => answer.ty.index() < type_count,
            None => true,
        }
}

fn signature_fits(type_count: usize, function: &Function) -> bool
    ensures { result ≡ signature_fits type_count function.now }
{
    signature_types_fit(type_count, function) && signature_fits_32_bits(function)
}

fn arguments_fit(type_count: usize, arguments: &[FunctionArgument]) -> bool
    ensures { result ≡ list_all (λ a. nat_lt a.ty type_count) arguments.now }
{
    arguments
        .iter()
        .all(|argument| argument.ty.index() < type_count)
}

fn names_fit(function: &Function) -> bool
    ensures { result ≡ names_fit function.now }
{
    let count = function.expressions.len();
    function
        .named_expressions
        .keys()
        .all(|handle| handle.index() < count)
}

/// The first part of a function, where it may call the first `callees` functions, that names what
/// is not there.
fn function_range_fault(
    module: &Module,
    callees: usize,
    function: &Function,
) -> Option<(FunctionPosition, Fault)>
    ensures { result ≡ function_range_fault «module».now callees function.now }
{
    let types = module.types.len();
    let expressions = function.expressions.len();
    if !signature_fits(types, function) {
        return Some((FunctionPosition::Whole, Fault::Signature));
    }
    if !names_fit(function) {
        return Some((FunctionPosition::Whole, Fault::NamedExpressions));
    }
    if let Some(local) = first_local_out_of_range(types, expressions, &function.local_variables) {
        return Some((FunctionPosition::Local(local), Fault::Names));
    }
    if let Some(found) = first_expression_out_of_range(module, function) {
        return Some(at_expression(found));
    }
    match first_out_of_range(callees, expressions, &function.body) {
        Some(number) => Some((FunctionPosition::Statement(number), Fault::Names)),
        None => None,
    }
}

fn functions_range_fault(module: &Module) -> Option<Unaccepted>
    ensures { result ≡ functions_range_fault «module».now }
{
    for (handle, function) in module.functions.iter() {
        if let Some(found) = function_range_fault(module, handle.index(), function) {
            return Some(at_function(handle, found));
        }
    }
    None
}

/// Whether the overrides that set the size of workgroups lie below the bound. Nothing is asked of
/// their types.
fn size_overrides_fit(bound: usize, overrides: &[Option<Handle<Override>>]) -> bool
    ensures { result ≡ list_all (is_below bound) overrides.now }
{
    overrides.iter().all(|handle| is_below(bound, *handle))
}

/// Whether the variables and the overrides that an entry point names are there, and its workgroup's
/// sizes have 32 bits.
fn entry_names_fit(module: &Module, entry_point: &EntryPoint) -> bool
    ensures { result ≡ entry_names_fit «module».now entry_point.now }
{
    let globals = module.global_variables.len();
    let output_variable = match &entry_point.mesh_info {
        Some(mesh_info) => Some(mesh_info.output_variable),
        None => None,
    };
    is_below(globals, output_variable)
        && is_below(globals, entry_point.task_payload)
        && is_below(globals, entry_point.incoming_ray_payload)
        && size_overrides_fit(
            module.overrides.len(),
            &entry_point.workgroup_size_overrides,
        )
        && workgroup_fits_32_bits(
            entry_point.workgroup_size,
            &entry_point.workgroup_size_overrides,
        )
}

/// The first part of an entry point that names what is not there. It may call each function.
fn entry_point_range_fault(
    module: &Module,
    entry_point: &EntryPoint,
) -> Option<(FunctionPosition, Fault)>
    ensures { result ≡ entry_point_range_fault «module».now entry_point.now }
{
    if !entry_names_fit(module, entry_point) {
        return Some((FunctionPosition::Whole, Fault::Names));
    }
    function_range_fault(module, module.functions.len(), &entry_point.function)
}

fn entry_points_range_fault(module: &Module) -> Option<Unaccepted>
    ensures { result ≡ entry_points_range_fault «module».now }
{
    for (index, entry_point) in module.entry_points.iter().enumerate() {
        if let Some(found) = entry_point_range_fault(module, entry_point) {
            return Some(at_entry_point(index, found));
        }
    }
    None
}

fn module_range_fault(module: &Module) -> Option<Unaccepted>
    ensures { result ≡ module_range_fault «module».now }
{
    let declarations = declarations_range_fault(module);
    if declarations.is_some() {
        return declarations;
    }
    let functions = functions_range_fault(module);
    if functions.is_some() {
        return functions;
    }
    entry_points_range_fault(module)
}

/// Whether a known type has a form that it may have, and names what there is: types among the first
/// `types`, and an override among the first `overrides`.
fn resolution_fits(overrides: usize, types: usize, ty: &TypeResolution) -> bool
    ensures { result ≡ resolution_fits overrides types ty.now }
{
    resolution_is_fit(ty) && resolution_in_range(overrides, types, ty)
}

/// The first expression of a function whose known type has a form that it may not have, or names
/// what is not there.
fn first_unknown(
    overrides: usize,
    types: usize,
    infos: &[ExpressionInfo],
) -> Option<Handle<Expression>>
    ensures { result ≡ first_unknown overrides types infos.now }
{
    for (index, info) in infos.iter().enumerate() {
        if !resolution_fits(overrides, types, &info.ty) {
            return Some(ItemIndex::from_index(index));
        }
    }
    None
}

/// The index of the first function in which there is such an expression, with that.
fn first_known_fault(
    overrides: usize,
    types: usize,
    infos: &[FunctionInfo],
) -> Option<(usize, (FunctionPosition, Fault))>
    ensures { result ≡ first_known_fault overrides types infos.now }
{
    for (index, info) in infos.iter().enumerate() {
        if let Some(handle) = first_unknown(overrides, types, info.expressions.as_slice()) {
            return Some((
                index,
                (FunctionPosition::Expression(handle), Fault::KnownType),
            ));
        }
    }
    None
}

fn first_unknown_global(
    overrides: usize,
    types: usize,
    infos: &[TypeResolution],
) -> Option<Handle<Expression>>
    ensures { result ≡ first_unfit (λ _. resolution_fits overrides types)
        (enumerate_from 0 infos.now) }
{
    for (index, ty) in infos.iter().enumerate() {
        if !resolution_fits(overrides, types, ty) {
            return Some(ItemIndex::from_index(index));
        }
    }
    None
}

/// The first expression whose known type has a form that it may not have, or names what is not
/// there.
fn info_fault(module: &Module, info: &ModuleInfo) -> Option<Unaccepted>
    ensures { result ≡ info_fault «module».now info.now }
{
    let overrides = module.overrides.len();
    let types = module.types.len();
    if let Some((index, found)) = first_known_fault(overrides, types, info.functions.as_slice()) {
        return Some(at_function(ItemIndex::from_index(index), found));
    }
    let entry_points = info.entry_points.as_slice();
    if let Some((index, found)) = first_known_fault(overrides, types, entry_points) {
        return Some(at_entry_point(index, found));
    }
    let globals = info.const_expression_types.as_slice();
    match first_unknown_global(overrides, types, globals) {
        Some(handle) => Some(at(FaultPosition::GlobalExpression(handle), Fault::KnownType)),
        None => None,
    }
}

/// The first position where the module or what is known of it names what is not there, or does not
/// stand where it may be named ([`ranges_fit`]).
pub(crate) fn ranges_fault(module: &Module, info: &ModuleInfo) -> Option<Unaccepted>
    ensures { result ≡ ranges_fault «module».now info.now }
{
    let sizes = sizes_fault(module, info);
    if sizes.is_some() {
        return sizes;
    }
    if let Some(handle) = first_handle_pointer(&module.types) {
        return Some(at(FaultPosition::Type(handle), Fault::HandlePointer));
    }
    let named = module_range_fault(module);
    if named.is_some() {
        return named;
    }
    info_fault(module, info)
}

/// Whether all that the module and what is known of it name is there, and stands where it may be
/// named:
///
/// - The info has one entry for each function, entry point and global expression, and for each
///   expression of a function. No type by itself in it is a struct, and no type of the module or the
///   info is a pointer in the space of handles.
/// - Handles, `Emit` ranges and argument numbers lie in their arenas and lists.
/// - A type's parts stand before it, an expression's operands before the expression, and a callee
///   before its caller. Entry points may call each function.
/// - A global expression names no argument and no local, and stands after the initialiser of each
///   constant and override that it names.
/// - Numbers are of their types, and a pattern has four letters, as it always is here.
///
/// It takes no memory, and answers whatever numbers a module holds.
pub fn ranges_fit(module: &Module, info: &ModuleInfo) -> bool
    ensures { result ≡ module_ranges_fit «module».now info.now }
{
    ranges_fault(module, info).is_none()
}
