//! Whether expressions, initialisers and statements have the types that they need.

ghost use Rattle.std.specs.Prelude.{◌≡◌, map};
ghost use Rattle.std.specs.Option.{option_copied};
ghost use Rattle.naga_acceptance.specs.FirstFaults.{declarations_sound_fault};
ghost use Rattle.naga_acceptance.specs.FirstFaults.{entry_points_sound_fault};
ghost use Rattle.naga_acceptance.specs.FirstFaults.{expression_sound_fault};
ghost use Rattle.naga_acceptance.specs.FirstFaults.{expressions_sound_fault};
ghost use Rattle.naga_acceptance.specs.FirstFaults.{function_sound_fault, functions_sound_fault};
ghost use Rattle.naga_acceptance.specs.FirstFaults.{sound_fault};
ghost use Rattle.naga_acceptance.specs.KnownTypes.{known_types};
ghost use Rattle.module_semantics.specs.acceptance.Soundness.{module_is_sound};

use crate::demands::operands_fit;
use crate::expression_types::has_its_type;
use crate::faults::{
    Fault, FaultPosition, FunctionPosition, Unaccepted, at, at_entry_point, at_expression,
    at_function,
};
use crate::initialisers::{first_unsound_local, initialisers_fault};
use crate::parts::Known;
use crate::statements::first_unsound;
use naga_info::{FunctionInfo, ModuleInfo, TypeResolution};
use naga_ir::{Arena, EntryPoint, Expression, Function, Handle, ItemIndex, Module};

/// Whether the expression with this handle has another type than what it stands for, or else takes
/// no operands of these types.
fn expression_sound_fault(
    module: &Module,
    function: Option<&Function>,
    known: Known<'_>,
    handle: Handle<Expression>,
    expression: &Expression,
) -> Option<Fault>
    ensures { result ≡ expression_sound_fault «module».now (option_copied function.entry)
        (known_types known.entry) handle expression.now }
{
    if !has_its_type(module, function, known, handle, expression) {
        return Some(Fault::OtherType);
    }
    if !operands_fit(&module.types, known, expression) {
        return Some(Fault::OperandTypes);
    }
    None
}

/// The first expression of which that is so.
fn expressions_sound_fault(
    module: &Module,
    function: Option<&Function>,
    known: Known<'_>,
    expressions: &Arena<Expression>,
) -> Option<(Handle<Expression>, Fault)>
    ensures { result ≡ expressions_sound_fault «module».now (option_copied function.entry)
        (known_types known.entry) expressions.now }
{
    for (handle, expression) in expressions.iter() {
        if let Some(fault) = expression_sound_fault(module, function, known, handle, expression) {
            return Some((handle, fault));
        }
    }
    None
}

/// The first part of a function that does not get what it needs.
fn function_sound_fault(
    module: &Module,
    function: &Function,
    info: &FunctionInfo,
) -> Option<(FunctionPosition, Fault)>
    ensures { result ≡ function_sound_fault «module».now function.now
        (map (λ k. k.ty) info.now) }
{
    let known = Known::Function(info.expressions.as_slice());
    let expressions = &function.expressions;
    if let Some(found) = expressions_sound_fault(module, Some(function), known, expressions) {
        return Some(at_expression(found));
    }
    if let Some(local) = first_unsound_local(&module.types, known, &function.local_variables) {
        return Some((FunctionPosition::Local(local), Fault::InitialiserType));
    }
    match first_unsound(module, function, known) {
        Some(number) => Some((FunctionPosition::Statement(number), Fault::Unsatisfied)),
        None => None,
    }
}

fn functions_sound_fault(
    module: &Module,
    functions: &Arena<Function>,
    infos: &[FunctionInfo],
) -> Option<Unaccepted>
    ensures { result ≡ functions_sound_fault «module».now functions.now infos.now }
{
    if functions.len() != infos.len() {
        return Some(at(FaultPosition::Module, Fault::InfoSize));
    }
    for (index, info) in infos.iter().enumerate() {
        let handle = ItemIndex::from_index(index);
        if let Some(found) = function_sound_fault(module, &functions[handle], info) {
            return Some(at_function(handle, found));
        }
    }
    None
}

fn entry_points_sound_fault(
    module: &Module,
    entry_points: &[EntryPoint],
    infos: &[FunctionInfo],
) -> Option<Unaccepted>
    ensures { result ≡ entry_points_sound_fault «module».now entry_points.now infos.now }
{
    if entry_points.len() != infos.len() {
        return Some(at(FaultPosition::Module, Fault::InfoSize));
    }
    for (index, info) in infos.iter().enumerate() {
        if let Some(found) = function_sound_fault(module, &entry_points[index].function, info) {
            return Some(at_entry_point(index, found));
        }
    }
    None
}

/// The first of the module's own expressions, or else the first of its initialisers, that does not
/// get what it needs.
fn declarations_sound_fault(module: &Module, types: &[TypeResolution]) -> Option<Unaccepted>
    ensures { result ≡ declarations_sound_fault «module».now types.now }
{
    let known = Known::Global(types);
    let expressions = &module.global_expressions;
    if let Some((handle, fault)) = expressions_sound_fault(module, None, known, expressions) {
        return Some(at(FaultPosition::GlobalExpression(handle), fault));
    }
    initialisers_fault(module, known)
}

/// The first position where what stands in a module does not get what it needs ([`module_is_sound`]).
pub(crate) fn sound_fault(module: &Module, info: &ModuleInfo) -> Option<Unaccepted>
    ensures { result ≡ sound_fault «module».now info.now }
{
    let declarations = declarations_sound_fault(module, info.const_expression_types.as_slice());
    if declarations.is_some() {
        return declarations;
    }
    let functions = functions_sound_fault(module, &module.functions, info.functions.as_slice());
    if functions.is_some() {
        return functions;
    }
    entry_points_sound_fault(module, &module.entry_points, info.entry_points.as_slice())
}

/// Whether all that stands in a module gets what it needs by what is known of it: each expression
/// of its functions, its entry points and its own has its type
/// ([`expected_type`](crate::expression_types::expected_type)) and operands that it takes
/// ([`operands_fit`]), initialisers have the types of their items, and statements get what they
/// need ([`body_is_sound`](crate::statements::body_is_sound)). Of each function and entry point one
/// thing has to be known. It takes no memory.
pub fn module_is_sound(module: &Module, info: &ModuleInfo) -> bool
    ensures { result ≡ module_is_sound «module».now info.now }
{
    sound_fault(module, info).is_none()
}
