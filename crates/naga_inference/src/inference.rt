//! The types of all expressions of a module.

ghost use Rattle.std.specs.Prelude.{◌≡◌, IsTrue, IfOk, IfErr, MatchResult, OnErr, Some};
ghost use Rattle.module_semantics.specs.acceptance.Accepted.{is_accepted};
ghost use Rattle.naga_inference.specs.Following.{FollowsRules, NoneIsAccepted};
ghost use Rattle.naga_inference.specs.Inferred.{IsFirstUntyped, IsRefused, IsTyped};
ghost use Rattle.naga_inference.specs.Inferred.{entry_points_infos, function_infos};
ghost use Rattle.naga_inference.specs.Inferred.{functions_infos, own_types};

use crate::errors::{InferenceError, Untyped};
use crate::rules::{Missing, inferred_type, missing_of};
use naga_acceptance::parts::Known;
use naga_acceptance::{FaultPosition, FunctionPosition, unaccepted};
use naga_info::{ExpressionInfo, FunctionInfo, ModuleInfo, TypeResolution};
use naga_ir::{Expression, Function, Handle, Module};
use std::alloc::{AllocError, Global};

/// The types of the module's own expressions, or the first of these that has none, with what it
/// lacks.
#[tactic(auto, using(crate::proofs::Passing::goes_on, crate::proofs::Passing::stops, crate::proofs::Passing::ends))]
fn own_types(
    alloc: Global,
    module: &Module,
) -> Result<Result<Vec<TypeResolution>, (Handle<Expression>, Missing)>, AllocError>
    ensures { IfOk result (λ found. MatchResult found
        (λ types. own_types «module».now ≡ Ok types.items) (λ q. own_types «module».now ≡ Err q)) }
{
    let mut types = Vec::new(alloc);
    for (handle, expression) in module.global_expressions.iter() {
        match inferred_type(module, None, Known::Global(types.as_slice()), expression) {
            Some(ty) => types.push(ty)?,
            None => return Ok(Err((handle, missing_of(expression)))),
        }
    }
    Ok(Ok(types))
}

/// The types of a function's expressions, or the first of these that has none, with what it lacks.
#[tactic(auto, using(crate::proofs::Passing::goes_on, crate::proofs::Passing::stops, crate::proofs::Passing::ends))]
fn function_infos(
    alloc: Global,
    module: &Module,
    function: &Function,
) -> Result<Result<FunctionInfo, (Handle<Expression>, Missing)>, AllocError>
    ensures { IfOk result (λ found. function_infos «module».now function.now ≡ found) }
{
    let mut expressions: Vec<ExpressionInfo> = Vec::new(alloc);
    for (handle, expression) in function.expressions.iter() {
        let known = Known::Function(expressions.as_slice());
        match inferred_type(module, Some(function), known, expression) {
            Some(ty) => expressions.push(ExpressionInfo { ref_count: 0, ty })?,
            None => return Ok(Err((handle, missing_of(expression)))),
        }
    }
    Ok(Ok(FunctionInfo { expressions }))
}

/// The types of the expressions of all functions, or the first of these that has none.
#[tactic(auto, using(crate::proofs::Passing::goes_on, crate::proofs::Passing::stops, crate::proofs::Passing::ends))]
fn functions_infos(
    alloc: Global,
    module: &Module,
) -> Result<
    Result<Vec<FunctionInfo>, (Handle<Function>, (Handle<Expression>, Missing))>,
    AllocError,
>
    ensures { IfOk result (λ found. MatchResult found
        (λ infos. functions_infos «module».now ≡ Ok infos.items)
        (λ q. functions_infos «module».now ≡ Err q)) }
{
    let mut infos = Vec::new(alloc);
    for (here, function) in module.functions.iter() {
        match function_infos(alloc, module, function)? {
            Ok(info) => infos.push(info)?,
            Err(fault) => return Ok(Err((here, fault))),
        }
    }
    Ok(Ok(infos))
}

/// The same of the entry points.
#[tactic(auto, using(crate::proofs::Passing::goes_on, crate::proofs::Passing::stops, crate::proofs::Passing::ends))]
fn entry_points_infos(
    alloc: Global,
    module: &Module,
) -> Result<Result<Vec<FunctionInfo>, (usize, (Handle<Expression>, Missing))>, AllocError>
    ensures { IfOk result (λ found. MatchResult found
        (λ infos. entry_points_infos «module».now ≡ Ok infos.items)
        (λ q. entry_points_infos «module».now ≡ Err q)) }
{
    let mut infos = Vec::new(alloc);
    for (index, entry_point) in module.entry_points.iter().enumerate() {
        match function_infos(alloc, module, &entry_point.function)? {
            Ok(info) => infos.push(info)?,
            Err(fault) => return Ok(Err((index, fault))),
        }
    }
    Ok(Ok(infos))
}

/// The types of all expressions, or the first that has none: of the module's own, of the functions
/// and of the entry points, in this order. [`infer`] says what the types are.
///
/// Whether the module is accepted with them is not asked. Where it is not, they are what
/// [`unaccepted`] found a fault with. An `Ok(Err(_))` comes only where no info that follows the
/// rules is accepted. An `Err` says that memory was refused.
///
/// ```text
/// match inferred_types(alloc, &module)? {
///     Ok(info) => match unaccepted(&module, &info) {
///         Some(fault) => println!(rt; "{fault}")?, // which `explain` says more of, by the info
///         None => println!(rt; "accepted")?,
///     },
///     Err(untyped) => println!(rt; "{untyped}")?, // function 3, expression 41: it has no type
/// }
/// ```
#[tactic(auto, using(crate::proofs::FirstUntyped::untyped_own, crate::proofs::FirstUntyped::untyped_function, crate::proofs::FirstUntyped::untyped_entry_point, crate::proofs::Following::untyped_unfollowed))]
pub fn inferred_types(
    alloc: Global,
    module: &Module,
) -> Result<Result<ModuleInfo, Untyped>, AllocError>
    ensures typed { IfOk result (λ found. IfOk found (IsTyped «module».now)) }
    ensures untyped { IfOk result (λ found. IfErr found (IsFirstUntyped «module».now)) }
    ensures none { IfOk result (λ found. OnErr found (NoneIsAccepted «module».now)) }
{
    let const_expression_types = match own_types(alloc, module)? {
        Ok(types) => types,
        Err((handle, missing)) => {
            let position = FaultPosition::GlobalExpression(handle);
            return Ok(Err(Untyped { position, missing }));
        }
    };
    let functions = match functions_infos(alloc, module)? {
        Ok(infos) => infos,
        Err((here, (expression, missing))) => {
            let position = FaultPosition::Function(here, FunctionPosition::Expression(expression));
            return Ok(Err(Untyped { position, missing }));
        }
    };
    let entry_points = match entry_points_infos(alloc, module)? {
        Ok(infos) => infos,
        Err((index, (expression, missing))) => {
            let part = FunctionPosition::Expression(expression);
            let position = FaultPosition::EntryPoint(index, part);
            return Ok(Err(Untyped { position, missing }));
        }
    };
    Ok(Ok(ModuleInfo {
        functions,
        entry_points,
        const_expression_types,
    }))
}

/// What is known of a module, by the module alone: of each expression its type, as
/// [`inferred_type`] gives it by those of the expressions before it. So a module that comes without
/// an info can be counted and written, and one that comes with an info can be compared with what
/// its types should be.
///
/// An `Ok(Ok(_))` has the types that the rules give, and the module is accepted with them. Nothing
/// is counted in it: [`count`](naga_acceptance::count) does that.
///
/// An `Ok(Err(_))` comes only where no info is accepted that follows the rules, in whichever way it
/// tells its types, by handle or by itself:
///
/// - [`InferenceError::Untyped`]: the rules give the expression there no type. It is the first: of
///   the module's own expressions, of the functions and of the entry points, in this order.
/// - [`InferenceError::Undeclared`]: the same, where the type would be a special one of the module.
/// - [`InferenceError::Unaccepted`]: each expression has a type, and with these types the fault is
///   the first that [`unaccepted`] finds.
///
/// The module stays as it is. An `Err` says that memory was refused, and what was found is let go.
/// It takes memory for the lists of the info alone, and time as the module is long; to look for
/// faults it takes what [`unaccepted`] takes.
///
/// ```text
/// match infer(alloc, &module)? {
///     Ok(mut info) => {
///         count(&mut info, &module);
///         let text = write_string(alloc, &module, &info, no_flags())?;
///     }
///     Err(error) => println!(rt; "{error}")?,
/// }
/// ```
#[tactic(auto, using(crate::proofs::Following::untyped_unfollowed, crate::proofs::Refusals::none_accepted, crate::proofs::Typed::typed_follows))]
pub fn infer(
    alloc: Global,
    module: &Module,
) -> Result<Result<ModuleInfo, InferenceError>, AllocError>
    ensures typed { IfOk result (λ found. IfOk found (IsTyped «module».now)) }
    ensures accepted { IfOk result (λ found. IfOk found
        (λ info. IsTrue (is_accepted «module».now info))) }
    ensures follows { IfOk result (λ found. IfOk found (FollowsRules «module».now)) }
    ensures refused { IfOk result (λ found. IfErr found (IsRefused «module».now)) }
    ensures none { IfOk result (λ found. OnErr found (NoneIsAccepted «module».now)) }
{
    let info = match inferred_types(alloc, module)? {
        Ok(info) => info,
        Err(Untyped { position, missing }) => match missing {
            Missing::Rule => return Ok(Err(InferenceError::Untyped(position))),
            Missing::SpecialType => return Ok(Err(InferenceError::Undeclared(position))),
        },
    };
    match unaccepted(module, &info) {
        Some(fault) => Ok(Err(InferenceError::Unaccepted(fault))),
        None => Ok(Ok(info)),
    }
}
