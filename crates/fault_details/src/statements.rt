//! Why a statement does not get what it needs.

ghost use Rattle.std.specs.Prelude.{◌≡◌, [], length, slice_get};
ghost use Rattle.std.specs.Option.{option_map};
ghost use Rattle.naga_ir.specs.StatementViews.{cases_of, tree_of};
ghost use Rattle.naga_acceptance.specs.KnownTypes.{known_types};
ghost use Rattle.module_semantics.specs.acceptance.StatementsFit.{is_atomic_result, is_ballot_result};
ghost use Rattle.module_semantics.specs.acceptance.StatementsFit.{is_subgroup_result};
ghost use Rattle.module_semantics.specs.acceptance.StatementsFit.{is_uniform_load_result};
ghost use Rattle.fault_details.specs.Demands.{IsCaseOf, OfEach, OfSome, One, Then, of_class, unmet};
ghost use Rattle.fault_details.specs.Reasons.{answer_demands, call_demands, case_value_demands};
ghost use Rattle.fault_details.specs.Reasons.{case_values, own_demands, passed_demands};
ghost use Rattle.fault_details.specs.Reasons.{result_demands, return_demands, statement_demands};
ghost use Rattle.fault_details.specs.Reasons.{store_demands, switch_demands};
ghost use Rattle.fault_details.specs.Shown.{placed, shown};

use crate::names::statement_name_reason;
use crate::reasons::{Reason, need_unless, number_reason};
use crate::types::{class_reason, type_reason};
use crate::walk::StatementAt;
use crate::words::{Counted, Need, TypeClass};
use naga_acceptance::Fault;
use naga_acceptance::expression_types::pointee_at;
use naga_acceptance::parts::{InferredType, Known, known_inner, known_type};
use naga_acceptance::statements::{
    case_values_differ, components_pointer, has_case_value, is_atomic_result, is_ballot_result,
    is_call_result, is_subgroup_result, is_uniform_load_result, last_falls_through,
};
use naga_ir::{
    Expression, Function, FunctionArgument, FunctionResult, Handle, Module, Scalar, ScalarKind,
    Statement, SwitchCase, SwitchValue, Type_, TypeInner, UniqueArena,
};

/// A condition that is no `bool`, if there is one.
fn condition_reason<'a>(
    types: &'a UniqueArena<Type_>,
    known: Known<'a>,
    condition: Option<Handle<Expression>>,
) -> Option<Reason<'a>>
    ensures { option_map shown result
        ≡ unmet types.now (OfSome (of_class (known_types known.entry) TypeClass.Bool) condition) }
{
    match condition {
        Some(condition) => class_reason(types, known, TypeClass::Bool, condition),
        None => None,
    }
}

// ---- switches

/// A case value of another type than the selector.
fn case_value_type_reason<'a>(scalar: Scalar, case_value: SwitchValue) -> Option<Reason<'a>>
    ensures { option_map shown result ≡ unmet [] (One (IsCaseOf scalar case_value)) }
{
    let kind = match (case_value, scalar.kind) {
        (SwitchValue::I32(_), ScalarKind::Sint) => return None,
        (SwitchValue::U32(_), ScalarKind::Uint) => return None,
        (SwitchValue::Default, _) => return None,
        (SwitchValue::I32(_), _) => ScalarKind::Sint,
        (SwitchValue::U32(_), _) => ScalarKind::Uint,
    };
    Some(Reason::OtherScalar {
        expected: scalar,
        got: Scalar { kind, width: 4 },
    })
}

fn case_value_types_reason<'a>(scalar: Scalar, cases: &[SwitchCase]) -> Option<Reason<'a>>
    ensures { option_map shown result
        ≡ unmet [] (OfEach (λ v. One (IsCaseOf scalar v)) (case_values (cases_of cases.now))) }
{
    for case in cases {
        let found = case_value_type_reason(scalar, case.value);
        if found.is_some() {
            return found;
        }
    }
    None
}

fn case_value_reason<'a>(scalar: Scalar, cases: &[SwitchCase]) -> Option<Reason<'a>>
    ensures { option_map shown result
        ≡ unmet [] (case_value_demands scalar (cases_of cases.now)) }
{
    let found = case_value_types_reason(scalar, cases);
    if found.is_some() {
        return found;
    }
    if !case_values_differ(cases) {
        return Some(Reason::Needs {
            need: Need::DistinctCaseValues,
        });
    }
    if !has_case_value(SwitchValue::Default, cases) {
        return Some(Reason::Needs {
            need: Need::Default,
        });
    }
    need_unless(!last_falls_through(cases), Need::End)
}

fn switch_reason<'a>(
    types: &'a UniqueArena<Type_>,
    known: Known<'a>,
    selector: Handle<Expression>,
    cases: &[SwitchCase],
) -> Option<Reason<'a>>
    ensures { option_map shown result ≡ unmet types.now
        (switch_demands types.now (known_types known.entry) selector (cases_of cases.now)) }
{
    let found = class_reason(types, known, TypeClass::Selector, selector);
    if found.is_some() {
        return found;
    }
    match known_inner(types, known, selector) {
        Some(TypeInner::Scalar(scalar)) => case_value_reason(*scalar, cases),
        _ => None,
    }
}

// ---- values that are stored, returned and passed

fn store_reason<'a>(
    types: &'a UniqueArena<Type_>,
    known: Known<'a>,
    pointer: Handle<Expression>,
    value: Handle<Expression>,
) -> Option<Reason<'a>>
    ensures { option_map shown result
        ≡ unmet types.now (store_demands types.now (known_types known.entry) pointer value) }
{
    match pointee_at(types, known, pointer) {
        Some(expected) => type_reason(types, known, expected, value),
        None => class_reason(types, known, TypeClass::Pointer, pointer),
    }
}

fn return_reason<'a>(
    types: &'a UniqueArena<Type_>,
    known: Known<'a>,
    answer: &Option<FunctionResult>,
    value: Option<Handle<Expression>>,
) -> Option<Reason<'a>>
    ensures { option_map shown result
        ≡ unmet types.now (return_demands (known_types known.entry) answer.now value) }
{
    match (answer, value) {
        (Some(answer), Some(value)) => {
            type_reason(types, known, InferredType::Handle(answer.ty), value)
        }
        (Some(answer), None) => Some(Reason::NoValue {
            expected: InferredType::Handle(answer.ty),
        }),
        (None, Some(value)) => match known_type(known, value) {
            Some(got) => Some(Reason::Unexpected { got }),
            None => None,
        },
        (None, None) => None,
    }
}

/// The first value of another type than its argument, where there are as many of both.
fn passed_reason<'a>(
    types: &'a UniqueArena<Type_>,
    known: Known<'a>,
    arguments: &[FunctionArgument],
    values: &[Handle<Expression>],
) -> Option<Reason<'a>>
    requires { length arguments.now ≡ length values.now }
    ensures { option_map shown result
        ≡ unmet types.now (passed_demands (known_types known.entry) arguments.now values.now) }
{
    for index in 0..values.len() {
        let expected = InferredType::Handle(arguments[index].ty);
        let found = type_reason(types, known, expected, values[index]);
        if found.is_some() {
            return found;
        }
    }
    None
}

/// Why what is taken for the result of a call is none.
fn answer_reason<'a>(
    callee: &Function,
    callee_handle: Handle<Function>,
    function: &Function,
    outcome: Handle<Expression>,
) -> Option<Reason<'a>>
    ensures { option_map shown result
        ≡ unmet [] (answer_demands callee.now callee_handle function.now outcome) }
{
    if callee.result.is_none() {
        return Some(Reason::Needs {
            need: Need::CalleeResult,
        });
    }
    need_unless(
        is_call_result(callee_handle, function, outcome),
        Need::OwnResult,
    )
}

fn call_reason<'a>(
    types: &'a UniqueArena<Type_>,
    known: Known<'a>,
    function: &Function,
    callee_handle: Handle<Function>,
    arguments: &[Handle<Expression>],
    outcome: Option<Handle<Expression>>,
    callee: &Function,
) -> Option<Reason<'a>>
    ensures { option_map shown result ≡ unmet types.now (call_demands (known_types known.entry)
        function.now callee_handle arguments.now outcome callee.now) }
{
    let expected = callee.arguments.len();
    if expected != arguments.len() {
        return number_reason(Counted::Arguments, expected, arguments.len());
    }
    let found = passed_reason(types, known, &callee.arguments, arguments);
    if found.is_some() {
        return found;
    }
    match outcome {
        Some(outcome) => answer_reason(callee, callee_handle, function, outcome),
        None => None,
    }
}

fn call_reason_at<'a>(
    module: &'a Module,
    function: &Function,
    known: Known<'a>,
    callee: Handle<Function>,
    arguments: &[Handle<Expression>],
    outcome: Option<Handle<Expression>>,
) -> Option<Reason<'a>>
    ensures { option_map shown result ≡ unmet «module».now.types (OfSome
        (call_demands (known_types known.entry) function.now callee arguments.now outcome)
        (slice_get «module».now.functions callee)) }
{
    if callee.index() < module.functions.len() {
        call_reason(
            &module.types,
            known,
            function,
            callee,
            arguments,
            outcome,
            &module.functions[callee],
        )
    } else {
        None
    }
}

// ---- results

fn atomic_reason<'a>(
    types: &'a UniqueArena<Type_>,
    known: Known<'a>,
    function: &Function,
    pointer: Handle<Expression>,
    outcome: Option<Handle<Expression>>,
) -> Option<Reason<'a>>
    ensures { option_map shown result ≡ unmet types.now
        (Then (of_class (known_types known.entry) TypeClass.AtomicPointer pointer)
        (OfSome (result_demands is_atomic_result function.now) outcome)) }
{
    let found = class_reason(types, known, TypeClass::AtomicPointer, pointer);
    if found.is_some() {
        return found;
    }
    match outcome {
        Some(outcome) => need_unless(is_atomic_result(function, outcome), Need::OwnResult),
        None => None,
    }
}

fn subgroup_reason<'a>(function: &Function, outcome: Handle<Expression>) -> Option<Reason<'a>>
    ensures { option_map shown result
        ≡ unmet [] (result_demands is_subgroup_result function.now outcome) }
{
    need_unless(is_subgroup_result(function, outcome), Need::OwnResult)
}

fn ballot_reason<'a>(function: &Function, outcome: Handle<Expression>) -> Option<Reason<'a>>
    ensures { option_map shown result
        ≡ unmet [] (result_demands is_ballot_result function.now outcome) }
{
    need_unless(is_ballot_result(function, outcome), Need::OwnResult)
}

fn uniform_load_reason<'a>(function: &Function, outcome: Handle<Expression>) -> Option<Reason<'a>>
    ensures { option_map shown result
        ≡ unmet [] (result_demands is_uniform_load_result function.now outcome) }
{
    need_unless(is_uniform_load_result(function, outcome), Need::OwnResult)
}

// ---- statements

/// Why a statement by itself, its blocks left out, does not get what it needs, where it may leave
/// the nearest loop or switch if it `breaks`, and go on with the nearest loop's `continuing` if it
/// `continues`.
fn own_reason<'a>(
    module: &'a Module,
    function: &Function,
    known: Known<'a>,
    breaks: bool,
    continues: bool,
    statement: &Statement,
) -> Option<Reason<'a>>
    ensures { option_map shown result ≡ unmet «module».now.types (own_demands «module».now
        function.now (known_types known.entry) breaks continues (tree_of statement.now)) }
{
    let types = &module.types;
    match statement {
        Statement::If { condition, .. } => {
            class_reason(types, known, TypeClass::Bool, *condition)
        }
        Statement::Switch { selector, cases } => switch_reason(types, known, *selector, cases),
        Statement::Loop { break_if, .. } => condition_reason(types, known, *break_if),
        Statement::Break => need_unless(breaks, Need::LoopOrSwitch),
        Statement::Continue => need_unless(continues, Need::Loop),
        Statement::Return { value } => return_reason(types, known, &function.result, *value),
        Statement::Store { pointer, value } => store_reason(types, known, *pointer, *value),
        Statement::Atomic {
            pointer,
            result: outcome,
            ..
        } => atomic_reason(types, known, function, *pointer, *outcome),
        Statement::WorkGroupUniformLoad {
            result: outcome,
            ..
        } => uniform_load_reason(function, *outcome),
        Statement::Call {
            function: callee,
            arguments,
            result: outcome,
        } => call_reason_at(module, function, known, *callee, arguments, *outcome),
        Statement::SubgroupBallot {
            result: outcome,
            ..
        } => ballot_reason(function, *outcome),
        Statement::SubgroupGather {
            result: outcome,
            ..
        }
        | Statement::SubgroupCollectiveOperation {
            result: outcome,
            ..
        } => subgroup_reason(function, *outcome),
        _ => match components_pointer(statement) {
            Some(pointer) => class_reason(types, known, TypeClass::ComponentsPointer, pointer),
            None => None,
        },
    }
}

/// Why a statement is at fault, in a function that may call the first `callees` functions.
pub(crate) fn statement_reason<'a>(
    module: &'a Module,
    callees: usize,
    function: &Function,
    known: Known<'a>,
    fault: Fault,
    at: StatementAt<'_>,
) -> Option<Reason<'a>>
    ensures { option_map shown result ≡ unmet «module».now.types (statement_demands «module».now
        callees function.now (known_types known.entry) fault (placed at.entry)) }
{
    match fault {
        Fault::Names => statement_name_reason(module, callees, function, at.statement),
        Fault::Unsatisfied => own_reason(
            module,
            function,
            known,
            at.breaks,
            at.continues,
            at.statement,
        ),
        _ => None,
    }
}
