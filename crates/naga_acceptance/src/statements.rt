//! Whether the operands of a function's statements have the types that these need.

ghost use Rattle.std.specs.Prelude.{None, ◌≡◌, slice_get, false, true};
ghost use Rattle.std.specs.Option.{option_map};
ghost use Rattle.std.specs.Result.{result_err};
ghost use Rattle.naga_acceptance.specs.KnownTypes.{inferred, known_types};
ghost use Rattle.naga_ir.specs.StatementViews.{cases_of, tree_of};
ghost use Rattle.module_semantics.specs.acceptance.OperandDemands.{operand_is, points_to_components};
ghost use Rattle.naga_acceptance.specs.TextOrder.{is_sound, numbered, own_components_pointer};
ghost use Rattle.naga_acceptance.specs.TextOrder.{own_is_sound, text_order};
ghost use Rattle.module_semantics.specs.acceptance.StatementsFit.{are_passed, body_is_sound};
ghost use Rattle.module_semantics.specs.acceptance.StatementsFit.{has_case_value, is_answered};
ghost use Rattle.module_semantics.specs.acceptance.StatementsFit.{is_atomic_result};
ghost use Rattle.module_semantics.specs.acceptance.StatementsFit.{is_ballot_result, is_call};
ghost use Rattle.module_semantics.specs.acceptance.StatementsFit.{is_condition};
ghost use Rattle.module_semantics.specs.acceptance.StatementsFit.{is_result, is_result_if};
ghost use Rattle.module_semantics.specs.acceptance.StatementsFit.{is_result_of};
ghost use Rattle.module_semantics.specs.acceptance.StatementsFit.{is_returned, is_same_case_value};
ghost use Rattle.module_semantics.specs.acceptance.StatementsFit.{is_selection};
ghost use Rattle.module_semantics.specs.acceptance.StatementsFit.{is_stored, is_subgroup_result};
ghost use Rattle.module_semantics.specs.acceptance.StatementsFit.{is_uniform_load_result};
ghost use Rattle.module_semantics.specs.acceptance.StatementsFit.{case_value_is_of};
ghost use Rattle.module_semantics.specs.acceptance.StatementsFit.{case_values_are_of};
ghost use Rattle.module_semantics.specs.acceptance.StatementsFit.{case_values_differ};
ghost use Rattle.module_semantics.specs.acceptance.StatementsFit.{case_values_fit};
ghost use Rattle.naga_acceptance.specs.CaseValues.{is_before, is_after, case_values_ascend};
ghost use Rattle.module_semantics.specs.acceptance.StatementsFit.{last_falls_through};
ghost use Rattle.module_semantics.specs.acceptance.StatementsFit.{selection_fits, is_selector_type};
ghost use Rattle.module_semantics.specs.acceptance.StatementsFit.{value_has_type};
ghost use Rattle.module_semantics.specs.TypeParts.{is_atomic, points_to_atomic};

use crate::alike::is_like;
use crate::case_value_numbers::none_is_repeated;
use crate::demands::points_to_components;
use crate::expression_types::{is_bool, pointee_at};
use crate::parts::{InferredType, Known, known_inner, known_type};
use crate::walk::{first_unmet, sound_test};
use module_semantics::type_parts::inner_at;
use naga_ir::{
    Expression, Function, FunctionArgument, FunctionResult, Handle, Module, Scalar, ScalarKind,
    Statement, SwitchCase, SwitchValue, Type_, TypeInner, UniqueArena,
};

// ---- what is known of values

/// Whether the value is of a type like the expected one.
pub(crate) fn value_has_type(
    types: &UniqueArena<Type_>,
    known: Known<'_>,
    value: Handle<Expression>,
    expected: InferredType,
) -> bool
    ensures { result ≡ value_has_type types.now (known_types known.entry) value (inferred expected) }
{
    match known_type(known, value) {
        Some(ty) => is_like(types, ty, &expected),
        None => false,
    }
}

// ---- pointers

fn is_atomic(inner: &TypeInner) -> bool
    ensures { result ≡ is_atomic inner.now }
{
    match inner {
        TypeInner::Atomic(_) => true,
        _ => false,
    }
}

/// Whether a type is a pointer to an atomic.
pub fn points_to_atomic(types: &UniqueArena<Type_>, inner: &TypeInner) -> bool
    ensures { result ≡ points_to_atomic types.now inner.now }
{
    match inner {
        TypeInner::Pointer { base, .. } => match inner_at(types, *base) {
            Some(inner) => is_atomic(inner),
            None => false,
        },
        _ => false,
    }
}

/// Whether the expression is a pointer to an atomic.
fn is_atomic_pointer(
    types: &UniqueArena<Type_>,
    known: Known<'_>,
    pointer: Handle<Expression>,
) -> bool
    ensures { result
        ≡ operand_is types.now (known_types known.entry) (points_to_atomic types.now) pointer }
{
    match known_inner(types, known, pointer) {
        Some(inner) => points_to_atomic(types, inner),
        None => false,
    }
}

/// Whether the expression is a pointer to a scalar or a vector.
fn is_components_pointer(
    types: &UniqueArena<Type_>,
    known: Known<'_>,
    pointer: Handle<Expression>,
) -> bool
    ensures { result
        ≡ operand_is types.now (known_types known.entry) (points_to_components types.now) pointer }
{
    match known_inner(types, known, pointer) {
        Some(inner) => points_to_components(types, inner),
        None => false,
    }
}

// ---- conditions and switches

/// Whether a condition is `bool`.
pub(crate) fn is_condition(
    types: &UniqueArena<Type_>,
    known: Known<'_>,
    condition: Handle<Expression>,
) -> bool
    ensures { result ≡ is_condition types.now (known_types known.entry) condition }
{
    match known_inner(types, known, condition) {
        Some(inner) => is_bool(inner),
        None => false,
    }
}

/// Whether a scalar is `i32` or `u32`.
pub fn is_selector_type(scalar: Scalar) -> bool
    ensures { result ≡ is_selector_type scalar }
{
    match scalar.kind {
        ScalarKind::Sint | ScalarKind::Uint => scalar.width == 4,
        _ => false,
    }
}

/// Whether the case value is of the selector's type.
pub(crate) fn case_value_is_of(scalar: Scalar, case_value: SwitchValue) -> bool
    ensures { result ≡ case_value_is_of scalar case_value }
{
    match (case_value, scalar.kind) {
        (SwitchValue::I32(_), ScalarKind::Sint) => true,
        (SwitchValue::U32(_), ScalarKind::Uint) => true,
        (SwitchValue::Default, _) => true,
        _ => false,
    }
}

/// Whether the case values are of the selector's type.
pub fn case_values_are_of(scalar: Scalar, cases: &[SwitchCase]) -> bool
    ensures { result ≡ case_values_are_of scalar (cases_of cases.now) }
{
    for case in cases {
        if !case_value_is_of(scalar, case.value) {
            return false;
        }
    }
    true
}

fn is_same_case_value(a: SwitchValue, b: SwitchValue) -> bool
    ensures { result ≡ is_same_case_value a b }
{
    match (a, b) {
        (SwitchValue::I32(a), SwitchValue::I32(b)) => a == b,
        (SwitchValue::U32(a), SwitchValue::U32(b)) => a == b,
        (SwitchValue::Default, SwitchValue::Default) => true,
        _ => false,
    }
}

/// Whether one of the cases has the value.
pub fn has_case_value(case_value: SwitchValue, cases: &[SwitchCase]) -> bool
    ensures { result ≡ has_case_value case_value (cases_of cases.now) }
{
    for case in cases {
        if is_same_case_value(case_value, case.value) {
            return true;
        }
    }
    false
}

/// Whether a case value stands before another in ascending order: integers by their numbers, and
/// the default after all.
fn is_before(a: SwitchValue, b: SwitchValue) -> bool
    ensures { result ≡ is_before a b }
{
    match (a, b) {
        (SwitchValue::I32(a), SwitchValue::I32(b)) => a < b,
        (SwitchValue::U32(a), SwitchValue::U32(b)) => a < b,
        (SwitchValue::I32(_) | SwitchValue::U32(_), SwitchValue::Default) => true,
        _ => false,
    }
}

fn is_after(last: Option<SwitchValue>, case_value: SwitchValue) -> bool
    ensures { result ≡ is_after last case_value }
{
    match last {
        Some(last) => is_before(last, case_value),
        None => true,
    }
}

/// Whether the case values ascend, the default after all others.
fn case_values_ascend(cases: &[SwitchCase]) -> bool
    ensures { result ≡ case_values_ascend None (cases_of cases.now) }
{
    let mut last = None;
    for case in cases {
        if !is_after(last, case.value) {
            return false;
        }
        last = Some(case.value);
    }
    true
}

/// Up to how many case values are compared in pairs, which is less work than sorting them.
const FEW_CASE_VALUES: usize = 32;

/// Whether no case value is repeated. It compares each with those after it.
fn few_differ(cases: &[SwitchCase]) -> bool
    ensures { result ≡ case_values_differ (cases_of cases.now) }
{
    for index in 0..cases.len() {
        if has_case_value(cases[index].value, &cases[index + 1..]) {
            return false;
        }
    }
    true
}

/// Whether no two cases have one value, in whatever order they stand.
fn none_stands_twice(cases: &[SwitchCase]) -> bool
    ensures { result ≡ case_values_differ (cases_of cases.now) }
{
    if cases.len() <= FEW_CASE_VALUES {
        few_differ(cases)
    } else {
        none_is_repeated(cases)
    }
}

/// Whether no two cases have one value. Where the values ascend, it looks at each once, else it
/// compares few in pairs and sorts more ([`none_is_repeated`]).
pub fn case_values_differ(cases: &[SwitchCase]) -> bool
    ensures { result ≡ case_values_differ (cases_of cases.now) }
{
    case_values_ascend(cases) || none_stands_twice(cases)
}

/// Whether the last case falls through.
pub fn last_falls_through(cases: &[SwitchCase]) -> bool
    ensures { result ≡ last_falls_through false (cases_of cases.now) }
{
    let mut falls = false;
    for case in cases {
        falls = case.fall_through;
    }
    falls
}

fn case_values_fit(scalar: Scalar, cases: &[SwitchCase]) -> bool
    ensures { result ≡ case_values_fit scalar (cases_of cases.now) }
{
    case_values_are_of(scalar, cases)
        && case_values_differ(cases)
        && has_case_value(SwitchValue::Default, cases)
        && !last_falls_through(cases)
}

fn selection_fits(cases: &[SwitchCase], inner: &TypeInner) -> bool
    ensures { result ≡ selection_fits (cases_of cases.now) inner.now }
{
    match inner {
        TypeInner::Scalar(scalar) => is_selector_type(*scalar) && case_values_fit(*scalar, cases),
        _ => false,
    }
}

/// Whether a selector is `i32` or `u32`, and the values of its cases fit.
pub(crate) fn is_selection(
    types: &UniqueArena<Type_>,
    known: Known<'_>,
    selector: Handle<Expression>,
    cases: &[SwitchCase],
) -> bool
    ensures { result
        ≡ is_selection types.now (known_types known.entry) selector (cases_of cases.now) }
{
    match known_inner(types, known, selector) {
        Some(inner) => selection_fits(cases, inner),
        None => false,
    }
}

// ---- values that are stored, returned and passed

/// Whether the value is of the type of what is written through the pointer.
pub(crate) fn is_stored(
    types: &UniqueArena<Type_>,
    known: Known<'_>,
    pointer: Handle<Expression>,
    value: Handle<Expression>,
) -> bool
    ensures { result ≡ is_stored types.now (known_types known.entry) pointer value }
{
    match pointee_at(types, known, pointer) {
        Some(expected) => value_has_type(types, known, value, expected),
        None => false,
    }
}

/// Whether what is returned is of the result's type, and nothing where there is no result.
pub(crate) fn is_returned(
    types: &UniqueArena<Type_>,
    known: Known<'_>,
    answer: &Option<FunctionResult>,
    value: Option<Handle<Expression>>,
) -> bool
    ensures { result ≡ is_returned types.now (known_types known.entry) answer.now value }
{
    match (answer, value) {
        (Some(answer), Some(value)) => value_has_type(
            types,
            known,
            value,
            InferredType::Handle(answer.ty),
        ),
        (None, None) => true,
        (Some(_), None) => false,
        (None, Some(_)) => false,
    }
}

/// Whether as many values as arguments are passed, each of its argument's type.
pub(crate) fn are_passed(
    types: &UniqueArena<Type_>,
    known: Known<'_>,
    arguments: &[FunctionArgument],
    values: &[Handle<Expression>],
) -> bool
    ensures { result
        ≡ are_passed types.now (known_types known.entry) arguments.now values.now }
{
    if arguments.len() != values.len() {
        return false;
    }
    for index in 0..values.len() {
        let expected = InferredType::Handle(arguments[index].ty);
        if !value_has_type(types, known, values[index], expected) {
            return false;
        }
    }
    true
}

// ---- results

fn expression_at(function: &Function, handle: Handle<Expression>) -> Option<&Expression>
    ensures { option_map (λ e. e.now) result ≡ slice_get function.now.expressions handle }
{
    if handle.index() < function.expressions.len() {
        Some(&function.expressions[handle])
    } else {
        None
    }
}

/// Whether the expression is what a call of the callee gave.
pub fn is_call_result(
    callee: Handle<Function>,
    function: &Function,
    outcome: Handle<Expression>,
) -> bool
    ensures { result ≡ is_result (is_result_of callee) function.now outcome }
{
    match expression_at(function, outcome) {
        Some(Expression::CallResult(called)) => *called == callee,
        _ => false,
    }
}

/// Whether the expression is what an atomic statement gave.
pub fn is_atomic_result(function: &Function, outcome: Handle<Expression>) -> bool
    ensures { result ≡ is_result is_atomic_result function.now outcome }
{
    match expression_at(function, outcome) {
        Some(Expression::AtomicResult { .. }) => true,
        _ => false,
    }
}

/// Whether the expression is what a uniform load gave.
pub fn is_uniform_load_result(function: &Function, outcome: Handle<Expression>) -> bool
    ensures { result ≡ is_result is_uniform_load_result function.now outcome }
{
    match expression_at(function, outcome) {
        Some(Expression::WorkGroupUniformLoadResult { .. }) => true,
        _ => false,
    }
}

/// Whether the expression is what a ballot gave.
pub fn is_ballot_result(function: &Function, outcome: Handle<Expression>) -> bool
    ensures { result ≡ is_result is_ballot_result function.now outcome }
{
    match expression_at(function, outcome) {
        Some(Expression::SubgroupBallotResult) => true,
        _ => false,
    }
}

/// Whether the expression is what an operation of a subgroup gave.
pub fn is_subgroup_result(function: &Function, outcome: Handle<Expression>) -> bool
    ensures { result ≡ is_result is_subgroup_result function.now outcome }
{
    match expression_at(function, outcome) {
        Some(Expression::SubgroupOperationResult { .. }) => true,
        _ => false,
    }
}

fn is_atomic_result_if(function: &Function, outcome: Option<Handle<Expression>>) -> bool
    ensures { result ≡ is_result_if is_atomic_result function.now outcome }
{
    match outcome {
        Some(outcome) => is_atomic_result(function, outcome),
        None => true,
    }
}

/// Whether the callee's result is used only where it has one, as the result of a call of it.
fn is_answered(
    callee: &Function,
    callee_handle: Handle<Function>,
    function: &Function,
    outcome: Option<Handle<Expression>>,
) -> bool
    ensures { result ≡ is_answered callee.now callee_handle function.now outcome }
{
    match outcome {
        Some(outcome) => {
            callee.result.is_some() && is_call_result(callee_handle, function, outcome)
        }
        None => true,
    }
}

/// Whether a call passes what the callee takes, and its result is what it gives.
pub(crate) fn is_call(
    module: &Module,
    function: &Function,
    known: Known<'_>,
    callee_handle: Handle<Function>,
    arguments: &[Handle<Expression>],
    outcome: Option<Handle<Expression>>,
) -> bool
    ensures { result ≡ is_call «module».now function.now (known_types known.entry) callee_handle
        arguments.now outcome }
{
    if callee_handle.index() >= module.functions.len() {
        return false;
    }
    let callee = &module.functions[callee_handle];
    are_passed(&module.types, known, &callee.arguments, arguments)
        && is_answered(callee, callee_handle, function, outcome)
}

// ---- statements

/// The pointer to a scalar or a vector that a statement by itself needs, if it needs that alone.
pub fn components_pointer(statement: &Statement) -> Option<Handle<Expression>>
    ensures { result ≡ own_components_pointer (tree_of statement.now) }
{
    match statement {
        Statement::CooperativeStore { data_, .. } => Some(data_.pointer),
        _ => None,
    }
}

/// Whether a statement by itself, its blocks left out, gets what it needs. It may leave the nearest
/// loop or switch where it `breaks`, and go on with the nearest loop's `continuing` where it
/// `continues`.
pub(crate) fn own_is_sound(
    module: &Module,
    function: &Function,
    known: Known<'_>,
    breaks: bool,
    continues: bool,
    statement: &Statement,
) -> bool
    ensures { result ≡ own_is_sound «module».now function.now (known_types known.entry) breaks
        continues (tree_of statement.now) }
{
    let types = &module.types;
    match statement {
        Statement::If { condition, .. } => is_condition(types, known, *condition),
        Statement::Switch { selector, cases } => is_selection(types, known, *selector, cases),
        Statement::Loop { break_if, .. } => match break_if {
            Some(condition) => is_condition(types, known, *condition),
            None => true,
        },
        Statement::Break => breaks,
        Statement::Continue => continues,
        Statement::Return { value } => is_returned(types, known, &function.result, *value),
        Statement::Store { pointer, value } => is_stored(types, known, *pointer, *value),
        Statement::Atomic {
            pointer,
            result: outcome,
            ..
        } => is_atomic_pointer(types, known, *pointer) && is_atomic_result_if(function, *outcome),
        Statement::WorkGroupUniformLoad {
            result: outcome,
            ..
        } => is_uniform_load_result(function, *outcome),
        Statement::Call {
            function: callee,
            arguments,
            result: outcome,
        } => is_call(module, function, known, *callee, arguments, *outcome),
        Statement::SubgroupBallot {
            result: outcome,
            ..
        } => is_ballot_result(function, *outcome),
        Statement::SubgroupGather {
            result: outcome,
            ..
        } => is_subgroup_result(function, *outcome),
        Statement::SubgroupCollectiveOperation {
            result: outcome,
            ..
        } => is_subgroup_result(function, *outcome),
        _ => match components_pointer(statement) {
            Some(pointer) => is_components_pointer(types, known, pointer),
            None => true,
        },
    }
}

/// The number of the first statement of a function, in the order of the text, that does not get
/// what it needs. Those in blocks are counted too, from 0, and modulo 2^64.
pub(crate) fn first_unsound(module: &Module, function: &Function, known: Known<'_>) -> Option<usize>
    ensures { result ≡ result_err (numbered
        (is_sound «module».now function.now (known_types known.entry)) 0
        (text_order function.now.body)) }
{
    first_unmet(sound_test(module, function, known), &function.body)
}

/// Whether the statements of a function get what they need, `known` being the types of its
/// expressions. What names nothing that is there is answered `false` where a type or a result is
/// asked of it. It goes as deep as blocks are nested, and takes no memory.
///
/// - A condition and a `break_if` are `bool`.
/// - A selector is `i32` or `u32`. The values of its cases are of that type and distinct, one is
///   the default, and the last case does not fall through.
/// - A `Break` stands in a loop's body or a case, a `Continue` in a loop's body, and neither leaves a
///   `continuing`.
/// - What is stored, returned and passed has a type like the expected one, and as many arguments are
///   passed as there are. A function without a result returns nothing.
/// - An atomic's pointer points at an atomic, and a cooperative store's at a scalar or a vector.
/// - The result of a statement is of its kind, and that of a call is one of the same callee, which
///   has a result.
pub fn body_is_sound(module: &Module, function: &Function, known: Known<'_>) -> bool
    ensures { result ≡ body_is_sound «module».now function.now (known_types known.entry) }
{
    first_unsound(module, function, known).is_none()
}
