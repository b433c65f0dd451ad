//! Why a module is not accepted, item by item.

ghost use Rattle.std.specs.Prelude.{◌≡◌, [], length, slice_get};
ghost use Rattle.std.specs.Option.{option_copied, option_map};
ghost use Rattle.naga_acceptance.specs.Faults.{known_of};
ghost use Rattle.naga_acceptance.specs.FirstUses.{other_use};
ghost use Rattle.naga_acceptance.specs.KnownTypes.{known_types};
ghost use Rattle.naga_acceptance.specs.TextOrder.{text_order};
ghost use Rattle.module_semantics.specs.TypeParts.{inner_at};
ghost use Rattle.fault_details.specs.Demands.{OfSome, unmet};
ghost use Rattle.fault_details.specs.Reasons.{declared_demands, entry_point_demands};
ghost use Rattle.fault_details.specs.Reasons.{expression_demands, fault_reason, function_demands};
ghost use Rattle.fault_details.specs.Reasons.{global_demands, item_demands, made_demands};
ghost use Rattle.fault_details.specs.Reasons.{module_demands, sizes_demands, statement_demands};
ghost use Rattle.fault_details.specs.Reasons.{use_reason, whole_demands};
ghost use Rattle.fault_details.specs.Shown.{shown};

use crate::names::{
    absent_if, initialiser_reason, known_reason, length_reason, named_reason, names_reason,
    order_reason, part_reason, signature_reason, special_reason, stage_reason,
};
use crate::reasons::{Reason, absent, number_reason};
use crate::statements::statement_reason;
use crate::types::{operand_reason, own_type_reason, type_reason};
use crate::walk::statement_at;
use crate::words::Counted;
use module_semantics::ListName;
use module_semantics::type_parts::inner_at;
use naga_acceptance::other_uses::other_use;
use naga_acceptance::parts::{InferredType, Known, known_type};
use naga_acceptance::{Fault, FaultPosition, FunctionPosition, Unaccepted};
use naga_info::{FunctionInfo, ModuleInfo};
use naga_ir::{
    Constant, EntryPoint, Expression, Function, GlobalVariable, Handle, LocalVariable, Module,
    Override, Type_, TypeInner,
};

// ---- declarations

/// The type and the initialiser of an item, whose initialiser is one of so many expressions of the
/// list.
fn declared_reason<'a>(
    module: &'a Module,
    list: ListName,
    expressions: usize,
    known: Known<'a>,
    fault: Fault,
    ty: Handle<Type_>,
    init: Option<Handle<Expression>>,
) -> Option<Reason<'a>>
    ensures { option_map shown result ≡ unmet «module».now.types (declared_demands
        (length «module».now.types) list expressions (known_types known.entry) fault ty init) }
{
    match fault {
        Fault::Names => {
            let found = absent(ListName::Types, module.types.len(), ty.index());
            if found.is_some() {
                return found;
            }
            absent_if(list, expressions, init)
        }
        Fault::InitialiserType => match init {
            Some(init) => type_reason(&module.types, known, InferredType::Handle(ty), init),
            None => None,
        },
        _ => None,
    }
}

/// The same of an item of the module.
fn global_reason<'a>(
    module: &'a Module,
    info: &'a ModuleInfo,
    fault: Fault,
    ty: Handle<Type_>,
    init: Option<Handle<Expression>>,
) -> Option<Reason<'a>>
    ensures { option_map shown result
        ≡ unmet «module».now.types (global_demands «module».now info.now fault ty init) }
{
    let known = Known::Global(info.const_expression_types.as_slice());
    let list = ListName::GlobalExpressions;
    let expressions = module.global_expressions.len();
    declared_reason(module, list, expressions, known, fault, ty, init)
}

fn constant_reason<'a>(
    module: &'a Module,
    info: &'a ModuleInfo,
    fault: Fault,
    handle: Handle<Constant>,
) -> Option<Reason<'a>>
    ensures { option_map shown result ≡ unmet «module».now.types
        (item_demands «module».now info.now fault (FaultPosition.Constant handle)) }
{
    if handle.index() < module.constants.len() {
        let constant = &module.constants[handle];
        global_reason(module, info, fault, constant.ty, Some(constant.init))
    } else {
        None
    }
}

fn override_reason<'a>(
    module: &'a Module,
    info: &'a ModuleInfo,
    fault: Fault,
    handle: Handle<Override>,
) -> Option<Reason<'a>>
    ensures { option_map shown result ≡ unmet «module».now.types
        (item_demands «module».now info.now fault (FaultPosition.Override handle)) }
{
    if handle.index() < module.overrides.len() {
        let item = &module.overrides[handle];
        global_reason(module, info, fault, item.ty, item.init)
    } else {
        None
    }
}

fn variable_reason<'a>(
    module: &'a Module,
    info: &'a ModuleInfo,
    fault: Fault,
    handle: Handle<GlobalVariable>,
) -> Option<Reason<'a>>
    ensures { option_map shown result ≡ unmet «module».now.types
        (item_demands «module».now info.now fault (FaultPosition.GlobalVariable handle)) }
{
    if handle.index() < module.global_variables.len() {
        let variable = &module.global_variables[handle];
        global_reason(module, info, fault, variable.ty, variable.init)
    } else {
        None
    }
}

// ---- expressions

/// Why an expression is at fault, of this function or of the module itself.
fn expression_reason<'a>(
    module: &'a Module,
    function: Option<&Function>,
    known: Known<'a>,
    fault: Fault,
    handle: Handle<Expression>,
    expression: &Expression,
) -> Option<Reason<'a>>
    ensures { option_map shown result ≡ unmet «module».now.types (expression_demands «module».now
        (option_copied function.entry) (known_types known.entry) fault handle expression.now) }
{
    match fault {
        Fault::Operands => order_reason(module, function, handle.index(), expression),
        Fault::Names => names_reason(module, function, expression),
        Fault::LaterInitialiser => initialiser_reason(module, handle.index(), expression),
        Fault::KnownType => match known_type(known, handle) {
            Some(ty) => known_reason(module, ty),
            None => None,
        },
        Fault::OtherType => own_type_reason(module, function, known, handle, expression),
        Fault::OperandTypes => operand_reason(&module.types, known, expression),
        _ => None,
    }
}

fn global_expression_reason<'a>(
    module: &'a Module,
    info: &'a ModuleInfo,
    fault: Fault,
    handle: Handle<Expression>,
) -> Option<Reason<'a>>
    ensures { option_map shown result ≡ unmet «module».now.types
        (item_demands «module».now info.now fault (FaultPosition.GlobalExpression handle)) }
{
    let expressions = &module.global_expressions;
    if handle.index() < expressions.len() {
        let known = Known::Global(info.const_expression_types.as_slice());
        expression_reason(module, None, known, fault, handle, &expressions[handle])
    } else {
        None
    }
}

// ---- functions

fn known_count(known: Known<'_>) -> usize
    ensures { result ≡ length (known_types known.entry) }
{
    match known {
        Known::Function(infos) => infos.len(),
        Known::Global(types) => types.len(),
    }
}

fn whole_reason<'a>(
    module: &Module,
    function: &Function,
    known: Known<'_>,
    fault: Fault,
) -> Option<Reason<'a>>
    ensures { option_map shown result ≡ unmet «module».now.types
        (whole_demands «module».now function.now (known_types known.entry) fault) }
{
    match fault {
        Fault::InfoSize => {
            let expected = function.expressions.len();
            number_reason(Counted::Expressions, expected, known_count(known))
        }
        Fault::Signature => signature_reason(module, function),
        Fault::NamedExpressions => named_reason(function),
        _ => None,
    }
}

fn local_reason<'a>(
    module: &'a Module,
    function: &Function,
    known: Known<'a>,
    fault: Fault,
    handle: Handle<LocalVariable>,
) -> Option<Reason<'a>>
    ensures { option_map shown result ≡ unmet «module».now.types (OfSome (λ k. declared_demands
        (length «module».now.types) ListName.Expressions (length function.now.expressions)
        (known_types known.entry) fault k.ty k.init)
        (slice_get function.now.local_variables handle)) }
{
    if handle.index() < function.local_variables.len() {
        let local = &function.local_variables[handle];
        declared_reason(
            module,
            ListName::Expressions,
            function.expressions.len(),
            known,
            fault,
            local.ty,
            local.init,
        )
    } else {
        None
    }
}

fn inner_expression_reason<'a>(
    module: &'a Module,
    function: &Function,
    known: Known<'a>,
    fault: Fault,
    handle: Handle<Expression>,
) -> Option<Reason<'a>>
    ensures { option_map shown result ≡ unmet «module».now.types (OfSome (expression_demands
        «module».now (Some function.now) (known_types known.entry) fault handle)
        (slice_get function.now.expressions handle)) }
{
    let expressions = &function.expressions;
    if handle.index() < expressions.len() {
        expression_reason(
            module,
            Some(function),
            known,
            fault,
            handle,
            &expressions[handle],
        )
    } else {
        None
    }
}

fn placed_reason<'a>(
    module: &'a Module,
    callees: usize,
    function: &Function,
    known: Known<'a>,
    fault: Fault,
    number: usize,
) -> Option<Reason<'a>>
    ensures { option_map shown result ≡ unmet «module».now.types (OfSome (statement_demands
        «module».now callees function.now (known_types known.entry) fault)
        (slice_get (text_order function.now.body) number)) }
{
    match statement_at(&function.body, number) {
        Some(position) => statement_reason(module, callees, function, known, fault, position),
        None => None,
    }
}

/// Why a part of a function is at fault, where it may call the first `callees` functions.
fn function_reason<'a>(
    module: &'a Module,
    callees: usize,
    function: &Function,
    known: Known<'a>,
    fault: Fault,
    position: FunctionPosition,
) -> Option<Reason<'a>>
    ensures { option_map shown result ≡ unmet «module».now.types (function_demands «module».now
        callees function.now (known_types known.entry) fault position) }
{
    match position {
        FunctionPosition::Whole => whole_reason(module, function, known, fault),
        FunctionPosition::Local(handle) => local_reason(module, function, known, fault, handle),
        FunctionPosition::Expression(handle) => {
            inner_expression_reason(module, function, known, fault, handle)
        }
        FunctionPosition::Statement(number) => {
            placed_reason(module, callees, function, known, fault, number)
        }
    }
}

fn entry_point_reason<'a>(
    module: &'a Module,
    entry_point: &EntryPoint,
    known: Known<'a>,
    fault: Fault,
    position: FunctionPosition,
) -> Option<Reason<'a>>
    ensures { option_map shown result ≡ unmet «module».now.types (entry_point_demands
        «module».now entry_point.now (known_types known.entry) fault position) }
{
    match (position, fault) {
        (FunctionPosition::Whole, Fault::Names) => stage_reason(module, entry_point),
        _ => {
            let callees = module.functions.len();
            function_reason(
                module,
                callees,
                &entry_point.function,
                known,
                fault,
                position,
            )
        }
    }
}

/// What is known of the function of this number: nothing, if nothing is.
fn known_at(infos: &[FunctionInfo], index: usize) -> Known<'_>
    ensures { known_types result ≡ known_of infos.now index }
{
    match infos.get(index) {
        Some(info) => Known::Function(info.expressions.as_slice()),
        None => Known::Function(&[]),
    }
}

fn function_reason_at<'a>(
    module: &'a Module,
    info: &'a ModuleInfo,
    fault: Fault,
    handle: Handle<Function>,
    position: FunctionPosition,
) -> Option<Reason<'a>>
    ensures { option_map shown result ≡ unmet «module».now.types
        (item_demands «module».now info.now fault (FaultPosition.Function handle position)) }
{
    let index = handle.index();
    if index < module.functions.len() {
        let known = known_at(info.functions.as_slice(), index);
        function_reason(
            module,
            index,
            &module.functions[handle],
            known,
            fault,
            position,
        )
    } else {
        None
    }
}

fn entry_point_reason_at<'a>(
    module: &'a Module,
    info: &'a ModuleInfo,
    fault: Fault,
    index: usize,
    position: FunctionPosition,
) -> Option<Reason<'a>>
    ensures { option_map shown result ≡ unmet «module».now.types
        (item_demands «module».now info.now fault (FaultPosition.EntryPoint index position)) }
{
    match module.entry_points.get(index) {
        Some(entry_point) => {
            let known = known_at(info.entry_points.as_slice(), index);
            entry_point_reason(module, entry_point, known, fault, position)
        }
        None => None,
    }
}

// ---- the module

fn sizes_reason<'a>(module: &Module, info: &ModuleInfo) -> Option<Reason<'a>>
    ensures { option_map shown result ≡ unmet [] (sizes_demands «module».now info.now) }
{
    let functions = number_reason(
        Counted::Functions,
        module.functions.len(),
        info.functions.len(),
    );
    if functions.is_some() {
        return functions;
    }
    let entry_points = number_reason(
        Counted::EntryPoints,
        module.entry_points.len(),
        info.entry_points.len(),
    );
    if entry_points.is_some() {
        return entry_points;
    }
    number_reason(
        Counted::GlobalExpressions,
        module.global_expressions.len(),
        info.const_expression_types.len(),
    )
}

fn module_reason<'a>(module: &Module, info: &ModuleInfo, fault: Fault) -> Option<Reason<'a>>
    ensures { option_map shown result
        ≡ unmet «module».now.types (module_demands «module».now info.now fault) }
{
    match fault {
        Fault::InfoSize => sizes_reason(module, info),
        Fault::SpecialTypes => special_reason(module),
        _ => None,
    }
}

fn made_reason<'a>(
    module: &Module,
    fault: Fault,
    handle: Handle<Type_>,
    inner: &TypeInner,
) -> Option<Reason<'a>>
    ensures { option_map shown result
        ≡ unmet «module».now.types (made_demands «module».now fault handle inner.now) }
{
    match fault {
        Fault::TypeParts => part_reason(module, handle.index(), inner),
        Fault::TypeLength => length_reason(module, inner),
        _ => None,
    }
}

fn type_reason_at<'a>(module: &Module, fault: Fault, handle: Handle<Type_>) -> Option<Reason<'a>>
    ensures { option_map shown result ≡ unmet «module».now.types
        (OfSome (made_demands «module».now fault handle) (inner_at «module».now.types handle)) }
{
    match inner_at(&module.types, handle) {
        Some(inner) => made_reason(module, fault, handle, inner),
        None => None,
    }
}

/// Why this item is at fault.
fn item_reason<'a>(
    module: &'a Module,
    info: &'a ModuleInfo,
    fault: Fault,
    item: FaultPosition,
) -> Option<Reason<'a>>
    ensures { option_map shown result
        ≡ unmet «module».now.types (item_demands «module».now info.now fault item) }
{
    match item {
        FaultPosition::Module => module_reason(module, info, fault),
        FaultPosition::Type(handle) => type_reason_at(module, fault, handle),
        FaultPosition::Constant(handle) => constant_reason(module, info, fault, handle),
        FaultPosition::Override(handle) => override_reason(module, info, fault, handle),
        FaultPosition::GlobalVariable(handle) => variable_reason(module, info, fault, handle),
        FaultPosition::GlobalExpression(handle) => global_expression_reason(
            module, info, fault, handle,
        ),
        FaultPosition::Function(handle, position) => function_reason_at(
            module, info, fault, handle, position,
        ),
        FaultPosition::EntryPoint(index, position) => {
            entry_point_reason_at(module, info, fault, index, position)
        }
    }
}

/// The use with which that of an operator at a position does not agree.
fn use_reason<'a>(
    module: &'a Module,
    info: &'a ModuleInfo,
    item: FaultPosition,
) -> Option<Reason<'a>>
    ensures { option_map shown result
        ≡ option_map use_reason (other_use «module».now info.now item) }
{
    match other_use(module, info, item) {
        Some(found) => Some(Reason::OtherUse {
            item: found.item,
            expected: found.there,
            got: found.here,
        }),
        None => None,
    }
}

/// Why the module is not accepted at a position, for a fault of a kind: none where no more can be
/// told than the kind, and where the fault is none of this module.
pub(crate) fn fault_reason<'a>(
    module: &'a Module,
    info: &'a ModuleInfo,
    unaccepted: Unaccepted,
) -> Option<Reason<'a>>
    ensures { option_map shown result ≡ fault_reason «module».now info.now unaccepted }
{
    match unaccepted.fault {
        Fault::Disagreement => use_reason(module, info, unaccepted.item),
        _ => item_reason(module, info, unaccepted.fault, unaccepted.item),
    }
}
