//! What is named and is not there, or does not stand before what names it.

ghost use Rattle.std.specs.Prelude.{◌≡◌, [], length};
ghost use Rattle.std.specs.Option.{option_copied, option_map};
ghost use Rattle.indexmap.specs.IndexMap.{keys, values};
ghost use Rattle.naga_ir.specs.Operands.{expression_operands, own_operands};
ghost use Rattle.naga_ir.specs.StatementViews.{tree_of};
ghost use Rattle.fault_details.specs.Demands.{OfEach, OfSome, before, there, unmet};
ghost use Rattle.fault_details.specs.Reasons.{emitted_demands, initialiser_demands, known_demands};
ghost use Rattle.fault_details.specs.Reasons.{length_demands, name_demands, names_demands};
ghost use Rattle.fault_details.specs.Reasons.{order_demands, own_name_demands, part_demands};
ghost use Rattle.fault_details.specs.Reasons.{ray_demands, signature_demands, size_demands};
ghost use Rattle.fault_details.specs.Reasons.{special_demands};
ghost use Rattle.fault_details.specs.Reasons.{statement_name_demands, texture_demands};
ghost use Rattle.fault_details.specs.Reasons.{stage_demands};
ghost use Rattle.fault_details.specs.Shown.{shown};

use crate::reasons::{Reason, absent, not_before};
use indexmap::IndexMap;
use module_semantics::ListName;
use module_semantics::named::{count_of, named_item};
use naga_info::TypeResolution;
use naga_ir::{
    ArraySize, EntryPoint, Expression, Function, FunctionArgument, FunctionResult, Handle,
    ItemIndex, Module, Override, PredeclaredType, SpecialTypes, Statement, StructMember, Type_,
    TypeInner,
};

/// An item that is not there, if one is named.
pub(crate) fn absent_if<'a, M>(
    list: ListName,
    count: usize,
    named: Option<ItemIndex<M>>,
) -> Option<Reason<'a>>
    ensures { option_map shown result ≡ unmet [] (OfSome (there list count) named) }
{
    match named {
        Some(handle) => absent(list, count, handle.index()),
        None => None,
    }
}

// ---- types

fn members_reason<'a>(here: usize, count: usize, members: &[StructMember]) -> Option<Reason<'a>>
    ensures { option_map shown result
        ≡ unmet [] (OfEach (λ member. before ListName.Types here count member.ty) members.now) }
{
    for member in members {
        let found = not_before(ListName::Types, here, count, member.ty.index());
        if found.is_some() {
            return found;
        }
    }
    None
}

/// A type that a type is made of, and that does not stand before it.
pub(crate) fn part_reason<'a>(module: &Module, here: usize, inner: &TypeInner) -> Option<Reason<'a>>
    ensures { option_map shown result ≡ unmet «module».now.types
        (part_demands here (length «module».now.types) inner.now) }
{
    let count = module.types.len();
    match inner {
        TypeInner::Pointer { base, .. }
        | TypeInner::Array { base, .. }
        | TypeInner::BindingArray { base, .. } => {
            not_before(ListName::Types, here, count, base.index())
        }
        TypeInner::Struct { members, .. } => members_reason(here, count, members),
        _ => None,
    }
}

fn size_reason<'a>(module: &Module, size: ArraySize) -> Option<Reason<'a>>
    ensures { option_map shown result ≡ unmet «module».now.types
        (size_demands (length «module».now.overrides) size) }
{
    let overrides = module.overrides.len();
    match size {
        ArraySize::Pending(handle) => absent(ListName::Overrides, overrides, handle.index()),
        ArraySize::Constant(_) => None,
        ArraySize::Dynamic => None,
    }
}

/// The override of a type's length, if it is not there.
pub(crate) fn length_reason<'a>(module: &Module, inner: &TypeInner) -> Option<Reason<'a>>
    ensures { option_map shown result ≡ unmet «module».now.types
        (length_demands (length «module».now.overrides) inner.now) }
{
    match inner {
        TypeInner::Array { size, .. } | TypeInner::BindingArray { size, .. } => {
            size_reason(module, *size)
        }
        _ => None,
    }
}

/// What a known type names and is not there.
pub(crate) fn known_reason<'a>(module: &Module, ty: &TypeResolution) -> Option<Reason<'a>>
    ensures { option_map shown result ≡ unmet «module».now.types
        (known_demands (length «module».now.overrides) (length «module».now.types) ty.now) }
{
    let types = module.types.len();
    match ty {
        TypeResolution::Handle(handle) => absent(ListName::Types, types, handle.index()),
        TypeResolution::Value(inner) => {
            let found = part_reason(module, types, inner);
            if found.is_some() {
                return found;
            }
            length_reason(module, inner)
        }
    }
}

// ---- expressions

/// The first operand of an expression, among so many of a list, that does not stand before it.
fn operands_reason<'a>(
    list: ListName,
    here: usize,
    count: usize,
    expression: &Expression,
) -> Option<Reason<'a>>
    ensures { option_map shown result
        ≡ unmet [] (OfEach (before list here count) (expression_operands expression.now)) }
{
    for operand in expression.operands() {
        let found = not_before(list, here, count, operand.index());
        if found.is_some() {
            return found;
        }
    }
    None
}

/// The first operand of an expression of this function, or of the module itself, that does not
/// stand before it.
pub(crate) fn order_reason<'a>(
    module: &Module,
    function: Option<&Function>,
    here: usize,
    expression: &Expression,
) -> Option<Reason<'a>>
    ensures { option_map shown result ≡ unmet «module».now.types
        (order_demands «module».now (option_copied function.entry) here expression.now) }
{
    match function {
        Some(function) => {
            let count = function.expressions.len();
            operands_reason(ListName::Expressions, here, count, expression)
        }
        None => {
            let count = module.global_expressions.len();
            operands_reason(ListName::GlobalExpressions, here, count, expression)
        }
    }
}

/// What an expression names beside its operands and is not there, in a function that has so many
/// arguments and locals.
fn name_reason<'a>(
    module: &Module,
    arguments: usize,
    locals: usize,
    expression: &Expression,
) -> Option<Reason<'a>>
    ensures { option_map shown result
        ≡ unmet «module».now.types (name_demands «module».now arguments locals expression.now) }
{
    match named_item(expression) {
        Some((list, index)) => absent(list, count_of(module, arguments, locals, list), index),
        None => None,
    }
}

/// The same in this function, or in the module itself.
pub(crate) fn names_reason<'a>(
    module: &Module,
    function: Option<&Function>,
    expression: &Expression,
) -> Option<Reason<'a>>
    ensures { option_map shown result ≡ unmet «module».now.types
        (names_demands «module».now (option_copied function.entry) expression.now) }
{
    match function {
        Some(function) => name_reason(
            module,
            function.arguments.len(),
            function.local_variables.len(),
            expression,
        ),
        None => name_reason(module, 0, 0, expression),
    }
}

/// The initialiser of the constant or the override that a global expression names, if it does not
/// stand before it.
pub(crate) fn initialiser_reason<'a>(
    module: &Module,
    here: usize,
    expression: &Expression,
) -> Option<Reason<'a>>
    ensures { option_map shown result
        ≡ unmet «module».now.types (initialiser_demands «module».now here expression.now) }
{
    let count = module.global_expressions.len();
    match expression {
        Expression::Constant(handle) => {
            if handle.index() < module.constants.len() {
                let init = module.constants[*handle].init;
                not_before(ListName::GlobalExpressions, here, count, init.index())
            } else {
                None
            }
        }
        Expression::Override(handle) => {
            if handle.index() < module.overrides.len() {
                match module.overrides[*handle].init {
                    Some(init) => {
                        not_before(ListName::GlobalExpressions, here, count, init.index())
                    }
                    None => None,
                }
            } else {
                None
            }
        }
        _ => None,
    }
}

// ---- statements

fn statement_operands_reason<'a>(expressions: usize, statement: &Statement) -> Option<Reason<'a>>
    ensures { option_map shown result ≡ unmet []
        (OfEach (there ListName.Expressions expressions) (own_operands (tree_of statement.now))) }
{
    for operand in statement.operands() {
        let found = absent(ListName::Expressions, expressions, operand.index());
        if found.is_some() {
            return found;
        }
    }
    None
}

/// The end of what an `Emit` names, if it is past all expressions, or its beginning.
fn emitted_reason<'a>(expressions: usize, first: usize, end: usize) -> Option<Reason<'a>>
    ensures { option_map shown result ≡ unmet [] (emitted_demands expressions first end) }
{
    let index = if first > expressions {
        first
    } else if end > expressions {
        end - 1
    } else {
        return None;
    };
    Some(Reason::Absent {
        list: ListName::Expressions,
        index,
        count: expressions,
    })
}

/// What a statement names beside its operands and its result.
fn own_name_reason<'a>(
    module: &Module,
    callees: usize,
    expressions: usize,
    statement: &Statement,
) -> Option<Reason<'a>>
    ensures { option_map shown result ≡ unmet «module».now.types
        (own_name_demands «module».now callees expressions (tree_of statement.now)) }
{
    match statement {
        Statement::Emit(range) => emitted_reason(expressions, range.first, range.end),
        Statement::Call { function, .. } => {
            not_before(
                ListName::Functions,
                callees,
                module.functions.len(),
                function.index(),
            )
        }
        _ => None,
    }
}

/// What a statement names and is not there, where it may call the first `callees` functions.
pub(crate) fn statement_name_reason<'a>(
    module: &Module,
    callees: usize,
    function: &Function,
    statement: &Statement,
) -> Option<Reason<'a>>
    ensures { option_map shown result ≡ unmet «module».now.types (statement_name_demands
        «module».now callees (length function.now.expressions) (tree_of statement.now)) }
{
    let expressions = function.expressions.len();
    let operand = statement_operands_reason(expressions, statement);
    if operand.is_some() {
        return operand;
    }
    let outcome = absent_if(ListName::Expressions, expressions, statement.result());
    if outcome.is_some() {
        return outcome;
    }
    own_name_reason(module, callees, expressions, statement)
}

// ---- functions, entry points and the module itself

fn arguments_reason<'a>(types: usize, arguments: &[FunctionArgument]) -> Option<Reason<'a>>
    ensures { option_map shown result
        ≡ unmet [] (OfEach (λ a. there ListName.Types types a.ty) arguments.now) }
{
    for argument in arguments {
        let found = absent(ListName::Types, types, argument.ty.index());
        if found.is_some() {
            return found;
        }
    }
    None
}

fn answer_reason<'a>(types: usize, answer: &Option<FunctionResult>) -> Option<Reason<'a>>
    ensures { option_map shown result ≡ unmet []
        (OfSome (there ListName.Types types) (option_map (λ answer. answer.ty) answer.now)) }
{
    match answer {
        Some(answer) => absent(ListName::Types, types, answer.ty.index()),
        None => None,
    }
}

/// A type of the signature that is not there.
pub(crate) fn signature_reason<'a>(module: &Module, function: &Function) -> Option<Reason<'a>>
    ensures { option_map shown result ≡ unmet «module».now.types
        (signature_demands (length «module».now.types) function.now) }
{
    let types = module.types.len();
    let argument = arguments_reason(types, &function.arguments);
    if argument.is_some() {
        return argument;
    }
    answer_reason(types, &function.result)
}

/// The first of the expressions that have a front end's name and are not there.
pub(crate) fn named_reason<'a>(function: &Function) -> Option<Reason<'a>>
    ensures { option_map shown result ≡ unmet []
        (OfEach (there ListName.Expressions (length function.now.expressions))
        (keys function.now.named_expressions)) }
{
    let count = function.expressions.len();
    for handle in function.named_expressions.keys() {
        let found = absent(ListName::Expressions, count, handle.index());
        if found.is_some() {
            return found;
        }
    }
    None
}

/// The first of the overrides that set a workgroup's size that is not there.
fn sizes_reason<'a>(overrides: usize, sizes: &[Option<Handle<Override>>]) -> Option<Reason<'a>>
    ensures { option_map shown result
        ≡ unmet [] (OfEach (OfSome (there ListName.Overrides overrides)) sizes.now) }
{
    for size in sizes {
        let found = absent_if(ListName::Overrides, overrides, *size);
        if found.is_some() {
            return found;
        }
    }
    None
}

/// The first variable or override of an entry point that is not there.
pub(crate) fn stage_reason<'a>(module: &Module, entry_point: &EntryPoint) -> Option<Reason<'a>>
    ensures { option_map shown result ≡ unmet «module».now.types
        (stage_demands (length «module».now.global_variables) (length «module».now.overrides)
        entry_point.now) }
{
    let variables = module.global_variables.len();
    let list = ListName::GlobalVariables;
    let output = match &entry_point.mesh_info {
        Some(mesh_info) => Some(mesh_info.output_variable),
        None => None,
    };
    let found = absent_if(list, variables, output);
    if found.is_some() {
        return found;
    }
    let payload = absent_if(list, variables, entry_point.task_payload);
    if payload.is_some() {
        return payload;
    }
    let incoming = absent_if(list, variables, entry_point.incoming_ray_payload);
    if incoming.is_some() {
        return incoming;
    }
    sizes_reason(
        module.overrides.len(),
        &entry_point.workgroup_size_overrides,
    )
}

fn predeclared_reason<'a>(
    types: usize,
    predeclared: &IndexMap<PredeclaredType, Handle<Type_>>,
) -> Option<Reason<'a>>
    ensures { option_map shown result
        ≡ unmet [] (OfEach (there ListName.Types types) (values predeclared.now)) }
{
    for handle in predeclared.values() {
        let found = absent(ListName::Types, types, handle.index());
        if found.is_some() {
            return found;
        }
    }
    None
}

/// The first special type that is not there.
pub(crate) fn special_reason<'a>(module: &Module) -> Option<Reason<'a>>
    ensures { option_map shown result ≡ unmet «module».now.types
        (special_demands (length «module».now.types) «module».now.special_types) }
{
    let types = module.types.len();
    let special = &module.special_types;
    match predeclared_reason(types, &special.predeclared_types) {
        Some(reason) => Some(reason),
        None => texture_reason(types, special),
    }
}

/// The first type of external textures that is not there, and else of rays.
fn texture_reason<'a>(types: usize, special: &SpecialTypes) -> Option<Reason<'a>>
    ensures { option_map shown result ≡ unmet [] (texture_demands types special.now) }
{
    let params = absent_if(ListName::Types, types, special.external_texture_params);
    if params.is_some() {
        return params;
    }
    let transfer = absent_if(
        ListName::Types,
        types,
        special.external_texture_transfer_function,
    );
    if transfer.is_some() {
        return transfer;
    }
    ray_reason(types, special)
}

/// The first type of rays that is not there.
fn ray_reason<'a>(types: usize, special: &SpecialTypes) -> Option<Reason<'a>>
    ensures { option_map shown result ≡ unmet [] (ray_demands types special.now) }
{
    let desc = absent_if(ListName::Types, types, special.ray_desc);
    if desc.is_some() {
        return desc;
    }
    let intersection = absent_if(ListName::Types, types, special.ray_intersection);
    if intersection.is_some() {
        return intersection;
    }
    absent_if(ListName::Types, types, special.ray_vertex_return)
}
