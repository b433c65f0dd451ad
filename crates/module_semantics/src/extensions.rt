//! What standard compilers ask for extensions.

ghost use Rattle.std.specs.Prelude.{◌≡◌, ◌||◌, false, slice_get};
ghost use Rattle.std.specs.List.{enumerate_from, list_any};
ghost use Rattle.std.specs.Option.{option_map_or};
ghost use Rattle.module_semantics.specs.ExpressionForms.{known_passes};
ghost use Rattle.module_semantics.specs.Halves.{converts_to_halves, function_spells_halves};
ghost use Rattle.module_semantics.specs.Halves.{is_half, is_over_halves, makes_halves};
ghost use Rattle.module_semantics.specs.Halves.{spells_halves, spells_known_halves};
ghost use Rattle.module_semantics.specs.Halves.{value_is_over_halves};
ghost use Rattle.module_semantics.specs.StatementShapes.{barrier_bits};
ghost use Rattle.module_semantics.specs.Subgroups.{block_names_subgroups, cases_have_one};
ghost use Rattle.module_semantics.specs.Subgroups.{is_subgroup_statement, names_subgroups};
ghost use Rattle.module_semantics.specs.Subgroups.{statement_has_one};
ghost use Rattle.naga_info.specs.Resolution.{inner_of};
ghost use Rattle.naga_ir.specs.StatementViews.{cases_of, tree_of};

use crate::type_parts::{converted_scalar, inner_of};
use bitflags::Flags;
use naga_info::{ExpressionInfo, FunctionInfo, ModuleInfo, TypeResolution};
use naga_ir::{
    Arena, Barrier, Block, EntryPoint, Expression, Function, Handle, Module, Scalar, ScalarKind,
    Statement, SwitchCase, Type_, TypeInner, UniqueArena,
};

/// Whether a statement of subgroups stands in one of the module's functions or entry points.
pub fn names_subgroups(module: &Module) -> bool
    ensures { result ≡ names_subgroups «module».now }
{
    functions_name_subgroups(&module.functions) || entry_points_name_subgroups(&module.entry_points)
}

fn functions_name_subgroups(functions: &Arena<Function>) -> bool
    ensures { result
        ≡ list_any (λ p. block_names_subgroups p.1.body) (enumerate_from 0 functions.now) }
{
    for (_, function) in functions.iter() {
        if block_names_subgroups(&function.body) {
            return true;
        }
    }
    false
}

fn entry_points_name_subgroups(points: &[EntryPoint]) -> bool
    ensures { result ≡ list_any (λ p. block_names_subgroups p.function.body) points.now }
{
    for point in points {
        if block_names_subgroups(&point.function.body) {
            return true;
        }
    }
    false
}

/// Whether a statement of subgroups stands in the block, or in the blocks inside.
#[cycle(names)]
fn block_names_subgroups(block: &Block) -> bool
    ensures { result ≡ block_names_subgroups block.now }
{
    for statement in block.as_slice() {
        if statement_names_subgroups(statement) {
            return true;
        }
    }
    false
}

#[cycle(names)]
fn statement_names_subgroups(statement: &Statement) -> bool
    ensures { result ≡ statement_has_one is_subgroup_statement (tree_of statement.now) }
{
    match statement {
        Statement::Block(block) => block_names_subgroups(block),
        Statement::If { accept, reject, .. } => either_names_subgroups(accept, reject),
        Statement::Switch { cases, .. } => cases_name_subgroups(cases),
        Statement::Loop {
            body,
            continuing,
            ..
        } => either_names_subgroups(body, continuing),
        Statement::ControlBarrier(barrier) => apart_by_subgroups(*barrier),
        Statement::MemoryBarrier(barrier) => apart_by_subgroups(*barrier),
        Statement::SubgroupBallot { .. } => true,
        Statement::SubgroupGather { .. } => true,
        Statement::SubgroupCollectiveOperation { .. } => true,
        _ => false,
    }
}

#[cycle(names)]
fn either_names_subgroups(first: &Block, second: &Block) -> bool
    ensures { result ≡ (block_names_subgroups first.now || block_names_subgroups second.now) }
{
    block_names_subgroups(first) || block_names_subgroups(second)
}

#[cycle(names)]
fn cases_name_subgroups(cases: &[SwitchCase]) -> bool
    ensures { result ≡ cases_have_one is_subgroup_statement (cases_of cases.now) }
{
    for case in cases {
        if block_names_subgroups(&case.body) {
            return true;
        }
    }
    false
}

/// Whether a barrier keeps apart the accesses of a subgroup.
fn apart_by_subgroups(barrier: Barrier) -> bool
    ensures { result ≡ (barrier_bits barrier).sub_group }
{
    barrier.contains(Barrier::SUB_GROUP)
}

/// Whether the text of the module may spell a type that is over `f16`, or have a literal of one.
pub fn spells_halves(module: &Module, info: &ModuleInfo) -> bool
    ensures { result ≡ spells_halves «module».now info.now }
{
    if are_over_halves(&module.types) {
        return true;
    }
    if values_over_halves(&info.const_expression_types) {
        return true;
    }
    functions_spell_halves(module, info) || entry_points_spell_halves(module, info)
}

fn are_over_halves(types: &UniqueArena<Type_>) -> bool
    ensures { result ≡ list_any (λ p. is_over_halves p.1.inner) (enumerate_from 0 types.now) }
{
    for (_, ty) in types.iter() {
        if is_over_halves(&ty.inner) {
            return true;
        }
    }
    false
}

fn values_over_halves(known: &[TypeResolution]) -> bool
    ensures { result ≡ list_any value_is_over_halves known.now }
{
    for ty in known {
        if value_is_over_halves(ty) {
            return true;
        }
    }
    false
}

fn functions_spell_halves(module: &Module, info: &ModuleInfo) -> bool
    ensures { result
        ≡ list_any (λ p. spells_known_halves «module».now.types p.1
        (slice_get info.now.functions.items p.0))
        (enumerate_from 0 «module».now.functions) }
{
    for (handle, function) in module.functions.iter() {
        if spells_known_halves(&module.types, function, &info.functions, handle.index()) {
            return true;
        }
    }
    false
}

fn entry_points_spell_halves(module: &Module, info: &ModuleInfo) -> bool
    ensures { result
        ≡ list_any (λ p. spells_known_halves «module».now.types p.1.function
        (slice_get info.now.entry_points.items p.0))
        (enumerate_from 0 «module».now.entry_points.items) }
{
    for (index, point) in module.entry_points.iter().enumerate() {
        if spells_known_halves(&module.types, &point.function, &info.entry_points, index) {
            return true;
        }
    }
    false
}

/// Whether the text of a function spells one, of which this is known, if anything is.
fn spells_known_halves(
    types: &UniqueArena<Type_>,
    function: &Function,
    infos: &[FunctionInfo],
    index: usize,
) -> bool
    ensures { result
        ≡ spells_known_halves types.now function.now (slice_get infos.now index) }
{
    match infos.get(index) {
        Some(known) => function_spells_halves(types, function, &known.expressions),
        None => false,
    }
}

fn function_spells_halves(
    types: &UniqueArena<Type_>,
    function: &Function,
    known: &[ExpressionInfo],
) -> bool
    ensures { result ≡ function_spells_halves types.now function.now known.now }
{
    known_over_halves(known) || converted_to_halves(types, known, &function.expressions)
}

fn known_over_halves(known: &[ExpressionInfo]) -> bool
    ensures { result ≡ list_any (λ k. value_is_over_halves k.ty) known.now }
{
    for info in known {
        if value_is_over_halves(&info.ty) {
            return true;
        }
    }
    false
}

fn converted_to_halves(
    types: &UniqueArena<Type_>,
    known: &[ExpressionInfo],
    expressions: &Arena<Expression>,
) -> bool
    ensures { result
        ≡ list_any (λ p. converts_to_halves types.now known.now p.1)
        (enumerate_from 0 expressions.now) }
{
    for (_, expression) in expressions.iter() {
        if converts_to_halves(types, known, expression) {
            return true;
        }
    }
    false
}

fn converts_to_halves(
    types: &UniqueArena<Type_>,
    known: &[ExpressionInfo],
    expression: &Expression,
) -> bool
    ensures { result ≡ converts_to_halves types.now known.now expression.now }
{
    match expression {
        Expression::As {
            expr,
            kind,
            convert,
        } => operand_makes_halves(types, known, *expr, *kind, *convert),
        _ => false,
    }
}

fn operand_makes_halves(
    types: &UniqueArena<Type_>,
    known: &[ExpressionInfo],
    operand: Handle<Expression>,
    kind: ScalarKind,
    convert: Option<u8>,
) -> bool
    ensures { result ≡ known_passes types.now known.now (makes_halves kind convert) operand }
{
    match known.get(operand.index()) {
        Some(info) => type_makes_halves(types, &info.ty, kind, convert),
        None => false,
    }
}

fn type_makes_halves(
    types: &UniqueArena<Type_>,
    ty: &TypeResolution,
    kind: ScalarKind,
    convert: Option<u8>,
) -> bool
    ensures { result
        ≡ option_map_or (makes_halves kind convert) (inner_of ty.now types.now) false }
{
    match inner_of(types, ty) {
        Some(inner) => makes_halves(inner, kind, convert),
        None => false,
    }
}

/// Whether what a value of this type is converted to is over `f16`.
fn makes_halves(inner: &TypeInner, kind: ScalarKind, convert: Option<u8>) -> bool
    ensures { result ≡ makes_halves kind convert inner.now }
{
    match inner {
        TypeInner::Scalar(scalar) => is_half(converted_scalar(*scalar, kind, convert)),
        TypeInner::Vector { scalar, .. } => is_half(converted_scalar(*scalar, kind, convert)),
        TypeInner::Matrix { scalar, .. } => is_half(converted_scalar(*scalar, kind, convert)),
        _ => false,
    }
}

fn value_is_over_halves(ty: &TypeResolution) -> bool
    ensures { result ≡ value_is_over_halves ty.now }
{
    match ty {
        TypeResolution::Handle(_) => false,
        TypeResolution::Value(inner) => is_over_halves(inner),
    }
}

/// Whether a type by itself is over `f16`.
fn is_over_halves(inner: &TypeInner) -> bool
    ensures { result ≡ is_over_halves inner.now }
{
    match inner {
        TypeInner::Scalar(scalar)
        | TypeInner::Vector { scalar, .. }
        | TypeInner::Matrix { scalar, .. }
        | TypeInner::CooperativeMatrix { scalar, .. }
        | TypeInner::Atomic(scalar)
        | TypeInner::ValuePointer { scalar, .. } => is_half(*scalar),
        _ => false,
    }
}

fn is_half(scalar: Scalar) -> bool
    ensures { result ≡ is_half scalar }
{
    match scalar.kind {
        ScalarKind::Float => scalar.width == 2,
        _ => false,
    }
}
