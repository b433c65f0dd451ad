//! Which types in a function's text cannot be spelled.

ghost use Rattle.std.specs.Prelude.{◌≡◌, ◌-◌, ◌&&◌};
ghost use Rattle.std.specs.List.{filter, find};
ghost use Rattle.std.specs.Option.{option_or, option_to_list};
ghost use Rattle.naga_ir.specs.Operands.{own_result};
ghost use Rattle.naga_ir.specs.StatementViews.{tree_of};
ghost use Rattle.naga_scope.specs.InOrder.{own_lets};
ghost use Rattle.naga_scope.specs.KnownFunctions.{bound_in};
ghost use Rattle.naga_scope.specs.SpelledTypes.{argument_types, first_unspellable};
ghost use Rattle.naga_scope.specs.SpelledTypes.{is_unsupported_let, own_annotated, result_types};
ghost use Rattle.naga_tables.specs.Tables.{AreTablesOf};
ghost use Rattle.shader_runs.specs.Program.{from};

use crate::known_function::KnownFunction;
use crate::lines::Declared;
use naga_info::FunctionInfo;
use naga_ir::{
    Expression, Function, FunctionArgument, FunctionResult, Handle, ItemIndex, Module, Range,
    Statement, Type_,
};
use naga_tables::ModuleTables;

fn argument_without_form(
    module: &Module,
    tables: &ModuleTables,
    arguments: &[FunctionArgument],
) -> Option<(Declared, Handle<Type_>)>
    requires tables { AreTablesOf «module».now tables.now }
    ensures { result ≡ first_unspellable «module».now (argument_types arguments.now) }
{
    let mut index = 0;
    for argument in arguments {
        if !tables.is_spellable(module, argument.ty) {
            return Some((Declared::Argument(index), argument.ty));
        }
        index += 1;
    }
    None
}

fn answer_without_form(
    module: &Module,
    tables: &ModuleTables,
    answer: &Option<FunctionResult>,
) -> Option<(Declared, Handle<Type_>)>
    requires tables { AreTablesOf «module».now tables.now }
    ensures { result ≡ first_unspellable «module».now (result_types answer.now) }
{
    match answer {
        Some(answer) => {
            if tables.is_spellable(module, answer.ty) {
                None
            } else {
                Some((Declared::Result, answer.ty))
            }
        }
        None => None,
    }
}

/// The first type of the function's arguments and its result that no text can spell, if there is one,
/// with what declares it.
pub(crate) fn signature_without_form(
    module: &Module,
    tables: &ModuleTables,
    function: &Function,
) -> Option<(Declared, Handle<Type_>)>
    requires tables { AreTablesOf «module».now tables.now }
    ensures { result
        ≡ option_or (first_unspellable «module».now (argument_types function.now.arguments.items))
        (first_unspellable «module».now (result_types function.now.result)) }
{
    if let Some(found) = argument_without_form(module, tables, &function.arguments) {
        return Some(found);
    }
    answer_without_form(module, tables, &function.result)
}

/// Whether the type of the expression with this handle is known, names no struct that no text
/// declares, and has no form.
fn is_known_unsupported(
    module: &Module,
    tables: &ModuleTables,
    info: &FunctionInfo,
    handle: Handle<Expression>,
) -> bool
    requires tables { AreTablesOf «module».now tables.now }
    ensures { result ≡ is_unsupported_let «module».now info.now handle }
{
    match info.expressions.get(handle.index()) {
        Some(known) => {
            !tables.names_undeclared(module, &known.ty) && !tables.has_type_form(module, &known.ty)
        }
        None => false,
    }
}

fn is_unsupported_let(known: &KnownFunction<'_>, handle: Handle<Expression>) -> bool
    requires tables { AreTablesOf known.now.whole.shader.now known.now.whole.tables.now }
    ensures { result ≡ is_unsupported_let known.now.whole.shader.now known.now.info.now handle }
{
    is_known_unsupported(known.whole.shader, known.whole.tables, known.info, handle)
}

/// Whether a `let` binds the expression with this handle where it is emitted, and its type has no
/// form.
fn is_bound_unsupported(known: &KnownFunction<'_>, handle: Handle<Expression>) -> bool
    requires tables { AreTablesOf known.now.whole.shader.now known.now.whole.tables.now }
    ensures { result ≡ (bound_in known.now handle
        && is_unsupported_let known.now.whole.shader.now known.now.info.now handle) }
{
    known.binds(handle) && is_unsupported_let(known, handle)
}

/// The first of these expressions that a `let` binds and whose type has no form.
fn emitted_without_form(known: &KnownFunction<'_>, range: Range) -> Option<Handle<Expression>>
    requires tables { AreTablesOf known.now.whole.shader.now known.now.whole.tables.now }
    ensures { result ≡ find (is_unsupported_let known.now.whole.shader.now known.now.info.now)
        (filter (bound_in known.now) (from range.first (range.end - range.first))) }
{
    for index in range.first..range.end {
        let handle = ItemIndex::from_index(index);
        if is_bound_unsupported(known, handle) {
            return Some(handle);
        }
    }
    None
}

/// The expression whose value the statement gives, if its type has no form.
fn result_without_form(
    known: &KnownFunction<'_>,
    statement: &Statement,
) -> Option<Handle<Expression>>
    requires tables { AreTablesOf known.now.whole.shader.now known.now.whole.tables.now }
    ensures { result ≡ find (is_unsupported_let known.now.whole.shader.now known.now.info.now)
        (option_to_list (own_result (tree_of statement.now))) }
{
    match statement.result() {
        Some(handle) => {
            if is_unsupported_let(known, handle) {
                Some(handle)
            } else {
                None
            }
        }
        None => None,
    }
}

/// The first expression that the statement's `let`s name, those in its blocks left out, whose type
/// has no form.
fn let_in_statement(known: &KnownFunction<'_>, statement: &Statement) -> Option<Handle<Expression>>
    requires tables { AreTablesOf known.now.whole.shader.now known.now.whole.tables.now }
    ensures { result ≡ find (is_unsupported_let known.now.whole.shader.now known.now.info.now)
        (own_lets (bound_in known.now) (tree_of statement.now)) }
{
    match statement {
        Statement::Emit(range) => emitted_without_form(known, *range),
        _ => result_without_form(known, statement),
    }
}

/// The same where `let`s tell types, and else none.
pub(crate) fn annotated_without_form(
    known: &KnownFunction<'_>,
    statement: &Statement,
    explicit: bool,
) -> Option<Handle<Expression>>
    requires tables { AreTablesOf known.now.whole.shader.now known.now.whole.tables.now }
    ensures { result ≡ own_annotated explicit known.now.whole.shader.now known.now.info.now
        (bound_in known.now) (tree_of statement.now) }
{
    if explicit {
        let_in_statement(known, statement)
    } else {
        None
    }
}
