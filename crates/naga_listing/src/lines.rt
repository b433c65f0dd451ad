//! All lines of what can be listed.

ghost use Rattle.std.specs.Prelude.{◌≡◌, [], ◌∷◌, ◌++◌, IfOk};
ghost use Rattle.naga_ir.specs.StatementViews.{cases_of, tree_of};
ghost use Rattle.naga_listing.specs.Lines.{after_block, after_cases, after_inside};
ghost use Rattle.naga_listing.specs.Lines.{after_statement, all_lines, another_lines, block_lines};
ghost use Rattle.naga_listing.specs.Lines.{body_lines, case_lines, declaration_lines};
ghost use Rattle.naga_listing.specs.Lines.{function_lines, headed_lines, inside_lines};
ghost use Rattle.naga_listing.specs.Lines.{items_below, listed_lines, section, spot_in};
ghost use Rattle.naga_listing.specs.Lines.{statement_lines};
ghost use Rattle.naga_listing.specs.Lines.{two_lines};

use crate::lookup::{entry_point_at, item_at};
use crate::positions::{Line, LineKind, Listed, Spot, Title};
use naga_ir::{Block, Function, ItemIndex, Module, Statement, SwitchCase};
use std::alloc::{AllocError, Global};

/// All lines of what is listed; the first alone, where the module has no such function.
pub(crate) fn all_lines(
    alloc: Global,
    module: &Module,
    listed: &Listed,
) -> Result<Vec<Line>, AllocError>
    ensures { IfOk result (λ lines. lines.items ≡ all_lines «module».now listed.now) }
{
    let mut lines = Vec::new(alloc);
    push_line(&mut lines, 0, LineKind::Item(Spot::Whole))?;
    add_parts(&mut lines, module, listed)?;
    Ok(lines)
}

/// The lines after the first.
fn add_parts(lines: &mut Vec<Line>, module: &Module, listed: &Listed) -> Result<(), AllocError>
    ensures { IfOk result (λ _. lines.new.items
        ≡ lines.old.items ++ listed_lines «module».now listed.now) }
{
    match listed {
        Listed::Declarations => add_declarations(lines, module),
        Listed::Function(handle) => match item_at(&module.functions, *handle) {
            Some(function) => add_function(lines, function),
            None => Ok(()),
        },
        Listed::EntryPoint(index) => match entry_point_at(module, *index) {
            Some(entry_point) => add_function(lines, &entry_point.function),
            None => Ok(()),
        },
    }
}

fn add_declarations(lines: &mut Vec<Line>, module: &Module) -> Result<(), AllocError>
    ensures { IfOk result (λ _. lines.new.items
        ≡ lines.old.items ++ declaration_lines «module».now) }
{
    add_section(lines, Title::Types, module.types.len())?;
    add_section(lines, Title::Constants, module.constants.len())?;
    add_section(lines, Title::Overrides, module.overrides.len())?;
    add_section(lines, Title::GlobalVariables, module.global_variables.len())?;
    add_section(
        lines,
        Title::GlobalExpressions,
        module.global_expressions.len(),
    )
}

fn add_function(lines: &mut Vec<Line>, function: &Function) -> Result<(), AllocError>
    ensures { IfOk result (λ _. lines.new.items ≡ lines.old.items ++ function_lines function.now) }
{
    add_section(lines, Title::Locals, function.local_variables.len())?;
    add_section(lines, Title::Expressions, function.expressions.len())?;
    add_body(lines, &function.body)
}

/// A list of so many items under its title, and nothing where there are none.
#[tactic(auto, using(crate::proofs::AddedLines::full_section))]
fn add_section(lines: &mut Vec<Line>, title: Title, count: usize) -> Result<(), AllocError>
    ensures { IfOk result (λ _. lines.new.items ≡ lines.old.items ++ section title count) }
{
    if count == 0 {
        return Ok(());
    }
    push_line(lines, 1, LineKind::Title(title))?;
    add_items(lines, title, count)
}

fn add_items(lines: &mut Vec<Line>, title: Title, count: usize) -> Result<(), AllocError>
    ensures { IfOk result (λ _. lines.new.items ≡ lines.old.items ++ items_below title count) }
{
    for index in 0..count {
        push_line(lines, 2, LineKind::Item(spot_in(title, index)))?;
    }
    Ok(())
}

/// What the item of this number in a list is about.
fn spot_in(title: Title, index: usize) -> Spot
    ensures { result ≡ spot_in title index }
{
    match title {
        Title::Types => Spot::Type_(ItemIndex::from_index(index)),
        Title::Constants => Spot::Constant(ItemIndex::from_index(index)),
        Title::Overrides => Spot::Override(ItemIndex::from_index(index)),
        Title::GlobalVariables => Spot::GlobalVariable(ItemIndex::from_index(index)),
        Title::GlobalExpressions => Spot::GlobalExpression(ItemIndex::from_index(index)),
        Title::Locals => Spot::Local(ItemIndex::from_index(index)),
        Title::Expressions => Spot::Expression(ItemIndex::from_index(index)),
        Title::Statements => Spot::Statement(index),
    }
}

#[tactic(auto, using(crate::proofs::AddedLines::full_body, crate::proofs::AddedLines::no_body))]
fn add_body(lines: &mut Vec<Line>, body: &Block) -> Result<(), AllocError>
    ensures { IfOk result (λ _. lines.new.items ≡ lines.old.items ++ body_lines body.now) }
{
    if body.is_empty() {
        return Ok(());
    }
    push_line(lines, 1, LineKind::Title(Title::Statements))?;
    add_block(lines, body, 2, 0)?;
    Ok(())
}

fn push_line(lines: &mut Vec<Line>, level: usize, head: LineKind) -> Result<(), AllocError>
    ensures { IfOk result (λ _. lines.new.items
        ≡ lines.old.items ++ record { level = level; kind = head } ∷ []) }
{
    lines.push(Line { level, kind: head })?;
    Ok(())
}

/// The lines of a statement, which has this number, and of those in its blocks. Gives the next
/// number.
#[cycle(lines)]
#[tactic(auto, using(crate::proofs::AddedLines::first_then))]
fn add_statement(
    lines: &mut Vec<Line>,
    statement: &Statement,
    level: usize,
    number: usize,
) -> Result<usize, AllocError>
    ensures lines { IfOk result (λ _. lines.new.items
        ≡ lines.old.items ++ statement_lines level number (tree_of statement.now)) }
    ensures next { IfOk result (λ next. next ≡ after_statement number (tree_of statement.now)) }
{
    push_line(lines, level, LineKind::Item(Spot::Statement(number)))?;
    add_inside(lines, statement, level, number.wrapping_add(1))
}

/// The lines of the statements in the blocks of a statement, of which the first has this number.
/// Gives the number after them.
#[cycle(lines)]
fn add_inside(
    lines: &mut Vec<Line>,
    statement: &Statement,
    level: usize,
    first: usize,
) -> Result<usize, AllocError>
    ensures lines { IfOk result (λ _. lines.new.items
        ≡ lines.old.items ++ inside_lines level first (tree_of statement.now)) }
    ensures next { IfOk result (λ next. next ≡ after_inside first (tree_of statement.now)) }
{
    match statement {
        Statement::Block(block) => add_block(lines, block, level.wrapping_add(2), first),
        Statement::If { accept, reject, .. } => {
            add_two(lines, accept, LineKind::Else, reject, level, first)
        }
        Statement::Switch { cases, .. } => add_cases(lines, cases, level, first),
        Statement::Loop {
            body,
            continuing,
            ..
        } => add_two(lines, body, LineKind::Continuing, continuing, level, first),
        _ => Ok(first),
    }
}

/// The lines of two blocks of the statement that stands at this level, the second after a line that
/// tells which it is.
#[cycle(lines)]
fn add_two(
    lines: &mut Vec<Line>,
    accept: &Block,
    head: LineKind,
    reject: &Block,
    level: usize,
    first: usize,
) -> Result<usize, AllocError>
    ensures lines { IfOk result (λ _. lines.new.items
        ≡ lines.old.items ++ two_lines head level first accept.now reject.now) }
    ensures next { IfOk result (λ next.
        next ≡ after_block (after_block first accept.now) reject.now) }
{
    let next = add_block(lines, accept, level.wrapping_add(2), first)?;
    add_another(lines, head, reject, level, next)
}

/// The lines of the statements of a block, of which the first has this number. Gives the number
/// after them.
#[cycle(lines)]
fn add_block(
    lines: &mut Vec<Line>,
    block: &Block,
    level: usize,
    first: usize,
) -> Result<usize, AllocError>
    ensures lines { IfOk result (λ _. lines.new.items
        ≡ lines.old.items ++ block_lines level first block.now) }
    ensures next { IfOk result (λ next. next ≡ after_block first block.now) }
{
    let mut number = first;
    for statement in block.as_slice() {
        let next = add_statement(lines, statement, level, number)?;
        number = next;
    }
    Ok(number)
}

/// The lines of a block of the statement that stands at this level, after a line that tells which
/// it is.
#[cycle(lines)]
#[tactic(auto, using(crate::proofs::AddedLines::headed))]
fn add_headed(
    lines: &mut Vec<Line>,
    head: LineKind,
    block: &Block,
    level: usize,
    first: usize,
) -> Result<usize, AllocError>
    ensures lines { IfOk result (λ _. lines.new.items
        ≡ lines.old.items ++ headed_lines head level first block.now) }
    ensures next { IfOk result (λ next. next ≡ after_block first block.now) }
{
    push_line(lines, level.wrapping_add(1), head)?;
    add_block(lines, block, level.wrapping_add(2), first)
}

/// The same of a block that has a line only where it has statements.
#[cycle(lines)]
#[tactic(auto, using(crate::proofs::AddedLines::another, crate::proofs::AddedLines::no_other, crate::proofs::AddedLines::number_stays))]
fn add_another(
    lines: &mut Vec<Line>,
    head: LineKind,
    block: &Block,
    level: usize,
    first: usize,
) -> Result<usize, AllocError>
    ensures lines { IfOk result (λ _. lines.new.items
        ≡ lines.old.items ++ another_lines head level first block.now) }
    ensures next { IfOk result (λ next. next ≡ after_block first block.now) }
{
    if block.is_empty() {
        Ok(first)
    } else {
        add_headed(lines, head, block, level, first)
    }
}

#[cycle(lines)]
fn add_cases(
    lines: &mut Vec<Line>,
    cases: &[SwitchCase],
    level: usize,
    first: usize,
) -> Result<usize, AllocError>
    ensures lines { IfOk result (λ _. lines.new.items
        ≡ lines.old.items ++ case_lines level first (cases_of cases.now)) }
    ensures next { IfOk result (λ next. next ≡ after_cases first (cases_of cases.now)) }
{
    let mut number = first;
    for case in cases {
        let head = LineKind::Case(case.value, case.fall_through);
        let next = add_headed(lines, head, &case.body, level, number)?;
        number = next;
    }
    Ok(number)
}
