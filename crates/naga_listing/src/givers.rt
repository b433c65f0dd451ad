//! Which statement of a body gives an expression.

ghost use Rattle.std.specs.Prelude.{◌≡◌, ◌++◌};
ghost use Rattle.naga_ir.specs.InOrder.{case_trees, trees_in, trees_inside};
ghost use Rattle.naga_ir.specs.StatementViews.{cases_of, tree_of};
ghost use Rattle.naga_listing.specs.Givers.{giver, gives, giving};
ghost use Rattle.naga_listing.specs.Named.{statement_trees};

use naga_ir::{Block, Expression, Handle, Statement, SwitchCase};

/// The number of the first statement of a body that gives this expression, by an `Emit` or as its
/// result. Statements are numbered as for `statement_at`.
pub fn giver_of(body: &Block, handle: Handle<Expression>) -> Option<usize>
    ensures { result ≡ giver body.now handle }
{
    match giver_in_block(body, handle, 0) {
        Ok(number) => Some(number),
        Err(_) => None,
    }
}

/// Whether the statement by itself gives this expression.
fn gives(statement: &Statement, handle: Handle<Expression>) -> bool
    ensures { result ≡ gives handle (tree_of statement.now) }
{
    let index = handle.index();
    match statement {
        Statement::Emit(range) => range.first <= index && index < range.end,
        _ => match statement.result() {
            Some(given) => given.index() == index,
            None => false,
        },
    }
}

/// The number of the first that gives it of the statement with this number and those in its blocks,
/// or else the number after them.
#[cycle(give)]
fn giver_in(
    statement: &Statement,
    handle: Handle<Expression>,
    number: usize,
) -> Result<usize, usize>
    ensures { result ≡ giving handle number (statement_trees (tree_of statement.now)) }
{
    if gives(statement, handle) {
        Ok(number)
    } else {
        giver_inside(statement, handle, number.wrapping_add(1))
    }
}

/// The same of those in its blocks.
#[cycle(give)]
fn giver_inside(
    statement: &Statement,
    handle: Handle<Expression>,
    first: usize,
) -> Result<usize, usize>
    ensures { result ≡ giving handle first (trees_inside (tree_of statement.now)) }
{
    match statement {
        Statement::Block(block) => giver_in_block(block, handle, first),
        Statement::If { accept, reject, .. } => giver_in_two(accept, reject, handle, first),
        Statement::Switch { cases, .. } => giver_in_cases(cases, handle, first),
        Statement::Loop {
            body,
            continuing,
            ..
        } => giver_in_two(body, continuing, handle, first),
        _ => Err(first),
    }
}

#[cycle(give)]
#[tactic(auto, using(crate::proofs::Giving::giving_append))]
fn giver_in_two(
    one: &Block,
    other: &Block,
    handle: Handle<Expression>,
    first: usize,
) -> Result<usize, usize>
    ensures { result ≡ giving handle first (trees_in one.now ++ trees_in other.now) }
{
    match giver_in_block(one, handle, first) {
        Ok(number) => Ok(number),
        Err(next) => giver_in_block(other, handle, next),
    }
}

#[cycle(give)]
fn giver_in_block(block: &Block, handle: Handle<Expression>, first: usize) -> Result<usize, usize>
    ensures { result ≡ giving handle first (trees_in block.now) }
{
    let mut number = first;
    for statement in block.as_slice() {
        match giver_in(statement, handle, number) {
            Ok(found) => return Ok(found),
            Err(next) => number = next,
        }
    }
    Err(number)
}

#[cycle(give)]
fn giver_in_cases(
    cases: &[SwitchCase],
    handle: Handle<Expression>,
    first: usize,
) -> Result<usize, usize>
    ensures { result ≡ giving handle first (case_trees (cases_of cases.now)) }
{
    let mut number = first;
    for case in cases {
        match giver_in_block(&case.body, handle, number) {
            Ok(found) => return Ok(found),
            Err(next) => number = next,
        }
    }
    Err(number)
}
