//! Statements by their numbers.

ghost use Rattle.std.specs.Prelude.{◌≡◌, ◌++◌, slice_get};
ghost use Rattle.std.specs.Option.{option_map};
ghost use Rattle.std.specs.Result.{result_err};
ghost use Rattle.naga_ir.specs.StatementViews.{cases_of, tree_of};
ghost use Rattle.naga_ir.specs.InOrder.{case_trees, trees_inside};
ghost use Rattle.naga_listing.specs.Named.{found_as, sought};
ghost use Rattle.naga_ir.specs.InOrder.{trees_in};
ghost use Rattle.naga_listing.specs.Named.{statement_trees};

use naga_ir::{Block, Statement, SwitchCase};

/// The statement of a body with this number in the order of the text, those in blocks counted too,
/// each after the one that holds the block.
pub fn statement_at(body: &Block, number: usize) -> Option<&Statement>
    ensures { option_map (λ s. tree_of s.now) result ≡ slice_get (trees_in body.now) number }
{
    match seek_block(body, number) {
        Ok(statement) => Some(statement),
        Err(_) => None,
    }
}

/// How many of `left` statements are still to be gone past after this one and those in its blocks;
/// `None` where these are more than `left`.
pub fn past_statement(statement: &Statement, left: usize) -> Option<usize>
    ensures { result ≡ result_err (sought left (statement_trees (tree_of statement.now))) }
{
    match seek_statement(statement, left) {
        Ok(_) => None,
        Err(rest) => Some(rest),
    }
}

/// How many of `left` statements are still to be gone past after those of this block and those in their
/// blocks; `None` where these are more than `left`.
pub fn past_block(block: &Block, left: usize) -> Option<usize>
    ensures { result ≡ result_err (sought left (trees_in block.now)) }
{
    match seek_block(block, left) {
        Ok(_) => None,
        Err(rest) => Some(rest),
    }
}

/// Of a statement and those in its blocks the one before which so many stand; else how many are
/// left to be gone past.
#[cycle(seek)]
#[tactic(auto, using(crate::proofs::Seeking::sought_past))]
fn seek_statement(statement: &Statement, left: usize) -> Result<&Statement, usize>
    ensures { found_as (λ s. tree_of s.now) result
        ≡ sought left (statement_trees (tree_of statement.now)) }
{
    if left == 0 {
        Ok(statement)
    } else {
        seek_inside(statement, left - 1)
    }
}

/// The same of those in its blocks.
#[cycle(seek)]
fn seek_inside(statement: &Statement, left: usize) -> Result<&Statement, usize>
    ensures { found_as (λ s. tree_of s.now) result
        ≡ sought left (trees_inside (tree_of statement.now)) }
{
    match statement {
        Statement::Block(block) => seek_block(block, left),
        Statement::If { accept, reject, .. } => seek_two(accept, reject, left),
        Statement::Switch { cases, .. } => seek_cases(cases, left),
        Statement::Loop {
            body,
            continuing,
            ..
        } => seek_two(body, continuing, left),
        _ => Err(left),
    }
}

#[cycle(seek)]
#[tactic(auto, using(crate::proofs::Seeking::sought_append))]
fn seek_two<'a>(first: &'a Block, second: &'a Block, left: usize) -> Result<&'a Statement, usize>
    ensures { found_as (λ s. tree_of s.now) result
        ≡ sought left (trees_in first.now ++ trees_in second.now) }
{
    match seek_block(first, left) {
        Ok(statement) => Ok(statement),
        Err(rest) => seek_block(second, rest),
    }
}

#[cycle(seek)]
fn seek_block(block: &Block, first: usize) -> Result<&Statement, usize>
    ensures { found_as (λ s. tree_of s.now) result ≡ sought first (trees_in block.now) }
{
    let mut left = first;
    for statement in block.as_slice() {
        match seek_statement(statement, left) {
            Ok(found) => return Ok(found),
            Err(rest) => left = rest,
        }
    }
    Err(left)
}

#[cycle(seek)]
fn seek_cases(cases: &[SwitchCase], first: usize) -> Result<&Statement, usize>
    ensures { found_as (λ s. tree_of s.now) result
        ≡ sought first (case_trees (cases_of cases.now)) }
{
    let mut left = first;
    for case in cases {
        match seek_block(&case.body, left) {
            Ok(found) => return Ok(found),
            Err(rest) => left = rest,
        }
    }
    Err(left)
}
