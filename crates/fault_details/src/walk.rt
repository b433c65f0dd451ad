//! The statement with a number in the order of the text, with where it stands.

ghost use Rattle.std.specs.Prelude.{◌≡◌, ◌∷◌, true, false, slice_get};
ghost use Rattle.std.specs.Option.{option_map};
ghost use Rattle.naga_ir.specs.StatementViews.{cases_of, tree_of};
ghost use Rattle.naga_acceptance.specs.TextOrder.{case_statements, statements_in};
ghost use Rattle.naga_acceptance.specs.TextOrder.{statements_inside, text_order};
ghost use Rattle.fault_details.specs.Shown.{passed, placed, reached};

use naga_ir::{Block, Statement, SwitchCase};

/// A statement where it stands.
#[derive(Debug, Clone, Copy)]
pub(crate) struct StatementAt<'a> {
    /// Whether it may leave the nearest loop or switch by `Break`.
    pub breaks: bool,
    /// Whether it may go on with the nearest loop's `continuing`.
    pub continues: bool,
    /// The statement itself.
    pub statement: &'a Statement,
}

/// Passes so many statements, of this one and those in its blocks: how many are left to pass, or
/// the statement after them as an error.
#[cycle(statements)]
#[tactic(auto, using(crate::proofs::Passing::passed_append))]
fn pass_statement<'a>(
    breaks: bool,
    continues: bool,
    statement: &'a Statement,
    count: usize,
) -> Result<usize, StatementAt<'a>>
    ensures { reached result ≡ passed count
        (record { breaks = breaks; continues = continues; tree = tree_of statement.now }
        ∷ statements_inside breaks continues (tree_of statement.now)) }
{
    if count == 0 {
        return Err(StatementAt {
            breaks,
            continues,
            statement,
        });
    }
    let left = count - 1;
    match statement {
        Statement::Block(block) => pass_block(breaks, continues, block, left),
        Statement::If { accept, reject, .. } => {
            match pass_block(breaks, continues, accept, left) {
                Ok(left) => pass_block(breaks, continues, reject, left),
                Err(found) => Err(found),
            }
        }
        Statement::Switch { cases, .. } => pass_cases(continues, cases, left),
        Statement::Loop {
            body,
            continuing,
            ..
        } => match pass_block(true, true, body, left) {
            Ok(left) => pass_block(false, false, continuing, left),
            Err(found) => Err(found),
        },
        _ => Ok(left),
    }
}

#[cycle(statements)]
fn pass_block<'a>(
    breaks: bool,
    continues: bool,
    block: &'a Block,
    count: usize,
) -> Result<usize, StatementAt<'a>>
    ensures { reached result ≡ passed count (statements_in breaks continues block.now) }
{
    let mut number = count;
    for statement in block.as_slice() {
        match pass_statement(breaks, continues, statement, number) {
            Ok(left) => number = left,
            Err(found) => return Err(found),
        }
    }
    Ok(number)
}

#[cycle(statements)]
fn pass_cases<'a>(
    continues: bool,
    cases: &'a [SwitchCase],
    count: usize,
) -> Result<usize, StatementAt<'a>>
    ensures { reached result ≡ passed count (case_statements true continues (cases_of cases.now)) }
{
    let mut number = count;
    for case in cases {
        match pass_block(true, continues, &case.body, number) {
            Ok(left) => number = left,
            Err(found) => return Err(found),
        }
    }
    Ok(number)
}

/// The statement with this number in the order of the text, from 0, those in blocks counted too, if
/// there are so many.
pub(crate) fn statement_at(body: &Block, number: usize) -> Option<StatementAt<'_>>
    ensures { option_map placed result ≡ slice_get (text_order body.now) number }
{
    match pass_block(false, false, body, number) {
        Ok(_) => None,
        Err(found) => Some(found),
    }
}
