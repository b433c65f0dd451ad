//! How deep statements stand in one another.

ghost use Rattle.std.specs.Prelude.{◌≡◌, max, nat_le};
ghost use Rattle.naga_ir.specs.StatementViews.{cases_of, tree_of};
ghost use Rattle.module_limits.specs.Blocks.{block_depth, cases_depth, statement_depth};

use naga_ir::{Block, Statement, SwitchCase};

/// Whether the statements of the block stand in one another on no more than so many levels. It goes
/// no deeper than one level more, and takes no memory.
#[cycle(blocks)]
pub(crate) fn block_is_within(block: &Block, levels: usize) -> bool
    ensures { result ≡ nat_le (block_depth block.now) levels }
{
    for statement in block.as_slice() {
        if !statement_is_within(statement, levels) {
            return false;
        }
    }
    true
}

#[cycle(blocks)]
fn statement_is_within(statement: &Statement, levels: usize) -> bool
    ensures { result ≡ nat_le (statement_depth (tree_of statement.now)) levels }
{
    if levels == 0 {
        return false;
    }
    let inside = levels - 1;
    match statement {
        Statement::Block(block) => block_is_within(block, inside),
        Statement::If { accept, reject, .. } => both_are_within(accept, reject, inside),
        Statement::Switch { cases, .. } => cases_are_within(cases, inside),
        Statement::Loop {
            body,
            continuing,
            ..
        } => both_are_within(body, continuing, inside),
        _ => true,
    }
}

#[cycle(blocks)]
fn both_are_within(first: &Block, second: &Block, levels: usize) -> bool
    ensures { result ≡ nat_le (max (block_depth first.now) (block_depth second.now)) levels }
{
    block_is_within(first, levels) && block_is_within(second, levels)
}

#[cycle(blocks)]
fn cases_are_within(cases: &[SwitchCase], levels: usize) -> bool
    ensures { result ≡ nat_le (cases_depth (cases_of cases.now)) levels }
{
    for case in cases {
        if !block_is_within(&case.body, levels) {
            return false;
        }
    }
    true
}
