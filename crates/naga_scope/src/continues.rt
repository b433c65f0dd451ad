//! Where a block holds a `continue` of the loop around it.

ghost use Rattle.std.specs.Prelude.{◌≡◌, ◌+◌};
ghost use Rattle.naga_ir.specs.StatementTree.{block_size};
ghost use Rattle.naga_ir.specs.StatementViews.{block_of, cases_of, tree_of};
ghost use Rattle.naga_scope.specs.Changes.{block_changes};
ghost use Rattle.naga_scope.specs.Continues.{any_continue, before_continue, count_before};
ghost use Rattle.naga_scope.specs.Continues.{from_continue, holds_continue, some_case_continues};

use naga_ir::{Block, Statement, SwitchCase};

/// Whether the statement holds a `continue` of the loop in whose body it stands.
#[cycle(continues)]
pub fn holds_continue(statement: &Statement) -> bool
    ensures { result ≡ holds_continue (tree_of statement.now) }
{
    match statement {
        Statement::Continue => true,
        Statement::Block(block) => any_continue(block),
        Statement::If { accept, reject, .. } => any_continue(accept) || any_continue(reject),
        Statement::Switch { cases, .. } => some_case_continues(cases),
        _ => false,
    }
}

/// Whether some statement of the block holds one.
#[cycle(continues)]
pub fn any_continue(block: &Block) -> bool
    ensures { result ≡ any_continue block.now }
{
    for statement in block.as_slice() {
        if holds_continue(statement) {
            return true;
        }
    }
    false
}

#[cycle(continues)]
fn some_case_continues(cases: &[SwitchCase]) -> bool
    ensures { result ≡ some_case_continues (cases_of cases.now) }
{
    for case in cases {
        if any_continue(&case.body) {
            return true;
        }
    }
    false
}

/// How many statements stand before the first that holds a `continue`.
fn count_before_continue(statements: &[Statement]) -> usize
    ensures { result ≡ count_before (block_of statements.now) }
{
    let mut count = 0;
    for statement in statements {
        if holds_continue(statement) {
            return count;
        }
        count += 1;
    }
    count
}

/// The statements before the first that holds a `continue`, and those from it on. A loop's
/// `continuing` sees what the first ones introduce. So each list is searched once in each pass
/// over the function, by the loop whose body it is.
#[tactic(auto, using(crate::proofs::Turns::count_within, crate::proofs::Turns::count_takes, crate::proofs::Turns::count_drops, crate::proofs::Turns::size_split, crate::proofs::Turns::changes_split))]
pub fn split_at_continue(block: &Block) -> (&[Statement], &[Statement])
    ensures before { block_of result.0.now ≡ before_continue block.now }
    ensures from { block_of result.1.now ≡ from_continue block.now }
    ensures sizes { block_size (block_of result.0.now) + block_size (block_of result.1.now)
        ≡ block_size block.now }
    ensures changes { block_changes (block_of result.0.now) + block_changes (block_of result.1.now)
        ≡ block_changes block.now }
{
    let statements = block.as_slice();
    statements.split_at(count_before_continue(statements))
}
