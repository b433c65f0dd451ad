//! The statements of a body, in the order of its text.

ghost use Rattle.std.specs.Prelude.{◌≡◌, ◌++◌, IfOk, OnOk};
ghost use Rattle.naga_ir.specs.StatementViews.{cases_of, tree_of};
ghost use Rattle.naga_ir.specs.InOrder.{case_trees, trees_in, trees_inside, trees_of};

use naga_ir::{Block, Statement, SwitchCase};
use std::alloc::{AllocError, Global};

/// The statements of a block and of the blocks in them, each before those in its blocks. So each
/// stands where its number says.
pub(crate) fn statements_in(alloc: Global, block: &Block) -> Result<Vec<&Statement>, AllocError>
    ensures { IfOk result (λ found. trees_of found.items ≡ trees_in block.now) }
{
    let mut found = Vec::new(alloc);
    add_block(&mut found, block)?;
    Ok(found)
}

/// Adds those of a block.
#[cycle(in_order)]
fn add_block<'a>(found: &mut Vec<&'a Statement>, block: &'a Block) -> Result<(), AllocError>
    ensures { OnOk result
        (trees_of found.new.items ≡ trees_of found.old.items ++ trees_in block.now) }
{
    for statement in block.as_slice() {
        found.push(statement)?;
        add_inside(found, statement)?;
    }
    Ok(())
}

/// Adds those in the blocks of a statement.
#[cycle(in_order)]
fn add_inside<'a>(
    found: &mut Vec<&'a Statement>,
    statement: &'a Statement,
) -> Result<(), AllocError>
    ensures { OnOk result (trees_of found.new.items
        ≡ trees_of found.old.items ++ trees_inside (tree_of statement.now)) }
{
    match statement {
        Statement::Block(block) => add_block(found, block),
        Statement::If { accept, reject, .. } => add_both(found, accept, reject),
        Statement::Switch { cases, .. } => add_cases(found, cases),
        Statement::Loop {
            body,
            continuing,
            ..
        } => add_both(found, body, continuing),
        _ => Ok(()),
    }
}

#[cycle(in_order)]
fn add_both<'a>(
    found: &mut Vec<&'a Statement>,
    first: &'a Block,
    second: &'a Block,
) -> Result<(), AllocError>
    ensures { OnOk result (trees_of found.new.items
        ≡ trees_of found.old.items ++ (trees_in first.now ++ trees_in second.now)) }
{
    add_block(found, first)?;
    add_block(found, second)
}

#[cycle(in_order)]
fn add_cases<'a>(found: &mut Vec<&'a Statement>, cases: &'a [SwitchCase]) -> Result<(), AllocError>
    ensures { OnOk result
        (trees_of found.new.items ≡ trees_of found.old.items ++ case_trees (cases_of cases.now)) }
{
    for case in cases {
        add_block(found, &case.body)?;
    }
    Ok(())
}
