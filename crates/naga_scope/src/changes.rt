//! How many changes of scope statements make.

ghost use Rattle.std.specs.Prelude.{◌≡◌, ◌^◌, ◌≤◌, IfSome, None, length, sum_by};
ghost use Rattle.std.specs.Option.{option_to_list};
ghost use Rattle.naga_ir.specs.Operands.{own_result};
ghost use Rattle.naga_ir.specs.StatementViews.{tree_of};
ghost use Rattle.naga_ir.specs.InOrder.{trees_of};
ghost use Rattle.naga_scope.specs.InOrder.{own_changes};

use naga_ir::Statement;

/// So many all of them make, each by itself. None where a `usize` doesn't hold the number.
pub(crate) fn count_changes(statements: &[&Statement]) -> Option<usize>
    ensures some { IfSome result (λ count. count ≡ sum_by own_changes (trees_of statements.now)) }
    ensures none { result ≡ None → 2 ^ 64 ≤ sum_by own_changes (trees_of statements.now) }
{
    let mut count: usize = 0;
    for statement in statements {
        count = count.checked_add(own_changes(statement))?;
    }
    Some(count)
}

/// One for each handle of an `Emit`, and one for a result.
fn own_changes(statement: &Statement) -> usize
    ensures { result ≡ own_changes (tree_of statement.now) }
{
    match statement {
        Statement::Emit(range) => range.end.saturating_sub(range.first),
        _ => count_result(statement),
    }
}

fn count_result(statement: &Statement) -> usize
    ensures { result ≡ length (option_to_list (own_result (tree_of statement.now))) }
{
    match statement.result() {
        Some(_) => 1,
        None => 0,
    }
}
