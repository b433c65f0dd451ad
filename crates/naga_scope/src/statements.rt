//! By which constructs statements are refused that no text has a form for.

ghost use Rattle.std.specs.Prelude.{◌≡◌};
ghost use Rattle.std.specs.Option.{is_some};
ghost use Rattle.module_semantics.specs.OperatorTable.{collective_word, texel_change_word};
ghost use Rattle.module_semantics.specs.StatementShapes.{change_of};
ghost use Rattle.naga_ir.specs.StatementViews.{cases_of, tree_of};
ghost use Rattle.naga_refusals.specs.declared.construct.Construct.TheVariants as construct;
ghost use Rattle.naga_scope.specs.UnsupportedStatements.{own_unsupported, unsupported_case};
ghost use Rattle.naga_tables.specs.Refusals.{unless};

use naga_ir::{AtomicFunction, CollectiveOperation, Statement, SubgroupOperation, SwitchCase};
use naga_refusals::Construct;

/// By what a statement is refused, those in its blocks left out.
pub(crate) fn own_unsupported(statement: &Statement) -> Option<Construct>
    ensures { result ≡ own_unsupported (tree_of statement.now) }
{
    match statement {
        Statement::Switch { cases, .. } => unsupported_case(cases),
        Statement::RayQuery { .. } => Some(Construct::RayQuery),
        Statement::ImageAtomic { fun, .. } => unsupported_change(*fun),
        Statement::SubgroupCollectiveOperation {
            op,
            collective_op,
            ..
        } => unsupported_collective(*op, *collective_op),
        _ => None,
    }
}

/// A case with statements that falls through.
fn unsupported_case(cases: &[SwitchCase]) -> Option<Construct>
    ensures { result ≡ unsupported_case (cases_of cases.now) }
{
    for case in cases {
        if case.fall_through && !case.body.is_empty() {
            return Some(Construct::FallThrough);
        }
    }
    None
}

/// A change of a texel that WGSL has no word for.
fn unsupported_change(fun: AtomicFunction) -> Option<Construct>
    ensures { result
        ≡ unless (is_some (texel_change_word (change_of fun))) construct.ImageCompareExchange }
{
    match fun {
        AtomicFunction::Exchange { compare: Some(_) } => { Some(Construct::ImageCompareExchange) }
        _ => None,
    }
}

/// An operation over a subgroup that WGSL has no word for: of scans it has those of sums and
/// products.
fn unsupported_collective(
    op: SubgroupOperation,
    collective_op: CollectiveOperation,
) -> Option<Construct>
    ensures { result
        ≡ unless (is_some (collective_word op collective_op)) construct.SubgroupOperation }
{
    match collective_op {
        CollectiveOperation::Reduce => None,
        CollectiveOperation::InclusiveScan | CollectiveOperation::ExclusiveScan => match op {
            SubgroupOperation::Add | SubgroupOperation::Mul => None,
            _ => Some(Construct::SubgroupOperation),
        },
    }
}
