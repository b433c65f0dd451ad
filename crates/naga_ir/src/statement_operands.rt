//! The operands and the results of statements.

ghost use Rattle.std.specs.Prelude.{◌≡◌, ◌<◌, ◌++◌, slice_get, IfSome};
ghost use Rattle.std.specs.Iterator.{YieldsFirst, item_count};
ghost use Rattle.std.specs.List.{flat_map};
ghost use Rattle.std.specs.Option.{option_to_list};
ghost use Rattle.naga_ir.specs.Operands.{atomic_operands, gather_operands, own_operands};
ghost use Rattle.naga_ir.specs.Operands.{own_result, ray_operands};
ghost use Rattle.naga_ir.specs.StatementViews.{tree_of};

use crate::arena::Handle;
use crate::expression::Expression;
use crate::operands::{nth, nth_present};
use crate::operators::{AtomicFunction, GatherMode};
use crate::statement::{RayPipelineFunction, Statement};
use std::marker::Model;

/// What the old value is compared with, if it is compared.
pub fn compared(fun: AtomicFunction) -> Option<Handle<Expression>>
    ensures { option_to_list result ≡ atomic_operands fun }
{
    match fun {
        AtomicFunction::Exchange { compare } => compare,
        _ => None,
    }
}

/// By what the invocation is told from which a value comes, if it is told by an operand.
pub fn told_by(mode: GatherMode) -> Option<Handle<Expression>>
    ensures { option_to_list result ≡ gather_operands mode }
{
    match mode {
        GatherMode::BroadcastFirst | GatherMode::QuadSwap(_) => None,
        GatherMode::Broadcast(index)
        | GatherMode::Shuffle(index)
        | GatherMode::ShuffleDown(index)
        | GatherMode::ShuffleUp(index)
        | GatherMode::ShuffleXor(index)
        | GatherMode::QuadBroadcast(index) => Some(index),
    }
}

/// The operand of this number of what is done with a ray.
fn ray_operand(fun: RayPipelineFunction, number: usize) -> Option<Handle<Expression>>
    ensures item { result ≡ slice_get (ray_operands fun) number }
    ensures below { IfSome result (λ _. number < usize.MAX) }
{
    match fun {
        RayPipelineFunction::TraceRay {
            acceleration_structure,
            descriptor,
            payload,
        } => nth(&[acceleration_structure, descriptor, payload], number),
    }
}

impl Statement {
    /// The operand of this number, counted from zero.
    fn operand(&self, number: usize) -> Option<Handle<Expression>>
        ensures item { result ≡ slice_get (own_operands (tree_of self.now)) number }
        ensures below { IfSome result (λ _. number < usize.MAX) }
    {
        match self {
            Statement::Emit(_)
            | Statement::Block(_)
            | Statement::Break
            | Statement::Continue
            | Statement::Kill
            | Statement::ControlBarrier(_)
            | Statement::MemoryBarrier(_) => None,
            Statement::If { condition, .. } => nth(&[*condition], number),
            Statement::Switch { selector, .. } => nth(&[*selector], number),
            Statement::Loop { break_if, .. } => nth_present(&[*break_if], number),
            Statement::Return { value } => nth_present(&[*value], number),
            Statement::Store { pointer, value } => nth(&[*pointer, *value], number),
            Statement::ImageStore {
                image,
                coordinate,
                array_index,
                value,
            } => nth_present(
                &[Some(*image), Some(*coordinate), *array_index, Some(*value)],
                number,
            ),
            Statement::Atomic {
                pointer,
                fun,
                value,
                ..
            } => nth_present(&[Some(*pointer), compared(*fun), Some(*value)], number),
            Statement::ImageAtomic {
                image,
                coordinate,
                array_index,
                fun,
                value,
            } => nth_present(
                &[
                    Some(*image),
                    Some(*coordinate),
                    *array_index,
                    compared(*fun),
                    Some(*value),
                ],
                number,
            ),
            Statement::WorkGroupUniformLoad { pointer, .. } => nth(&[*pointer], number),
            Statement::Call { arguments, .. } => nth(arguments, number),
            Statement::RayQuery { query } => nth(&[*query], number),
            Statement::SubgroupBallot { predicate, .. } => nth_present(&[*predicate], number),
            Statement::SubgroupGather { mode, argument, .. } => {
                nth_present(&[Some(*argument), told_by(*mode)], number)
            }
            Statement::SubgroupCollectiveOperation { argument, .. } => nth(&[*argument], number),
            Statement::CooperativeStore { target, data_ } => {
                nth(&[*target, data_.pointer, data_.stride], number)
            }
            Statement::RayPipelineFunction(fun) => ray_operand(*fun, number),
        }
    }

    /// The handles of the statement's operands, in the order in which WGSL writes them, without those
    /// of the statements in its blocks: of an `If` the condition, of a `Switch` the selector, of a
    /// `Loop` what its `break if` asks. An `Emit` has none. It takes no memory.
    pub fn operands(&self) -> StatementOperands<'_>
        ensures { result ≡ own_operands (tree_of self.now) }
    {
        StatementOperands {
            statement: self,
            number: 0,
        }
    }

    /// The expression for which the statement gives a value, if it gives one.
    pub fn result(&self) -> Option<Handle<Expression>>
        ensures { result ≡ own_result (tree_of self.now) }
    {
        match self {
            Statement::Atomic { result, .. } | Statement::Call { result, .. } => *result,
            Statement::WorkGroupUniformLoad { result, .. }
            | Statement::SubgroupBallot { result, .. }
            | Statement::SubgroupGather { result, .. }
            | Statement::SubgroupCollectiveOperation { result, .. } => Some(*result),
            _ => None,
        }
    }
}

/// The operands of a statement that are still to come, from this number on, in the order in which
/// WGSL writes them.
#[derive(Drop)]
pub struct StatementOperands<'a> {
    statement: &'a Statement,
    number: usize,
}

impl<'a> Model for StatementOperands<'a> {
    ghost use Rattle.std.specs.Prelude.{List, ℕ, drop};
    ghost use Rattle.naga_ir.specs.Operands.{own_operands};
    ghost use Rattle.naga_ir.specs.StatementViews.{tree_of};

    ghost Value = { List ℕ };

    ghost view = { λ s. drop s.number (own_operands (tree_of s.statement.now)) };
}

impl<'a> Iterator for StatementOperands<'a> {
    type Item = Handle<Expression>;

    ghost next_gives = { YieldsFirst (λ s. s) };

    ghost remaining = { item_count (λ s. s) };

    #[tactic(auto, using(crate::proofs::Remaining::one_after))]
    fn next(&mut self) -> Option<Handle<Expression>> {
        match self.statement.operand(self.number) {
            Some(operand) => {
                self.number += 1;
                Some(operand)
            }
            None => None,
        }
    }
}
