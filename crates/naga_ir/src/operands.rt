//! The operands of expressions.

ghost use Rattle.std.specs.Prelude.{◌≡◌, ◌<◌, ◌++◌, slice_get, IfSome};
ghost use Rattle.std.specs.Iterator.{YieldsFirst, item_count};
ghost use Rattle.std.specs.List.{flat_map};
ghost use Rattle.std.specs.Option.{option_to_list};
ghost use Rattle.naga_ir.specs.Operands.{expression_operands, level_operands, query_operands};

use crate::arena::Handle;
use crate::expression::{Expression, ImageQuery, SampleLevel};
use std::marker::Model;

/// The handle of this number, counted from zero.
#[inline]
pub(crate) fn nth(handles: &[Handle<Expression>], number: usize) -> Option<Handle<Expression>>
    ensures item { result ≡ slice_get handles.now number }
    ensures below { IfSome result (λ _. number < usize.MAX) }
{
    match handles.get(number) {
        Some(handle) => Some(*handle),
        None => None,
    }
}

/// The handle of this number among those that there are, counted from zero.
pub(crate) fn nth_present(
    handles: &[Option<Handle<Expression>>],
    number: usize,
) -> Option<Handle<Expression>>
    ensures item { result ≡ slice_get (flat_map option_to_list handles.now) number }
    ensures below { IfSome result (λ _. number < usize.MAX) }
{
    let mut left = number;
    for handle in handles {
        if let Some(handle) = handle {
            if left == 0 {
                return Some(*handle);
            }
            left -= 1;
        }
    }
    None
}

/// The handles that a level of detail holds.
fn level_handles(level: SampleLevel) -> (Option<Handle<Expression>>, Option<Handle<Expression>>)
    ensures { option_to_list result.0 ++ option_to_list result.1 ≡ level_operands level }
{
    match level {
        SampleLevel::Auto | SampleLevel::Zero => (None, None),
        SampleLevel::Exact(handle) | SampleLevel::Bias(handle) => (Some(handle), None),
        SampleLevel::Gradient { x, y } => (Some(x), Some(y)),
    }
}

/// The handle that a query of an image holds, if it holds one.
pub fn query_handle(query: ImageQuery) -> Option<Handle<Expression>>
    ensures { option_to_list result ≡ query_operands query }
{
    match query {
        ImageQuery::Size { level } => level,
        ImageQuery::NumLevels | ImageQuery::NumLayers | ImageQuery::NumSamples => None,
    }
}

impl Expression {
    /// The operand of this number, counted from zero.
    #[inline(never)]
    fn operand(&self, number: usize) -> Option<Handle<Expression>>
        ensures item { result ≡ slice_get (expression_operands self.now) number }
        ensures below { IfSome result (λ _. number < usize.MAX) }
    {
        match self {
            Expression::Compose { components, .. } => nth(components, number),
            Expression::Access { base, index } => nth(&[*base, *index], number),
            Expression::AccessIndex { base: only, .. }
            | Expression::Splat { value: only, .. }
            | Expression::Swizzle { vector: only, .. }
            | Expression::Load { pointer: only }
            | Expression::Unary { expr: only, .. }
            | Expression::Derivative { expr: only, .. }
            | Expression::Relational { argument: only, .. }
            | Expression::As { expr: only, .. }
            | Expression::ArrayLength(only)
            | Expression::RayQueryGetIntersection { query: only, .. }
            | Expression::RayQueryVertexPositions { query: only, .. } => nth(&[*only], number),
            Expression::ImageSample {
                image,
                sampler,
                coordinate,
                array_index,
                offset,
                level,
                depth_ref,
                ..
            } => {
                let (level, beside_level) = level_handles(*level);
                nth_present(
                    &[
                        Some(*image),
                        Some(*sampler),
                        Some(*coordinate),
                        *array_index,
                        *depth_ref,
                        level,
                        beside_level,
                        *offset,
                    ],
                    number,
                )
            }
            Expression::ImageLoad {
                image,
                coordinate,
                array_index,
                sample,
                level,
            } => nth_present(
                &[
                    Some(*image),
                    Some(*coordinate),
                    *array_index,
                    *sample,
                    *level,
                ],
                number,
            ),
            Expression::ImageQuery { image, query } => {
                nth_present(&[Some(*image), query_handle(*query)], number)
            }
            Expression::Binary { left, right, .. } => nth(&[*left, *right], number),
            Expression::Select {
                condition,
                accept,
                reject,
            } => nth(&[*reject, *accept, *condition], number),
            Expression::Math {
                arg,
                arg1,
                arg2,
                arg3,
                ..
            } => nth_present(&[Some(*arg), *arg1, *arg2, *arg3], number),
            Expression::CooperativeLoad { data_: at, .. } => nth(&[at.pointer, at.stride], number),
            Expression::CooperativeMultiplyAdd { a, b, c } => nth(&[*a, *b, *c], number),
            _ => None,
        }
    }

    /// The handles of the expression's operands, in the order in which WGSL writes them. It takes
    /// no memory.
    ///
    /// What functions are mostly made of is looked at once, and any other expression for each
    /// operand.
    #[inline(always)]
    pub fn operands(&self) -> Operands<'_>
        ensures { result ≡ expression_operands self.now }
    {
        match self {
            Expression::Literal(_) => Operands::of_two(None, None),
            Expression::Load { pointer } => Operands::of_two(Some(*pointer), None),
            Expression::Binary { left, right, .. } => Operands::of_two(Some(*left), Some(*right)),
            _ => Operands {
                first: None,
                second: None,
                expression: Some(self),
                number: 0,
            },
        }
    }
}

/// The operands of an expression that are still to come, in the order in which WGSL writes them:
/// two, if they are there, and those of the expression from this number on.
#[derive(Drop)]
pub struct Operands<'a> {
    first: Option<Handle<Expression>>,
    second: Option<Handle<Expression>>,
    expression: Option<&'a Expression>,
    number: usize,
}

impl<'a> Model for Operands<'a> {
    ghost use Rattle.std.specs.Prelude.{List, ℕ, ◌++◌};
    ghost use Rattle.std.specs.Option.{option_map, option_to_list};
    ghost use Rattle.naga_ir.specs.Operands.{operands_from};

    ghost Value = { List ℕ };

    ghost view = { λ s. option_to_list s.first ++ (option_to_list s.second ++
        operands_from s.number (option_map (λ e. e.now) s.expression)) };
}

impl<'a> Operands<'a> {
    /// These two, as far as they are there.
    #[inline(always)]
    fn of_two(first: Option<Handle<Expression>>, second: Option<Handle<Expression>>) -> Self
        ensures { result ≡ option_to_list first ++ option_to_list second }
    {
        Operands {
            first,
            second,
            expression: None,
            number: 0,
        }
    }
}

impl<'a> Iterator for Operands<'a> {
    type Item = Handle<Expression>;

    ghost next_gives = { YieldsFirst (λ s. s) };

    ghost remaining = { item_count (λ s. s) };

    #[inline(always)]
    #[tactic(auto, using(crate::proofs::Remaining::one_of_them))]
    fn next(&mut self) -> Option<Handle<Expression>> {
        if let Some(operand) = self.first {
            self.first = self.second;
            self.second = None;
            return Some(operand);
        }
        if let Some(operand) = self.second {
            self.second = None;
            return Some(operand);
        }
        let operand = self.expression?.operand(self.number)?;
        self.number += 1;
        Some(operand)
    }
}
