//! Which expressions are bound by a `let`, and the names that they have there.

ghost use Rattle.std.specs.Prelude.{◌≡◌, ℕ, Some};
ghost use Rattle.naga_back.specs.Baking.{baked_name, count_to_bind};

use naga_ir::{Expression, Handle};
use std::collections::HashSet;
use std::fmt;

/// The expressions that a `let` is to bind in any case, whatever their counts.
pub type NeedBakeExpressions = HashSet<Handle<Expression>>;

/// From which number of uses on an expression is bound by a `let`.
pub trait BakeRefCount {
    /// That number.
    ghost count_to_bind: { Self → ℕ };

    /// The number of uses from which on the expression is bound by a `let`, and below which it is
    /// written anew at each use.
    ///
    /// An access into a value or a memory is never bound for its count: its number is the greatest
    /// `usize`. What depends on when it is evaluated, as a `Load`, is bound from one use on: 1. All
    /// else is bound from two uses on: 2.
    fn bake_ref_count(&self) -> usize
        ensures { result ≡ count_to_bind self.now };
}

impl BakeRefCount for Expression {
    ghost count_to_bind = { count_to_bind };

    fn bake_ref_count(&self) -> usize {
        match self {
            Expression::Access { .. } | Expression::AccessIndex { .. } => usize::MAX,
            Expression::ImageSample { .. }
            | Expression::ImageLoad { .. }
            | Expression::Derivative { .. }
            | Expression::Load { .. } => 1,
            _ => 2,
        }
    }
}

/// The name of an expression that a `let` binds and that the source gave no name. It is shown as
/// `_e` and the index of the expression's handle.
///
/// `Baked(Handle::from_index(7))` is shown as `_e7`.
#[derive(Clone, Copy, Debug)]
pub struct Baked(pub Handle<Expression>);

impl fmt::Display for Baked {
    ghost output = { λ b. Some (baked_name b.0) };

    fn fmt<W: fmt::Write>(&self, f: &mut fmt::Formatter<W>) -> fmt::Result {
        write!(f, "_e{}", self.0.index())
    }
}
