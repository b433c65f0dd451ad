//! How deep the operands of a function stand in one another in its text, and counts of uses by which
//! they stand less deep.
//!
//! An expression that no `let` binds is written at each use, in brackets of its own, so a sum of 300
//! terms nests 299 brackets. Compilers take fewer. [`bind_deep_operands`] raises the count of an
//! operand that stands too deep, so that a `let` binds it. A writer's promise asks nothing of counts,
//! so it is what it was.
#![tactic(auto)]

mod levels;

pub use levels::{MOST_LEVELS, bind_deep_operands};
