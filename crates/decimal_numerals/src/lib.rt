//! Decimal numerals, and the bits of the floats that they denote: of each size the float that is
//! nearest to the number, as IEEE 754 rounds if nothing else is asked.
#![tactic(auto)]

mod decimal;
mod half;

pub use decimal::{DOUBLE_INFINITY, Decimal, SINGLE_INFINITY};
pub use half::HALF_INFINITY;
