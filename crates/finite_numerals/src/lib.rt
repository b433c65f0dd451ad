//! A numeral for each finite float, and the law that a numeral denotes the float nearest to it.
//!
//! `float_numerals` chooses a numeral by the digits of Rust's formatting, and gives it where it
//! denotes the float. That it always does is no promise of the standard library's contracts. So
//! where it doesn't, another is searched for here, which is proved to be found. No float is known for
//! which that is so.
#![tactic(auto)]

mod finite;
mod laws;
mod precision;
#[cfg(test)]
mod tests;

pub use finite::{double_numeral, half_numeral, single_numeral};
pub use laws::numerals_denote_the_nearest;
pub use precision::Precision;
