//! Float literals of WGSL: the decimal numeral by which a float is written, and the texts of a
//! numeral. Which bits a numeral denotes, `decimal_numerals` says.
//!
//! A numeral is made of the bits of a float by `single_decimal`, `half_decimal` and
//! `double_decimal`. Its digits are those that Rust's formatting chooses. That is only tested; what
//! is proved is that a numeral which is given denotes the very bits.
#![tactic(auto)]

mod choice;
mod laws;
#[cfg(test)]
mod tests;
mod text;

pub use choice::{double_decimal, half_decimal, single_decimal};
pub use decimal_numerals::Decimal;
pub use laws::{digits_are_written, text_is_read};
pub use text::{push_double, push_half, push_single};
