//! The names of expressions and statements, and of the fields that hold their operands and results:
//! by these, listings and positions of faults tell of a module.
#![tactic(auto)]

mod fields;

pub use fields::{Field, expression_field, expression_name, statement_field, statement_name};
