//! Sample modules under their names, each with what is known of it: what the programs of this
//! repository write and ask about.
#![tactic(auto)]

mod declaration_rows;
mod expression_rows;
mod layout_rows;
pub mod rows;
mod statement_rows;
pub mod structs;

pub use rows::{SampleModule, build_argument};
pub use statement_rows::nest;
pub use structs::{add_placed_struct, add_struct};
