//! What the program `wgsl_rows` answers to its words, generic over its streams.
#![tactic(auto)]

mod rows;
mod words;

pub use rows::{refuse, run};
pub use words::words_after_name;
