//! What the program `yorwethul` is asked: its words, and the modules in the files that they name; and
//! why it cannot go on.
#![tactic(auto)]

mod failure;
mod hints;
mod inputs;
mod stack;
mod words;

pub use failure::{Failure, Reason, title};
pub use hints::Hint;
pub use inputs::{Source, given_by};
pub use stack::levels_within;
pub use words::{Invocation, NESTING, Style, Task, invocation_of};
