//! Explains a fault: the type, item or number that was expected, and the one that was found.
//!
//! Whether a module is accepted, and where not, takes no memory to say, and tells a kind of fault
//! alone. [`explain`] goes to that position once more and tells the rest, with types as they are
//! spelled.
#![tactic(auto)]

mod items;
pub mod laws;
mod mismatch;
mod names;
mod order;
mod reasons;
mod spelled;
mod statements;
mod types;
mod walk;
mod words;

pub use mismatch::Mismatch;
pub use module_semantics::ListName;
pub use spelled::explain;
pub use words::{Counted, Need, TypeClass};
