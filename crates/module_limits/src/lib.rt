//! Bounds that a host sets for a module that others made: how deep it may be nested, so that no
//! call takes more of the stack than there is, and how long its text may get, so that the text
//! takes no more memory. Names and tables take memory besides, by the length of the labels and the
//! number of the items.
//!
//! [`nested_past`] is asked of a module before it is known to be accepted. It goes through all of
//! it in one pass over each of its lists, with a table of a number for each item and no deeper into
//! blocks than the size_limit. A [`BoundedText`] takes a text up to its size_limit.
#![tactic(auto)]

mod blocks;
mod bounded_text;
mod depths;
mod laws;
mod limits;
mod nesting;

pub use bounded_text::BoundedText;
pub use laws::depths_are_structural;
pub use limits::Limits;
pub use nesting::{Nested, nested_past};
