//! Sinks for the texts of modules, beside `String`.
//!
//! A sink of one's own is an `impl` of [`TextSink`](crate::types::TextSink) with one method and two
//! ghosts: the text that it has taken, and how often it has failed. The writer's contract then
//! says of that text what is written. A sink that holds all that it takes and never fails:
//!
//! ```text
//! #[derive(Drop)]
//! struct Held { text: String }
//!
//! impl TextSink for Held {
//!     ghost text = { λ k. string_bytes k.text };
//!
//!     ghost failures = { λ _. 0 };
//!
//!     fn write_str(&mut self, piece: &str) -> Result<(), SinkError> {
//!         self.text.push_str(piece)?;
//!         Ok(())
//!     }
//! }
//! ```

pub use crate::within::unfailed;
pub use module_limits::BoundedText;
pub use naga_words::{IoSink, Limited};
