//! Text sinks, one over a writer of bytes and one with a limit among them, and outputs over sinks;
//! types written as `naga_spelling` spells them, in a context that names structs and overrides; the
//! words of diagnostics. It passes on the words of types, and WGSL's words.
#![tactic(auto)]

pub mod diagnostics;
pub mod error;
pub mod images;
mod io_sink;
mod limited;
pub mod output;
pub mod predeclared;
pub mod scalars;
pub mod sink;
pub mod types;
pub mod word_writing;

pub use error::TypeTextError;
pub use io_sink::IoSink;
pub use limited::Limited;
pub use naga_spelling::words;
pub use output::Output;
pub use predeclared::PredeclaredName;
pub use sink::{SinkError, TextSink};
pub use types::{TypeContext, WriterTypeContext};
pub use wgsl_words::{ToWgsl, TryToWgsl, address_space_str, to_wgsl};
