//! Writes shaders as WGSL.
//!
//! This crate offers all that a user of the project needs, under naga's module names. A
//! [`Module`](ir::Module) is built from the types of [`ir`], with what is known of its expressions
//! from [`info`], and written by [`wgsl::write_string`], or by a [`wgsl::Writer`] to any
//! [`types::TextSink`].
#![tactic(auto)]

pub mod back;
pub mod builder;
mod checked;
mod constants;
mod declarations;
pub mod diagnostics;
mod enables;
mod flags;
mod inferred;
pub mod info;
pub mod laws;
pub mod proc;
pub mod sinks;
mod structs;
pub mod to_wgsl;
pub mod types;
mod unwritable;
pub mod valid;
mod variables;
pub mod wgsl;
mod within;
mod writer;

pub use float_numerals as numerals;
pub use naga_ir as ir;
pub use naga_names::{keyword_set, keywords, namer};
pub use naga_words::predeclared;
