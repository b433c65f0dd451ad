//! Directives of WGSL by which a module's filters of diagnostics stand in front of its text, one a
//! line: `diagnostic(off, derivative_uniformity);`.
//!
//! ```text
//! let mut text = module_directives(alloc, &module)?; // "diagnostic(off, derivative_uniformity);\n\n"
//! text.push_str(write_checked(alloc, &module, &mut info, WriterFlags::PORTABLE)?.as_str())?;
//! ```
//!
//! Of two filters of one rule the last one holds. WGSL refuses directives that disagree about a rule,
//! so that each rule has one directive: that of the filter nearest to the leaf.
#![tactic(auto)]

mod directives;
mod error;
mod found;
mod names;

pub use directives::{module_directives, write_directives};
pub use error::DirectiveError;
