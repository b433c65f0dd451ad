//! The constructs for which a module is refused, and the errors that say why it is not written.
//!
//! Users take these through the crate `naga_wgsl_out`.
#![tactic(auto)]

pub mod construct;
pub mod error;

pub use construct::Construct;
pub use error::Error;
