//! The types of a module's expressions, for a module that comes without its `ModuleInfo`.
//!
//! [`infer`] takes no info on trust: what it answers `Ok` is made of the module alone, and is
//! accepted. [`inferred_types`] gives the same types without asking whether they are accepted.
#![tactic(auto)]

pub mod errors;
mod functions;
pub mod inference;
mod laws;
pub mod rules;

pub use errors::{InferenceError, Untyped};
pub use inference::{infer, inferred_types};
pub use laws::no_other_info_is_accepted;
pub use rules::{Missing, has_special_type, inferred_type};
