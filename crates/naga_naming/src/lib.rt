//! The rules by which the items of a module get identifiers: the keys by which items have their
//! names, the stem that is made of a label, and the identifier that each label and each item gets.
//!
//! [`laws`] has what follows for all names. The code that makes names is `naga_names`.
#![tactic(auto)]

pub mod error;
pub mod key;
pub mod laws;

pub use error::NamerError;
pub use key::{EntryPointIndex, ExternalTextureNameKey, NameKey};
