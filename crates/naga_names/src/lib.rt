//! Identifiers for the items of a module, by the rules of `naga_naming`: the
//! [`Namer`](namer::Namer) makes of any label an identifier that it has not given yet.
//!
//! `keyword_set` has sets of words that no identifier may be, `keywords` the two tables of words of
//! WGSL, and `by_bytes` these in the order of their bytes, with the sets of them.
#![tactic(auto)]

pub mod namer;

pub use naga_keywords::{by_bytes, keyword_set, keywords};
pub use naga_naming::{
    EntryPointIndex, ExternalTextureNameKey, NameKey, NamerError, error, key, laws,
};
