//! Words that no identifier may be.
//!
//! `keyword_set` has sets of words, `keywords` the two tables of words of WGSL, and `by_bytes`
//! these in the order of their bytes, with the sets of them.
#![tactic(auto)]

pub mod by_bytes;
pub mod keyword_set;
pub mod keywords;
mod sorted;
