//! Tests of words and spellings that no case of `word_cases` can say: sets of words, the calls of
//! each context, and sinks, also those that refuse a write. Beside them a context as a user would
//! write it.
#![tactic(auto)]

pub mod numbered;

pub use numbered::NumberedTypes;

#[cfg(test)]
mod keyword_sets;
#[cfg(test)]
mod rules;
#[cfg(test)]
mod sinks;
#[cfg(test)]
mod to_wgsl;
#[cfg(test)]
mod types;
