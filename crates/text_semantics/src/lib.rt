//! What a text means, as a syntax tree: its abstract text, its interface, and what its identifiers
//! stand for.
#![tactic(auto)]
