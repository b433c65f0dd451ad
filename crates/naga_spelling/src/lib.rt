//! How types are spelled: the words that they begin with, and, as definitions, the segments of any
//! type in a context that names structs and overrides. The code that writes them is `naga_words`.
#![tactic(auto)]

pub mod words;
