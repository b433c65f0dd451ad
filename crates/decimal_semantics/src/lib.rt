//! What a module means with decimal floats: what it meant before.
#![tactic(auto)]

mod laws;

pub use laws::{decimal_modules_have_their_shapes, programs_are_faithful_to_both};
