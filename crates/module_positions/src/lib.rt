//! Positions in the JSON of a module: of a fault, with what was expected there, and of a refusal, with
//! the role of an operand and why it has no value. None needs a writer.
#![tactic(auto)]

mod faults;
mod json_nesting;
mod listed_positions;
mod positions;
mod roles;
mod root_texts;
mod roots;

pub use faults::{fault_line, fault_text, label_text, labelled_position, mismatch_text};
pub use json_nesting::{NESTS_TOO_DEEP, nests_too_deep};
pub use listed_positions::{listed_position, refused_position};
pub use positions::{JsonHolder, JsonPosition, JsonRefusalPosition, label_at, label_of};
pub use roles::{Role, operands_have_roles, role_at};
pub use root_texts::{Giver, MarkedRoot, ScopeRoot, root_after, root_at, root_spots};
