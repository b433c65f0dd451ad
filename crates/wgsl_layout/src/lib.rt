//! How WGSL lays values out in memory, by what is known of their types' parts, and what is written
//! of a struct so that its members stay where a module has them.
//!
//! Here are numbers alone. How the types of a module are laid out is in `naga_layout`, how the
//! structs of a text are in `text_semantics/specs/Layout`; both go by the rules of `specs/Rules`.
#![tactic(auto)]

mod layouts;
mod members;

pub use layouts::{
    Layout, Placed, array_layout, free_array_layout, matrix_layout, scalar_layout, vector_layout,
};
pub use members::{Misplaced, ended, gap_size, goes_on, own_fault, stands_after};
