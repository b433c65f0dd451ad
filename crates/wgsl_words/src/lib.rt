//! WGSL's words for values of the intermediate representation: interpolations, samplings, storage
//! formats, roles, dimensions, functions of mathematics, builtin values, scalars and address
//! spaces.
#![tactic(auto)]

pub mod to_wgsl;

pub use to_wgsl::{
    ToWgsl, TryToWgsl, address_space_str, image_access_str, space_access_str, space_str,
};
