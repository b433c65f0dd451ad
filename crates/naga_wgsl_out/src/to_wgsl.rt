//! WGSL's words for values of the intermediate representation.

pub use naga_wgsl_shared::to_wgsl_if_implemented;
pub use naga_words::to_wgsl::{
    ToWgsl, TryToWgsl, address_space_str, image_access_str, space_access_str, space_str,
};
