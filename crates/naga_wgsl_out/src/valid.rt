//! What is known of a module, under naga's path `valid`.

pub use naga_info::{FunctionInfo, ModuleInfo};
