//! The namer under naga's path `proc::namer`.

pub use naga_names::namer;
