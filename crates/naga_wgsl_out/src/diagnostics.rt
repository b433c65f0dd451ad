//! How diagnostics are filtered, and the words of WGSL for that.

pub use naga_ir::{FilterableTriggeringRule, Severity, StandardFilterableTriggeringRule};
pub use naga_words::diagnostics::{
    DisplayFilterableTriggeringRule, DisplayWgslIdent, FromWgslIdent, ToWgslIdent,
};
