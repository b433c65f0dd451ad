//! What is known of a module beside itself: the type of each expression and how often it is used.
#![tactic(auto)]

pub mod info;
pub mod rules;

pub use info::{ExpressionInfo, FunctionInfo, ModuleInfo, TypeResolution};
pub use rules::{Conclusion, GlobalCtx, Rule, ToCtx};
