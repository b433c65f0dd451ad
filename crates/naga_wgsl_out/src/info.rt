//! What is known of a module beside itself, also by the module alone; whether it is accepted, and if
//! not, where and why; how often its expressions are used.

pub use fault_details::{Counted, ListName, Mismatch, Need, TypeClass, explain};
pub use naga_acceptance::{
    Fault, FaultPosition, FunctionPosition, Unaccepted, accepts, count, unaccepted,
};
pub use naga_inference::{InferenceError, Missing, Untyped, infer, inferred_types};
pub use naga_info::{
    Conclusion, ExpressionInfo, FunctionInfo, GlobalCtx, ModuleInfo, Rule, ToCtx, TypeResolution,
};
