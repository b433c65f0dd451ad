//! naga's module `back`: helpers of the writer.

pub use crate::wgsl;
pub use naga_back::{
    BakeRefCount, Baked, COMPONENTS, FunctionCtx, FunctionType, INDENT, IsHandle, IsTerminator,
    Level, NeedBakeExpressions, RayFlag, RayIntersectionType, binary_operation_str,
};
