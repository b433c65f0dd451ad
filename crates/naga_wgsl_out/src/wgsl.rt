//! The writer of modules, and of their functions and own expressions one by one.

pub use crate::checked::{CheckedError, write_checked};
pub use crate::flags::no_flags;
pub use crate::inferred::{write_inferred, write_inferred_within};
pub use crate::unwritable::{Refusal, unwritable};
pub use crate::within::{LimitedError, write_checked_within};
pub use crate::writer::{Writer, names_of, write_string};
pub use module_limits::{Limits, Nested, nested_past};
pub use naga_back::WriterFlags;
pub use naga_scope::{Declared, FunctionRefusalPosition, Line, RefusalPosition, ScopeFault};
pub use naga_tables::DeclarationPosition;
pub use naga_wgsl_fns::write_function;
pub use naga_wgsl_shared::{Construct, Error, write_binding, write_global_expression};
