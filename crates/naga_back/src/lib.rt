//! Helpers of the writer: indentation, and what chooses words, counts and keys.
#![tactic(auto)]

ghost use Rattle.std.specs.Prelude.{◌≡◌, ◌+◌, ◌-◌, ◌<◌, ◌^◌, Some};
ghost use Rattle.naga_back.specs.Indentation.{indentation};

use std::fmt;

mod baking;
mod context;
mod fixed_input;
pub mod flags;
mod kinds;
mod operators;
pub mod rays;

pub use baking::{BakeRefCount, Baked, NeedBakeExpressions};
pub use context::{FunctionCtx, FunctionType};
pub use flags::{WriterFlags, annotates_types, is_portable};
pub use kinds::{IsHandle, IsTerminator};
pub use operators::{COMPONENTS, binary_operation_str};
pub use rays::{RayFlag, RayIntersectionType};

/// What each level of nesting is indented by.
pub const INDENT: &str = "    ";

/// How deep a line is nested: 0 for a declaration, 1 for a statement of a function's body. It is
/// shown as [`INDENT`] so many times.
///
/// `Level(2)` is shown as eight spaces.
#[derive(Clone, Copy, Debug)]
pub struct Level(pub usize);

impl Level {
    /// The level of what is nested inside. The greatest `usize` has none.
    pub fn next(&self) -> Self
        requires { self.now.0 < 2 ^ 64 - 1 }
        ensures { result.0 ≡ self.now.0 + 1 }
    {
        Level(self.0 + 1)
    }
}

impl fmt::Display for Level {
    ghost output = { λ l. Some (indentation l.0) };

    fn fmt<W: fmt::Write>(&self, f: &mut fmt::Formatter<W>) -> fmt::Result {
        for _level in 0..self.0 {
            f.write_str(INDENT)?;
        }
        Ok(())
    }
}
