//! A function with what is known of it.

ghost use Rattle.std.specs.Prelude.{◌≡◌};
ghost use Rattle.naga_scope.specs.KnownFunctions.{bound_in};

use crate::known_module::KnownModule;
use crate::lets::binds;
use naga_info::FunctionInfo;
use naga_ir::{Expression, Function, Handle};

/// A function of a module, and what is known of both.
#[derive(Clone, Copy)]
pub(crate) struct KnownFunction<'a> {
    /// The module.
    pub(crate) whole: KnownModule<'a>,
    /// The function.
    pub(crate) function: &'a Function,
    /// What is known of its expressions.
    pub(crate) info: &'a FunctionInfo,
}

impl KnownFunction<'_> {
    /// Whether a `let` binds the expression with this handle where it is emitted.
    pub(crate) fn binds(&self, handle: Handle<Expression>) -> bool
        ensures { result ≡ bound_in self.now handle }
    {
        binds(&self.whole.shader.types, self.function, self.info, handle)
    }
}
