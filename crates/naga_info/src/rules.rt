//! Typing rules, and what they are read by.

ghost use Rattle.std.specs.Prelude.{◌≡◌};

use crate::info::TypeResolution;
use naga_ir::{
    Arena, Constant, Expression, Module, Override, PredeclaredType, Type_, TypeInner, UniqueArena,
};

/// The parts of a module that types and constant expressions speak of.
#[derive(Clone, Copy, Debug)]
pub struct GlobalCtx<'a> {
    /// The module's types.
    pub types: &'a UniqueArena<Type_>,
    /// The module's constants.
    pub constants: &'a Arena<Constant>,
    /// The module's overrides.
    pub overrides: &'a Arena<Override>,
    /// The values of constants, and the initialisers of overrides and global variables.
    pub global_expressions: &'a Arena<Expression>,
}

/// Of a module, the parts that types and constant expressions speak of.
pub trait ToCtx {
    /// These parts.
    fn to_ctx(&self) -> GlobalCtx<'_>;
}

impl ToCtx for Module {
    fn to_ctx(&self) -> GlobalCtx<'_>
        ensures types { result.types.now ≡ self.now.types }
        ensures constants { result.constants.now ≡ self.now.constants }
        ensures overrides { result.overrides.now ≡ self.now.overrides }
        ensures global_expressions { result.global_expressions.now ≡ self.now.global_expressions }
    {
        GlobalCtx {
            types: &self.types,
            constants: &self.constants,
            overrides: &self.overrides,
            global_expressions: &self.global_expressions,
        }
    }
}

/// What type a call gives.
#[derive(Debug, Drop)]
pub enum Conclusion {
    /// This type. It is never a struct.
    Value(TypeInner),
    /// A struct that WGSL has without a declaration.
    Predeclared(PredeclaredType),
}

/// The types of a function's arguments, and the type that it gives for them.
#[derive(Debug, Drop)]
pub struct Rule {
    /// The arguments' types, in order.
    pub arguments: Vec<TypeResolution>,
    /// What the function gives.
    pub conclusion: Conclusion,
}
