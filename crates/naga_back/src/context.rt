//! Which function is being written, and what is known of it.

ghost use Rattle.std.specs.Prelude.{◌≡◌, ◌<◌, Some, length, slice_get};
ghost use Rattle.std.specs.Option.{ForSome};
ghost use Rattle.naga_info.specs.Resolution.{InRange};
ghost use Rattle.naga_back.specs.FunctionContext.{IsFunction, IsInRange, argument_key};
ghost use Rattle.naga_back.specs.FunctionContext.{external_texture_key, function_key};
ghost use Rattle.naga_back.specs.FunctionContext.{is_compute_like, local_key, type_at};

use indexmap::IndexMap;
use naga_info::FunctionInfo;
use naga_ir::{
    Arena, Expression, Function, Handle, LocalVariable, Module, ShaderStage, Type_, TypeInner,
    UniqueArena,
};
use naga_naming::{EntryPointIndex, ExternalTextureNameKey, NameKey};

/// Which of a module's functions is meant. Entry points are no functions of the module's arena.
#[derive(Clone, Copy, Debug)]
pub enum FunctionType {
    /// A function that others may call.
    Function(Handle<Function>),
    /// The function of an entry point.
    EntryPoint(EntryPointIndex),
}

impl FunctionType {
    /// Whether it is an entry point whose invocations form workgroups: one of a compute, a task or
    /// a mesh stage.
    pub fn is_compute_like_entry_point(&self, module: &Module) -> bool
        requires { IsInRange self.now «module».now }
        ensures { result ≡ is_compute_like self.now «module».now }
    {
        match self {
            FunctionType::EntryPoint(index) => matches!(
                module.entry_points[*index as usize].stage,
                ShaderStage::Compute | ShaderStage::Task | ShaderStage::Mesh
            ),
            FunctionType::Function(_) => false,
        }
    }

    /// The key of its own name.
    pub fn key(self) -> NameKey
        ensures { result ≡ function_key self }
    {
        match self {
            FunctionType::Function(handle) => NameKey::Function(handle),
            FunctionType::EntryPoint(index) => NameKey::EntryPoint(index),
        }
    }

    /// The key of the name of one of its local variables.
    pub fn local_key(self, local: Handle<LocalVariable>) -> NameKey
        ensures { result ≡ local_key self local }
    {
        match self {
            FunctionType::Function(handle) => NameKey::FunctionLocal(handle, local),
            FunctionType::EntryPoint(index) => NameKey::EntryPointLocal(index, local),
        }
    }

    /// The key of the name of one of its arguments, by its number from zero.
    pub fn argument_key(self, arg: u32) -> NameKey
        ensures { result ≡ argument_key self arg }
    {
        match self {
            FunctionType::Function(handle) => NameKey::FunctionArgument(handle, arg),
            FunctionType::EntryPoint(index) => NameKey::EntryPointArgument(index, arg),
        }
    }
}

/// The function that is being written, with what its expressions are, and what is known of them.
#[derive(Debug, Drop)]
pub struct FunctionCtx<'a> {
    /// Which function it is.
    pub ty: FunctionType,
    /// What is known of its expressions.
    pub info: &'a FunctionInfo,
    /// Its expressions.
    pub expressions: &'a Arena<Expression>,
    /// The names of those that a `let` bound, or that the source named.
    pub named_expressions: &'a IndexMap<Handle<Expression>, String>,
}

impl<'a> FunctionCtx<'a> {
    /// The type of the expression with this handle, by the module's types.
    pub fn resolve_type(
        &self,
        handle: Handle<Expression>,
        types: &'a UniqueArena<Type_>,
    ) -> &'a TypeInner
        requires info { handle < length self.now.info.now }
        requires types { ForSome (slice_get self.now.info.now handle)
            (λ e. InRange e.ty types.now) }
        ensures { type_at self.now.info.now types.now handle ≡ Some result.now }
    {
        self.info[handle].ty.inner_with(types)
    }

    /// The key of the name of a local variable of this function.
    ///
    /// In the first entry point that of the second variable is
    /// `NameKey::EntryPointLocal(0, Handle::from_index(1))`.
    pub fn name_key(&self, local: Handle<LocalVariable>) -> NameKey
        ensures { result ≡ local_key self.now.ty local }
    {
        self.ty.local_key(local)
    }

    /// The key of the name of an argument of this function, by its number from zero.
    pub fn argument_key(&self, arg: u32) -> NameKey
        ensures { result ≡ argument_key self.now.ty arg }
    {
        self.ty.argument_key(arg)
    }

    /// The key of the name of a part of an argument that is an external texture, by the argument's
    /// number from zero. Entry points have no such arguments.
    pub fn external_texture_argument_key(&self, arg: u32, part: ExternalTextureNameKey) -> NameKey
        requires { IsFunction self.now.ty }
        ensures { external_texture_key self.now.ty arg part ≡ Some result }
    {
        match self.ty {
            FunctionType::Function(handle) => {
                NameKey::ExternalTextureFunctionArgument(handle, arg, part)
            }
            FunctionType::EntryPoint(_) => unreachable!(),
        }
    }
}
