//! Which item of a module a name is for.
use naga_ir::{Constant, Function, GlobalVariable, Handle, LocalVariable, Override, Type_};

/// The index of an entry point in its module's list.
pub type EntryPointIndex = u16;

/// A part of an external texture, where a writer declares the texture as plain textures, one for
/// each plane, and a struct of parameters.
#[derive(Clone, Copy, Debug, PartialEq, Eq, Hash)]
pub enum ExternalTextureNameKey {
    /// One of the planes, counted from zero.
    Plane(usize),
    /// The parameters.
    Params,
}

/// The item that a name is for. A member, an argument or an entry point goes by its index in its
/// list, counted from zero.
#[derive(Clone, Copy, Debug, PartialEq, Eq, Hash)]
pub enum NameKey {
    /// A constant.
    Constant(Handle<Constant>),
    /// An override.
    Override(Handle<Override>),
    /// A global variable.
    GlobalVariable(Handle<GlobalVariable>),
    /// A type.
    Type_(Handle<Type_>),
    /// A member of a struct.
    StructMember(Handle<Type_>, u32),
    /// A function.
    Function(Handle<Function>),
    /// An argument of a function.
    FunctionArgument(Handle<Function>, u32),
    /// A local variable of a function.
    FunctionLocal(Handle<Function>, Handle<LocalVariable>),
    /// A variable of a function that stands in for a value of this type where an access is out of
    /// bounds.
    FunctionOobLocal(Handle<Function>, Handle<Type_>),
    /// An entry point.
    EntryPoint(EntryPointIndex),
    /// A local variable of an entry point.
    EntryPointLocal(EntryPointIndex, Handle<LocalVariable>),
    /// An argument of an entry point.
    EntryPointArgument(EntryPointIndex, u32),
    /// A variable of an entry point that stands in for a value of this type where an access is out
    /// of bounds.
    EntryPointOobLocal(EntryPointIndex, Handle<Type_>),
    /// A part of a global variable that is an external texture.
    ExternalTextureGlobalVariable(Handle<GlobalVariable>, ExternalTextureNameKey),
    /// A part of an argument that is an external texture.
    ExternalTextureFunctionArgument(Handle<Function>, u32, ExternalTextureNameKey),
}
