//! The types of a module's expressions, and how often each is used.

ghost use Rattle.std.specs.Prelude.{◌≡◌, ◌<◌, List, length, slice_get, Some, vec_len};
ghost use Rattle.naga_info.specs.declared.info.ExpressionInfo.{ExpressionInfo};
ghost use Rattle.naga_info.specs.Resolution.{InRange, inner_of, handle_of};

use naga_ir::{Expression, Function, Handle, Type_, TypeInner, UniqueArena};
use std::marker::Model;
use std::ops::Index;

/// The type of an expression: one of the module's, or one that the module has no name for.
#[derive(Debug, Drop)]
pub enum TypeResolution {
    /// One of the module's types.
    Handle(Handle<Type_>),
    /// A type by itself. It is never a struct.
    Value(TypeInner),
}

impl TypeResolution {
    /// The type itself, by the module's types, in which its handle lies.
    pub fn inner_with<'a>(&'a self, types: &'a UniqueArena<Type_>) -> &'a TypeInner
        requires { InRange self.now types.now }
        ensures { inner_of self.now types.now ≡ Some result.now }
    {
        match self {
            TypeResolution::Handle(handle) => &types[*handle].inner,
            TypeResolution::Value(inner) => inner,
        }
    }

    /// Its handle, if it is one of the module's types.
    pub fn handle(&self) -> Option<Handle<Type_>>
        ensures { result ≡ handle_of self.now }
    {
        match self {
            TypeResolution::Handle(handle) => Some(*handle),
            TypeResolution::Value(_) => None,
        }
    }
}

/// What is known of an expression.
#[derive(Debug, Drop)]
pub struct ExpressionInfo {
    /// How many operands of the function's expressions and statements are its handle. The results
    /// of statements and the initialisers of locals are no operands.
    pub ref_count: usize,
    /// Its type.
    pub ty: TypeResolution,
}

/// What is known of a function's expressions, indexed by their handles.
#[derive(Debug, Drop)]
pub struct FunctionInfo {
    /// What is known of each expression, in order.
    pub expressions: Vec<ExpressionInfo>,
}

impl Model for FunctionInfo {
    ghost Value = { List ExpressionInfo };

    ghost view = { λ f. f.expressions.items };
}

impl Index<Handle<Expression>> for FunctionInfo {
    type Output = ExpressionInfo;

    ghost can_index = { λ f h. h < length f };

    ghost index_gives = { λ f h x. slice_get f h ≡ Some x };

    fn index(&self, handle: Handle<Expression>) -> &ExpressionInfo {
        &self.expressions[handle.index()]
    }
}

/// What is known of a module's expressions. It is indexed by the handles of functions, and by those
/// of global expressions.
#[derive(Debug, Drop)]
pub struct ModuleInfo {
    /// What is known of each function, in order.
    pub functions: Vec<FunctionInfo>,
    /// What is known of each entry point, in order.
    pub entry_points: Vec<FunctionInfo>,
    /// The type of each global expression, in order.
    pub const_expression_types: Vec<TypeResolution>,
}

impl ModuleInfo {
    /// What is known of the entry point at `index`.
    pub fn get_entry_point(&self, index: usize) -> &FunctionInfo
        requires { index < vec_len self.now.entry_points }
        ensures { slice_get self.now.entry_points.items index ≡ Some result.now }
    {
        &self.entry_points[index]
    }
}

impl Index<Handle<Function>> for ModuleInfo {
    type Output = FunctionInfo;

    ghost can_index = { λ m h. h < vec_len m.functions };

    ghost index_gives = { λ m h x. slice_get m.functions.items h ≡ Some x };

    fn index(&self, handle: Handle<Function>) -> &FunctionInfo {
        &self.functions[handle.index()]
    }
}

impl Index<Handle<Expression>> for ModuleInfo {
    type Output = TypeResolution;

    ghost can_index = { λ m h. h < vec_len m.const_expression_types };

    ghost index_gives = { λ m h x. slice_get m.const_expression_types.items h ≡ Some x };

    fn index(&self, handle: Handle<Expression>) -> &TypeResolution {
        &self.const_expression_types[handle.index()]
    }
}
