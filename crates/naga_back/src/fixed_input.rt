//! Which built-in values come into an entry point by its arguments.

ghost use Rattle.std.specs.Prelude.{◌≡◌, Some, None, slice_get, length};
ghost use Rattle.std.specs.Option.{option_and_then, option_map, option_copied, option_or};
ghost use Rattle.naga_back.specs.FixedInput.{builtin_of, first_builtin, fixed_input};
ghost use Rattle.naga_back.specs.FixedInput.{member_binding, member_of, way_of};
ghost use Rattle.naga_back.specs.FunctionContext.{IsInRange, type_at};

use crate::context::{FunctionCtx, FunctionType};
use naga_info::FunctionInfo;
use naga_ir::{
    Arena, Binding, BuiltIn, Expression, FunctionArgument, Handle, Module, Type_, TypeInner,
    UniqueArena,
};

impl<'a> FunctionCtx<'a> {
    /// The built-in value that the expression with this handle is, or is a part of.
    ///
    /// There is one only in an entry point, for an argument or a chain of struct members of an
    /// argument: the argument's, if it has one, else that of the member nearest to the argument
    /// that has one.
    #[tactic(auto, unfolding(crate::specs::FixedInput::fixed_input))]
    pub fn is_fixed_function_input(
        &self,
        expression: Handle<Expression>,
        module: &Module,
    ) -> Option<BuiltIn>
        requires { IsInRange self.now.ty «module».now }
        ensures { result ≡ fixed_input self.now.ty «module».now self.now.info.now
            self.now.expressions.now expression }
    {
        match self.ty {
            FunctionType::Function(_) => None,
            FunctionType::EntryPoint(index) => nearest_builtin(
                &module.entry_points[index as usize].function.arguments,
                self.info,
                &module.types,
                self.expressions,
                expression,
            ),
        }
    }
}

fn nearest_builtin(
    arguments: &[FunctionArgument],
    info: &FunctionInfo,
    types: &UniqueArena<Type_>,
    expressions: &Arena<Expression>,
    mut handle: Handle<Expression>,
) -> Option<BuiltIn>
    ensures { result ≡ option_and_then first_builtin
        (way_of arguments.now (member_binding info.now types.now) expressions.now
        (length expressions.now) handle) }
{
    let mut nearest = None;
    for _step in 0..expressions.len() {
        if handle.index() >= expressions.len() {
            return None;
        }
        match &expressions[handle] {
            Expression::FunctionArgument(number) => {
                let argument = arguments.get(*number as usize)?;
                return first_of(builtin_of(argument.binding), nearest);
            }
            Expression::AccessIndex { base, index } => {
                let binding = member_binding(info, types, *base, *index)?;
                nearest = first_of(builtin_of(binding), nearest);
                handle = *base;
            }
            _ => return None,
        }
    }
    None
}

fn first_of(one: Option<BuiltIn>, other: Option<BuiltIn>) -> Option<BuiltIn>
    ensures { result ≡ option_or one other }
{
    match one {
        Some(builtin) => Some(builtin),
        None => other,
    }
}

fn builtin_of(binding: Option<Binding>) -> Option<BuiltIn>
    ensures { result ≡ builtin_of binding }
{
    match binding {
        Some(Binding::BuiltIn(builtin)) => Some(builtin),
        _ => None,
    }
}

/// The binding of a struct's member, where the expression with this handle is a struct that has it.
fn member_binding(
    info: &FunctionInfo,
    types: &UniqueArena<Type_>,
    base: Handle<Expression>,
    index: u32,
) -> Option<Option<Binding>>
    ensures { result ≡ member_binding info.now types.now base index }
{
    match type_of(info, types, base) {
        Some(TypeInner::Struct { members, .. }) => match members.get(index as usize) {
            Some(member) => Some(member.binding),
            None => None,
        },
        _ => None,
    }
}

fn type_of<'a>(
    info: &'a FunctionInfo,
    types: &'a UniqueArena<Type_>,
    handle: Handle<Expression>,
) -> Option<&'a TypeInner>
    ensures { option_copied result ≡ type_at info.now types.now handle }
{
    let ty = &info.expressions.get(handle.index())?.ty;
    match ty.handle() {
        Some(named) if named.index() >= types.len() => None,
        _ => Some(ty.inner_with(types)),
    }
}
