//! What an expression names beside its operands: one table of lists and numbers.

ghost use Rattle.std.specs.Prelude.{◌≡◌, Some};
ghost use Rattle.module_semantics.specs.acceptance.NamedItems.{count_of, list_text, named_item};

use naga_ir::{Expression, Module};
use std::fmt;

/// A list of a module or of a function, of which an item is told by its number. It is shown by its
/// name in the JSON of a module.
#[derive(Debug, Clone, Copy, PartialEq, Eq)]
pub enum ListName {
    /// The module's types.
    Types,
    /// The module's constants.
    Constants,
    /// The module's overrides.
    Overrides,
    /// The module's variables.
    GlobalVariables,
    /// The module's own expressions.
    GlobalExpressions,
    /// The module's functions.
    Functions,
    /// The expressions of the function at the position.
    Expressions,
    /// The arguments of the function at the position.
    Arguments,
    /// The variables of the function at the position.
    LocalVariables,
}

impl fmt::Display for ListName {
    ghost output = { λ name. Some (list_text name) };

    fn fmt<W: fmt::Write>(&self, f: &mut fmt::Formatter<W>) -> fmt::Result {
        f.write_str(match self {
            ListName::Types => "types",
            ListName::Constants => "constants",
            ListName::Overrides => "overrides",
            ListName::GlobalVariables => "global_variables",
            ListName::GlobalExpressions => "global_expressions",
            ListName::Functions => "functions",
            ListName::Expressions => "expressions",
            ListName::Arguments => "arguments",
            ListName::LocalVariables => "local_variables",
        })
    }
}

/// The item that an expression names beside its operands: its list, and its number there, which may
/// be past the list's end. `None` for an expression that names nothing, as an operator.
pub fn named_item(expression: &Expression) -> Option<(ListName, usize)>
    ensures { result ≡ named_item expression.now }
{
    match expression {
        Expression::Constant(handle) => Some((ListName::Constants, handle.index())),
        Expression::Override(handle) => Some((ListName::Overrides, handle.index())),
        Expression::ZeroValue(ty)
        | Expression::Compose { ty, .. }
        | Expression::AtomicResult { ty, .. }
        | Expression::WorkGroupUniformLoadResult { ty }
        | Expression::SubgroupOperationResult { ty } => Some((ListName::Types, ty.index())),
        Expression::FunctionArgument(number) => Some((ListName::Arguments, *number as usize)),
        Expression::GlobalVariable(handle) => Some((ListName::GlobalVariables, handle.index())),
        Expression::LocalVariable(handle) => Some((ListName::LocalVariables, handle.index())),
        Expression::CallResult(function) => Some((ListName::Functions, function.index())),
        Expression::Literal(_)
        | Expression::Access { .. }
        | Expression::AccessIndex { .. }
        | Expression::Splat { .. }
        | Expression::Swizzle { .. }
        | Expression::Load { .. }
        | Expression::ImageSample { .. }
        | Expression::ImageLoad { .. }
        | Expression::ImageQuery { .. }
        | Expression::Unary { .. }
        | Expression::Binary { .. }
        | Expression::Select { .. }
        | Expression::Derivative { .. }
        | Expression::Relational { .. }
        | Expression::Math { .. }
        | Expression::As { .. }
        | Expression::ArrayLength(_)
        | Expression::RayQueryProceedResult
        | Expression::RayQueryGetIntersection { .. }
        | Expression::RayQueryVertexPositions { .. }
        | Expression::SubgroupBallotResult
        | Expression::CooperativeLoad { .. }
        | Expression::CooperativeMultiplyAdd { .. } => None,
    }
}

/// How many items a list has, in a function that has so many arguments and locals, or none of either
/// for an expression of the module's own. It is 0 for a function's expressions, which no expression
/// names beside its operands.
pub fn count_of(module: &Module, arguments: usize, locals: usize, list: ListName) -> usize
    ensures { result ≡ count_of «module».now arguments locals list }
{
    match list {
        ListName::Types => module.types.len(),
        ListName::Constants => module.constants.len(),
        ListName::Overrides => module.overrides.len(),
        ListName::GlobalVariables => module.global_variables.len(),
        ListName::GlobalExpressions => module.global_expressions.len(),
        ListName::Functions => module.functions.len(),
        ListName::Expressions => 0,
        ListName::Arguments => arguments,
        ListName::LocalVariables => locals,
    }
}
