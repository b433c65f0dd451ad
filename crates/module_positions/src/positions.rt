//! Where a module is not accepted or refused, as the position in its JSON, as far as it has one:
//! statements are told by number.

ghost use Rattle.std.specs.Prelude.{◌≡◌, Some, codes};
ghost use Rattle.std.specs.Option.{option_map};
ghost use Rattle.module_positions.specs.Labels.{declaration_label, entry_point_label};
ghost use Rattle.module_positions.specs.Labels.{function_label, label_at, label_of};
ghost use Rattle.module_positions.specs.Positions.{declaration_in_module, json_position};
ghost use Rattle.module_positions.specs.Positions.{declared_position, in_function};
ghost use Rattle.module_positions.specs.Positions.{json_refusal_position};
ghost use Rattle.module_positions.specs.Positions.{line_position};
ghost use Rattle.module_positions.specs.Positions.{listed, operand_text, position_in_function, refused_function_position};
ghost use Rattle.module_positions.specs.Positions.{holder_text, scope_position};
ghost use Rattle.module_positions.specs.Roles.{role_in, seen};

use crate::roles::{Role, role_at};
use naga_acceptance::{FaultPosition, FunctionPosition};
use naga_ir::{Expression, Function, Handle, Module};
use naga_scope::{Declared, FunctionRefusalPosition, Line, RefusalPosition, ScopeFault};
use naga_tables::DeclarationPosition;
use std::fmt;

/// What the JSON holds by which a position is told.
#[derive(Clone, Copy, Debug, PartialEq, Eq)]
pub enum JsonHolder {
    /// An object with the module as its member `module`.
    Member,
    /// The module itself.
    Module,
}

impl fmt::Display for JsonHolder {
    ghost output = { λ from. Some (holder_text from) };

    fn fmt<W: fmt::Write>(&self, f: &mut fmt::Formatter<W>) -> fmt::Result {
        match self {
            JsonHolder::Member => f.write_str("module."),
            JsonHolder::Module => Ok(()),
        }
    }
}

/// An item of a module, told as its position in the JSON; a statement is told by its number, after
/// the position of its function.
#[derive(Clone, Copy, Debug, PartialEq, Eq)]
pub struct JsonPosition(pub JsonHolder, pub FaultPosition);

impl fmt::Display for JsonPosition {
    ghost output = { λ at. Some (json_position at.0 at.1) };

    fn fmt<W: fmt::Write>(&self, f: &mut fmt::Formatter<W>) -> fmt::Result {
        let holder = self.0;
        match self.1 {
            FaultPosition::Module => f.write_str("module"),
            FaultPosition::Type(handle) => write!(f, "{}types[{}]", holder, handle.index()),
            FaultPosition::Constant(handle) => write!(f, "{}constants[{}]", holder, handle.index()),
            FaultPosition::Override(handle) => write!(f, "{}overrides[{}]", holder, handle.index()),
            FaultPosition::GlobalVariable(handle) => {
                write!(f, "{}global_variables[{}]", holder, handle.index())
            }
            FaultPosition::GlobalExpression(handle) => {
                write!(f, "{}global_expressions[{}]", holder, handle.index())
            }
            FaultPosition::Function(handle, part) => {
                write!(
                    f,
                    "{}functions[{}]{}",
                    holder,
                    handle.index(),
                    PositionInFunction(part)
                )
            }
            FaultPosition::EntryPoint(index, part) => {
                write!(
                    f,
                    "{}entry_points[{}].function{}",
                    holder,
                    index,
                    PositionInFunction(part)
                )
            }
        }
    }
}

/// A part of a function, told after the function's position.
#[derive(Clone, Copy)]
struct PositionInFunction(FunctionPosition);

impl fmt::Display for PositionInFunction {
    ghost output = { λ at. Some (position_in_function at.0) };

    fn fmt<W: fmt::Write>(&self, f: &mut fmt::Formatter<W>) -> fmt::Result {
        match self.0 {
            FunctionPosition::Whole => Ok(()),
            FunctionPosition::Local(handle) => write!(f, ".local_variables[{}]", handle.index()),
            FunctionPosition::Expression(handle) => write!(f, ".expressions[{}]", handle.index()),
            FunctionPosition::Statement(number) => write!(f, ", statement {}", number),
        }
    }
}

/// A label, told after the position of what stands in the function that has it.
#[derive(Clone, Copy)]
pub(crate) struct InFunction<'a>(pub(crate) Option<&'a str>);

impl fmt::Display for InFunction<'_> {
    ghost output = { λ it. in_function (option_map (λ label. label.now) it.0) };

    fn fmt<W: fmt::Write>(&self, f: &mut fmt::Formatter<W>) -> fmt::Result {
        match self.0 {
            Some(label) => write!(f, ", in {:?}", label),
            None => Ok(()),
        }
    }
}

/// Where a construct stands for which a module is refused, told as its position in the JSON; what
/// is used or given out of scope is told with the statement that does, and of an operand with its
/// role.
#[derive(Clone, Copy, Debug, PartialEq, Eq)]
pub struct JsonRefusalPosition<'a> {
    /// What the JSON holds.
    pub holder: JsonHolder,
    /// Where the construct stands.
    pub position: RefusalPosition,
    /// What an operand that is out of scope there is where it is used.
    pub role: Option<Role<'a>>,
}

impl<'a> JsonRefusalPosition<'a> {
    /// This position of the module.
    pub fn of(holder: JsonHolder, module: &'a Module, position: RefusalPosition) -> Self
        ensures holder { result.holder ≡ holder }
        ensures position { result.position ≡ position }
        ensures role { option_map seen result.role ≡ role_in «module».now position }
    {
        let role = role_at(module, &position);
        JsonRefusalPosition {
            holder,
            position,
            role,
        }
    }
}

impl fmt::Display for JsonRefusalPosition<'_> {
    ghost output = { λ at. Some (json_refusal_position at.holder (option_map seen at.role)
        at.position) };

    fn fmt<W: fmt::Write>(&self, f: &mut fmt::Formatter<W>) -> fmt::Result {
        let holder = self.holder;
        match self.position {
            RefusalPosition::Labels => f.write_str("module"),
            RefusalPosition::Declaration(position) => {
                write!(f, "{}{}", holder, DeclarationInJson(position))
            }
            RefusalPosition::Function(handle, part) => {
                write!(
                    f,
                    "{}functions[{}]{}",
                    holder,
                    handle.index(),
                    RefusedInFunction(part, self.role)
                )
            }
            RefusalPosition::EntryPoint(index, part) => {
                write!(
                    f,
                    "{}entry_points[{}].function{}",
                    holder,
                    index,
                    RefusedInFunction(part, self.role)
                )
            }
        }
    }
}

/// The label of the function or the entry point at this position, if there is one there and it has
/// a label.
pub fn label_at(module: &Module, position: RefusalPosition) -> Option<&str>
    ensures { option_map (λ label. label.now) result ≡ label_at «module».now position }
{
    match position {
        RefusalPosition::Labels => None,
        RefusalPosition::Declaration(position) => declaration_label(module, position),
        RefusalPosition::Function(handle, _) => function_label(module, handle),
        RefusalPosition::EntryPoint(index, _) => entry_point_label(module, index),
    }
}

/// The label of the function or of the entry point in which an item stands, at which a module is not
/// accepted, if it stands in one that has a label.
pub fn label_of<'a>(module: &'a Module, item: &FaultPosition) -> Option<&'a str>
    ensures { option_map (λ label. label.now) result ≡ label_of «module».now item.now }
{
    match *item {
        FaultPosition::Function(handle, _) => function_label(module, handle),
        FaultPosition::EntryPoint(index, _) => entry_point_label(module, index),
        _ => None,
    }
}

fn declaration_label(module: &Module, position: DeclarationPosition) -> Option<&str>
    ensures { option_map (λ label. label.now) result ≡ declaration_label «module».now position }
{
    match position {
        DeclarationPosition::Function(handle) => function_label(module, handle),
        DeclarationPosition::EntryPoint(index) => entry_point_label(module, index),
        _ => None,
    }
}

fn function_label(module: &Module, handle: Handle<Function>) -> Option<&str>
    ensures { option_map (λ label. label.now) result ≡ function_label «module».now handle }
{
    if handle.index() < module.functions.len() {
        module.functions[handle].name.as_deref()
    } else {
        None
    }
}

fn entry_point_label(module: &Module, index: usize) -> Option<&str>
    ensures { option_map (λ label. label.now) result ≡ entry_point_label «module».now index }
{
    match module.entry_points.get(index) {
        Some(entry_point) => Some(entry_point.name.as_str()),
        None => None,
    }
}

/// A declaration, told as a member of the module.
#[derive(Clone, Copy)]
struct DeclarationInJson(DeclarationPosition);

impl fmt::Display for DeclarationInJson {
    ghost output = { λ at. Some (declaration_in_module at.0) };

    fn fmt<W: fmt::Write>(&self, f: &mut fmt::Formatter<W>) -> fmt::Result {
        match self.0 {
            DeclarationPosition::Struct(handle) => write!(f, "types[{}]", handle.index()),
            DeclarationPosition::Constant(handle) => write!(f, "constants[{}]", handle.index()),
            DeclarationPosition::Override(handle) => write!(f, "overrides[{}]", handle.index()),
            DeclarationPosition::GlobalVariable(handle) => {
                write!(f, "global_variables[{}]", handle.index())
            }
            DeclarationPosition::Function(handle) => write!(f, "functions[{}]", handle.index()),
            DeclarationPosition::EntryPoint(index) => write!(f, "entry_points[{}]", index),
        }
    }
}

/// A part of a function, told after the function's position, with the role of an operand there.
#[derive(Clone, Copy)]
struct RefusedInFunction<'a>(FunctionRefusalPosition, Option<Role<'a>>);

impl fmt::Display for RefusedInFunction<'_> {
    ghost output = { λ at. Some (refused_function_position (option_map seen at.1) at.0) };

    fn fmt<W: fmt::Write>(&self, f: &mut fmt::Formatter<W>) -> fmt::Result {
        match self.0 {
            FunctionRefusalPosition::Labels => f.write_str(".named_expressions"),
            FunctionRefusalPosition::Scope(fault) => write!(f, "{}", FaultInJson(fault, self.1)),
            FunctionRefusalPosition::Statement(number) => write!(f, ", statement {}", number),
            FunctionRefusalPosition::Expression(line, handle) => {
                write!(f, ".{}{}", ExpressionInJson(handle), LineInJson(line))
            }
            FunctionRefusalPosition::Type_(declared, _) => write!(
                f,
                "{}",
                DeclaredInJson(declared)
            ),
            FunctionRefusalPosition::Let(number, handle) => write!(
                f,
                ".{}, the type of its let in statement {}",
                ExpressionInJson(handle),
                number,
            ),
        }
    }
}

/// An expression of a function.
#[derive(Clone, Copy)]
struct ExpressionInJson(Handle<Expression>);

impl fmt::Display for ExpressionInJson {
    ghost output = { λ at. Some (listed (codes "expressions") at.0) };

    fn fmt<W: fmt::Write>(&self, f: &mut fmt::Formatter<W>) -> fmt::Result {
        write!(f, "expressions[{}]", self.0.index())
    }
}

/// The line that writes an expression, told after the expression.
#[derive(Clone, Copy)]
struct LineInJson(Line);

impl fmt::Display for LineInJson {
    ghost output = { λ at. Some (line_position at.0) };

    fn fmt<W: fmt::Write>(&self, f: &mut fmt::Formatter<W>) -> fmt::Result {
        match self.0 {
            Line::Signature => Ok(()),
            Line::Local(local) => {
                write!(f, ", first value of local_variables[{}]", local.index())
            }
            Line::Statement(number) => write!(f, ", in statement {}", number),
            Line::BreakIf { number, .. } => write!(f, ", in break if of statement {}", number),
        }
    }
}

/// What declares a type, told after the function's position.
#[derive(Clone, Copy)]
struct DeclaredInJson(Declared);

impl fmt::Display for DeclaredInJson {
    ghost output = { λ at. Some (declared_position at.0) };

    fn fmt<W: fmt::Write>(&self, f: &mut fmt::Formatter<W>) -> fmt::Result {
        match self.0 {
            Declared::Argument(index) => write!(f, ".arguments[{}]", index),
            Declared::Result => f.write_str(".result"),
            Declared::Local(local) => write!(f, ".local_variables[{}]", local.index()),
        }
    }
}

/// An operand, told by its role if that is known.
#[derive(Clone, Copy)]
struct OperandInJson<'a>(Option<Role<'a>>);

impl fmt::Display for OperandInJson<'_> {
    ghost output = { λ operand. Some (operand_text (option_map seen operand.0)) };

    fn fmt<W: fmt::Write>(&self, f: &mut fmt::Formatter<W>) -> fmt::Result {
        match self.0 {
            Some(role) => write!(f, "operand {}", role),
            None => f.write_str("operand"),
        }
    }
}

/// A fault of scope, told after the function's position, with the role of an operand there.
#[derive(Clone, Copy)]
struct FaultInJson<'a>(ScopeFault, Option<Role<'a>>);

impl fmt::Display for FaultInJson<'_> {
    ghost output = { λ at. Some (scope_position (option_map seen at.1) at.0) };

    fn fmt<W: fmt::Write>(&self, f: &mut fmt::Formatter<W>) -> fmt::Result {
        match self.0 {
            ScopeFault::FirstValue { local, value } => write!(
                f,
                ".{}, first value of local_variables[{}]",
                ExpressionInJson(value),
                local.index(),
            ),
            ScopeFault::Operand { statement, operand }
            | ScopeFault::BreakIf {
                statement,
                operand,
                ..
            } => write!(
                f,
                ".{}, {} of statement {}",
                ExpressionInJson(operand),
                OperandInJson(self.1),
                statement,
            ),
            ScopeFault::EmittedOperand {
                statement,
                expression,
                operand,
            } => write!(
                f,
                ".{}, {} of {} in statement {}",
                ExpressionInJson(operand),
                OperandInJson(self.1),
                ExpressionInJson(expression),
                statement,
            ),
            ScopeFault::IntroducedBefore {
                statement,
                expression,
            } => write!(
                f,
                ".{}, given again by statement {}",
                ExpressionInJson(expression),
                statement,
            ),
            ScopeFault::NeedsNoEmit {
                statement,
                expression,
            } => write!(
                f,
                ".{}, which needs no Emit, in statement {}",
                ExpressionInJson(expression),
                statement,
            ),
        }
    }
}
