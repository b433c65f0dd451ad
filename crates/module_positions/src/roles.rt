//! What an operand that is out of scope is where it is used: by which field an expression or a
//! statement holds it.

ghost use Rattle.std.specs.Prelude.{◌≡◌, Some, slice_get};
ghost use Rattle.std.specs.Option.{option_and_then, option_map};
ghost use Rattle.module_positions.specs.Positions.{role_text};
ghost use Rattle.module_positions.specs.Roles.{OperandsHaveRoles, expression_role, fault_role};
ghost use Rattle.module_positions.specs.Roles.{field_role, first_role, level_fields, list_role};
ghost use Rattle.module_positions.specs.Roles.{role_in, seen, statement_role};
ghost use Rattle.naga_fields.specs.Fields.{expression_fields, statement_fields};
ghost use Rattle.naga_ir.specs.StatementViews.{tree_of};

use naga_fields::{expression_field, statement_field};
use naga_ir::{Expression, Function, Handle, Module, SampleLevel, Statement};
use naga_listing::{MOST_FIELDS, entry_point_at, item_at, statement_at};
use naga_scope::{FunctionRefusalPosition, RefusalPosition, ScopeFault};
use std::fmt;

/// The role of an operand: the field that holds it, by naga's name, and where that is a list, the
/// number in it, counted from zero.
#[derive(Clone, Copy, Debug, PartialEq, Eq)]
pub struct Role<'a> {
    /// The name of the field, as naga has it.
    pub field: &'a str,
    /// The number in the field's list, counted from zero, where the field is one.
    pub item: Option<usize>,
}

impl fmt::Display for Role<'_> {
    ghost output = { λ role. Some (role_text (seen role)) };

    fn fmt<W: fmt::Write>(&self, f: &mut fmt::Formatter<W>) -> fmt::Result {
        match self.item {
            Some(number) => write!(f, "{}[{}]", self.field, number),
            None => f.write_str(self.field),
        }
    }
}

/// Each operand of an expression has a role, and so has each of a statement by itself.
pub fn operands_have_roles()
    ensures { OperandsHaveRoles }
{}

/// The role of the operand that is out of scope at this position of the module: in the statement
/// that uses it, or in the expression that an `Emit` binds. There is none where something else is
/// wrong.
pub fn role_at<'a>(module: &'a Module, at: &RefusalPosition) -> Option<Role<'a>>
    ensures { option_map seen result ≡ role_in «module».now at.now }
{
    match *at {
        RefusalPosition::Function(handle, FunctionRefusalPosition::Scope(fault)) => {
            match item_at(&module.functions, handle) {
                Some(function) => fault_role(function, fault),
                None => None,
            }
        }
        RefusalPosition::EntryPoint(index, FunctionRefusalPosition::Scope(fault)) => {
            match entry_point_at(module, index) {
                Some(entry_point) => fault_role(&entry_point.function, fault),
                None => None,
            }
        }
        _ => None,
    }
}

fn fault_role(function: &Function, fault: ScopeFault) -> Option<Role<'_>>
    ensures { option_map seen result ≡ fault_role function.now fault }
{
    match fault {
        ScopeFault::Operand { statement, operand }
        | ScopeFault::BreakIf {
            statement,
            operand,
            ..
        } => {
            match statement_at(&function.body, statement) {
                Some(statement) => statement_role(operand, statement),
                None => None,
            }
        }
        ScopeFault::EmittedOperand {
            expression,
            operand,
            ..
        } => match item_at(&function.expressions, expression) {
            Some(expression) => expression_role(operand, expression),
            None => None,
        },
        _ => None,
    }
}

/// The first role that the handle has in an expression.
fn expression_role(operand: Handle<Expression>, expression: &Expression) -> Option<Role<'_>>
    ensures { option_map seen result ≡ expression_role operand expression.now }
{
    match expression {
        Expression::Compose { components, .. } => list_role("components", operand, components),
        Expression::ImageSample { level, .. } => match role_in_expression(operand, expression) {
            Some(role) => Some(role),
            None => level_role(operand, *level),
        },
        _ => role_in_expression(operand, expression),
    }
}

/// The first role that the handle has in a statement by itself.
fn statement_role(operand: Handle<Expression>, statement: &Statement) -> Option<Role<'_>>
    ensures { option_map seen result ≡ statement_role operand (tree_of statement.now) }
{
    if let Statement::Call { arguments, .. } = statement {
        if let Some(role) = list_role("arguments", operand, arguments) {
            return Some(role);
        }
    }
    role_in_statement(operand, statement)
}

/// The first item of a list that is this handle.
fn list_role<'a>(
    name: &'a str,
    operand: Handle<Expression>,
    items: &[Handle<Expression>],
) -> Option<Role<'a>>
    ensures { option_map seen result ≡ list_role name.now operand items.now }
{
    match items.iter().position(|item| *item == operand) {
        Some(number) => Some(Role {
            field: name,
            item: Some(number),
        }),
        None => None,
    }
}

/// The first field of an expression that holds the handle.
fn role_in_expression(operand: Handle<Expression>, expression: &Expression) -> Option<Role<'_>>
    ensures { option_map seen result ≡ first_role operand (expression_fields expression.now) }
{
    for number in 0..MOST_FIELDS {
        if let Some(role) = nth_of_expression(operand, expression, number) {
            return Some(role);
        }
    }
    None
}

/// The role in the field of this number, if that holds the handle.
fn nth_of_expression(
    operand: Handle<Expression>,
    expression: &Expression,
    number: usize,
) -> Option<Role<'_>>
    ensures { option_map seen result ≡ option_and_then (field_role operand)
        (slice_get (expression_fields expression.now) number) }
{
    match expression_field(expression, number) {
        Some((name, held)) => field_role(operand, name, held),
        None => None,
    }
}

/// The first field of a statement that holds the handle.
fn role_in_statement(operand: Handle<Expression>, statement: &Statement) -> Option<Role<'_>>
    ensures { option_map seen result
        ≡ first_role operand (statement_fields (tree_of statement.now)) }
{
    for number in 0..MOST_FIELDS {
        if let Some(role) = nth_of_statement(operand, statement, number) {
            return Some(role);
        }
    }
    None
}

/// The role in the field of this number, if that holds the handle.
fn nth_of_statement(
    operand: Handle<Expression>,
    statement: &Statement,
    number: usize,
) -> Option<Role<'_>>
    ensures { option_map seen result ≡ option_and_then (field_role operand)
        (slice_get (statement_fields (tree_of statement.now)) number) }
{
    match statement_field(statement, number) {
        Some((name, held)) => field_role(operand, name, held),
        None => None,
    }
}

/// The role in this field, if it holds the handle.
fn field_role(
    operand: Handle<Expression>,
    name: &str,
    held: Option<Handle<Expression>>,
) -> Option<Role<'_>>
    ensures { option_map seen result ≡ field_role operand (name.now, held) }
{
    match held {
        Some(held) if held == operand => Some(Role {
            field: name,
            item: None,
        }),
        _ => None,
    }
}

/// The first field of a level of detail that holds the handle.
fn level_role<'a>(operand: Handle<Expression>, level: SampleLevel) -> Option<Role<'a>>
    ensures { option_map seen result ≡ first_role operand (level_fields level) }
{
    match level {
        SampleLevel::Auto | SampleLevel::Zero => None,
        SampleLevel::Exact(held) | SampleLevel::Bias(held) => {
            field_role(operand, "level", Some(held))
        }
        SampleLevel::Gradient { x, y } => match field_role(operand, "x", Some(x)) {
            Some(role) => Some(role),
            None => field_role(operand, "y", Some(y)),
        },
    }
}
