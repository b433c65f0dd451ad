//! Why an expression has no value where a statement asks for it.

ghost use Rattle.std.specs.Prelude.{◌≡◌, ◌-◌, [], IfOk};
ghost use Rattle.naga_ir.specs.Operands.{expression_operands};
ghost use Rattle.naga_ir.specs.StatementViews.{block_of, cases_of, tree_of};
ghost use Rattle.module_positions.specs.Roots.{are_constant, arrived, emitted_value, first_value, given};
ghost use Rattle.module_positions.specs.Roots.{given_each, given_one, given_range, given_turn, in_block};
ghost use Rattle.module_positions.specs.Roots.{in_cases, in_statement, inside, is_constant};
ghost use Rattle.module_positions.specs.Roots.{left_after, left_after_each, left_after_turn, root_by};
ghost use Rattle.module_positions.specs.Roots.{skipped, skipped_each, skipped_one, skipped_range};
ghost use Rattle.module_positions.specs.Roots.{value_at, values_at, with_first};
ghost use Rattle.std.specs.Prelude.{slice_set};

use naga_ir::{
    Block, Expression, ExpressionKind, Function, Handle, ItemIndex, Statement, SwitchCase,
};
use naga_listing::{item_at, past_block, past_statement};
use naga_scope::split_at_continue;
use std::alloc::{AllocError, Global};

/// An expression that has no value, since nothing gave it in sight of the statement that needed it.
#[derive(Clone, Copy, Debug, PartialEq, Eq)]
pub struct Root {
    /// The expression.
    pub expression: Handle<Expression>,
    /// The number of the statement that needed it: the one that uses it, or the `Emit` of an
    /// expression of which it is an operand.
    pub statement: usize,
    /// The number of a statement in the body of a loop that gave it, which a `continue` may skip.
    pub skipped: Option<usize>,
}

/// Whether an expression has its value at a point of a function, and why not.
#[derive(Clone, Copy, Debug, PartialEq, Eq)]
pub enum Value {
    /// Nothing gave it in sight of the point.
    Absent,
    /// A statement with this number in the body of a loop gave it, which a `continue` may skip.
    Skipped(usize),
    /// It is a constant, or an operator over such alone, and has its value everywhere.
    Constant,
    /// It has its value.
    Present,
    /// The `Emit` with this number gave it, where this operand of it had no value, for this reason.
    Lacking(usize, Handle<Expression>, Root),
}

/// Where a statement asks for a value.
#[derive(Clone, Copy, Debug, PartialEq, Eq)]
pub enum Stop {
    /// Before all that it does.
    Before,
    /// In an `Emit`, where it gives this expression.
    Giving(Handle<Expression>),
    /// In the `break if` of a loop, after which the statement with this number would stand.
    BreakIf(usize),
}

/// Why this expression has no value where the statement with this number asks for it, if it has
/// none.
pub fn root_of(
    alloc: Global,
    function: &Function,
    statement: usize,
    stop: Stop,
    expression: Handle<Expression>,
) -> Result<Option<Root>, AllocError>
    ensures { IfOk result (λ root. root ≡ root_by statement expression (value_at
        (values_at function.now.expressions function.now.body statement stop) expression)) }
{
    let values = values_at(alloc, function, statement, stop)?;
    Ok(root_by(statement, expression, value_at(&values, expression)))
}

/// The values at a point of a function's body.
pub fn values_at(
    alloc: Global,
    function: &Function,
    statement: usize,
    stop: Stop,
) -> Result<Vec<Value>, AllocError>
    ensures { IfOk result (λ values. values.items
        ≡ values_at function.now.expressions function.now.body statement stop) }
{
    let mut values = first_values(alloc, function)?;
    walk_block(
        &mut values,
        function,
        statement,
        stop,
        statement,
        &function.body,
    );
    Ok(values)
}

// ---- expressions

/// What is known of the expression with this handle.
pub fn value_at(values: &[Value], handle: Handle<Expression>) -> Value
    ensures { result ≡ value_at values.now handle }
{
    match values.get(handle.index()) {
        Some(value) => *value,
        None => Value::Absent,
    }
}

/// Why an expression of which this is known has no value for the statement with this number, if it
/// has none.
pub(crate) fn root_by(
    statement: usize,
    expression: Handle<Expression>,
    value: Value,
) -> Option<Root>
    ensures { result ≡ root_by statement expression value }
{
    match value {
        Value::Absent => Some(Root {
            expression,
            statement,
            skipped: None,
        }),
        Value::Skipped(number) => Some(Root {
            expression,
            statement,
            skipped: Some(number),
        }),
        Value::Constant | Value::Present => None,
        Value::Lacking(_, _, root) => Some(root),
    }
}

/// What is known of an expression once the `Emit` with this number gives it.
fn emitted_value(values: &[Value], statement: usize, expression: &Expression) -> Value
    ensures { result ≡ emitted_value values.now statement (expression_operands expression.now) }
{
    for operand in expression.operands() {
        if let Some(root) = root_by(statement, operand, value_at(values, operand)) {
            return Value::Lacking(statement, operand, root);
        }
    }
    Value::Present
}

fn is_constant(value: Value) -> bool
    ensures { result ≡ is_constant value }
{
    matches!(value, Value::Constant)
}

fn are_constant(values: &[Value], expression: &Expression) -> bool
    ensures { result ≡ are_constant values.now (expression_operands expression.now) }
{
    for operand in expression.operands() {
        if !is_constant(value_at(values, operand)) {
            return false;
        }
    }
    true
}

/// What is known of an expression where its function starts, by those before it.
fn first_value(values: &[Value], expression: &Expression) -> Value
    ensures { result ≡ first_value values.now expression.now }
{
    match expression.kind() {
        ExpressionKind::Constant => Value::Constant,
        ExpressionKind::Leaf => Value::Present,
        ExpressionKind::Pure => {
            if are_constant(values, expression) {
                Value::Constant
            } else {
                Value::Absent
            }
        }
        ExpressionKind::Load | ExpressionKind::Request | ExpressionKind::Result => Value::Absent,
    }
}

/// The values where a function starts.
fn first_values(alloc: Global, function: &Function) -> Result<Vec<Value>, AllocError>
    ensures { IfOk result (λ values. values.items ≡ with_first [] function.now.expressions) }
{
    let mut values = Vec::new(alloc);
    for index in 0..function.expressions.len() {
        let expression = &function.expressions[ItemIndex::from_index(index)];
        let value = first_value(&values, expression);
        values.push(value)?;
    }
    Ok(values)
}

// ---- what a statement gives

/// Lets this be known of the expression with this index, if there is one.
fn set_value(values: &mut Vec<Value>, index: usize, value: Value)
    ensures { values.new.items ≡ slice_set values.old.items index value }
{
    if index < values.len() {
        values[index] = value;
    }
}

/// The `Emit` with this number gives the expression with this index.
fn give_one(values: &mut Vec<Value>, function: &Function, number: usize, index: usize)
    ensures { values.new.items ≡ given_one function.now.expressions number index values.old.items }
{
    let value = match item_at(&function.expressions, ItemIndex::from_index(index)) {
        Some(expression) => emitted_value(values, number, expression),
        None => Value::Absent,
    };
    set_value(values, index, value);
}

/// The same of the expressions from the first to before the end.
fn give_range(values: &mut Vec<Value>, function: &Function, number: usize, first: usize, end: usize)
    ensures { values.new.items ≡ given_range function.now.expressions number first (end - first)
        values.old.items }
{
    for index in first..end {
        give_one(values, function, number, index);
    }
}

/// The statement with this number gives what it gives, those in its blocks left out.
fn give(values: &mut Vec<Value>, function: &Function, number: usize, statement: &Statement)
    ensures { values.new.items ≡ given function.now.expressions number (tree_of statement.now)
        values.old.items }
{
    match statement {
        Statement::Emit(range) => give_range(values, function, number, range.first, range.end),
        _ => {
            if let Some(handle) = statement.result() {
                set_value(values, handle.index(), Value::Present);
            }
        }
    }
}

/// A `continue` may skip the statement with this number, which gives the expression with this index.
fn skip_one(values: &mut Vec<Value>, number: usize, index: usize)
    ensures { values.new.items ≡ skipped_one number index values.old.items }
{
    if let Value::Absent = value_at(values, ItemIndex::from_index(index)) {
        set_value(values, index, Value::Skipped(number));
    }
}

/// The same of the expressions from the first to before the end.
fn skip_range(values: &mut Vec<Value>, number: usize, first: usize, end: usize)
    ensures { values.new.items ≡ skipped_range number first (end - first) values.old.items }
{
    for index in first..end {
        skip_one(values, number, index);
    }
}

/// The same of what this statement gives.
fn skip(values: &mut Vec<Value>, number: usize, statement: &Statement)
    ensures { values.new.items ≡ skipped number (tree_of statement.now) values.old.items }
{
    match statement {
        Statement::Emit(range) => skip_range(values, number, range.first, range.end),
        _ => {
            if let Some(handle) = statement.result() {
                skip_one(values, number, handle.index());
            }
        }
    }
}

// ---- what a loop's body leaves to what stands after it in the loop

/// How many statements are left after this one and those in its blocks.
fn left_after(statement: &Statement, left: usize) -> usize
    ensures { result ≡ left_after left (tree_of statement.now) }
{
    past_statement(statement, left).unwrap_or(0)
}

/// These statements give what they give; so many are left after them.
fn give_each(
    values: &mut Vec<Value>,
    function: &Function,
    end: usize,
    first: usize,
    statements: &[Statement],
) -> usize
    ensures left { result ≡ left_after_each first (block_of statements.now) }
    ensures values { values.new.items ≡ given_each function.now.expressions end first
        (block_of statements.now) values.old.items }
{
    let mut left = first;
    for statement in statements {
        give(values, function, end.saturating_sub(left), statement);
        left = left_after(statement, left);
    }
    left
}

/// A `continue` may skip these statements.
fn skip_each(values: &mut Vec<Value>, end: usize, first: usize, statements: &[Statement]) -> usize
    ensures left { result ≡ left_after_each first (block_of statements.now) }
    ensures values { values.new.items
        ≡ skipped_each end first (block_of statements.now) values.old.items }
{
    let mut left = first;
    for statement in statements {
        skip(values, end.saturating_sub(left), statement);
        left = left_after(statement, left);
    }
    left
}

/// This block, which stands after others of its loop, gives what it leaves to what stands after it.
fn give_turn(
    values: &mut Vec<Value>,
    function: &Function,
    end: usize,
    first: usize,
    block: &Block,
) -> usize
    ensures left { result ≡ left_after_turn first block.now }
    ensures values { values.new.items ≡ given_turn function.now.expressions end first block.now
        values.old.items }
{
    let (before, from) = split_at_continue(block);
    let left = give_each(values, function, end, first, before);
    skip_each(values, end, left, from)
}

// ---- at a point

/// The values at this point of the statement with this number.
fn arrive(
    values: &mut Vec<Value>,
    function: &Function,
    number: usize,
    stop: Stop,
    statement: &Statement,
)
    ensures { values.new.items ≡ arrived function.now.expressions number stop (tree_of statement.now)
        values.old.items }
{
    match stop {
        Stop::Before => {}
        Stop::Giving(handle) => {
            if let Statement::Emit(range) = statement {
                let end = range.end.min(handle.index());
                give_range(values, function, number, range.first, end);
            }
        }
        Stop::BreakIf(next) => {
            if let Statement::Loop {
                body,
                continuing,
                ..
            } = statement
            {
                let first = next.saturating_sub(number).saturating_sub(1);
                let left = give_turn(values, function, next, first, body);
                give_turn(values, function, next, left, continuing);
            }
        }
    }
}

/// Goes to the point, which is in this block.
#[cycle(walk)]
fn walk_block(
    values: &mut Vec<Value>,
    function: &Function,
    end: usize,
    stop: Stop,
    first: usize,
    block: &Block,
)
    ensures { values.new.items ≡ in_block function.now.expressions end stop first block.now
        values.old.items }
{
    let mut left = first;
    for statement in block.as_slice() {
        match past_statement(statement, left) {
            Some(rest) => {
                give(values, function, end.saturating_sub(left), statement);
                left = rest;
            }
            None => {
                walk_statement(values, function, end, stop, left, statement);
                return;
            }
        }
    }
}

#[cycle(walk)]
fn walk_statement(
    values: &mut Vec<Value>,
    function: &Function,
    end: usize,
    stop: Stop,
    left: usize,
    statement: &Statement,
)
    ensures { values.new.items ≡ in_statement function.now.expressions end stop left
        (tree_of statement.now) values.old.items }
{
    if left == 0 {
        arrive(values, function, end, stop, statement);
    } else {
        walk_inside(values, function, end, stop, left - 1, statement);
    }
}

#[cycle(walk)]
fn walk_inside(
    values: &mut Vec<Value>,
    function: &Function,
    end: usize,
    stop: Stop,
    left: usize,
    statement: &Statement,
)
    ensures { values.new.items ≡ inside function.now.expressions end stop left
        (tree_of statement.now) values.old.items }
{
    match statement {
        Statement::Block(block) => walk_block(values, function, end, stop, left, block),
        Statement::If { accept, reject, .. } => match past_block(accept, left) {
            None => walk_block(values, function, end, stop, left, accept),
            Some(rest) => walk_block(values, function, end, stop, rest, reject),
        },
        Statement::Switch { cases, .. } => walk_cases(values, function, end, stop, left, cases),
        Statement::Loop {
            body,
            continuing,
            ..
        } => match past_block(body, left) {
            None => walk_block(values, function, end, stop, left, body),
            Some(rest) => {
                give_turn(values, function, end, left, body);
                walk_block(values, function, end, stop, rest, continuing);
            }
        },
        _ => {}
    }
}

#[cycle(walk)]
fn walk_cases(
    values: &mut Vec<Value>,
    function: &Function,
    end: usize,
    stop: Stop,
    first: usize,
    cases: &[SwitchCase],
)
    ensures { values.new.items ≡ in_cases function.now.expressions end stop first
        (cases_of cases.now) values.old.items }
{
    let mut left = first;
    for case in cases {
        match past_block(&case.body, left) {
            Some(rest) => left = rest,
            None => {
                walk_block(values, function, end, stop, left, &case.body);
                return;
            }
        }
    }
}
