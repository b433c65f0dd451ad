//! The rows of statements: each is a function with the statements that it is about.

use bitflags::Flags;
use naga_builder::{BlockBuilder, BuildError, ModuleBuilder};
use naga_ir::{
    AddressSpace, Barrier, BinaryOperator, Expression, Function, Handle, Literal, Scalar,
    Statement, SwitchCase, SwitchValue, TypeInner,
};
use std::alloc::{AllocError, Global};
use std::mem;

/// How many blocks stand inside one another in [`build_deep`].
const DEPTH: u32 = 32;

// ---- switches

fn push_case(
    cases: &mut Vec<SwitchCase>,
    value: SwitchValue,
    body: BlockBuilder,
    fall_through: bool,
) -> Result<(), AllocError> {
    cases.push(SwitchCase {
        value,
        body: body.finish(),
        fall_through,
    })?;
    Ok(())
}

/// A function of this label whose body is a switch over its argument.
fn add_switch(
    shader: &mut ModuleBuilder,
    label: &str,
    cases: Vec<SwitchCase>,
) -> Result<(), AllocError> {
    let i32_type = shader.scalar(Scalar::I32)?;
    let mut function = shader.function(label)?;
    let x = function.argument("x", i32_type)?;
    function.body.switch(x, cases)?;
    let built = function.finish();
    shader.add_function(built)?;
    Ok(())
}

/// A switch whose cases 1 and 2 fall through to an empty default. The body of case 1 is told.
fn add_joined(
    alloc: Global,
    shader: &mut ModuleBuilder,
    first: BlockBuilder,
) -> Result<(), AllocError> {
    let mut cases = Vec::new(alloc);
    push_case(&mut cases, SwitchValue::I32(1), first, true)?;
    let second = BlockBuilder::new(alloc);
    push_case(&mut cases, SwitchValue::I32(2), second, true)?;
    let last = BlockBuilder::new(alloc);
    push_case(&mut cases, SwitchValue::Default, last, false)?;
    add_switch(shader, "s", cases)
}

/// A switch whose empty cases 1 and 2 fall through to an empty default.
pub fn build_switch(alloc: Global, shader: &mut ModuleBuilder) -> Result<(), BuildError> {
    add_joined(alloc, shader, BlockBuilder::new(alloc))?;
    Ok(())
}

/// The same with a return in case 1, which still falls through.
pub fn build_through(alloc: Global, shader: &mut ModuleBuilder) -> Result<(), BuildError> {
    let mut first = BlockBuilder::new(alloc);
    first.return_nothing()?;
    add_joined(alloc, shader, first)?;
    Ok(())
}

/// A switch whose empty default falls through to an empty case.
pub fn build_default(alloc: Global, shader: &mut ModuleBuilder) -> Result<(), BuildError> {
    let mut cases = Vec::new(alloc);
    let first = BlockBuilder::new(alloc);
    push_case(&mut cases, SwitchValue::Default, first, true)?;
    let last = BlockBuilder::new(alloc);
    push_case(&mut cases, SwitchValue::I32(3), last, false)?;
    add_switch(shader, "dflt", cases)?;
    Ok(())
}

// ---- barriers and calls

/// A barrier for all memories, and one for none.
pub fn build_barriers(shader: &mut ModuleBuilder) -> Result<(), BuildError> {
    let mut function = shader.function("b")?;
    function
        .body
        .push(Statement::ControlBarrier(Barrier::all()))?;
    function
        .body
        .push(Statement::ControlBarrier(Barrier::empty()))?;
    let built = function.finish();
    shader.add_function(built)?;
    Ok(())
}

/// Adds a function that adds 1 to what its argument points to.
fn add_increment(shader: &mut ModuleBuilder) -> Result<Handle<Function>, BuildError> {
    let i32_type = shader.scalar(Scalar::I32)?;
    let pointer_type = shader.type_of(TypeInner::Pointer {
        base: i32_type,
        space: AddressSpace::Function,
    })?;
    let mut function = shader.function("inc")?;
    let pointer = function.argument("p", pointer_type)?;
    let one = function.literal(Literal::I32(1))?;
    let held = function.load(pointer)?;
    let sum = function.binary(BinaryOperator::Add, held, one)?;
    function.body.emit(held, sum)?;
    function.body.store(pointer, sum)?;
    let built = function.finish();
    Ok(shader.add_function(built)?)
}

/// A call of a function with a pointer to a local, which is returned then.
pub fn build_call(alloc: Global, shader: &mut ModuleBuilder) -> Result<(), BuildError> {
    let increment = add_increment(shader)?;
    let i32_type = shader.scalar(Scalar::I32)?;
    let mut function = shader.function("run")?;
    function.returns(i32_type);
    let a = function.local("a", i32_type, None)?;
    let pointer = function.pointer_to(a)?;
    let held = function.load(pointer)?;
    let arguments = vec![in alloc; pointer]?;
    function.body.push(Statement::Call {
        function: increment,
        arguments,
        result: None,
    })?;
    function.body.emit(held, held)?;
    function.body.return_value(held)?;
    let built = function.finish();
    shader.add_function(built)?;
    Ok(())
}

// ---- blocks and branches

/// A block that gives a value and returns it.
fn returned(alloc: Global, value: Handle<Expression>) -> Result<BlockBuilder, AllocError> {
    let mut block = BlockBuilder::new(alloc);
    block.emit(value, value)?;
    block.return_value(value)?;
    Ok(block)
}

/// A sum that each of two branches gives and returns, under the label of a front end if it has one.
fn add_sibling(
    alloc: Global,
    shader: &mut ModuleBuilder,
    label: Option<&str>,
) -> Result<(), BuildError> {
    let bool_type = shader.scalar(Scalar::BOOL)?;
    let i32_type = shader.scalar(Scalar::I32)?;
    let mut function = shader.function("k")?;
    function.returns(i32_type);
    let condition = function.argument("c", bool_type)?;
    let x = function.argument("x", i32_type)?;
    let sum = function.binary(BinaryOperator::Add, x, x)?;
    if let Some(label) = label {
        function.name(sum, label)?;
    }
    let accept = returned(alloc, sum)?;
    let reject = returned(alloc, sum)?;
    function.body.if_else(condition, accept, reject)?;
    let built = function.finish();
    shader.add_function(built)?;
    Ok(())
}

/// A sum that each of two branches gives and returns.
pub fn build_sibling(alloc: Global, shader: &mut ModuleBuilder) -> Result<(), BuildError> {
    add_sibling(alloc, shader, None)
}

/// The same sum, which a front end named.
pub fn build_twice(alloc: Global, shader: &mut ModuleBuilder) -> Result<(), BuildError> {
    add_sibling(alloc, shader, Some("y"))
}

/// Puts the statements of a block into a block of their own, so often. Where memory is refused, some
/// of the blocks may stand without what was inside.
pub fn nest(alloc: Global, block: &mut BlockBuilder, depth: u32) -> Result<(), AllocError> {
    for _ in 0..depth {
        let inner = mem::replace(block, BlockBuilder::new(alloc));
        block.block(inner)?;
    }
    Ok(())
}

/// Blocks each inside the one before.
pub fn build_deep(alloc: Global, shader: &mut ModuleBuilder) -> Result<(), BuildError> {
    let mut function = shader.function("deep")?;
    nest(alloc, &mut function.body, DEPTH)?;
    let built = function.finish();
    shader.add_function(built)?;
    Ok(())
}

// ---- loops

/// A loop that does nothing until its argument is true.
pub fn build_loop(alloc: Global, shader: &mut ModuleBuilder) -> Result<(), BuildError> {
    let bool_type = shader.scalar(Scalar::BOOL)?;
    let mut function = shader.function("l")?;
    let condition = function.argument("c", bool_type)?;
    let body = BlockBuilder::new(alloc);
    let continuing = BlockBuilder::new(alloc);
    function.body.loop_(body, continuing, Some(condition))?;
    let built = function.finish();
    shader.add_function(built)?;
    Ok(())
}

/// A block that stores a value.
fn stored(
    alloc: Global,
    pointer: Handle<Expression>,
    value: Handle<Expression>,
) -> Result<BlockBuilder, AllocError> {
    let mut block = BlockBuilder::new(alloc);
    block.store(pointer, value)?;
    Ok(block)
}

/// A sum that a loop's body gives, and its `continuing` uses too.
pub fn build_tail(alloc: Global, shader: &mut ModuleBuilder) -> Result<(), BuildError> {
    let i32_type = shader.scalar(Scalar::I32)?;
    let mut function = shader.function("lp")?;
    let x = function.argument("x", i32_type)?;
    let a = function.local("a", i32_type, None)?;
    let pointer = function.pointer_to(a)?;
    let sum = function.binary(BinaryOperator::Add, x, x)?;
    let always = function.literal(Literal::Bool(true))?;
    let mut body = BlockBuilder::new(alloc);
    body.emit(sum, sum)?;
    body.store(pointer, sum)?;
    let continuing = stored(alloc, pointer, sum)?;
    function.body.loop_(body, continuing, Some(always))?;
    let built = function.finish();
    shader.add_function(built)?;
    Ok(())
}

/// A loop's body that goes on to `continuing` where a condition holds, and else gives a value.
fn skipping(
    alloc: Global,
    condition: Handle<Expression>,
    value: Handle<Expression>,
) -> Result<BlockBuilder, AllocError> {
    let mut accept = BlockBuilder::new(alloc);
    accept.push(Statement::Continue)?;
    let mut body = BlockBuilder::new(alloc);
    body.if_else(condition, accept, BlockBuilder::new(alloc))?;
    body.emit(value, value)?;
    Ok(body)
}

/// A sum of literals that a loop's body gives after a `continue`, and its `continuing` uses too.
pub fn build_folded(alloc: Global, shader: &mut ModuleBuilder) -> Result<(), BuildError> {
    let bool_type = shader.scalar(Scalar::BOOL)?;
    let i32_type = shader.scalar(Scalar::I32)?;
    let mut function = shader.function("cf")?;
    let condition = function.argument("c", bool_type)?;
    let a = function.local("a", i32_type, None)?;
    let pointer = function.pointer_to(a)?;
    let one = function.literal(Literal::I32(1))?;
    let sum = function.binary(BinaryOperator::Add, one, one)?;
    let mut body = skipping(alloc, condition, sum)?;
    body.store(pointer, sum)?;
    let continuing = stored(alloc, pointer, sum)?;
    function.body.loop_(body, continuing, Some(condition))?;
    let built = function.finish();
    shader.add_function(built)?;
    Ok(())
}

/// A sum of arguments that a loop's body gives after a `continue`. Its `continuing` may not use
/// it, so that no text is written.
pub fn build_continue(alloc: Global, shader: &mut ModuleBuilder) -> Result<(), BuildError> {
    let bool_type = shader.scalar(Scalar::BOOL)?;
    let i32_type = shader.scalar(Scalar::I32)?;
    let mut function = shader.function("n")?;
    let condition = function.argument("c", bool_type)?;
    let x = function.argument("x", i32_type)?;
    let a = function.local("a", i32_type, None)?;
    let pointer = function.pointer_to(a)?;
    let sum = function.binary(BinaryOperator::Add, x, x)?;
    let body = skipping(alloc, condition, sum)?;
    let continuing = stored(alloc, pointer, sum)?;
    function.body.loop_(body, continuing, Some(condition))?;
    let built = function.finish();
    shader.add_function(built)?;
    Ok(())
}
