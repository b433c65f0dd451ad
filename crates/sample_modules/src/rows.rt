//! The rows: sample modules under their names.

use crate::declaration_rows::{
    build_atomic, build_compute, build_constant, build_flat, build_global, build_operator,
    build_override, build_struct, build_vertex,
};
use crate::expression_rows::{
    build_double, build_float, build_idle, build_image_sample, build_modf, build_negate,
    build_numeral, build_pointer, build_select,
};
use crate::layout_rows::{
    build_gap, build_misplaced, build_natural, build_stretched, build_stride,
};
use crate::statement_rows::{
    build_barriers, build_call, build_continue, build_deep, build_default, build_folded,
    build_loop, build_sibling, build_switch, build_tail, build_through, build_twice,
};
use naga_builder::{BuildError, BuiltFunction, FunctionBuilder, ModuleBuilder};
use naga_ir::{BinaryOperator, Expression, Handle, Literal, Scalar, Type_};
use std::alloc::{AllocError, Global};

/// A sample module.
#[derive(Debug, Clone, Copy, PartialEq, Eq)]
pub enum SampleModule {
    /// The empty module.
    Empty,
    /// A function that returns its argument.
    Identity,
    /// A function that returns a negative literal.
    Negative,
    /// A function with two arguments of one label.
    Same,
    /// A function and an argument whose labels are no names: a keyword, and one with a digit first.
    Type_,
    /// A function and an argument whose labels WGSL has no names for: one with a prefix of naga's own,
    /// and one in another script.
    Hostile,
    /// A function that returns what a local held before a store to it.
    Store,
    /// The same, but what the local held is not used.
    Unused,
    /// A function that adds to what a local held before a store to it.
    Late,
    /// A function that stores a sum, and returns it from the local.
    Inline,
    /// A function that uses a sum twice: to store it, and to multiply it.
    Twofold,
    /// A function that returns a sum which a front end named.
    Named,
    /// A function that stores through a pointer which a front end named.
    Pointer,
    /// A function that returns one of two values.
    Select,
    /// A function that returns a component of a negated vector.
    Negate,
    /// A function whose one expression has a text that doubles twelve times.
    Double,
    /// A function that returns a float that is decimal.
    Numeral,
    /// A function that returns a float literal, which is refused.
    Float,
    /// A function with a float literal that nothing mentions.
    Idle,
    /// A function that samples an image at level zero.
    Sampled,
    /// A function that adds both parts of a number.
    Modf,
    /// A type of 16 bits and nothing else.
    F16,
    /// A function with a switch whose cases are joined.
    Switch,
    /// The same, but a case with a statement falls through, which is refused.
    Through,
    /// A function with a switch whose default falls through.
    Default,
    /// A function with a barrier for all memories, and one for none.
    Barriers,
    /// A function that calls another with a pointer to a local.
    Call,
    /// A function with a sum that each of two branches gives.
    Sibling,
    /// The same, which a front end named.
    Twice,
    /// A function with many blocks, each inside the one before.
    Deep,
    /// A function with a loop that has a `break if` alone.
    Loop,
    /// A function with a loop whose `continuing` uses what its body gives.
    Tail,
    /// A function with a loop whose `continuing` uses a sum of literals that a `continue` skips.
    Folded,
    /// A function with a loop whose `continuing` uses another sum that a `continue` skips, which is
    /// refused.
    Continue,
    /// A compute stage that does nothing.
    Compute,
    /// A struct with a member whose label is a keyword.
    Struct,
    /// An override with a number and without a label.
    Override,
    /// A buffer that may be read and written.
    Global,
    /// A vertex stage that gives a struct without a label.
    Vertex,
    /// A constant with a label.
    Constant,
    /// A fragment stage that takes a value which is not interpolated.
    Flat,
    /// A compute stage that counts in one step.
    Atomic,
    /// An override whose value is a sum, which is refused.
    Operator,
    /// A struct whose members stand where they do by themselves.
    Natural,
    /// A struct with a gap after its first member.
    Gap,
    /// A struct of 16 bytes with one integer, and an array of two of it.
    Stride,
    /// A struct with a member at no multiple of its alignment, which is refused.
    Misplaced,
    /// An array whose elements begin further apart than they do by themselves, which is refused.
    Stretched,
}

impl SampleModule {
    /// The row of this name.
    pub fn from_name(name: &str) -> Option<SampleModule> {
        match name {
            "empty" => Some(SampleModule::Empty),
            "identity" => Some(SampleModule::Identity),
            "negative" => Some(SampleModule::Negative),
            "same" => Some(SampleModule::Same),
            "type" => Some(SampleModule::Type_),
            "hostile" => Some(SampleModule::Hostile),
            "store" => Some(SampleModule::Store),
            "unused" => Some(SampleModule::Unused),
            "late" => Some(SampleModule::Late),
            "inline" => Some(SampleModule::Inline),
            "twofold" => Some(SampleModule::Twofold),
            "named" => Some(SampleModule::Named),
            "pointer" => Some(SampleModule::Pointer),
            "select" => Some(SampleModule::Select),
            "negate" => Some(SampleModule::Negate),
            "double" => Some(SampleModule::Double),
            "numeral" => Some(SampleModule::Numeral),
            "float" => Some(SampleModule::Float),
            "idle" => Some(SampleModule::Idle),
            "sample" => Some(SampleModule::Sampled),
            "modf" => Some(SampleModule::Modf),
            "f16" => Some(SampleModule::F16),
            "switch" => Some(SampleModule::Switch),
            "through" => Some(SampleModule::Through),
            "default" => Some(SampleModule::Default),
            "barriers" => Some(SampleModule::Barriers),
            "call" => Some(SampleModule::Call),
            "sibling" => Some(SampleModule::Sibling),
            "twice" => Some(SampleModule::Twice),
            "deep" => Some(SampleModule::Deep),
            "loop" => Some(SampleModule::Loop),
            "tail" => Some(SampleModule::Tail),
            "folded" => Some(SampleModule::Folded),
            "continue" => Some(SampleModule::Continue),
            "compute" => Some(SampleModule::Compute),
            "struct" => Some(SampleModule::Struct),
            "override" => Some(SampleModule::Override),
            "global" => Some(SampleModule::Global),
            "vertex" => Some(SampleModule::Vertex),
            "const" => Some(SampleModule::Constant),
            "flat" => Some(SampleModule::Flat),
            "atomic" => Some(SampleModule::Atomic),
            "operator" => Some(SampleModule::Operator),
            "natural" => Some(SampleModule::Natural),
            "gap" => Some(SampleModule::Gap),
            "stride" => Some(SampleModule::Stride),
            "misplaced" => Some(SampleModule::Misplaced),
            "stretched" => Some(SampleModule::Stretched),
            _ => None,
        }
    }

    /// Adds what the row has to an empty module, with what is known of them.
    pub fn build(self, alloc: Global, shader: &mut ModuleBuilder) -> Result<(), BuildError> {
        match self {
            SampleModule::Empty => Ok(()),
            SampleModule::Identity => build_argument(shader, "f", &["x"]),
            SampleModule::Negative => build_negative(shader),
            SampleModule::Same => build_argument(shader, "f", &["x", "x"]),
            SampleModule::Type_ => build_argument(shader, "type", &["1x"]),
            SampleModule::Hostile => build_argument(shader, "_naga", &["\u{e9}"]),
            SampleModule::Store => build_store(shader, true),
            SampleModule::Unused => build_store(shader, false),
            SampleModule::Late => build_late(shader),
            SampleModule::Inline => build_inline(shader),
            SampleModule::Twofold => build_twofold(shader),
            SampleModule::Named => build_named(shader),
            SampleModule::Pointer => build_pointer(shader),
            SampleModule::Select => build_select(shader),
            SampleModule::Negate => build_negate(shader),
            SampleModule::Double => build_double(shader),
            SampleModule::Numeral => build_numeral(shader),
            SampleModule::Float => build_float(shader),
            SampleModule::Idle => build_idle(shader),
            SampleModule::Sampled => build_image_sample(shader),
            SampleModule::Modf => build_modf(alloc, shader),
            SampleModule::F16 => build_f16(shader),
            SampleModule::Switch => build_switch(alloc, shader),
            SampleModule::Through => build_through(alloc, shader),
            SampleModule::Default => build_default(alloc, shader),
            SampleModule::Barriers => build_barriers(shader),
            SampleModule::Call => build_call(alloc, shader),
            SampleModule::Sibling => build_sibling(alloc, shader),
            SampleModule::Twice => build_twice(alloc, shader),
            SampleModule::Deep => build_deep(alloc, shader),
            SampleModule::Loop => build_loop(alloc, shader),
            SampleModule::Tail => build_tail(alloc, shader),
            SampleModule::Folded => build_folded(alloc, shader),
            SampleModule::Continue => build_continue(alloc, shader),
            SampleModule::Compute => build_compute(shader),
            SampleModule::Struct => build_struct(alloc, shader),
            SampleModule::Override => build_override(shader),
            SampleModule::Global => build_global(alloc, shader),
            SampleModule::Vertex => build_vertex(alloc, shader),
            SampleModule::Constant => build_constant(alloc, shader),
            SampleModule::Flat => build_flat(alloc, shader),
            SampleModule::Atomic => build_atomic(alloc, shader),
            SampleModule::Operator => build_operator(alloc, shader),
            SampleModule::Natural => build_natural(alloc, shader),
            SampleModule::Gap => build_gap(alloc, shader),
            SampleModule::Stride => build_stride(alloc, shader),
            SampleModule::Misplaced => build_misplaced(alloc, shader),
            SampleModule::Stretched => build_stretched(alloc, shader),
        }
    }
}

/// The function, with the return of a value as its end.
pub(crate) fn returning(
    mut function: FunctionBuilder<'_>,
    value: Handle<Expression>,
) -> Result<BuiltFunction, AllocError> {
    function.body.return_value(value)?;
    Ok(function.finish())
}

/// Adds arguments of these labels and this type, and gives the value of the last.
fn add_arguments(
    function: &mut FunctionBuilder<'_>,
    labels: &[&str],
    ty: Handle<Type_>,
) -> Result<Option<Handle<Expression>>, AllocError> {
    let mut last = None;
    for label in labels {
        last = Some(function.argument(*label, ty)?);
    }
    Ok(last)
}

/// A function of this label that has arguments of these labels and returns the last of them.
pub fn build_argument(
    shader: &mut ModuleBuilder,
    label: &str,
    arguments: &[&str],
) -> Result<(), BuildError> {
    let i32_type = shader.scalar(Scalar::I32)?;
    let mut function = shader.function(label)?;
    function.returns(i32_type);
    if let Some(value) = add_arguments(&mut function, arguments, i32_type)? {
        function.body.return_value(value)?;
    }
    let built = function.finish();
    shader.add_function(built)?;
    Ok(())
}

fn build_negative(shader: &mut ModuleBuilder) -> Result<(), BuildError> {
    let bool_type = shader.scalar(Scalar::BOOL)?;
    let i64_type = shader.scalar(Scalar::I64)?;
    let mut function = shader.function("r")?;
    function.argument("b", bool_type)?;
    function.returns(i64_type);
    let minus_seven = function.literal(Literal::I64(-7))?;
    let built = returning(function, minus_seven)?;
    shader.add_function(built)?;
    Ok(())
}

fn build_f16(shader: &mut ModuleBuilder) -> Result<(), BuildError> {
    shader.scalar(Scalar::F16)?;
    Ok(())
}

fn build_named(shader: &mut ModuleBuilder) -> Result<(), BuildError> {
    let i32_type = shader.scalar(Scalar::I32)?;
    let mut function = shader.function("e")?;
    function.returns(i32_type);
    let x = function.argument("x", i32_type)?;
    let sum = function.binary(BinaryOperator::Add, x, x)?;
    function.name(sum, "x")?;
    function.body.emit(sum, sum)?;
    let built = returning(function, sum)?;
    shader.add_function(built)?;
    Ok(())
}

/// A function with a local, a literal 1 that is its first value, and a read of it.
#[derive(Drop)]
struct Held<'a> {
    function: FunctionBuilder<'a>,
    one: Handle<Expression>,
    pointer: Handle<Expression>,
    held: Handle<Expression>,
}

fn begin_held<'a>(
    shader: &'a ModuleBuilder,
    i32_type: Handle<Type_>,
    label: &str,
) -> Result<Held<'a>, BuildError> {
    let mut function = shader.function(label)?;
    function.returns(i32_type);
    let one = function.literal(Literal::I32(1))?;
    let a = function.local("a", i32_type, Some(one))?;
    let pointer = function.pointer_to(a)?;
    let held = function.load(pointer)?;
    Ok(Held {
        function,
        one,
        pointer,
        held,
    })
}

/// Stores 2 to a local that holds 1, and returns what it held, or 2.
fn build_store(shader: &mut ModuleBuilder, is_used: bool) -> Result<(), BuildError> {
    let i32_type = shader.scalar(Scalar::I32)?;
    let Held {
        mut function,
        one: _,
        pointer,
        held,
    } = begin_held(shader, i32_type, "g")?;
    let two = function.literal(Literal::I32(2))?;
    function.body.emit(held, held)?;
    function.body.store(pointer, two)?;
    let built = returning(function, if is_used { held } else { two })?;
    shader.add_function(built)?;
    Ok(())
}

fn build_late(shader: &mut ModuleBuilder) -> Result<(), BuildError> {
    let i32_type = shader.scalar(Scalar::I32)?;
    let Held {
        mut function,
        one,
        pointer,
        held,
    } = begin_held(shader, i32_type, "p")?;
    let sum = function.binary(BinaryOperator::Add, held, one)?;
    let two = function.literal(Literal::I32(2))?;
    function.body.emit(held, sum)?;
    function.body.store(pointer, two)?;
    let built = returning(function, sum)?;
    shader.add_function(built)?;
    Ok(())
}

/// A function with its argument's double, and what the local to which it was stored holds.
#[derive(Drop)]
struct Doubled<'a> {
    function: FunctionBuilder<'a>,
    sum: Handle<Expression>,
    held: Handle<Expression>,
}

fn begin_doubled<'a>(
    shader: &'a ModuleBuilder,
    i32_type: Handle<Type_>,
) -> Result<Doubled<'a>, BuildError> {
    let mut function = shader.function("q")?;
    function.returns(i32_type);
    let x = function.argument("x", i32_type)?;
    let a = function.local("a", i32_type, None)?;
    let pointer = function.pointer_to(a)?;
    let sum = function.binary(BinaryOperator::Add, x, x)?;
    let held = function.load(pointer)?;
    function.body.emit(sum, sum)?;
    function.body.store(pointer, sum)?;
    Ok(Doubled {
        function,
        sum,
        held,
    })
}

fn build_inline(shader: &mut ModuleBuilder) -> Result<(), BuildError> {
    let i32_type = shader.scalar(Scalar::I32)?;
    let Doubled {
        mut function,
        sum: _,
        held,
    } = begin_doubled(shader, i32_type)?;
    function.body.emit(held, held)?;
    let built = returning(function, held)?;
    shader.add_function(built)?;
    Ok(())
}

fn build_twofold(shader: &mut ModuleBuilder) -> Result<(), BuildError> {
    let i32_type = shader.scalar(Scalar::I32)?;
    let Doubled {
        mut function,
        sum,
        held,
    } = begin_doubled(shader, i32_type)?;
    let product = function.binary(BinaryOperator::Multiply, sum, held)?;
    function.body.emit(held, product)?;
    let built = returning(function, product)?;
    shader.add_function(built)?;
    Ok(())
}
