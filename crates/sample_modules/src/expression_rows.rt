//! The rows of expressions: each is a function with the expressions that it is about.

use crate::rows::returning;
use crate::structs::add_struct;
use decimal_numerals::Decimal;
use naga_builder::{BuildError, FunctionBuilder, ModuleBuilder};
use naga_ir::{
    ArraySize, BinaryOperator, Expression, Handle, ImageClass, ImageDimension, Literal,
    MathFunction, PredeclaredType, SampleLevel, Scalar, ScalarKind, Type_, TypeInner,
    UnaryOperator, VectorSize,
};
use std::alloc::{AllocError, Global};
use std::num::NonZeroU32;

/// How often an element is doubled by [`build_double`].
const DOUBLINGS: u32 = 12;

/// Four integers.
fn array_of_four(
    shader: &mut ModuleBuilder,
    element: Handle<Type_>,
) -> Result<Handle<Type_>, AllocError> {
    let size = match NonZeroU32::new(4) {
        Some(length) => ArraySize::Constant(length),
        None => ArraySize::Dynamic,
    };
    shader.type_of(TypeInner::Array {
        base: element,
        size,
        stride: 4,
    })
}

/// Stores 2 through a pointer to the first element of a local, which a front end named.
pub fn build_pointer(shader: &mut ModuleBuilder) -> Result<(), BuildError> {
    let element = shader.scalar(Scalar::I32)?;
    let array = array_of_four(shader, element)?;
    let mut function = shader.function("h")?;
    let local = function.local("arr", array, None)?;
    let array = function.pointer_to(local)?;
    let part = function.part(array, 0)?;
    let two = function.literal(Literal::I32(2))?;
    function.name(part, "p")?;
    function.body.emit(part, part)?;
    function.body.store(part, two)?;
    let built = function.finish();
    shader.add_function(built)?;
    Ok(())
}

/// Returns one of two arguments, by a third.
pub fn build_select(shader: &mut ModuleBuilder) -> Result<(), BuildError> {
    let bool_type = shader.scalar(Scalar::BOOL)?;
    let i32_type = shader.scalar(Scalar::I32)?;
    let mut function = shader.function("sel")?;
    function.returns(i32_type);
    let condition = function.argument("c", bool_type)?;
    let accept = function.argument("a", i32_type)?;
    let reject = function.argument("b", i32_type)?;
    let chosen = function.select(condition, accept, reject)?;
    function.body.emit(chosen, chosen)?;
    let built = returning(function, chosen)?;
    shader.add_function(built)?;
    Ok(())
}

/// Returns a component of a negated vector.
pub fn build_negate(shader: &mut ModuleBuilder) -> Result<(), BuildError> {
    let vector = shader.vector(VectorSize::Tri, Scalar::I32)?;
    let i32_type = shader.scalar(Scalar::I32)?;
    let mut function = shader.function("neg")?;
    function.returns(i32_type);
    let v = function.argument("v", vector)?;
    let negated = function.unary(UnaryOperator::Negate, v)?;
    let part = function.part(negated, 0)?;
    function.body.emit(negated, part)?;
    let built = returning(function, part)?;
    shader.add_function(built)?;
    Ok(())
}

/// Adds the element at the sum of an element with itself, and so on, and gives the last.
fn doubled(
    function: &mut FunctionBuilder<'_>,
    base: Handle<Expression>,
    first: Handle<Expression>,
) -> Result<Handle<Expression>, BuildError> {
    let mut last = first;
    for _ in 0..DOUBLINGS {
        let index = function.binary(BinaryOperator::Add, last, last)?;
        last = function.expression(Expression::Access { base, index })?;
    }
    Ok(last)
}

/// Returns an element at the sum of an element with itself, and so on. No `let` binds an element,
/// so that each sum has its text twice.
pub fn build_double(shader: &mut ModuleBuilder) -> Result<(), BuildError> {
    let vector = shader.vector(VectorSize::Quad, Scalar::I32)?;
    let i32_type = shader.scalar(Scalar::I32)?;
    let mut function = shader.function("d")?;
    function.returns(i32_type);
    let base = function.argument("t", vector)?;
    let index = function.argument("x", i32_type)?;
    let first = function.expression(Expression::Access { base, index })?;
    let last = doubled(&mut function, base, first)?;
    function.body.emit(first, last)?;
    let built = returning(function, last)?;
    shader.add_function(built)?;
    Ok(())
}

/// Returns a float that is decimal.
pub fn build_numeral(shader: &mut ModuleBuilder) -> Result<(), BuildError> {
    let f32_type = shader.scalar(Scalar::F32)?;
    let mut function = shader.function("w")?;
    function.returns(f32_type);
    let half = function.literal(Literal::DecimalF32(Decimal {
        negative: false,
        digits: 5,
        exponent: -1,
    }))?;
    let built = returning(function, half)?;
    shader.add_function(built)?;
    Ok(())
}

/// Returns a float literal that is held as its bits, for which no text is written.
pub fn build_float(shader: &mut ModuleBuilder) -> Result<(), BuildError> {
    let f32_type = shader.scalar(Scalar::F32)?;
    let mut function = shader.function("w")?;
    function.returns(f32_type);
    let one = function.literal(Literal::F32(0x3f80_0000))?;
    let built = returning(function, one)?;
    shader.add_function(built)?;
    Ok(())
}

/// Returns a whole number, beside a float literal that nothing mentions.
pub fn build_idle(shader: &mut ModuleBuilder) -> Result<(), BuildError> {
    let i32_type = shader.scalar(Scalar::I32)?;
    let mut function = shader.function("u")?;
    function.returns(i32_type);
    function.literal(Literal::F32(0x3f80_0000))?;
    let one = function.literal(Literal::I32(1))?;
    let built = returning(function, one)?;
    shader.add_function(built)?;
    Ok(())
}

/// Samples an image at level zero.
pub fn build_image_sample(shader: &mut ModuleBuilder) -> Result<(), BuildError> {
    let image_type = shader.type_of(TypeInner::Image {
        dim: ImageDimension::D2,
        arrayed: false,
        class: ImageClass::Sampled {
            kind: ScalarKind::Float,
            multi: false,
        },
    })?;
    let sampler_type = shader.type_of(TypeInner::Sampler { comparison: false })?;
    let pair = shader.vector(VectorSize::Bi, Scalar::F32)?;
    let color = shader.vector(VectorSize::Quad, Scalar::F32)?;
    let mut function = shader.function("sp")?;
    function.returns(color);
    let image = function.argument("t", image_type)?;
    let sampler = function.argument("s", sampler_type)?;
    let coordinate = function.argument("p", pair)?;
    let sampled = function.expression(Expression::ImageSample {
        image,
        sampler,
        gather: None,
        coordinate,
        array_index: None,
        offset: None,
        level: SampleLevel::Zero,
        depth_ref: None,
        clamp_to_edge: false,
    })?;
    function.body.emit(sampled, sampled)?;
    let built = returning(function, sampled)?;
    shader.add_function(built)?;
    Ok(())
}

/// Tells the struct of what `modf` gives for a number.
fn tell_parts_of_a_number(
    alloc: Global,
    shader: &mut ModuleBuilder,
    number: Handle<Type_>,
) -> Result<(), AllocError> {
    let members = [("fract", number), ("whole", number)];
    let parts = add_struct(alloc, shader, "__modf_result_f32", &members)?;
    let given = PredeclaredType::ModfResult {
        size: None,
        scalar: Scalar::F32,
    };
    shader.predeclared(given, parts)
}

/// Adds both parts of a number, which are the members of a struct that WGSL's own function gives.
pub fn build_modf(alloc: Global, shader: &mut ModuleBuilder) -> Result<(), BuildError> {
    let f32_type = shader.scalar(Scalar::F32)?;
    tell_parts_of_a_number(alloc, shader, f32_type)?;
    let mut function = shader.function("m")?;
    function.returns(f32_type);
    let x = function.argument("x", f32_type)?;
    let parts = function.expression(Expression::Math {
        fun: MathFunction::Modf,
        arg: x,
        arg1: None,
        arg2: None,
        arg3: None,
    })?;
    let fract = function.part(parts, 0)?;
    let whole = function.part(parts, 1)?;
    let sum = function.binary(BinaryOperator::Add, fract, whole)?;
    function.body.emit(parts, sum)?;
    let built = returning(function, sum)?;
    shader.add_function(built)?;
    Ok(())
}
