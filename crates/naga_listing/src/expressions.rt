//! Expressions, each in a line: what it is, its operands by their names, and what it names beside.

use crate::lookup::item_at;
use crate::operands::{MOST_FIELDS, push_field, push_list, push_numbered, push_operand};
use float_numerals::{
    double_decimal, half_decimal, push_double, push_half, push_single, single_decimal,
};
use naga_fields::{expression_field, expression_name};
use naga_ir::{
    Constant, Expression, Function, GlobalVariable, Handle, ImageQuery, Literal, LocalVariable,
    Module, Override, SampleLevel, SwizzleComponent, Type_, VectorSize,
};
use std::alloc::{AllocError, Global};

/// Appends what an expression is: `Binary Add left: [0], right: [2]`. The function is the one that
/// it belongs to, if it is none of the module's own.
pub(crate) fn push_expression(
    alloc: Global,
    module: &Module,
    function: Option<&Function>,
    expression: &Expression,
    out: &mut String,
) -> Result<(), AllocError> {
    out.push_str(expression_name(expression))?;
    push_named(alloc, module, function, expression, out)?;
    push_choice(expression, out)?;
    push_of_expression(expression, out)
}

// ---- what it names beside its operands

/// Appends what the expression names that is no expression.
fn push_named(
    alloc: Global,
    module: &Module,
    function: Option<&Function>,
    expression: &Expression,
    out: &mut String,
) -> Result<(), AllocError> {
    match expression {
        Expression::Literal(literal) => push_literal(alloc, *literal, out),
        Expression::Constant(handle) => push_constant(module, *handle, out),
        Expression::Override(handle) => push_override(module, *handle, out),
        Expression::GlobalVariable(handle) => push_global(module, *handle, out),
        Expression::CallResult(handle) => push_function(module, *handle, out),
        Expression::FunctionArgument(number) => push_argument(function, *number, out),
        Expression::LocalVariable(handle) => push_local(function, *handle, out),
        Expression::ZeroValue(ty) => push_type_number(*ty, out),
        Expression::Compose { ty, .. } => push_type_number(*ty, out),
        Expression::AtomicResult { ty, .. } => push_type_number(*ty, out),
        Expression::WorkGroupUniformLoadResult { ty } => push_type_number(*ty, out),
        Expression::SubgroupOperationResult { ty } => push_type_number(*ty, out),
        _ => Ok(()),
    }
}

/// Appends a literal: a float that is decimal as in a text, one that is held as its bits as a
/// number, any other as it is held.
fn push_literal(alloc: Global, literal: Literal, out: &mut String) -> Result<(), AllocError> {
    match literal {
        Literal::DecimalF64(decimal) => {
            out.push_str(" DecimalF64 ")?;
            push_double(decimal, out)
        }
        Literal::DecimalF32(decimal) => {
            out.push_str(" DecimalF32 ")?;
            push_single(decimal, out)
        }
        Literal::DecimalF16(decimal) => {
            out.push_str(" DecimalF16 ")?;
            push_half(decimal, out)
        }
        Literal::F64(bits) => push_double_bits(alloc, "F64", bits, out),
        Literal::AbstractFloat(bits) => push_double_bits(alloc, "AbstractFloat", bits, out),
        Literal::F32(bits) => push_single_bits(alloc, bits, out),
        Literal::F16(bits) => push_half_bits(alloc, bits, out),
        _ => write!(out, " {literal:?}"),
    }
}

/// Appends the `f64` with these bits: ` F64(0.5)`.
fn push_double_bits(
    alloc: Global,
    name: &str,
    bits: u64,
    out: &mut String,
) -> Result<(), AllocError> {
    write!(out, " {name}(")?;
    match double_decimal(alloc, bits)? {
        Some(decimal) => {
            let mut numeral = String::new(alloc);
            push_double(decimal, &mut numeral)?;
            push_without("lf", numeral.as_str(), out)?;
        }
        None if bits == 0x7ff0_0000_0000_0000 => out.push_str("inf")?,
        None if bits == 0xfff0_0000_0000_0000 => out.push_str("-inf")?,
        None => write!(out, "bits 0x{bits:x}")?,
    }
    out.push_str(")")
}

/// The same of an `f32`.
fn push_single_bits(alloc: Global, bits: u32, out: &mut String) -> Result<(), AllocError> {
    out.push_str(" F32(")?;
    match single_decimal(alloc, bits)? {
        Some(decimal) => {
            let mut numeral = String::new(alloc);
            push_single(decimal, &mut numeral)?;
            push_without("f", numeral.as_str(), out)?;
        }
        None if bits == 0x7f80_0000 => out.push_str("inf")?,
        None if bits == 0xff80_0000 => out.push_str("-inf")?,
        None => write!(out, "bits 0x{bits:x}")?,
    }
    out.push_str(")")
}

/// The same of an `f16`.
fn push_half_bits(alloc: Global, bits: u16, out: &mut String) -> Result<(), AllocError> {
    out.push_str(" F16(")?;
    match half_decimal(alloc, bits)? {
        Some(decimal) => {
            let mut numeral = String::new(alloc);
            push_half(decimal, &mut numeral)?;
            push_without("h", numeral.as_str(), out)?;
        }
        None if bits == 0x7c00 => out.push_str("inf")?,
        None if bits == 0xfc00 => out.push_str("-inf")?,
        None => write!(out, "bits 0x{bits:x}")?,
    }
    out.push_str(")")
}

/// Appends a numeral without the letters at its end that state its type.
fn push_without(suffix: &str, numeral: &str, out: &mut String) -> Result<(), AllocError> {
    match numeral.strip_suffix(suffix) {
        Some(digits) => out.push_str(digits),
        None => out.push_str(numeral),
    }
}

fn push_constant(
    module: &Module,
    handle: Handle<Constant>,
    out: &mut String,
) -> Result<(), AllocError> {
    let label = match item_at(&module.constants, handle) {
        Some(constant) => constant.name.as_ref(),
        None => None,
    };
    push_numbered(handle.index(), label, out)
}

fn push_override(
    module: &Module,
    handle: Handle<Override>,
    out: &mut String,
) -> Result<(), AllocError> {
    let label = match item_at(&module.overrides, handle) {
        Some(item) => item.name.as_ref(),
        None => None,
    };
    push_numbered(handle.index(), label, out)
}

fn push_global(
    module: &Module,
    handle: Handle<GlobalVariable>,
    out: &mut String,
) -> Result<(), AllocError> {
    let label = match item_at(&module.global_variables, handle) {
        Some(variable) => variable.name.as_ref(),
        None => None,
    };
    push_numbered(handle.index(), label, out)
}

/// Appends the number of a function and its label, if it has one: ` 2 "double"`.
pub(crate) fn push_function(
    module: &Module,
    handle: Handle<Function>,
    out: &mut String,
) -> Result<(), AllocError> {
    let label = match item_at(&module.functions, handle) {
        Some(function) => function.name.as_ref(),
        None => None,
    };
    push_numbered(handle.index(), label, out)
}

fn push_argument(
    function: Option<&Function>,
    number: u32,
    out: &mut String,
) -> Result<(), AllocError> {
    let label = match function {
        Some(function) => argument_label(function, number as usize),
        None => None,
    };
    push_numbered(number as usize, label, out)
}

fn argument_label(function: &Function, number: usize) -> Option<&String> {
    function.arguments.get(number)?.name.as_ref()
}

fn push_local(
    function: Option<&Function>,
    handle: Handle<LocalVariable>,
    out: &mut String,
) -> Result<(), AllocError> {
    let label = match function {
        Some(function) => local_label(function, handle),
        None => None,
    };
    push_numbered(handle.index(), label, out)
}

fn local_label(function: &Function, handle: Handle<LocalVariable>) -> Option<&String> {
    item_at(&function.local_variables, handle)?.name.as_ref()
}

fn push_type_number(ty: Handle<Type_>, out: &mut String) -> Result<(), AllocError> {
    write!(out, " type {}", ty.index())
}

// ---- which of its kind it is

/// Appends which operator, query or part is meant.
fn push_choice(expression: &Expression, out: &mut String) -> Result<(), AllocError> {
    match expression {
        Expression::Splat { size, .. } => write!(out, " {size:?}"),
        Expression::Swizzle { size, pattern, .. } => push_pattern(*size, pattern, out),
        Expression::ImageSample {
            gather,
            level,
            clamp_to_edge,
            ..
        } => push_sampling(*gather, *level, *clamp_to_edge, out),
        Expression::ImageQuery { query, .. } => out.push_str(query_name(*query)),
        Expression::Unary { op, .. } => write!(out, " {op:?}"),
        Expression::Binary { op, .. } => write!(out, " {op:?}"),
        Expression::Derivative { axis, ctrl, .. } => write!(out, " {axis:?} {ctrl:?}"),
        Expression::Relational { fun, .. } => write!(out, " {fun:?}"),
        Expression::Math { fun, .. } => write!(out, " {fun:?}"),
        Expression::As { kind, convert, .. } => match convert {
            Some(width) => write!(out, " {kind:?} of {width} bytes"),
            None => write!(out, " {kind:?} of the same bits"),
        },
        Expression::AtomicResult { comparison, .. } if *comparison => { out.push_str(" compared") }
        Expression::RayQueryGetIntersection { committed, .. } => {
            out.push_str(hit_name(*committed))
        }
        Expression::RayQueryVertexPositions { committed, .. } => {
            out.push_str(hit_name(*committed))
        }
        Expression::CooperativeLoad {
            columns,
            rows,
            role,
            data_,
        } => {
            write!(out, " {columns:?} {rows:?} {role:?}")?;
            out.push_str(order_name(data_.row_major))
        }
        _ => Ok(()),
    }
}

/// Appends the components of a swizzle, as far as they count: ` zyx`.
fn push_pattern(
    size: VectorSize,
    pattern: &[SwizzleComponent; 4],
    out: &mut String,
) -> Result<(), AllocError> {
    out.push_str(" ")?;
    for component in pattern.iter().take(size as usize) {
        out.push_str(component_name(*component))?;
    }
    Ok(())
}

fn component_name(component: SwizzleComponent) -> &'static str {
    match component {
        SwizzleComponent::X => "x",
        SwizzleComponent::Y => "y",
        SwizzleComponent::Z => "z",
        SwizzleComponent::W => "w",
    }
}

fn push_sampling(
    gather: Option<SwizzleComponent>,
    level: SampleLevel,
    clamp_to_edge: bool,
    out: &mut String,
) -> Result<(), AllocError> {
    if let Some(component) = gather {
        out.push_str(" gather ")?;
        out.push_str(component_name(component))?;
    }
    out.push_str(level_name(level))?;
    if clamp_to_edge {
        out.push_str(" clamp_to_edge")?;
    }
    Ok(())
}

fn level_name(level: SampleLevel) -> &'static str {
    match level {
        SampleLevel::Auto => " Auto",
        SampleLevel::Zero => " Zero",
        SampleLevel::Exact(_) => " Exact",
        SampleLevel::Bias(_) => " Bias",
        SampleLevel::Gradient { .. } => " Gradient",
    }
}

fn query_name(query: ImageQuery) -> &'static str {
    match query {
        ImageQuery::Size { .. } => " Size",
        ImageQuery::NumLevels => " NumLevels",
        ImageQuery::NumLayers => " NumLayers",
        ImageQuery::NumSamples => " NumSamples",
    }
}

fn hit_name(committed: bool) -> &'static str {
    if committed {
        " committed"
    } else {
        " candidate"
    }
}

/// How a cooperative matrix lies in memory.
fn order_name(row_major: bool) -> &'static str {
    if row_major { " by rows" } else { " by columns" }
}

// ---- its operands

/// Appends the operands by their names, and after them the index that is known.
fn push_of_expression(expression: &Expression, out: &mut String) -> Result<(), AllocError> {
    if let Expression::Compose { components, .. } = expression {
        push_list("components", components, out)?;
    }
    let mut separator = " ";
    for number in 0..MOST_FIELDS {
        if let Some((name, operand)) = expression_field(expression, number) {
            if push_field(separator, name, operand, out)? {
                separator = ", ";
            }
        }
    }
    match expression {
        Expression::AccessIndex { index, .. } => write!(out, ", index: {index}"),
        Expression::ImageSample { level, .. } => push_level(*level, out),
        _ => Ok(()),
    }
}

fn push_level(level: SampleLevel, out: &mut String) -> Result<(), AllocError> {
    match level {
        SampleLevel::Auto | SampleLevel::Zero => Ok(()),
        SampleLevel::Exact(handle) | SampleLevel::Bias(handle) => {
            push_operand(" ", "level", handle, out)
        }
        SampleLevel::Gradient { x, y } => {
            push_operand(" ", "x", x, out)?;
            push_operand(", ", "y", y, out)
        }
    }
}
