//! Which literals become decimal, wherever they stand.

use crate::{decimal_literal, floats_to_decimals};
use decimal_numerals::Decimal;
use naga_ir::{Arena, EntryPoint, Expression, Function, ItemIndex, Literal, Module, ShaderStage};
use std::alloc::{AllocError, Global};
use std::process::Abort;

const HALF: Decimal = Decimal {
    negative: false,
    digits: 5,
    exponent: -1,
};

const ZERO: Decimal = Decimal {
    negative: false,
    digits: 0,
    exponent: 0,
};

const MINUS_ZERO: Decimal = Decimal {
    negative: true,
    digits: 0,
    exponent: 0,
};

/// It has digits that no float gets.
const LONG_HALF: Decimal = Decimal {
    negative: false,
    digits: 500,
    exponent: -3,
};

#[test]
fn floats_with_numerals_become_decimal(rt: HostRuntime) {
    for (literal, want) in [
        (
            Literal::F64(0x3fe0_0000_0000_0000),
            Literal::DecimalF64(HALF),
        ),
        (Literal::F32(0x3f00_0000), Literal::DecimalF32(HALF)),
        (Literal::F16(0x3800), Literal::DecimalF16(HALF)),
        (Literal::F64(0), Literal::DecimalF64(ZERO)),
        (Literal::F32(0), Literal::DecimalF32(ZERO)),
        (Literal::F16(0x8000), Literal::DecimalF16(MINUS_ZERO)),
        (Literal::F32(0x8000_0000), Literal::DecimalF32(MINUS_ZERO)),
    ] {
        let decimal = decimal_literal(rt.alloc(), literal).expect(&rt, "memory");
        assert_eq!(rt; decimal, want);
    }
}

#[test]
fn others_stay(rt: HostRuntime) {
    for literal in [
        // infinities and NaNs
        Literal::F64(0x7ff0_0000_0000_0000),
        Literal::F64(0x7ff8_0000_0000_0000),
        Literal::F32(0xff80_0000),
        Literal::F32(0x7fc0_0000),
        Literal::F16(0x7c00),
        Literal::F16(0xfe00),
        // no floats
        Literal::Bool(true),
        Literal::I32(-1),
        Literal::U32(0x3f00_0000),
        Literal::AbstractFloat(0x3fe0_0000_0000_0000),
        // decimal already
        Literal::DecimalF32(LONG_HALF),
    ] {
        let decimal = decimal_literal(rt.alloc(), literal).expect(&rt, "memory");
        assert_eq!(rt; decimal, literal);
    }
}

/// A half and an infinity.
fn add_literals(expressions: &mut Arena<Expression>) -> Result<(), AllocError> {
    expressions.append(Expression::Literal(Literal::F32(0x3f00_0000)))?;
    expressions.append(Expression::Literal(Literal::F32(0x7f80_0000)))?;
    Ok(())
}

fn add_function(alloc: Global, functions: &mut Arena<Function>) -> Result<(), AllocError> {
    let mut function = Function::new(alloc);
    add_literals(&mut function.expressions)?;
    functions.append(function)?;
    Ok(())
}

fn add_entry_point(alloc: Global, entry_points: &mut Vec<EntryPoint>) -> Result<(), AllocError> {
    let mut function = Function::new(alloc);
    add_literals(&mut function.expressions)?;
    entry_points.push(EntryPoint {
        name: String::new(alloc),
        stage: ShaderStage::Vertex,
        workgroup_size: [0; 3],
        workgroup_size_overrides: [None, None, None],
        function,
        mesh_info: None,
        task_payload: None,
        incoming_ray_payload: None,
    })?;
    Ok(())
}

/// Whether the first is decimal, and the second as it was.
fn assert_decimal(rt: &impl Abort, expressions: &Arena<Expression>) {
    assert_eq!(rt; expressions.len(), 2);
    match &expressions[ItemIndex::from_index(0)] {
        Expression::Literal(literal) => assert_eq!(rt; *literal, Literal::DecimalF32(HALF)),
        _ => panic!(rt; "a literal stands there"),
    }
    match &expressions[ItemIndex::from_index(1)] {
        Expression::Literal(literal) => assert_eq!(rt; *literal, Literal::F32(0x7f80_0000)),
        _ => panic!(rt; "a literal stands there"),
    }
}

/// Where one allocation is refused, as `rt try --test --fail-alloc` does, a second call goes on.
#[test]
fn literals_are_decimal_wherever_they_stand(rt: HostRuntime) {
    let alloc = rt.alloc();
    let mut module = Module::new(alloc);
    add_literals(&mut module.global_expressions).expect(&rt, "memory");
    add_function(alloc, &mut module.functions).expect(&rt, "memory");
    add_entry_point(alloc, &mut module.entry_points).expect(&rt, "memory");
    if floats_to_decimals(alloc, &mut module).is_err() {
        floats_to_decimals(alloc, &mut module).expect(&rt, "memory");
    }
    assert_decimal(&rt, &module.global_expressions);
    for (_, function) in module.functions.iter() {
        assert_decimal(&rt, &function.expressions);
    }
    for entry_point in &module.entry_points {
        assert_decimal(&rt, &entry_point.function.expressions);
    }
}
