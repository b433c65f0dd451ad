//! A module is asked for, counted and written at once.
use naga_json::read_known;
use naga_wgsl_out::info::{FaultPosition, InferenceError};
use naga_wgsl_out::ir::{Expression, Literal, MathFunction, Module};
use naga_wgsl_out::wgsl::{
    CheckedError, LimitedError, Limits, Nested, nested_past, no_flags, write_checked,
    write_checked_within, write_inferred, write_inferred_within,
};
use std::process::Abort;

/// A function that returns what a local held before a store to it, whose uses are not counted.
const STORE: &str = r#"{
    "module": {
        "types": [{"inner": {"Scalar": {"kind": "Sint", "width": 4}}}],
        "functions": [{
            "name": "g",
            "result": {"ty": 0},
            "local_variables": [{"name": "a", "ty": 0, "init": 0}],
            "expressions": [
                {"Literal": {"I32": 1}},
                {"LocalVariable": 0},
                {"Load": {"pointer": 1}},
                {"Literal": {"I32": 2}}
            ],
            "body": [
                {"Emit": {"start": 2, "end": 3}},
                {"Store": {"pointer": 1, "value": 3}},
                {"Return": {"value": 2}}
            ]
        }]
    },
    "info": {"functions": [[0, {"Value": {"Pointer": {"base": 0, "space": "Function"}}}, 0, 0]]}
}"#;

const STORE_TEXT: &str =
    "fn g() -> i32 {\n    var a: i32 = 1i;\n\n    let _e2 = a;\n    a = 2i;\n    return _e2;\n}\n\n";

#[test]
fn a_module_is_asked_for_and_written(rt: HostRuntime) {
    let alloc = rt.alloc();
    let mut known = read_known(alloc, STORE).expect(&rt, "a module");
    let text = write_checked(alloc, &known.module, &mut known.info, no_flags());
    assert_eq!(rt; text.expect(&rt, "a text").as_str(), STORE_TEXT);
    known.info.functions.clear();
    let answer = write_checked(alloc, &known.module, &mut known.info, no_flags());
    assert!(rt; matches!(answer, Err(CheckedError::NotAccepted(_))));
}

/// Adds a `modf` of which the module tells no struct, and gives its position.
fn add_modf(rt: &impl Abort, module: &mut Module) -> FaultPosition {
    let expressions = &mut module.global_expressions;
    let number = Expression::Literal(Literal::I32(1));
    let number = expressions.append(number).expect(rt, "memory");
    let parts = Expression::Math {
        fun: MathFunction::Modf,
        arg: number,
        arg1: None,
        arg2: None,
        arg3: None,
    };
    FaultPosition::GlobalExpression(expressions.append(parts).expect(rt, "memory"))
}

/// The same of the module alone; and with a `modf`, of which the module tells no struct.
#[test]
fn a_module_alone_is_written(rt: HostRuntime) {
    let alloc = rt.alloc();
    let mut known = read_known(alloc, STORE).expect(&rt, "a module");
    let text = write_inferred(alloc, &known.module, no_flags());
    assert_eq!(rt; text.expect(&rt, "a text").as_str(), STORE_TEXT);
    let expected = InferenceError::Undeclared(add_modf(&rt, &mut known.module));
    let answer = write_inferred(alloc, &known.module, no_flags());
    match &answer {
        Err(CheckedError::NotAccepted(error)) => assert_eq!(rt; *error, expected),
        _ => panic!(rt; "an error of inference"),
    }
}

/// The same within limits: a text that is as long as it may be, and one that is longer; a module that
/// is nested deeper.
#[test]
fn a_module_is_written_within_limits(rt: HostRuntime) {
    let alloc = rt.alloc();
    let mut known = read_known(alloc, STORE).expect(&rt, "a module");
    let mut limits = Limits {
        nesting: 9,
        text: STORE_TEXT.len(),
    };
    let text = write_checked_within(alloc, &known.module, &mut known.info, no_flags(), limits);
    assert_eq!(rt; text.expect(&rt, "a text").as_str(), STORE_TEXT);
    limits.text -= 1;
    let answer = write_checked_within(alloc, &known.module, &mut known.info, no_flags(), limits);
    assert!(rt; matches!(answer, Err(LimitedError::TooLong)));
    limits.nesting = 0;
    let answer = write_checked_within(alloc, &known.module, &mut known.info, no_flags(), limits);
    assert!(rt; matches!(answer, Err(LimitedError::TooDeep(Nested::Blocks))));
    let nested = nested_past(alloc, &known.module, 1);
    assert!(rt; matches!(nested, Ok(Some(Nested::Operands))));
}

/// The same of the module alone; and one that is not accepted with the types that are found.
#[test]
fn a_module_alone_is_written_within_limits(rt: HostRuntime) {
    let alloc = rt.alloc();
    let mut known = read_known(alloc, STORE).expect(&rt, "a module");
    let mut limits = Limits {
        nesting: 9,
        text: STORE_TEXT.len(),
    };
    let text = write_inferred_within(alloc, &known.module, no_flags(), limits);
    assert_eq!(rt; text.expect(&rt, "a text").as_str(), STORE_TEXT);
    limits.text -= 1;
    let answer = write_inferred_within(alloc, &known.module, no_flags(), limits);
    assert!(rt; matches!(answer, Err(LimitedError::TooLong)));
    add_modf(&rt, &mut known.module);
    let answer = write_inferred_within(alloc, &known.module, no_flags(), limits);
    assert!(rt; matches!(answer, Err(LimitedError::NotAccepted(_))));
    limits.nesting = 0;
    let answer = write_inferred_within(alloc, &known.module, no_flags(), limits);
    assert!(rt; matches!(answer, Err(LimitedError::TooDeep(Nested::Blocks))));
}
