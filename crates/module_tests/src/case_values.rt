//! Switches with many cases, in any order: they are accepted where no value stands twice.
use naga_acceptance::accepts;
use naga_builder::ModuleBuilder;
use naga_ir::{Block, Literal, SwitchCase, SwitchValue};
use std::alloc::Global;
use std::process::Abort;

/// How many values, what they are multiples of, the largest first, and one of them, which is found
/// if it stands once more: among the 4,096 that are sorted at once, as the last of them, as the
/// first after them, and far after.
const ROWS: &[(u32, u32, u32)] = &[
    (100, 1, 99),
    (100, 1, 50),
    (4_094, 1, 0),
    (4_094, 1, 4_093),
    (4_095, 1, 0),
    (4_095, 1, 4_094),
    (10_000, 1, 0),
    (10_000, 1, 9_999),
    (10_000, 1, 5_000),
    (10_000, SHUFFLING, 0),
    (10_000, SHUFFLING, 9_999),
    (300, 1_000_003, 0),
    (300, 1_000_003, 299 * 1_000_003),
];

/// A factor that has none in common with 10,000: what its multiples leave by division by that are
/// the numbers below it, in no order.
const SHUFFLING: u32 = 7_919;

/// The value with this number.
fn case_value(number: u32, step: u32) -> SwitchValue {
    let product = number.wrapping_mul(step);
    SwitchValue::U32(if step == SHUFFLING {
        product % 10_000
    } else {
        product
    })
}

/// The values of the cases of a row, and a default.
fn case_values(rt: &impl Abort, alloc: Global, count: u32, step: u32) -> Vec<SwitchValue> {
    let mut case_values = Vec::new(alloc);
    for number in (0..count).rev() {
        case_values
            .push(case_value(number, step))
            .expect(rt, "memory");
    }
    case_values.push(SwitchValue::Default).expect(rt, "memory");
    case_values
}

/// An empty case for each value.
fn cases(rt: &impl Abort, alloc: Global, case_values: &[SwitchValue]) -> Vec<SwitchCase> {
    let mut cases = Vec::new(alloc);
    for case_value in case_values {
        let case = SwitchCase {
            value: *case_value,
            body: Block::new(alloc),
            fall_through: false,
        };
        cases.push(case).expect(rt, "memory");
    }
    cases
}

/// Whether a module is accepted whose function's body is a switch over a number.
fn is_accepted(rt: &impl Abort, alloc: Global, case_values: &[SwitchValue]) -> bool {
    let mut shader = ModuleBuilder::new(alloc);
    let mut function = shader.unlabelled_function();
    let selector = function.literal(Literal::U32(1)).expect(rt, "memory");
    let cases = cases(rt, alloc, case_values);
    function.body.switch(selector, cases).expect(rt, "memory");
    let built = function.finish();
    shader.add_function(built).expect(rt, "memory");
    accepts(&shader.module, &shader.info)
}

/// The switch is accepted with these values, and no longer with one of them once more, or with
/// another default.
fn check(rt: &impl Abort, alloc: Global, case_values: &mut Vec<SwitchValue>, again: u32) {
    assert!(rt; is_accepted(rt, alloc, case_values), "{again}");
    case_values
        .push(SwitchValue::U32(again))
        .expect(rt, "memory");
    assert!(rt; !is_accepted(rt, alloc, case_values), "{again}");
    case_values.pop();
    case_values.push(SwitchValue::Default).expect(rt, "memory");
    assert!(rt; !is_accepted(rt, alloc, case_values), "{again}");
}

#[test]
fn no_case_value_stands_twice(rt: HostRuntime) {
    for (count, step, again) in ROWS {
        let mut case_values = case_values(&rt, rt.alloc(), *count, *step);
        check(&rt, rt.alloc(), &mut case_values, *again);
    }
}
