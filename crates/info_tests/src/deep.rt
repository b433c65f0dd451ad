//! Counts by which operands stand less deep.

use naga_acceptance::count;
use naga_inference::infer;
use naga_info::{FunctionInfo, ModuleInfo};
use naga_ir::{
    BinaryOperator, Expression, Function, FunctionArgument, FunctionResult, Handle, Module, Range,
    Scalar, Statement, Type_, TypeInner,
};
use operand_levels::{MOST_LEVELS, bind_deep_operands};
use std::alloc::{AllocError, Global};
use std::process::Abort;

/// `x + x + ..` of so many sums, each of which is used once: by the next one, or by the `return`.
fn add_long_sum(alloc: Global, module: &mut Module, sums: usize) -> Result<(), AllocError> {
    let number = module.types.insert(Type_ {
        name: None,
        inner: TypeInner::Scalar(Scalar::I32),
    })?;
    let mut function = Function::new(alloc);
    function.arguments.push(FunctionArgument {
        name: None,
        ty: number,
        binding: None,
    })?;
    function.result = Some(FunctionResult {
        ty: number,
        binding: None,
    });
    let x = function
        .expressions
        .append(Expression::FunctionArgument(0))?;
    let mut sum = x;
    for _ in 0..sums {
        sum = function.expressions.append(Expression::Binary {
            op: BinaryOperator::Add,
            left: sum,
            right: x,
        })?;
    }
    function.body.push(Statement::Emit(Range {
        first: 1,
        end: function.expressions.len(),
    }))?;
    function.body.push(Statement::Return { value: Some(sum) })?;
    module.functions.append(function)?;
    Ok(())
}

/// How many sums are bound, each past as many as may stand in one another.
fn number_bound(rt: &impl Abort, known: &FunctionInfo) -> usize {
    let mut bound = 0usize;
    for (index, expression) in known.expressions.iter().enumerate() {
        let uses = expression.ref_count;
        if index == 0 {
            assert!(rt; uses > 2);
        } else if uses == 2 {
            bound = bound.saturating_add(1);
            assert_eq!(rt; index, bound.saturating_mul(MOST_LEVELS + 1));
        } else {
            assert_eq!(rt; uses, 1);
        }
    }
    bound
}

fn counted(rt: &impl Abort, alloc: Global, module: &Module) -> ModuleInfo {
    match infer(alloc, module).expect(rt, "memory") {
        Ok(mut info) => {
            count(&mut info, module);
            info
        }
        Err(_) => panic!(rt; "its types are known"),
    }
}

/// A sum of 300 terms has four `let`s, and a short one none. Where memory is refused, a second call
/// goes on.
#[test]
fn deep_operands_are_bound(rt: HostRuntime) {
    let alloc = rt.alloc();
    let mut module = Module::new(alloc);
    add_long_sum(alloc, &mut module, 299).expect(&rt, "memory");
    add_long_sum(alloc, &mut module, MOST_LEVELS).expect(&rt, "memory");
    let mut info = counted(&rt, alloc, &module);
    let raises = match bind_deep_operands(alloc, &mut info, &module) {
        Ok(raises) => raises,
        Err(_) => bind_deep_operands(alloc, &mut info, &module).expect(&rt, "memory"),
    };
    assert!(rt; raises);
    match info.functions.as_slice() {
        [long, short] => {
            assert_eq!(rt; number_bound(&rt, long), 4);
            assert_eq!(rt; number_bound(&rt, short), 0);
        }
        _ => panic!(rt; "two functions"),
    }
}

/// Of a short sum alone no count is raised.
#[test]
fn shallow_operands_are_left(rt: HostRuntime) {
    let alloc = rt.alloc();
    let mut module = Module::new(alloc);
    add_long_sum(alloc, &mut module, MOST_LEVELS).expect(&rt, "memory");
    let mut info = counted(&rt, alloc, &module);
    assert!(rt; !bind_deep_operands(alloc, &mut info, &module).expect(&rt, "memory"));
}
