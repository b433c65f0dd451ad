//! Statements and operands that stand in one another, many times over.
use crate::modules::{built_text, written};
use naga_wgsl_out::builder::{BlockBuilder, ModuleBuilder};
use std::alloc::Global;
use std::mem;
use std::process::Abort;

/// How many blocks and loops stand in one another: more than are read from JSON.
const BLOCKS: usize = 1_000;

/// How many sums stand in one another.
const SUMS: usize = 2_000;

// ---- blocks and loops

/// Whether the statement with this many inside it is a loop, and not a block.
fn is_loop(inside: usize) -> bool {
    inside % 2 == 1
}

/// Puts what a block does into a block or a loop, in turn, so often.
fn nest(rt: &impl Abort, alloc: Global, block: &mut BlockBuilder, depth: usize) {
    for inside in 0..depth {
        let inner = mem::replace(block, BlockBuilder::new(alloc));
        let nested = if is_loop(inside) {
            block.loop_(inner, BlockBuilder::new(alloc), None)
        } else {
            block.block(inner)
        };
        nested.expect(rt, "memory");
    }
}

/// Adds a line at a level.
fn push_line(rt: &impl Abort, alloc: Global, text: &mut String, level: usize, line: &str) {
    let indent = "    ".repeat(alloc, level).expect(rt, "memory");
    text.push_str(indent.as_str()).expect(rt, "memory");
    text.push_str(line).expect(rt, "memory");
}

/// A function with so many statements in one another.
fn nested_text(rt: &impl Abort, alloc: Global, depth: usize) -> String {
    let mut text = String::from_str(alloc, "fn nested() {\n").expect(rt, "memory");
    for inside in (0..depth).rev() {
        let head = if is_loop(inside) { "loop {\n" } else { "{\n" };
        push_line(rt, alloc, &mut text, depth - inside, head);
    }
    for inside in 0..depth {
        push_line(rt, alloc, &mut text, depth - inside, "}\n");
    }
    text.push_str("}\n\n").expect(rt, "memory");
    text
}

#[test]
fn blocks_and_loops_stand_in_one_another(rt: HostRuntime) {
    let alloc = rt.alloc();
    let mut shader = ModuleBuilder::new(alloc);
    let mut function = shader.function("nested").expect(&rt, "memory");
    nest(&rt, alloc, &mut function.body, BLOCKS);
    let built = function.finish();
    shader.add_function(built).expect(&rt, "memory");
    let text = built_text(&rt, alloc, &shader);
    assert!(rt; text.as_str() == nested_text(&rt, alloc, BLOCKS).as_str());
}

// ---- sums

/// A function that returns so many sums with its argument over one another.
fn sums_module(rt: &impl Abort, alloc: Global, depth: usize) -> String {
    let mut sums = String::new(alloc);
    for left in 0..depth {
        let sum = format!(in alloc;
            r#", {{"Binary": {{"op": "Add", "left": {left}, "right": 0}}}}"#
        );
        sums.push_str(sum.expect(rt, "memory").as_str())
            .expect(rt, "memory");
    }
    let known = ", 0".repeat(alloc, depth).expect(rt, "memory");
    format!(in alloc;
        r#"{{
            "module": {{
                "types": [{{"inner": {{"Scalar": {{"kind": "Sint", "width": 4}}}}}}],
                "functions": [{{
                    "name": "sums",
                    "arguments": [{{"name": "x", "ty": 0}}],
                    "result": {{"ty": 0}},
                    "expressions": [{{"FunctionArgument": 0}}{sums}],
                    "body": [{{"Emit": {{"start": 1, "end": {}}}}}, {{"Return": {{"value": {depth}}}}}]
                }}]
            }},
            "info": {{"functions": [[0{known}]]}}
        }}"#,
        depth.saturating_add(1)
    )
    .expect(rt, "memory")
}

/// The text of that function.
fn sums_text(rt: &impl Abort, alloc: Global, depth: usize) -> String {
    let opened = "(".repeat(alloc, depth).expect(rt, "memory");
    let closed = " + x)".repeat(alloc, depth).expect(rt, "memory");
    format!(in alloc; "fn sums(x: i32) -> i32 {{\n    return {opened}x{closed};\n}}\n\n").expect(
        rt, "memory",
    )
}

#[test]
fn operands_stand_in_one_another(rt: HostRuntime) {
    let alloc = rt.alloc();
    let text = written(&rt, alloc, sums_module(&rt, alloc, SUMS).as_str());
    assert!(rt; text.as_str() == sums_text(&rt, alloc, SUMS).as_str());
}
