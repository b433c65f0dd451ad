//! Labels of a mebibyte, each of one text again and again.
use crate::modules::written;
use naga_wgsl_out::namer::Namer;
use std::alloc::Global;
use std::process::Abort;

const MEBIBYTE: usize = 1_048_576;

/// A label that has a part so often.
struct Long {
    part: &'static str,
    times: usize,
    /// What its name has, and how often.
    named: &'static str,
    named_times: usize,
    /// What the name of the same label has after it when it comes again.
    again: &'static str,
}

const LETTERS: Long = Long {
    part: "a",
    times: MEBIBYTE,
    named: "a",
    named_times: MEBIBYTE,
    again: "_1",
};

/// The stem ends in a digit, so that the first name has a `_` after it.
const FOREIGN: Long = Long {
    part: "\u{1f600}",
    times: MEBIBYTE / 4,
    named: "u1f600_",
    named_times: MEBIBYTE / 4,
    again: "1",
};

const NO_LETTERS: Long = Long {
    part: "_",
    times: MEBIBYTE,
    named: "unnamed",
    named_times: 1,
    again: "_1",
};

/// The label has these names when it comes and when it comes again.
fn are_given(rt: &impl Abort, alloc: Global, label: &str, name: &str, again: &str) {
    let mut namer = Namer::for_wgsl(alloc).expect(rt, "memory");
    assert!(rt; namer.call(label).expect(rt, "a name").as_str() == name);
    assert!(rt; namer.call(label).expect(rt, "a name").as_str() == again);
}

/// A function with this label, and one that returns a sum which a front end named so too.
fn module_of(rt: &impl Abort, alloc: Global, label: &str) -> String {
    format!(in alloc;
        r#"{{
            "module": {{
                "types": [{{"inner": {{"Scalar": {{"kind": "Sint", "width": 4}}}}}}],
                "functions": [
                    {{"name": "{label}"}},
                    {{
                        "name": "f",
                        "arguments": [{{"name": "p", "ty": 0}}],
                        "result": {{"ty": 0}},
                        "expressions": [
                            {{"FunctionArgument": 0}},
                            {{"Binary": {{"op": "Add", "left": 0, "right": 0}}}}
                        ],
                        "named_expressions": {{"1": "{label}"}},
                        "body": [{{"Emit": {{"start": 1, "end": 2}}}}, {{"Return": {{"value": 1}}}}]
                    }}
                ]
            }},
            "info": {{"functions": [[], [0, 0]]}}
        }}"#
    )
    .expect(rt, "memory")
}

/// The text of the module has these names, whole.
fn are_written(rt: &impl Abort, alloc: Global, label: &str, name: &str, again: &str) {
    let text = written(rt, alloc, module_of(rt, alloc, label).as_str());
    let want = format!(in alloc;
        "fn {name}() {{\n}}\n\n\
         fn f(p: i32) -> i32 {{\n    let {again} = (p + p);\n    return {again};\n}}\n\n"
    );
    assert!(rt; text.as_str() == want.expect(rt, "memory").as_str());
}

fn check_long(rt: &impl Abort, alloc: Global, long: &Long) {
    let label = long.part.repeat(alloc, long.times).expect(rt, "memory");
    let name = long
        .named
        .repeat(alloc, long.named_times)
        .expect(rt, "memory");
    let more = long.again;
    let again = format!(in alloc; "{name}{more}").expect(rt, "memory");
    are_given(rt, alloc, label.as_str(), name.as_str(), again.as_str());
    are_written(rt, alloc, label.as_str(), name.as_str(), again.as_str());
}

#[test]
fn a_long_label_is_a_name(rt: HostRuntime) {
    check_long(&rt, rt.alloc(), &LETTERS);
}

#[test]
fn a_long_label_in_another_script_has_a_name(rt: HostRuntime) {
    check_long(&rt, rt.alloc(), &FOREIGN);
}

#[test]
fn a_long_label_without_letters_has_a_name(rt: HostRuntime) {
    check_long(&rt, rt.alloc(), &NO_LETTERS);
}
