//! Bindings by themselves, and words that WGSL may lack.
use naga_wgsl_out::ir::{Binding, BuiltIn, MathFunction, Sampling, Scalar};
use naga_wgsl_out::to_wgsl::to_wgsl_if_implemented;
use naga_wgsl_out::wgsl::{Error, write_binding};
use std::alloc::Global;
use std::process::Abort;

/// Bindings, what is written for them, and what is told of one to a value without a word.
const BINDINGS: &[(Binding, &str, Option<&str>)] = &[
    (
        Binding::Location {
            location: 1,
            interpolation: None,
            sampling: Some(Sampling::Centroid),
            blend_src: None,
            per_primitive: false,
        },
        "@location(1) @interpolate(perspective, centroid) ",
        None,
    ),
    (
        Binding::Location {
            location: 0,
            interpolation: None,
            sampling: None,
            blend_src: Some(1),
            per_primitive: true,
        },
        "@location(0) @blend_src(1) @per_primitive ",
        None,
    ),
    (
        Binding::BuiltIn(BuiltIn::Position { invariant: true }),
        "@builtin(position) @invariant ",
        None,
    ),
    (
        Binding::BuiltIn(BuiltIn::PointSize),
        "",
        Some("Unsupported builtin value: PointSize"),
    ),
];

/// The error is shown so.
fn is_shown(rt: &impl Abort, alloc: Global, error: &Error, want: &str) {
    let shown = error.to_string(alloc).expect(rt, "memory");
    assert_eq!(rt; shown.as_str(), want);
}

#[test]
fn bindings_are_written_by_themselves(rt: HostRuntime) {
    let alloc = rt.alloc();
    for (binding, text, refusal) in BINDINGS {
        let mut sink = String::new(alloc);
        let answer = write_binding(alloc, binding, &mut sink);
        match (&answer, *refusal) {
            (Ok(()), None) => (),
            (Err(error), Some(want)) => is_shown(&rt, alloc, error, want),
            _ => panic!(rt; "{text} is refused, or is not"),
        }
        assert_eq!(rt; sink.as_str(), *text);
    }
}

/// A value without a word is refused with its kind and its debug text.
#[test]
fn wordless_values_are_refused(rt: HostRuntime) {
    let alloc = rt.alloc();
    let word = to_wgsl_if_implemented(alloc, Scalar::U64).expect(&rt, "a word");
    assert_eq!(rt; word, "u64");
    let refused = to_wgsl_if_implemented(alloc, MathFunction::Outer).expect_err(&rt, "a word");
    is_shown(&rt, alloc, &refused, "Unsupported math function: Outer");
}
