//! Rules, and sinks that refuse a write.
ghost use Rattle.naga_words.specs.Rules.{AllFit, FitsConclusion};
ghost use Rattle.naga_spelling.specs.Spelling.{IsInOrder};
ghost use Rattle.word_tests.specs.Rules.{FitsAmong};

use crate::NumberedTypes;
use naga_info::{Conclusion, Rule, TypeResolution};
use naga_ir::{
    ItemIndex, Module, PredeclaredType, Scalar, Type_, TypeInner, UniqueArena, VectorSize,
};
use naga_json::read_module;
use naga_words::types::types_in_order;
use naga_words::{Limited, SinkError, TypeContext, TypeTextError};
use std::alloc::Global;
use std::process::Abort;

const DOT_TEXT: &str = "fn dot(vec3<f32>, vec3<f32>) -> f32";

fn dot_rule(rt: &impl Abort, alloc: Global) -> Rule
    ensures { FitsAmong 0 result }
{
    let first = TypeResolution::Value(TypeInner::Vector {
        size: VectorSize::Tri,
        scalar: Scalar::F32,
    });
    let second = TypeResolution::Value(TypeInner::Vector {
        size: VectorSize::Tri,
        scalar: Scalar::F32,
    });
    Rule {
        arguments: vec![in alloc; first, second].expect(rt, "memory"),
        conclusion: Conclusion::Value(TypeInner::Scalar(Scalar::F32)),
    }
}

const MODF_TEXT: &str = "fn modf(f32) -> __modf_result_f32";

fn modf_rule(rt: &impl Abort, alloc: Global) -> Rule
    ensures { FitsAmong 0 result }
{
    let number = TypeResolution::Value(TypeInner::Scalar(Scalar::F32));
    Rule {
        arguments: vec![in alloc; number].expect(rt, "memory"),
        conclusion: Conclusion::Predeclared(PredeclaredType::ModfResult {
            size: None,
            scalar: Scalar::F32,
        }),
    }
}

/// The text by numbers.
const COUNT_TEXT: &str = "fn count(array<T0, O0>) -> u32";

/// A rule that names the type at index 1.
fn count_rule(rt: &impl Abort, alloc: Global) -> Rule
    ensures { FitsAmong 2 result }
{
    let array = TypeResolution::Handle(ItemIndex::from_index(1));
    Rule {
        arguments: vec![in alloc; array].expect(rt, "memory"),
        conclusion: Conclusion::Value(TypeInner::Scalar(Scalar::U32)),
    }
}

/// Whether the text is as much of the rule's as has room.
fn is_within(text: &str, want: &str, limit: usize, is_whole: bool) -> bool {
    if is_whole {
        text == want
    } else {
        text.len() <= limit && want.starts_with(text)
    }
}

/// A sink with room for the rule's text holds it, and one with less fails and holds a beginning of
/// it.
fn written_within<C: TypeContext>(
    rt: &impl Abort,
    alloc: Global,
    context: &C,
    name: &str,
    rule: &Rule,
    want: &str,
    limit: usize,
)
    requires order { IsInOrder (C.context context.now) }
    requires fits { AllFit (C.context context.now) rule.now.arguments.items }
    requires gives { FitsConclusion (C.context context.now) rule.now.conclusion }
{
    let mut sink = Limited::new(alloc, limit);
    let is_whole = match context.write_type_rule(alloc, name, rule, &mut sink) {
        Ok(()) => true,
        Err(TypeTextError::Sink(SinkError::Failed)) => false,
        Err(error) => panic!(rt; "{error}"),
    };
    assert_eq!(rt;
        is_whole,
        limit == want.len(),
        "with room for {limit} bytes"
    );
    assert!(rt;
        is_within(sink.text(), want, limit, is_whole),
        "with room for {limit} bytes"
    );
}

/// The rule has this text, and in a sink of each limit up to the text's length what has room of it.
fn rule_holds<C: TypeContext>(
    rt: &impl Abort,
    alloc: Global,
    context: &C,
    name: &str,
    rule: &Rule,
    want: &str,
)
    requires order { IsInOrder (C.context context.now) }
    requires fits { AllFit (C.context context.now) rule.now.arguments.items }
    requires gives { FitsConclusion (C.context context.now) rule.now.conclusion }
{
    for limit in 0..=want.len() {
        written_within(rt, alloc, context, name, rule, want, limit);
    }
    let spelled = context.type_rule_to_string(alloc, name, rule);
    assert_eq!(rt; spelled.expect(rt, "a text").as_str(), want);
}

/// Rules that name no type of the context.
fn rules_hold<C: TypeContext>(rt: &impl Abort, alloc: Global, context: &C)
    requires order { IsInOrder (C.context context.now) }
{
    rule_holds(rt, alloc, context, "dot", &dot_rule(rt, alloc), DOT_TEXT);
    rule_holds(rt, alloc, context, "modf", &modf_rule(rt, alloc), MODF_TEXT);
}

/// Rules by numbers.
fn numbered_rules_hold(rt: &impl Abort, alloc: Global, context: &NumberedTypes<'_>) {
    assert!(rt; context.is_in_order(0));
    rules_hold(rt, alloc, context);
}

/// Rules where there are no types.
fn rules_without_types(rt: &impl Abort, alloc: Global, types: &UniqueArena<Type_>) {
    assert!(rt; types_in_order(types, 0));
    rules_hold(rt, alloc, types);
    let context = NumberedTypes::new(alloc, types).expect(rt, "memory");
    numbered_rules_hold(rt, alloc, &context);
}

/// A rule that names a type, which has its number.
fn handle_rule_holds(rt: &impl Abort, alloc: Global, context: &NumberedTypes<'_>) {
    assert!(rt; context.is_in_order(2));
    assert!(rt; 2 <= context.types.len());
    let rule = count_rule(rt, alloc);
    rule_holds(rt, alloc, context, "count", &rule, COUNT_TEXT);
}

#[test]
fn rules_that_name_no_type(rt: HostRuntime) {
    let module = Module::new(rt.alloc());
    rules_without_types(&rt, rt.alloc(), &module.types);
}

/// A struct, and an array of it whose length is an override.
const TYPES: &str = r#"{
    "types": [
        {"inner": {"Struct": {"members": [], "span": 0}}},
        {"inner": {"Array": {"base": 0, "size": {"Pending": 0}, "stride": 4}}}
    ]
}"#;

#[test]
fn a_rule_that_names_a_type(rt: HostRuntime) {
    let module = read_module(rt.alloc(), TYPES).expect(&rt, "a module");
    let context = NumberedTypes::new(rt.alloc(), &module.types).expect(&rt, "memory");
    handle_rule_holds(&rt, rt.alloc(), &context);
}
