//! Types as each context spells them.
ghost use Rattle.std.specs.Prelude.{◌<◌, IsTrue, length};
ghost use Rattle.naga_words.specs.Rules.{AllFit, FitsConclusion};
ghost use Rattle.naga_spelling.specs.Spelling.{Context, Fits, IsInOrder, is_unsupported_pointer};

use naga_info::{Conclusion, GlobalCtx, Rule, TypeResolution};
use naga_ir::{
    AddressSpace, CooperativeRole, CooperativeSize, ItemIndex, Module, PredeclaredType, Scalar,
    ScalarKind, Type_, TypeInner, UniqueArena,
};
use naga_json::read_module;
use naga_names::namer::NameKey;
use naga_words::types::{type_fits, types_in_order};
use naga_words::{TypeContext, TypeTextError, WriterTypeContext};
use std::alloc::Global;
use std::collections::HashMap;
use std::process::Abort;

/// The answer that a type has no form.
const NO_FORM: Result<(), TypeTextError> = Err(TypeTextError::NoForm);

/// What stands in the sink since the last look.
fn stands(rt: &impl Abort, text: &mut String, want: &str) {
    assert_eq!(rt; text.as_str(), want);
    text.clear();
}

/// A pointer that no text spells.
fn unsupported() -> TypeInner
    ensures { IsTrue (is_unsupported_pointer result) }
{
    TypeInner::ValuePointer {
        size: None,
        scalar: Scalar::I32,
        space: AddressSpace::Handle,
    }
}

/// What is spelled without a look at any type of the context.
fn values_hold<C: TypeContext>(rt: &impl Abort, alloc: Global, context: &C, text: &mut String) {
    context
        .write_scalar(alloc, Scalar::I32, text)
        .expect(rt, "a text");
    stands(rt, text, "i32");
    let odd = Scalar {
        kind: ScalarKind::Sint,
        width: 3,
    };
    let scalar = context.write_non_wgsl_scalar(alloc, odd, text);
    let inner = context.write_non_wgsl_inner(alloc, &unsupported(), text);
    if context.refuses() {
        assert_eq!(rt; (scalar, inner), (NO_FORM, NO_FORM));
        stands(rt, text, "");
    } else {
        assert_eq!(rt; (scalar, inner), (Ok(()), Ok(())));
        stands(
            rt,
            text,
            "{non-WGSL Naga scalar Scalar { kind: Sint, width: 3 }}\
             {non-WGSL Naga type ValuePointer { size: None, \
             scalar: Scalar { kind: Sint, width: 4 }, space: Handle }}",
        );
    }
}

/// The first type is the struct `S`, of which and of values the text is told.
fn types_hold<C: TypeContext>(rt: &impl Abort, alloc: Global, context: &C, text: &mut String)
    requires order { IsInOrder (C.context context.now) }
    requires in_range { 0 < length (C.context context.now).types }
{
    let first = ItemIndex::from_index(0);
    assert!(rt; matches!(context.lookup_type(first).inner, TypeInner::Struct { .. }));
    assert_eq!(rt; context.type_name(first), "S");
    context.write_type(alloc, first, text).expect(rt, "a text");
    let resolution = TypeResolution::Handle(first);
    context
        .write_type_resolution(alloc, &resolution, text)
        .expect(rt, "a text");
    stands(rt, text, "SS");
    let spelled = context.type_to_string(alloc, first);
    assert_eq!(rt; spelled.expect(rt, "a text").as_str(), "S");
    let spelled = context.type_resolution_to_string(alloc, &resolution);
    assert_eq!(rt; spelled.expect(rt, "a text").as_str(), "S");
}

/// A matrix of numbers that have no word.
fn wordless_matrix() -> TypeInner
    ensures { (c : Context) → Fits c result }
{
    TypeInner::CooperativeMatrix {
        columns: CooperativeSize::Eight,
        rows: CooperativeSize::Eight,
        scalar: Scalar {
            kind: ScalarKind::AbstractFloat,
            width: 8,
        },
        role: CooperativeRole::A,
    }
}

/// From a number to the result of `modf`.
fn modf_rule(rt: &impl Abort, alloc: Global) -> Rule
    ensures { (c : Context) →
        AllFit c result.arguments.items × FitsConclusion c result.conclusion }
{
    let number = TypeResolution::Value(TypeInner::Scalar(Scalar::F32));
    Rule {
        arguments: vec![in alloc; number].expect(rt, "memory"),
        conclusion: Conclusion::Predeclared(PredeclaredType::ModfResult {
            size: None,
            scalar: Scalar::F32,
        }),
    }
}

/// What is spelled of types that name no other, and of rules over them.
fn rules_hold<C: TypeContext>(rt: &impl Abort, alloc: Global, context: &C, text: &mut String)
    requires { IsInOrder (C.context context.now) }
{
    context
        .write_type_inner(alloc, &TypeInner::Scalar(Scalar::U32), text)
        .expect(rt, "a text");
    stands(rt, text, "u32");
    let matrix = context.write_type_inner(alloc, &wordless_matrix(), text);
    if context.refuses() {
        assert_eq!(rt; matrix, NO_FORM);
        text.clear();
    } else {
        assert_eq!(rt; matrix, Ok(()));
        stands(rt, text, "coop_mat8x8<{AbstractFloat},A>");
    }
    let conclusion = Conclusion::Value(TypeInner::Scalar(Scalar::F32));
    context
        .write_type_conclusion(alloc, &conclusion, text)
        .expect(rt, "a text");
    let rule = modf_rule(rt, alloc);
    context
        .write_type_rule(alloc, "modf", &rule, text)
        .expect(rt, "a text");
    stands(rt, text, "f32fn modf(f32) -> __modf_result_f32");
    let spelled = context.type_rule_to_string(alloc, "modf", &rule);
    let want = "fn modf(f32) -> __modf_result_f32";
    assert_eq!(rt; spelled.expect(rt, "a text").as_str(), want);
}

/// A struct without a handle, and the module's first override.
fn global_holds(rt: &impl Abort, alloc: Global, context: &GlobalCtx<'_>, text: &mut String) {
    assert!(rt; 0 < context.types.len() && 0 < context.overrides.len());
    assert!(rt; types_in_order(context.types, context.overrides.len()));
    let first = ItemIndex::from_index(0);
    context
        .write_override(alloc, first, text)
        .expect(rt, "a text");
    let bare = TypeInner::Struct {
        members: Vec::new(alloc),
        span: 0,
    };
    context
        .write_unnamed_struct(alloc, &bare, text)
        .expect(rt, "a text");
    stands(rt, text, "N{unnamed struct}");
    values_hold(rt, alloc, context, text);
    types_hold(rt, alloc, context, text);
    rules_hold(rt, alloc, context, text);
}

/// Types alone.
fn arena_holds(rt: &impl Abort, alloc: Global, types: &UniqueArena<Type_>, text: &mut String) {
    assert!(rt; 0 < types.len() && types_in_order(types, 1));
    assert!(rt; type_fits(0, 0, &TypeInner::Scalar(Scalar::I32)));
    values_hold(rt, alloc, types, text);
    types_hold(rt, alloc, types, text);
    rules_hold(rt, alloc, types, text);
}

/// The names of a writer.
fn writer_holds(
    rt: &impl Abort,
    alloc: Global,
    context: &WriterTypeContext<'_>,
    text: &mut String,
) {
    let types = &context.module.types;
    assert!(rt; 0 < types.len() && types_in_order(types, 1));
    values_hold(rt, alloc, context, text);
    types_hold(rt, alloc, context, text);
    rules_hold(rt, alloc, context, text);
}

/// The struct `S` and the override `N`.
const TYPES: &str = r#"{
    "types": [{"name": "S", "inner": {"Struct": {"members": [], "span": 0}}}],
    "overrides": [{"name": "N", "ty": 0}]
}"#;

fn contexts_hold(
    rt: &impl Abort,
    alloc: Global,
    module: &Module,
    names: &HashMap<NameKey, String>,
) {
    let mut text = String::new(alloc);
    let global = GlobalCtx {
        types: &module.types,
        constants: &module.constants,
        overrides: &module.overrides,
        global_expressions: &module.global_expressions,
    };
    global_holds(rt, alloc, &global, &mut text);
    arena_holds(rt, alloc, &module.types, &mut text);
    writer_holds(rt, alloc, &WriterTypeContext { module, names }, &mut text);
}

#[test]
fn types_are_spelled(rt: HostRuntime) {
    let alloc = rt.alloc();
    let module = read_module(alloc, TYPES).expect(&rt, "a module");
    let mut names = HashMap::new(alloc);
    let name = String::from_str(alloc, "S").expect(&rt, "memory");
    let key = NameKey::Type_(ItemIndex::from_index(0));
    let inserted: Result<_, _> = names.insert(key, name);
    inserted.expect(&rt, "memory");
    contexts_hold(&rt, alloc, &module, &names);
}
