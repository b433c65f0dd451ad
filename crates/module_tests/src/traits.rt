//! Traits of public types, each asked by a bound and used: copies, equality and hash of types that
//! are plain data, debug texts, and errors with their texts.
use bitflags::Flags;
use naga_back::{FunctionCtx, FunctionType, Level, RayFlag, RayIntersectionType, WriterFlags};
use naga_info::FunctionInfo;
use naga_ir::{
    Arena, Expression, ExpressionKind, Function, FunctionResult, ItemIndex, Literal, Scalar, Type_,
    TypeInner,
};
use naga_names::keyword_set::AsciiUniCase;
use naga_names::namer::{ExternalTextureNameKey, NameKey, NamerError};
use naga_words::{SinkError, TypeTextError};
use std::alloc::{AllocError, Global};
use std::fmt::Debug;
use std::hash::{DefaultHasher, Hash, Hasher};
use std::process::Abort;

fn hash_of<T: Hash>(value: &T) -> u64 {
    let mut hasher = DefaultHasher::new();
    value.hash(&mut hasher);
    hasher.finish()
}

/// Whether a copy is the same by equality.
fn is_copied<T: Clone + Copy + Debug + Eq>(value: T) -> bool {
    let copy = value;
    copy == value
}

/// Whether a copy is the same by equality and by hash.
fn is_plain_data<T: Clone + Copy + Debug + Eq + Hash>(value: T) -> bool {
    let copy = value;
    is_copied(value) && hash_of(&copy) == hash_of(&value)
}

/// A copy of the value has this text, as the value has.
fn is_shown_as<T: Clone + Copy + Debug>(rt: &impl Abort, alloc: Global, value: T, want: &str) {
    let copy = value;
    let shown = format!(in alloc; "{value:?} {copy:?}").expect(rt, "memory");
    let wanted = format!(in alloc; "{want} {want}").expect(rt, "memory");
    assert_eq!(rt; shown.as_str(), wanted.as_str());
}

/// The error has this text.
fn is_told_as<E: std::error::Error>(rt: &impl Abort, alloc: Global, error: &E, want: &str) {
    let told = format!(in alloc; "{error}").expect(rt, "memory");
    assert_eq!(rt; told.as_str(), want);
}

#[test]
fn plain_data(rt: HostRuntime) {
    assert!(rt; is_plain_data(ExternalTextureNameKey::Plane(1)));
    assert!(rt; is_plain_data(NameKey::Function(ItemIndex::from_index(2))));
    assert!(rt; is_plain_data(AsciiUniCase { word: "If" }));
    assert!(rt; is_plain_data(Scalar::I32));
    assert!(rt; is_copied(ExpressionKind::Pure));
    assert!(rt; is_plain_data(ItemIndex::<NoItem>::from_index(3)));
    let result = FunctionResult {
        ty: ItemIndex::from_index(4),
        binding: None,
    };
    assert!(rt; is_copied(result));
}

/// A mark of nothing, and without a trait: those of its handles ask none of it.
enum NoItem {}

#[test]
fn handles_are_ordered(rt: HostRuntime) {
    let (first, second) = (
        ItemIndex::<NoItem>::from_index(0),
        ItemIndex::<NoItem>::from_index(1),
    );
    assert!(rt; first < second && second > first && first == first && first != second);
}

#[test]
fn flags(rt: HostRuntime) {
    let (none, opaque) = (RayFlag::default(), RayFlag::OPAQUE);
    assert!(rt; none == RayFlag::empty() && none != opaque && opaque == opaque);
    let (plain, typed) = (WriterFlags::empty(), WriterFlags::EXPLICIT_TYPES);
    assert!(rt; plain != typed && typed == typed);
    assert_eq!(rt; (typed.bits(), WriterFlags::PORTABLE.bits()), (1, 2));
}

#[test]
fn debug_texts(rt: HostRuntime) {
    let alloc = rt.alloc();
    is_shown_as(&rt, alloc, Level(2), "Level(2)");
    is_shown_as(&rt, alloc, FunctionType::EntryPoint(1), "EntryPoint(1)");
    let mut arena = Arena::new(alloc);
    let truth = Expression::Literal(Literal::Bool(true));
    let _ = arena.append(truth).expect(&rt, "memory");
    let triangle = RayIntersectionType::Triangle;
    let shown = format!(in alloc; "{triangle:?} {arena:?}").expect(&rt, "memory");
    assert_eq!(rt;
        shown.as_str(),
        "Triangle Arena { items: [Literal(Bool(true))] }"
    );
}

/// The text of a context of a function without expressions.
#[test]
fn context_of_a_function(rt: HostRuntime) {
    let function = Function::new(rt.alloc());
    let info = FunctionInfo {
        expressions: Vec::new(rt.alloc()),
    };
    let context = FunctionCtx {
        ty: FunctionType::EntryPoint(0),
        info: &info,
        expressions: &function.expressions,
        named_expressions: &function.named_expressions,
    };
    let shown = format!(in rt.alloc(); "{context:?}").expect(&rt, "memory");
    assert_eq!(rt;
        shown.as_str(),
        "FunctionCtx { ty: EntryPoint(0), info: FunctionInfo { expressions: [] }, \
         expressions: Arena { items: [] }, named_expressions: {} }"
    );
}

#[test]
fn types_are_compared(rt: HostRuntime) {
    let one = Type_ {
        name: None,
        inner: TypeInner::Scalar(Scalar::U32),
    };
    let other = Type_ {
        name: None,
        inner: TypeInner::Scalar(Scalar::I32),
    };
    assert!(rt; one == one && one != other && hash_of(&one) == hash_of(&one));
}

#[test]
fn errors(rt: HostRuntime) {
    let alloc = rt.alloc();
    is_told_as(&rt, alloc, &NamerError::Full, "namer is full");
    is_told_as(&rt, alloc, &NamerError::KeyFull, "name key out of range");
    is_told_as(&rt, alloc, &NamerError::from(AllocError), "out of memory");
    is_told_as(&rt, alloc, &SinkError::Failed, "sink failed");
    is_told_as(
        &rt,
        alloc,
        &TypeTextError::NoForm,
        "type without a WGSL form",
    );
}
