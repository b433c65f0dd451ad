//! Makes the explanation of a fault, with types spelled.

ghost use Rattle.std.specs.Prelude.{◌≡◌, IfNone, IfOk, IsTrue, Some, codes, string_bytes};
ghost use Rattle.std.specs.Option.{IfSome};
ghost use Rattle.std.specs.Str.Iter.{HasSubslice};
ghost use Rattle.naga_info.specs.declared.info.TypeResolution.TheVariants.{Value};
ghost use Rattle.naga_acceptance.specs.KnownTypes.{inferred};
ghost use Rattle.naga_spelling.specs.Contexts.{global_context};
ghost use Rattle.naga_spelling.specs.Segments.{IsText};
ghost use Rattle.naga_spelling.specs.Spelling.{resolution_segments};
ghost use Rattle.fault_details.specs.Demands.{KnownType, LacksLetter, NoValue, OtherClass, OtherType};
ghost use Rattle.fault_details.specs.Demands.{OtherUse, Unexpected};
ghost use Rattle.fault_details.specs.Reasons.{fault_reason};
ghost use Rattle.fault_details.specs.Shown.{shown};
ghost use Rattle.fault_details.specs.Told.{HasNoOrder, IsOfModule, IsPositioned, IsTold, PositionsBoth};
ghost use Rattle.fault_details.specs.Told.{Tells, TellsBoth, TellsOf, named_type, unspelled_text};
ghost use Rattle.fault_details.specs.Told.{with_position};

use crate::items::fault_reason;
use crate::mismatch::Mismatch;
use crate::order::{fits, is_in_order};
use crate::reasons::Reason;
use crate::words::{Numbered, TypeClass};
use module_semantics::ListName;
use naga_acceptance::parts::InferredType;
use naga_acceptance::{FaultPosition, Unaccepted};
use naga_info::{ModuleInfo, ToCtx, TypeResolution};
use naga_ir::{Handle, Module, Scalar, SwizzleComponent, Type_, TypeInner};
use naga_listing::on_one_line;
use naga_words::{SinkError, TypeContext, TypeTextError};
use std::alloc::{AllocError, Global};

/// Two types, as they are told.
#[derive(Drop)]
pub(crate) struct TwoTypes {
    expected: String,
    got: String,
}

/// A type of the module by its position.
fn unspelled(alloc: Global, ty: &TypeResolution) -> Result<String, AllocError>
    ensures { IfOk result (λ t. string_bytes t ≡ unspelled_text ty.now) }
{
    match ty {
        TypeResolution::Handle(handle) => {
            format!(in alloc; "{}", Numbered(ListName::Types, handle.index()))
        }
        TypeResolution::Value(_) => {
            String::from_str(alloc, "a type that names what is not there")
        }
    }
}

/// A type as it is spelled, with what has no form in braces; none where types are out of order, or
/// where what it names is not there.
fn spelling(
    alloc: Global,
    module: &Module,
    ty: &TypeResolution,
) -> Result<Option<String>, AllocError>
    ensures text { IfOk result (λ spelled. IfSome spelled (λ t. IsText (resolution_segments
        (global_context «module».now.types «module».now.overrides) ty.now) (string_bytes t))) }
    ensures none { IfOk result (λ spelled. IfNone spelled (HasNoOrder «module».now ty.now)) }
{
    let context = module.to_ctx();
    if !is_in_order(module) || !fits(module, ty) {
        return Ok(None);
    }
    match context.type_resolution_to_string(alloc, ty) {
        Ok(text) => Ok(Some(text)),
        Err(TypeTextError::Memory(error)) => Err(error),
        Err(TypeTextError::Sink(SinkError::Memory(error))) => Err(error),
        Err(_) => Ok(None),
    }
}

/// Whether the spelling of a type of the module has braces, in which stands what has no form.
#[tactic(auto, using(std::proofs::lemmas::Str::Pattern::contains_text))]
fn has_braces(ty: &TypeResolution, spelled: &str) -> bool
    ensures { IsTrue result → IsOfModule ty.now × HasSubslice spelled.now (codes "{") }
{
    match ty {
        TypeResolution::Handle(_) => spelled.contains("{"),
        TypeResolution::Value(_) => false,
    }
}

/// A type as it is told: as it is spelled, on one line, or by its position.
fn told(alloc: Global, module: &Module, ty: &TypeResolution) -> Result<String, AllocError>
    ensures { IfOk result (λ t. IsTold «module».now ty.now (string_bytes t)) }
{
    match spelling(alloc, module, ty)? {
        Some(text) => {
            if has_braces(ty, text.as_str()) {
                unspelled(alloc, ty)
            } else {
                on_one_line(alloc, text.as_str())
            }
        }
        None => unspelled(alloc, ty),
    }
}

/// The type that a pointer or an array names.
fn named_type(inner: &TypeInner) -> Option<Handle<Type_>>
    ensures { result ≡ named_type inner.now }
{
    match inner {
        TypeInner::Pointer { base, .. } => Some(*base),
        TypeInner::Array { base, .. } => Some(*base),
        TypeInner::BindingArray { base, .. } => Some(*base),
        _ => None,
    }
}

/// A type with the position of the one that it names.
fn with_position(
    alloc: Global,
    alone: String,
    named: Option<Handle<Type_>>,
) -> Result<String, AllocError>
    ensures { IfOk result (λ t. string_bytes t ≡ with_position (string_bytes alone) named) }
{
    match named {
        Some(base) => {
            let position = Numbered(ListName::Types, base.index());
            format!(in alloc; "{} of {}", alone, position)
        }
        None => Ok(alone),
    }
}

/// A type by its position, if it is one of the module, or else as it is told, with the position of
/// the type that it names.
fn positioned(alloc: Global, module: &Module, ty: &TypeResolution) -> Result<String, AllocError>
    ensures { IfOk result (λ t. IsPositioned «module».now ty.now (string_bytes t)) }
{
    match ty {
        TypeResolution::Handle(_) => unspelled(alloc, ty),
        TypeResolution::Value(inner) => {
            let alone = told(alloc, module, ty)?;
            with_position(alloc, alone, named_type(inner))
        }
    }
}

/// Two types by their positions, or as one type and another where these are told alike.
fn positioned_types(
    alloc: Global,
    module: &Module,
    expected: &TypeResolution,
    got: &TypeResolution,
) -> Result<TwoTypes, AllocError>
    ensures { IfOk result (λ t. PositionsBoth «module».now expected.now got.now (string_bytes t.expected)
        (string_bytes t.got)) }
{
    let expected = positioned(alloc, module, expected)?;
    let positioned_got = positioned(alloc, module, got)?;
    if expected.as_str() == positioned_got.as_str() {
        let another = format!(in alloc; "another {}", expected)?;
        return Ok(TwoTypes {
            expected,
            got: another,
        });
    }
    Ok(TwoTypes {
        expected,
        got: positioned_got,
    })
}

/// Two types, each as it is told, or by their positions where both are told alike.
fn told_types(
    alloc: Global,
    module: &Module,
    expected: &TypeResolution,
    got: &TypeResolution,
) -> Result<TwoTypes, AllocError>
    ensures { IfOk result (λ t. TellsBoth «module».now expected.now got.now (string_bytes t.expected)
        (string_bytes t.got)) }
{
    let told_expected = told(alloc, module, expected)?;
    let told_got = told(alloc, module, got)?;
    if told_expected.as_str() == told_got.as_str() {
        return positioned_types(alloc, module, expected, got);
    }
    Ok(TwoTypes {
        expected: told_expected,
        got: told_got,
    })
}

/// Two types.
fn other_type(
    alloc: Global,
    module: &Module,
    expected: InferredType,
    got: &TypeResolution,
) -> Result<Mismatch, AllocError>
    ensures { IfOk result (Tells «module».now (OtherType (inferred expected) got.now)) }
{
    let expected = expected.resolution();
    let TwoTypes { expected, got } = told_types(alloc, module, &expected, got)?;
    Ok(Mismatch::Type { expected, got })
}

/// The type of what an expression gives, and the one that is known of it.
fn known_type(
    alloc: Global,
    module: &Module,
    gives: InferredType,
    known: &TypeResolution,
) -> Result<Mismatch, AllocError>
    ensures { IfOk result (Tells «module».now (KnownType (inferred gives) known.now)) }
{
    let gives = gives.resolution();
    let TwoTypes { expected, got } = told_types(alloc, module, &gives, known)?;
    Ok(Mismatch::KnownType {
        gives: expected,
        known: got,
    })
}

/// Two scalars.
fn other_scalar(
    alloc: Global,
    module: &Module,
    expected: Scalar,
    got: Scalar,
) -> Result<Mismatch, AllocError>
    ensures { IfOk result (Tells «module».now (OtherType (Value (TypeInner.Scalar expected))
        (Value (TypeInner.Scalar got)))) }
{
    let got = TypeResolution::Value(TypeInner::Scalar(got));
    other_type(alloc, module, InferredType::Scalar(expected), &got)
}

/// A type of which there is no value.
fn no_value(alloc: Global, module: &Module, expected: InferredType) -> Result<Mismatch, AllocError>
    ensures { IfOk result (Tells «module».now (NoValue (inferred expected))) }
{
    let expected = expected.resolution();
    Ok(Mismatch::Value {
        expected: told(alloc, module, &expected)?,
    })
}

/// A type where none is expected.
fn unexpected(alloc: Global, module: &Module, got: &TypeResolution) -> Result<Mismatch, AllocError>
    ensures { IfOk result (Tells «module».now (Unexpected got.now)) }
{
    Ok(Mismatch::Nothing {
        got: told(alloc, module, got)?,
    })
}

/// A type that is of none of a class.
fn other_class(
    alloc: Global,
    module: &Module,
    class: TypeClass,
    got: &TypeResolution,
) -> Result<Mismatch, AllocError>
    ensures { IfOk result (Tells «module».now (OtherClass class got.now)) }
{
    Ok(Mismatch::Class {
        class,
        got: told(alloc, module, got)?,
    })
}

/// A letter for which a type has no component.
fn lacking(
    alloc: Global,
    module: &Module,
    letter: SwizzleComponent,
    got: &TypeResolution,
) -> Result<Mismatch, AllocError>
    ensures { IfOk result (Tells «module».now (LacksLetter letter got.now)) }
{
    Ok(Mismatch::Letter {
        letter,
        got: told(alloc, module, got)?,
    })
}

/// A use of an operator with its type, and another type.
fn other_use(
    alloc: Global,
    module: &Module,
    item: FaultPosition,
    expected: &TypeResolution,
    got: &TypeResolution,
) -> Result<Mismatch, AllocError>
    ensures { IfOk result (Tells «module».now (OtherUse item expected.now got.now)) }
{
    let TwoTypes { expected, got } = told_types(alloc, module, expected, got)?;
    Ok(Mismatch::Use {
        item,
        expected,
        got,
    })
}

/// A reason, as it is told.
fn told_reason(alloc: Global, module: &Module, reason: &Reason<'_>) -> Result<Mismatch, AllocError>
    ensures { IfOk result (Tells «module».now (shown reason.now)) }
{
    match reason {
        Reason::OtherType { expected, got } => other_type(alloc, module, *expected, *got),
        Reason::KnownType { gives, known } => known_type(alloc, module, *gives, *known),
        Reason::OtherScalar { expected, got } => other_scalar(alloc, module, *expected, *got),
        Reason::OtherClass { class, got } => other_class(alloc, module, *class, *got),
        Reason::NoValue { expected } => no_value(alloc, module, *expected),
        Reason::Unexpected { got } => unexpected(alloc, module, *got),
        Reason::Absent { list, index, count } => Ok(Mismatch::Item {
            list: *list,
            index: *index,
            count: *count,
        }),
        Reason::Later {
            list,
            index,
            before,
            count,
        } => Ok(Mismatch::EarlierItem {
            list: *list,
            index: *index,
            before: *before,
            count: *count,
        }),
        Reason::OtherNumber { of, expected, got } => Ok(Mismatch::Number {
            of: *of,
            expected: *expected,
            got: *got,
        }),
        Reason::PastParts { count, got } => Ok(Mismatch::Part {
            count: *count,
            got: *got,
        }),
        Reason::LacksLetter { letter, got } => lacking(alloc, module, *letter, *got),
        Reason::OtherUse {
            item,
            expected,
            got,
        } => other_use(alloc, module, *item, *expected, *got),
        Reason::Needs { need } => Ok(Mismatch::Need(*need)),
    }
}

/// What was expected at a position where the module is not accepted, and what stands there, by the
/// fault that [`unaccepted`](naga_acceptance::unaccepted) gives; none where no more can be told
/// than the kind of the fault.
///
/// - Of a type: the one that is expected, or the class of those of which any is, and the one that is
///   known; of an expression by itself, the one that it gives and the one that is known of it.
/// - Of what is named and is not there: its list, its number, and how many items the list has; of
///   what is there, but not before what names it, the position of that too.
/// - Of a swizzle: the first letter for which its vector has no component, and the vector's type.
/// - Of a number, as of the arguments of a call: the one that is expected, and the one that is there.
/// - Of an operator that does not agree: the first use of it in the module that is over operands of
///   types alike and has another type, and the types of both.
/// - Of a statement that stands where it may not, or a switch whose values do not fit: what it
///   needs.
///
/// It looks at the position alone, or of an operator at its uses in the module, and goes through the
/// types once. An error is want of memory; the fault stands as it was.
///
/// ```text
/// if let Some(fault) = unaccepted(&shader.module, &shader.info) {
///     println!(rt; "not accepted: {fault}")?;
///     if let Some(expected) = explain(alloc, &shader.module, &shader.info, fault)? {
///         println!(rt; "{expected}")?; // the expression gives vec4<f32>, the info has f32
///     }
/// }
/// ```
pub fn explain(
    alloc: Global,
    module: &Module,
    info: &ModuleInfo,
    fault: Unaccepted,
) -> Result<Option<Mismatch>, AllocError>
    ensures { IfOk result (TellsOf «module».now (fault_reason «module».now info.now fault)) }
{
    match fault_reason(module, info, fault) {
        Some(reason) => Ok(Some(told_reason(alloc, module, &reason)?)),
        None => Ok(None),
    }
}
