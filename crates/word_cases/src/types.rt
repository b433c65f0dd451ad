//! How types are spelled in each context.

use crate::answers::{push_line, text_in};
use json::Value;
use naga_info::{GlobalCtx, TypeResolution};
use naga_ir::{Module, Type_, UniqueArena};
use naga_json::{Known, known_of};
use naga_names::namer::{NameKey, Namer, NamerError};
use naga_words::types::{type_fits, types_in_order};
use naga_words::{TypeContext, TypeTextError, WriterTypeContext};
use std::alloc::{AllocError, Global};
use std::collections::HashMap;
use word_tests::NumberedTypes;

/// The spelling of a type, or why there is none; nothing where it names what is not there.
type Spelled = Option<Result<String, TypeTextError>>;

/// Adds the spellings of the types that the info of the case has for global expressions.
pub fn push_types(alloc: Global, case: &Value<'_>, answer: &mut String) -> Result<(), AllocError> {
    match known_of(alloc, case) {
        Ok(known) => match text_in(case, "context") {
            Some("arena") => push_by_arena(alloc, &known, answer),
            Some("labels") => push_by_labels(alloc, &known, answer),
            Some("numbers") => push_by_numbers(alloc, &known, answer),
            _ => push_by_names(alloc, &known, answer),
        },
        Err(error) => {
            let line = format!(in alloc; "not read: {error}")?;
            push_line(line.as_str(), answer)
        }
    }
}

/// Adds the spelling.
fn push_spelled(alloc: Global, spelled: &Spelled, answer: &mut String) -> Result<(), AllocError> {
    match spelled {
        Some(Ok(text)) => push_line(text.as_str(), answer),
        Some(Err(error)) => {
            let line = format!(in alloc; "refused: {error}")?;
            push_line(line.as_str(), answer)
        }
        None => push_line("names what is not there", answer),
    }
}

// ---- types alone

fn push_by_arena(alloc: Global, known: &Known, answer: &mut String) -> Result<(), AllocError> {
    for ty in &known.info.const_expression_types {
        let spelled = spelled_by_arena(alloc, &known.module.types, ty);
        push_spelled(alloc, &spelled, answer)?;
    }
    Ok(())
}

fn spelled_by_arena(alloc: Global, types: &UniqueArena<Type_>, ty: &TypeResolution) -> Spelled {
    if !types_in_order(types, usize::MAX) {
        return None;
    }
    match ty {
        TypeResolution::Handle(handle) => {
            if handle.index() < types.len() {
                return Some(types.type_to_string(alloc, *handle));
            }
            None
        }
        TypeResolution::Value(inner) => {
            if type_fits(types.len(), usize::MAX, inner) {
                return Some(types.type_resolution_to_string(alloc, ty));
            }
            None
        }
    }
}

// ---- the labels of a module

fn push_by_labels(alloc: Global, known: &Known, answer: &mut String) -> Result<(), AllocError> {
    for ty in &known.info.const_expression_types {
        let spelled = spelled_by_labels(alloc, &known.module, ty);
        push_spelled(alloc, &spelled, answer)?;
    }
    Ok(())
}

fn spelled_by_labels(alloc: Global, module: &Module, ty: &TypeResolution) -> Spelled {
    let context = GlobalCtx {
        types: &module.types,
        constants: &module.constants,
        overrides: &module.overrides,
        global_expressions: &module.global_expressions,
    };
    if !types_in_order(context.types, context.overrides.len()) {
        return None;
    }
    match ty {
        TypeResolution::Handle(handle) => {
            if handle.index() < context.types.len() {
                return Some(context.type_to_string(alloc, *handle));
            }
            None
        }
        TypeResolution::Value(inner) => {
            if type_fits(context.types.len(), context.overrides.len(), inner) {
                return Some(context.type_resolution_to_string(alloc, ty));
            }
            None
        }
    }
}

// ---- numbers

fn push_by_numbers(alloc: Global, known: &Known, answer: &mut String) -> Result<(), AllocError> {
    let context = NumberedTypes::new(alloc, &known.module.types)?;
    for ty in &known.info.const_expression_types {
        let spelled = spelled_by_numbers(alloc, &context, ty);
        push_spelled(alloc, &spelled, answer)?;
    }
    Ok(())
}

fn spelled_by_numbers(alloc: Global, context: &NumberedTypes<'_>, ty: &TypeResolution) -> Spelled {
    if !context.is_in_order(usize::MAX) {
        return None;
    }
    match ty {
        TypeResolution::Handle(handle) => {
            if handle.index() < context.types.len() {
                return Some(context.type_to_string(alloc, *handle));
            }
            None
        }
        TypeResolution::Value(inner) => {
            if type_fits(context.types.len(), usize::MAX, inner) {
                return Some(context.type_resolution_to_string(alloc, ty));
            }
            None
        }
    }
}

// ---- the names of a writer

fn push_by_names(alloc: Global, known: &Known, answer: &mut String) -> Result<(), AllocError> {
    match names_of(alloc, &known.module) {
        Ok(names) => push_by_these(alloc, known, &names, answer),
        Err(error) => {
            let line = format!(in alloc; "refused: {error}")?;
            push_line(line.as_str(), answer)
        }
    }
}

/// The names of what the module declares.
fn names_of(alloc: Global, module: &Module) -> Result<HashMap<NameKey, String>, NamerError> {
    let mut names = HashMap::new(alloc);
    crate::items::reset(alloc, module, &mut Namer::default(alloc), &mut names)?;
    Ok(names)
}

fn push_by_these(
    alloc: Global,
    known: &Known,
    names: &HashMap<NameKey, String>,
    answer: &mut String,
) -> Result<(), AllocError> {
    let module = &known.module;
    for ty in &known.info.const_expression_types {
        let spelled = spelled_by_names(alloc, &WriterTypeContext { module, names }, ty);
        push_spelled(alloc, &spelled, answer)?;
    }
    Ok(())
}

fn spelled_by_names(
    alloc: Global,
    context: &WriterTypeContext<'_>,
    ty: &TypeResolution,
) -> Spelled {
    let types = &context.module.types;
    if !types_in_order(types, usize::MAX) {
        return None;
    }
    match ty {
        TypeResolution::Handle(handle) => {
            if handle.index() < types.len() {
                return Some(context.type_to_string(alloc, *handle));
            }
            None
        }
        TypeResolution::Value(inner) => {
            if type_fits(types.len(), usize::MAX, inner) {
                return Some(context.type_resolution_to_string(alloc, ty));
            }
            None
        }
    }
}
