//! WGSL's words for what is in a module.

use crate::answers::push_line;
use json::Value;
use naga_ir::{Binding, Expression, Function, ImageClass, Module, Type_, TypeInner, UniqueArena};
use naga_json::module_of;
use naga_words::PredeclaredName;
use naga_words::to_wgsl::{ToWgsl, TryToWgsl, address_space_str};
use std::alloc::{AllocError, Global};

/// Adds the words for what is in the module of the case: for its types, for the spaces of its
/// variables, for what functions of WGSL give, and in its functions for arguments and functions of
/// mathematics.
pub fn push_words(alloc: Global, case: &Value<'_>, answer: &mut String) -> Result<(), AllocError> {
    let Some(module) = case.get("module") else {
        return push_line("no module", answer);
    };
    match module_of(alloc, module) {
        Ok(module) => push_words_of(alloc, &module, answer),
        Err(error) => {
            let line = format!(in alloc; "not read: {error}")?;
            push_line(line.as_str(), answer)
        }
    }
}

fn push_words_of(alloc: Global, module: &Module, answer: &mut String) -> Result<(), AllocError> {
    push_types(alloc, &module.types, answer)?;
    push_spaces(alloc, module, answer)?;
    push_predeclared(alloc, module, answer)?;
    for (_, function) in module.functions.iter() {
        push_arguments(alloc, function, answer)?;
        push_mathematics(alloc, function, answer)?;
    }
    Ok(())
}

/// Adds the word of a value, if it has one, and the text that diagnostics show.
fn push_word<T: TryToWgsl + Copy>(
    alloc: Global,
    value: T,
    answer: &mut String,
) -> Result<(), AllocError> {
    let word = value.try_to_wgsl().unwrap_or("no word");
    let shown = value.to_wgsl_for_diagnostics(alloc)?;
    let line = format!(in alloc; "{word}, shown {shown}")?;
    push_line(line.as_str(), answer)
}

/// Adds the words for scalars, images and matrices.
fn push_types(
    alloc: Global,
    types: &UniqueArena<Type_>,
    answer: &mut String,
) -> Result<(), AllocError> {
    for (_, ty) in types.iter() {
        match &ty.inner {
            TypeInner::Scalar(scalar) => push_word(alloc, *scalar, answer)?,
            inner => push_line(word_within(inner), answer)?,
        }
    }
    Ok(())
}

/// The word for the role of a matrix, for the format of a storage texture, or for the dimension of
/// another.
fn word_within(inner: &TypeInner) -> &'static str {
    match inner {
        TypeInner::CooperativeMatrix { role, .. } => role.to_wgsl(),
        TypeInner::Image {
            class: ImageClass::Storage { format, .. },
            ..
        } => format.to_wgsl(),
        TypeInner::Image { dim, .. } => dim.to_wgsl(),
        _ => "no word",
    }
}

/// Adds the words for the space of each variable and for its access.
fn push_spaces(alloc: Global, module: &Module, answer: &mut String) -> Result<(), AllocError> {
    for (_, variable) in module.global_variables.iter() {
        let (space, access) = address_space_str(variable.space);
        let (space, access) = (space.unwrap_or("no word"), access.unwrap_or("no word"));
        push_pair(alloc, space, access, answer)?;
    }
    Ok(())
}

fn push_pair(
    alloc: Global,
    first: &str,
    second: &str,
    answer: &mut String,
) -> Result<(), AllocError> {
    let line = format!(in alloc; "{first}, {second}")?;
    push_line(line.as_str(), answer)
}

/// Adds the names of the structs that functions of WGSL give.
fn push_predeclared(alloc: Global, module: &Module, answer: &mut String) -> Result<(), AllocError> {
    for predeclared in module.special_types.predeclared_types.keys() {
        let name = predeclared.struct_name(alloc)?;
        push_line(name.as_str(), answer)?;
    }
    Ok(())
}

/// Adds the words for the bindings of arguments: for builtin values, and for interpolations with
/// samplings.
fn push_arguments(
    alloc: Global,
    function: &Function,
    answer: &mut String,
) -> Result<(), AllocError> {
    for argument in &function.arguments {
        match argument.binding {
            Some(Binding::BuiltIn(value)) => push_word(alloc, value, answer)?,
            Some(
                Binding::Location {
                    interpolation: Some(interpolation),
                    sampling: Some(sampling),
                    ..
                },
            ) => {
                push_pair(alloc, interpolation.to_wgsl(), sampling.to_wgsl(), answer)?;
            }
            _ => {}
        }
    }
    Ok(())
}

/// Adds the words for functions of mathematics.
fn push_mathematics(
    alloc: Global,
    function: &Function,
    answer: &mut String,
) -> Result<(), AllocError> {
    for (_, expression) in function.expressions.iter() {
        if let Expression::Math { fun, .. } = expression {
            push_word(alloc, *fun, answer)?;
        }
    }
    Ok(())
}
