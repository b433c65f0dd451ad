//! The names that a namer gives to labels.

use crate::answers::{is_told, push_line, text_in};
use json::Value;
use naga_names::namer::{Namer, NamerError};
use std::alloc::{AllocError, Global};

/// Adds the names of the labels, by a namer that has given none.
pub fn push_names(alloc: Global, case: &Value<'_>, answer: &mut String) -> Result<(), AllocError> {
    let mut namer = match text_in(case, "namer") {
        Some("wgsl") => Namer::for_wgsl(alloc)?,
        _ => Namer::default(alloc),
    };
    if is_told(case, "digits") {
        namer.keep_digits();
    }
    push_names_by(alloc, &mut namer, case, answer)
}

/// Adds the names of the labels.
pub fn push_names_by(
    alloc: Global,
    namer: &mut Namer,
    case: &Value<'_>,
    answer: &mut String,
) -> Result<(), AllocError> {
    if let Some(Value::Array(labels)) = case.get("labels") {
        for label in labels.iter() {
            let name = name_of(alloc, namer, label, text_in(case, "or"));
            push_name(alloc, &name, answer)?;
        }
    }
    Ok(())
}

/// The name of the label, or of the fallback where there is none.
fn name_of(
    alloc: Global,
    namer: &mut Namer,
    label: &Value<'_>,
    fallback: Option<&str>,
) -> Result<String, NamerError> {
    let label = label.as_str();
    match fallback {
        Some(fallback) => {
            let label = match label {
                Some(text) => Some(String::from_str(alloc, text)?),
                None => None,
            };
            namer.call_or(&label, fallback)
        }
        None => namer.call(label.unwrap_or("")),
    }
}

fn push_name(
    alloc: Global,
    name: &Result<String, NamerError>,
    answer: &mut String,
) -> Result<(), AllocError> {
    match name {
        Ok(name) => push_line(name.as_str(), answer),
        Err(error) => {
            let line = format!(in alloc; "refused: {error}")?;
            push_line(line.as_str(), answer)
        }
    }
}
