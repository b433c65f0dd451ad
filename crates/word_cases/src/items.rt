//! The names of what a module declares.

use crate::answers::{is_told, push_line};
use crate::names::push_names_by;
use json::Value;
use naga_ir::Module;
use naga_json::module_of;
use naga_names::keyword_set::{CaseInsensitiveKeywordSet, KeywordSet};
use naga_names::keywords::{BUILTIN_IDENTIFIERS, RESERVED};
use naga_names::namer::{EntryPointIndex, NameKey, Namer, NamerError};
use std::alloc::{AllocError, Global};
use std::collections::HashMap;

/// A key that the map has before.
const OTHER: NameKey = NameKey::EntryPoint(EntryPointIndex::MAX);

/// Adds the names of what the module of the case declares, and then those of the labels.
pub fn push_items(alloc: Global, case: &Value<'_>, answer: &mut String) -> Result<(), AllocError> {
    let Some(module) = case.get("module") else {
        return push_line("no module", answer);
    };
    match module_of(alloc, module) {
        Ok(mut module) => {
            module.keeps_digits = is_told(case, "digits");
            push_module(alloc, &module, case, answer)
        }
        Err(error) => {
            let line = format!(in alloc; "not read: {error}")?;
            push_line(line.as_str(), answer)
        }
    }
}

fn push_module(
    alloc: Global,
    module: &Module,
    case: &Value<'_>,
    answer: &mut String,
) -> Result<(), AllocError> {
    let mut names = HashMap::new(alloc);
    names.insert(OTHER, String::from_str(alloc, "kept")?)?;
    let mut namer = Namer::default(alloc);
    match reset(alloc, module, &mut namer, &mut names) {
        Ok(()) => {
            push_map(alloc, &names, answer)?;
            push_names_by(alloc, &mut namer, case, answer)
        }
        Err(error) => {
            let line = format!(in alloc; "refused: {error}")?;
            push_line(line.as_str(), answer)
        }
    }
}

/// Names what the module declares, with the words of WGSL and the prefixes that its implementations
/// reserve.
pub fn reset(
    alloc: Global,
    module: &Module,
    namer: &mut Namer,
    names: &mut HashMap<NameKey, String>,
) -> Result<(), NamerError> {
    let keywords = KeywordSet::from_slice(alloc, RESERVED)?;
    let builtin = KeywordSet::from_slice(alloc, BUILTIN_IDENTIFIERS)?;
    let caseless = CaseInsensitiveKeywordSet::new(alloc);
    namer.reset(module, keywords, builtin, caseless, &["__", "_naga"], names)
}

/// Adds each key of the map with its name, in the order of their texts.
fn push_map(
    alloc: Global,
    names: &HashMap<NameKey, String>,
    answer: &mut String,
) -> Result<(), AllocError> {
    let mut lines = Vec::new(alloc);
    for (key, name) in names.iter() {
        lines.push(format!(in alloc; "{key:?}: {name}")?)?;
    }
    lines.sort_unstable();
    for line in &lines {
        push_line(line.as_str(), answer)?;
    }
    Ok(())
}
