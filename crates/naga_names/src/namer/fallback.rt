//! What an item without a label is labelled.
ghost use Rattle.std.specs.Prelude.{◌≡◌, ℕ, ◌++◌, length, IfOk, string_bytes};
ghost use Rattle.std.specs.Option.{option_map};
ghost use Rattle.naga_naming.specs.Naming.{label_or};
ghost use Rattle.naga_naming.specs.Keys.{names_in};
ghost use Rattle.naga_naming.specs.Reset.{output_word, output_label, is_struct, type_names_in};
ghost use Rattle.naga_naming.specs.Outputs.{words_in, unnamed_label_by, type_label_by};

use crate::namer::NameKey;
use naga_ir::{EntryPoint, Handle, ShaderStage, Type_, TypeInner, UniqueArena};
use std::alloc::{AllocError, Global};
use std::collections::HashMap;

/// The label, or the fallback where there is none.
pub fn label_or<'a>(label: &'a Option<String>, fallback: &'a str) -> &'a str
    ensures { result.now ≡ label_or label.now fallback.now }
{
    match label {
        Some(label) => label.as_str(),
        None => fallback,
    }
}

/// The label of the type; without one, what it is labelled by the entry points that return it.
pub fn type_label<'a>(
    outputs: &HashMap<usize, &'static str>,
    handle: Handle<Type_>,
    ty: &'a Type_,
) -> &'a str
    ensures { result.now ≡ type_label_by (words_in outputs.now) handle ty.now }
{
    match &ty.name {
        Some(label) => label.as_str(),
        None => unnamed_label(outputs, handle, &ty.inner),
    }
}

fn unnamed_label(
    outputs: &HashMap<usize, &'static str>,
    handle: Handle<Type_>,
    inner: &TypeInner,
) -> &'static str
    ensures { result.now ≡ unnamed_label_by (words_in outputs.now) handle inner.now }
{
    if !is_struct(inner) {
        return "type";
    }
    outputs.get(&handle.index()).copied().unwrap_or("type")
}

fn is_struct(inner: &TypeInner) -> bool
    ensures { result ≡ is_struct inner.now }
{
    matches!(inner, TypeInner::Struct { .. })
}

/// By the index of a type, the word for what the last of these entry points gives that returns it
/// and has such a word.
pub fn output_words(
    alloc: Global,
    entry_points: &[EntryPoint],
) -> Result<HashMap<usize, &'static str>, AllocError>
    ensures { IfOk result (λ words. (t : ℕ) →
        words_in words t ≡ output_label t entry_points.now) }
{
    let mut words = HashMap::new(alloc);
    for entry_point in entry_points {
        let Some(result) = &entry_point.function.result else {
            continue;
        };
        if let Some(word) = output_word(entry_point.stage) {
            words.insert(result.ty.index(), word)?;
        }
    }
    Ok(words)
}

/// The word for what an entry point of this stage returns.
fn output_word(stage: ShaderStage) -> Option<&'static str>
    ensures { option_map (λ word. word.now) result ≡ output_word stage }
{
    match stage {
        ShaderStage::Vertex => Some("VertexOutput"),
        ShaderStage::Fragment => Some("FragmentOutput"),
        ShaderStage::Compute => Some("ComputeOutput"),
        _ => None,
    }
}

/// The word and the name that the map has for the type.
pub fn value_label(
    alloc: Global,
    word: &str,
    types: &UniqueArena<Type_>,
    ty: Handle<Type_>,
    names: &HashMap<NameKey, String>,
) -> Result<String, AllocError>
    ensures { IfOk result (λ label. string_bytes label ≡
        word.now ++ type_names_in (names_in names.now) (length types.now) ty) }
{
    let name = type_name(types, ty, names);
    format!(in alloc; "{word}{name}")
}

fn type_name<'a>(
    types: &UniqueArena<Type_>,
    ty: Handle<Type_>,
    names: &'a HashMap<NameKey, String>,
) -> &'a str
    ensures { result.now ≡ type_names_in (names_in names.now) (length types.now) ty }
{
    if ty.index() >= types.len() {
        return "";
    }
    match names.get(&NameKey::Type_(ty)) {
        Some(name) => name.as_str(),
        None => "",
    }
}
