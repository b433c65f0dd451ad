//! The types of a module, of which no two are equal, and those with a meaning of their own.

ghost use Rattle.std.specs.Prelude.{◌≡◌, ℕ, List, map};
ghost use Rattle.json.specs.Value.{value_view};
ghost use Rattle.naga_ir.specs.declared.types.PredeclaredType.{PredeclaredType};
ghost use Rattle.naga_json.specs.Said.{Gives};
ghost use Rattle.naga_json.specs.Seen.{SeenType, seen_type};
ghost use Rattle.naga_json.specs.TypeLists.{SeenSpecialTypes, is_empty_object, pair_said};
ghost use Rattle.naga_json.specs.TypeLists.{predeclared_types_said, seen_special_types};
ghost use Rattle.naga_json.specs.TypeLists.{special_types_said, types_said};

use crate::error::{Problem, ReadError};
use crate::shape::{
    FromJson, expect_members, fill, has_members, in_item, item_of, items_of, optional_member,
};
use indexmap::IndexMap;
use json::Value;
use naga_ir::{Handle, PredeclaredType, SpecialTypes, Type_, UniqueArena};
use std::alloc::Global;

impl FromJson for UniqueArena<Type_> {
    ghost Seen = { List SeenType };

    ghost seen = { λ ts. map seen_type ts };

    ghost said = { types_said };

    #[tactic(auto, unfolding(crate::specs::TypeLists::types_said))]
    fn from_json(alloc: Global, value: &Value) -> Result<UniqueArena<Type_>, ReadError> {
        let items = items_of(alloc, value)?;
        let mut read = UniqueArena::new(alloc);
        for (index, item) in items.iter().enumerate() {
            let handle = read.insert(item_of(alloc, item, index)?)?;
            if handle.index() != index {
                return in_item(alloc, index, Err(ReadError::at(alloc, Problem::Doubled)));
            }
        }
        Ok(read)
    }
}

impl FromJson for IndexMap<PredeclaredType, Handle<Type_>> {
    ghost Seen = { List (PredeclaredType × ℕ) };

    ghost seen = { λ m. m.entries };

    ghost said = { predeclared_types_said };

    #[tactic(auto, unfolding(crate::specs::TypeLists::predeclared_types_said))]
    fn from_json(
        alloc: Global,
        value: &Value,
    ) -> Result<IndexMap<PredeclaredType, Handle<Type_>>, ReadError> {
        let mut read = IndexMap::new(alloc);
        // a map whose keys are no texts is a list of pairs, or an object without members
        if is_empty_object(value) {
            return Ok(read);
        }
        let pairs = items_of(alloc, value)?;
        for (index, pair) in pairs.iter().enumerate() {
            let pair = in_item(alloc, index, predeclared_pair(alloc, pair))?;
            if read.insert(pair.key, pair.ty)?.is_some() {
                return in_item(alloc, index, Err(ReadError::at(alloc, Problem::Doubled)));
            }
        }
        Ok(read)
    }
}

/// A predeclared struct, with its type in the module.
#[derive(Clone, Copy)]
struct PredeclaredPair {
    key: PredeclaredType,
    ty: Handle<Type_>,
}

/// A pair of a map: a list of two.
fn predeclared_pair(alloc: Global, value: &Value) -> Result<PredeclaredPair, ReadError>
    ensures { Gives (λ p. (p.key, p.ty)) (pair_said (value_view value.now)) result }
{
    match items_of(alloc, value)?.as_slice() {
        [key, ty] => Ok(PredeclaredPair {
            key: item_of(alloc, key, 0)?,
            ty: item_of(alloc, ty, 1)?,
        }),
        _ => Err(ReadError::at(alloc, Problem::WrongLength(2))),
    }
}

/// Whether the value is an object without members.
fn is_empty_object(value: &Value) -> bool
    ensures { result ≡ is_empty_object (value_view value.now) }
{
    match value {
        Value::Object(members) => !has_members(members),
        _ => false,
    }
}

/// The members of [`SpecialTypes`].
const SPECIAL_TYPES_MEMBERS: &[&str] = &[
    "predeclared_types",
    "external_texture_params",
    "external_texture_transfer_function",
    "ray_desc",
    "ray_intersection",
    "ray_vertex_return",
];

impl FromJson for SpecialTypes {
    ghost Seen = { SeenSpecialTypes };

    ghost seen = { seen_special_types };

    ghost said = { special_types_said };

    #[tactic(auto, unfolding(crate::specs::TypeLists::special_types_said))]
    fn from_json(alloc: Global, payload: &Value) -> Result<SpecialTypes, ReadError> {
        expect_members(alloc, payload, SPECIAL_TYPES_MEMBERS)?;
        let mut predeclared_types = IndexMap::new(alloc);
        fill(alloc, payload, "predeclared_types", &mut predeclared_types)?;
        Ok(SpecialTypes {
            external_texture_params: optional_member(alloc, payload, "external_texture_params")?,
            external_texture_transfer_function: optional_member(
                alloc,
                payload,
                "external_texture_transfer_function",
            )?,
            ray_desc: optional_member(alloc, payload, "ray_desc")?,
            ray_intersection: optional_member(alloc, payload, "ray_intersection")?,
            ray_vertex_return: optional_member(alloc, payload, "ray_vertex_return")?,
            predeclared_types,
        })
    }
}
