//! Items by their handles, as far as they are there.

ghost use Rattle.std.specs.Prelude.{◌≡◌, slice_get};
ghost use Rattle.std.specs.Option.{option_copied};

use naga_ir::{Arena, EntryPoint, Handle, Item, ItemIndex, Module, Type_};

/// The item at a handle, if there is one.
#[tactic(auto, using(std::proofs::lemmas::Option::slice_get_past))]
pub fn item_at<T: Item + Drop>(arena: &Arena<T>, handle: Handle<T>) -> Option<&T>
    ensures { option_copied result ≡ slice_get arena.now handle }
{
    let index = handle.index();
    if index < arena.len() {
        Some(&arena[ItemIndex::from_index(index)])
    } else {
        None
    }
}

/// The type of a module at a handle, if there is one.
#[tactic(auto, using(std::proofs::lemmas::Option::slice_get_past))]
pub(crate) fn type_at(module: &Module, handle: Handle<Type_>) -> Option<&Type_>
    ensures { option_copied result ≡ slice_get «module».now.types handle }
{
    if handle.index() < module.types.len() {
        Some(&module.types[handle])
    } else {
        None
    }
}

/// The entry point of a module at an index, if there is one.
pub fn entry_point_at(module: &Module, index: usize) -> Option<&EntryPoint>
    ensures { option_copied result ≡ slice_get «module».now.entry_points.items index }
{
    module.entry_points.get(index)
}
