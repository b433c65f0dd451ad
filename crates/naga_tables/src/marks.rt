//! Tables of marks, a cell for each item.

ghost use Rattle.std.specs.Prelude.{IfOk, None, false, replicate};
ghost use Rattle.std.specs.Prelude.{[], ◌∷◌, ◌≡◌, ◌<◌};
ghost use Rattle.std.specs.List.{list_all};
ghost use Rattle.std.specs.Option.{option_to_list};
ghost use Rattle.naga_tables.specs.Marks.{MarksAlso};
ghost use Rattle.naga_tables.specs.Marks.{is_marked};

use naga_ir::{Expression, Handle, ItemIndex};
use std::alloc::{AllocError, Global};

/// Marks the item with this handle, if there is one.
pub fn mark<M>(marks: &mut [bool], handle: ItemIndex<M>)
    ensures { MarksAlso marks.old (handle ∷ []) marks.new }
{
    let index = handle.index();
    if index < marks.len() {
        marks[index] = true;
    }
}

/// Marks the item with this handle, if there is one.
#[tactic(auto, using(crate::proofs::Marking::marks_none))]
pub fn mark_present<M>(marks: &mut [bool], handle: Option<ItemIndex<M>>)
    ensures { MarksAlso marks.old (option_to_list handle) marks.new }
{
    if let Some(handle) = handle {
        mark(marks, handle);
    }
}

/// Whether the item with this handle has a mark.
pub fn is_marked<M>(marks: &[bool], handle: ItemIndex<M>) -> bool
    ensures { result ≡ is_marked marks.now handle }
{
    match marks.get(handle.index()) {
        Some(is_marked) => *is_marked,
        None => false,
    }
}

/// Whether all of these have marks.
pub fn are_marked(marks: &[bool], handles: &[Handle<Expression>]) -> bool
    ensures { result ≡ list_all (is_marked marks.now) handles.now }
{
    for handle in handles {
        if !is_marked(marks, *handle) {
            return false;
        }
    }
    true
}

/// A table of so many cells without marks.
pub fn no_marks(alloc: Global, count: usize) -> Result<Vec<bool>, AllocError>
    ensures { IfOk result (λ marks. marks.items ≡ replicate count false) }
{
    vec![in alloc; false; count]
}
