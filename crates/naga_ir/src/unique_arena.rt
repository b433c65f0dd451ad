//! Lists of distinct items.

ghost use Rattle.std.specs.Prelude.{◌≡◌, ◌<◌, ◌==◌, List, [], length, OnErr, IfOk, slice_get, Some};
ghost use Rattle.std.specs.List.{enumerate_from, position_or_len};
ghost use Rattle.indexmap.specs.IndexSet.{insert_key};

use crate::arena::{Handle, Item, ItemIndex, Iter};
use indexmap::IndexSet;
use std::alloc::{AllocError, Global};
use std::hash::Hash;
use std::marker::Model;
use std::ops::Index;

/// A list of distinct items, found by their handles.
#[derive(Debug, Drop)]
pub struct UniqueArena<T: Eq + Hash> {
    items: IndexSet<T>,
}

impl<T: Eq + Hash> Model for UniqueArena<T> {
    ghost Value = { List T };

    ghost view = { λ a. a.items.keys };
}

impl<T: Item + Eq + Hash + Drop> UniqueArena<T> {
    /// An arena without items. It takes no memory.
    pub fn new(alloc: Global) -> Self
        ensures { result ≡ [] }
    {
        UniqueArena {
            items: IndexSet::new(alloc),
        }
    }

    /// How many items there are.
    pub fn len(&self) -> usize
        ensures { result ≡ length self.now }
    {
        self.items.len()
    }

    /// Whether there are no items.
    pub fn is_empty(&self) -> bool
        ensures { result ≡ (length self.now == 0) }
    {
        self.items.is_empty()
    }

    /// The handle of the item that equals `item`; where there is none, `item` is added at the end.
    /// Where memory is refused, the arena stays as it was and the item is dropped.
    pub fn insert(&mut self, item: T) -> Result<Handle<T>, AllocError>
        ensures handle { IfOk result (λ h. h ≡ position_or_len (T.eq item) self.old) }
        ensures items { IfOk result (λ _. self.new ≡ insert_key T.eq self.old item) }
        ensures err { OnErr result (self.new ≡ self.old) }
    {
        let (index, _) = self.items.insert_full(item)?;
        Ok(ItemIndex::from_index(index))
    }

    /// The handles with their items, in order.
    pub fn iter(&self) -> Iter<'_, T>
        ensures { result ≡ enumerate_from 0 self.now }
    {
        Iter::new(self.items.as_slice())
    }
}

impl<T: Item + Eq + Hash> Index<Handle<T>> for UniqueArena<T> {
    type Output = T;

    ghost can_index = { λ a h. h < length a };

    ghost index_gives = { λ a h x. slice_get a h ≡ Some x };

    fn index(&self, handle: Handle<T>) -> &T {
        &self.items.as_slice()[handle.index()]
    }
}
