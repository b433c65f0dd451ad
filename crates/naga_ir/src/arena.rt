//! Lists that hand out the index of each item, and the handles that name those indices.

ghost use Rattle.std.specs.Prelude.{◌≡◌, ℕ, ◌<◌, ◌==◌, List, [], ◌∷◌, ◌++◌, length, drop, OnErr};
ghost use Rattle.std.specs.Prelude.{IfOk, slice_get, Some};
ghost use Rattle.std.specs.Borrow.{sem};
ghost use Rattle.std.specs.Iterator.{YieldsFirstBy, item_count};
ghost use Rattle.std.specs.List.{enumerate_from};

use std::alloc::{AllocError, Global};
use std::marker::{Model, PhantomData};
use std::ops::Index;

/// What an arena holds. Its mark tells the handles of one kind of item from those of another, and
/// holds no item: a handle that named its item's type would make `Expression` lead back to itself.
pub trait Item {
    /// A type without values that stands for this kind of item.
    type Mark;
}

/// The index of an item in an [`Arena<T>`] or a [`UniqueArena<T>`](crate::UniqueArena), counted
/// from zero.
pub type Handle<T> = ItemIndex<<T as Item>::Mark>;

/// What [`Handle`] stands for: an index, with the mark of the items that it is an index of.
#[derive(Drop)]
#[derive_where(Clone, Copy, PartialEq, Eq, PartialOrd, Ord, Hash, Debug)]
pub struct ItemIndex<M> {
    index: usize,
    mark: PhantomData<M>,
}

impl<M> Model for ItemIndex<M> {
    ghost Value = { ℕ };

    ghost view = { λ h. h.index };

    ghost inverse = { λ n. record { index = n; mark = record {} } };
}

impl<M> ItemIndex<M> {
    /// The handle of the item at `index`, counted from zero. Whether an arena has such an item is
    /// for its user to see to.
    pub fn from_index(index: usize) -> Self
        ensures { result ≡ index }
    {
        ItemIndex {
            index,
            mark: PhantomData,
        }
    }

    /// The item's index, counted from zero.
    pub fn index(self) -> usize
        ensures { result ≡ self }
    {
        self.index
    }
}

/// A list whose items are found by their handles. Items are added at its end and never removed, so
/// that a handle stays good.
#[derive(Debug, Drop)]
pub struct Arena<T> {
    items: Vec<T>,
}

impl<T> Model for Arena<T> {
    ghost Value = { List T };

    ghost view = { λ a. a.items.items };
}

impl<T: Item + Drop> Arena<T> {
    ghost use Rattle.naga_ir.specs.Arenas.{LendsItem};

    /// An arena without items. It takes no memory.
    pub fn new(alloc: Global) -> Self
        ensures { result ≡ [] }
    {
        Arena {
            items: Vec::new(alloc),
        }
    }

    /// How many items there are.
    pub fn len(&self) -> usize
        ensures { result ≡ length self.now }
    {
        self.items.len()
    }

    /// Whether there are no items.
    pub fn is_empty(&self) -> bool
        ensures { result ≡ (length self.now == 0) }
    {
        self.items.is_empty()
    }

    /// Adds `item` at the end and gives its handle. Where memory is refused, the arena stays as it
    /// was and the item is dropped.
    pub fn append(&mut self, item: T) -> Result<Handle<T>, AllocError>
        ensures handle { IfOk result (λ h. h ≡ length self.old) }
        ensures items { IfOk result (λ _. self.new ≡ self.old ++ item ∷ []) }
        ensures err { OnErr result (self.new ≡ self.old) }
    {
        let handle = ItemIndex::from_index(self.items.len());
        self.items.push(item)?;
        Ok(handle)
    }

    /// The item at `handle`, which is there, to be changed. The other items stay as they are.
    pub fn get_mut(&mut self, handle: Handle<T>) -> &mut T
        requires { handle < length self.old }
        ensures* writes_back { sem 𝓛 (LendsItem T.row self.entry handle result) }
        ensures item { slice_get self.old handle ≡ Some result.now }
    {
        &mut self.items[handle.index]
    }

    /// The handles with their items, in order.
    pub fn iter(&self) -> Iter<'_, T>
        ensures { result ≡ enumerate_from 0 self.now }
    {
        Iter::new(&self.items)
    }
}

impl<T: Item> Index<Handle<T>> for Arena<T> {
    type Output = T;

    ghost can_index = { λ a h. h < length a };

    ghost index_gives = { λ a h x. slice_get a h ≡ Some x };

    fn index(&self, handle: Handle<T>) -> &T {
        &self.items[handle.index]
    }
}

/// The handles of an arena's items, each with its item, in order.
#[derive(Debug, Drop)]
pub struct Iter<'a, T> {
    items: &'a [T],
    index: usize,
}

impl<'a, T> Model for Iter<'a, T> {
    ghost Value = { List (ℕ × T) };

    ghost view = { λ s. enumerate_from s.index (drop s.index s.items.now) };
}

impl<'a, T> Iter<'a, T> {
    pub(crate) fn new(items: &'a [T]) -> Self
        ensures { result ≡ enumerate_from 0 items.now }
    {
        Iter { items, index: 0 }
    }
}

impl<'a, T: Item> Iterator for Iter<'a, T> {
    type Item = (Handle<T>, &'a T);

    ghost next_gives = { YieldsFirstBy (λ p. (p.0, p.1.now)) (λ s. s) };

    ghost remaining = { item_count (λ s. s) };

    fn next(&mut self) -> Option<(Handle<T>, &'a T)> {
        let item = self.items.get(self.index)?;
        let handle = ItemIndex::from_index(self.index);
        self.index += 1;
        Some((handle, item))
    }
}
