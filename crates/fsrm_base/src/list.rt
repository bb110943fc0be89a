//! An owned list.

ghost use Rattle.std.specs.Prelude.{◌≡◌, ◌==◌, ◌≤◌, ◌∷◌, [], ◌++◌, OnOk, OnErr, insert, length, slice_get};
ghost use Rattle.std.specs.Option.{option_copied};

use crate::memory::{Duplicate, NoMemory};
use std::alloc::Global;
use std::marker::Model;

/// An owned list. Contracts see it as the list of its items.
#[derive(Drop)]
pub struct List<T> {
    inner: Vec<T>,
}

impl<T> Model for List<T> {
    ghost use Rattle.std.specs.Prelude.{List as Items};

    ghost Value = { Items T };

    ghost view = { λ l. l.inner.items };
}

impl<T> List<T> {
    /// A list without items. It takes no memory.
    pub fn new(alloc: Global) -> List<T>
        ensures { result ≡ [] }
    {
        List {
            inner: Vec::new(alloc),
        }
    }

    /// How many items it has.
    pub fn len(&self) -> usize
        ensures { result ≡ length self.now }
    {
        self.inner.len()
    }

    /// Whether it has no items.
    pub fn is_empty(&self) -> bool
        ensures { result ≡ (length self.now == 0) }
    {
        self.inner.is_empty()
    }

    /// The item at a place, from 0. None exactly past the end.
    pub fn get(&self, place: usize) -> Option<&T>
        ensures { option_copied result ≡ slice_get self.now place }
    {
        self.inner.get(place)
    }

    /// The items, lent.
    pub fn as_slice(&self) -> &[T]
        ensures { result.now ≡ self.now }
    {
        self.inner.as_slice()
    }
}

impl<T> List<T> {
    ghost use Rattle.std.specs.Borrow.{sem};
    ghost use Rattle.std.specs.Option.{option_copied_mut};
    ghost use Rattle.fsrm_base.specs.Lends.{lends_item};

    /// The item at a place, from 0, lent to be changed. None exactly past the end.
    pub fn get_mut(&mut self, place: usize) -> Option<&mut T>
        ensures* writes_back { sem 𝓛 (lends_item T.row self.entry place result) }
        ensures value { option_copied_mut result ≡ slice_get self.old place }
    {
        self.inner.get_mut(place)
    }
}

impl<T: Drop> List<T> {
    /// Adds an item at the end. If memory runs out the item is dropped and the list stays.
    pub fn push(&mut self, item: T) -> Result<(), NoMemory>
        ensures ok { OnOk result (self.new ≡ self.old ++ item ∷ []) }
        ensures err { OnErr result (self.new ≡ self.old) }
    {
        self.inner.push(item)?;
        Ok(())
    }

    /// Puts an item to a place, from 0, before the item that stands there. If memory runs out the item is
    /// dropped and the list stays.
    pub fn insert(&mut self, place: usize, item: T) -> Result<(), NoMemory>
        requires { place ≤ length self.old }
        ensures ok { OnOk result (self.new ≡ insert self.old place item) }
        ensures err { OnErr result (self.new ≡ self.old) }
    {
        self.inner.insert(place, item)?;
        Ok(())
    }
}

impl<T: Duplicate> Duplicate for List<T> {
    fn copy(&self, alloc: Global) -> Result<Self, NoMemory> {
        // Copies stand for long and seldom grow, so they have no room beyond their items.
        let mut inner = Vec::with_capacity(alloc, self.inner.len())?;
        for item in &self.inner {
            inner.push_reserved(item.copy(alloc)?);
        }
        Ok(List { inner })
    }
}
