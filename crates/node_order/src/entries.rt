//! Entries of nodes, and a list of them in the order of their places.

ghost use Rattle.std.specs.Prelude.{◌≡◌, ℕ, ◌+◌, ◌*◌, ◌<◌, ◌≤◌, ◌++◌, [], Some, All, Contains, IfOk, get_or, insert, length, map, remove, slice_get};
ghost use Rattle.block_list.specs.Places.{IsEntry, IsGap, index_of};
ghost use Rattle.block_list.specs.Runs.{entries_of, run_at, start_of};
ghost use Rattle.name_rules.specs.Prefix.{prefix as prefix_of};
ghost use Rattle.node_order.specs.Entries.{number_in};
ghost use Rattle.node_order.specs.declared.entries.Entry.{Entry};

use block_list::{BlockList, Place};
use fsrm_model::NoMemory;
use name_rules::fold_prefix;
use std::alloc::Global;
use std::marker::Model;

/// What tells where a node stands in the order, in most cases without a look at its row.
#[derive(Clone, Copy)]
pub struct Entry {
    /// The first characters of the folded name (`name_rules::fold_prefix`).
    pub prefix: u64,
    pub parent: u32,
    pub node: u32,
}

impl Entry {
    /// The entry of a node of a name in a folder.
    #[inline]
    pub fn at(node: u32, folder: u32, name: &str) -> Entry
        ensures { result ≡ record { prefix = prefix_of name.now; parent = folder; node = node } }
    {
        Entry {
            prefix: fold_prefix(name),
            parent: folder,
            node,
        }
    }
}

/// The entries of nodes, in runs. Contracts see the runs as the numbers of the nodes, and beside them the entries.
#[derive(Drop)]
pub struct Order {
    list: BlockList<Entry>,
}

impl Model for Order {
    ghost use Rattle.block_list.specs.Runs.{entries_of};
    ghost use Rattle.node_order.specs.Entries.{Sequence, numbers_in};

    ghost Value = { Sequence };

    ghost view = { λ o. record { room = o.list.room; runs = numbers_in o.list.runs; entries = entries_of o.list.runs } };
}

impl Order {
    /// No entries, with room for so many. No other call takes memory.
    pub fn reserve(alloc: Global, entries: u32) -> Result<Order, NoMemory>
        ensures { IfOk result (λ order. order ≡ record { room = entries; runs = []; entries = [] }) }
    {
        let list = BlockList::reserve(alloc, entries)?;
        Ok(Order { list })
    }

    /// How many entries there are.
    #[inline]
    pub fn len(&self) -> u32
        ensures { result ≡ length (entries_of self.now.runs) }
    {
        self.list.len()
    }

    /// How many runs there are.
    #[inline]
    pub fn run_count(&self) -> usize
        ensures count { result ≡ length self.now.runs }
        ensures few { 129 * result ≤ 2 * length (entries_of self.now.runs) + 129 }
        ensures all { start_of self.now.runs result ≡ length (entries_of self.now.runs) }
    {
        self.list.run_count()
    }

    /// The first entry of a run. It is at hand without a look into the run's block.
    #[inline]
    pub fn first(&self, run: usize) -> Entry
        requires { run < length self.now.runs }
        ensures number { slice_get (entries_of self.now.runs) (start_of self.now.runs run) ≡ Some result.node }
        ensures listed { Contains self.now.entries result }
    {
        self.list.first(run)
    }

    /// A run, lent.
    #[inline]
    pub fn run(&self, run: usize) -> &[Entry]
        requires { run < length self.now.runs }
        ensures run { map number_in result.now ≡ run_at self.now.runs run }
        ensures size { length (run_at self.now.runs run) ≡ length result.now }
        ensures some { 0 < length result.now }
        ensures most { length result.now ≤ 128 }
        ensures numbers { (k : ℕ) (d : Entry) → k < length result.now → slice_get (entries_of self.now.runs) (start_of self.now.runs run + k) ≡ Some (get_or result.now k d).node }
        ensures listed { All (Contains self.now.entries) result.now }
        ensures next { start_of self.now.runs (run + 1) ≡ start_of self.now.runs run + length result.now }
    {
        self.list.run(run)
    }

    /// The node whose entry stands at a place.
    #[inline]
    pub fn get(&self, place: Place) -> u32
        requires { IsEntry self.now.runs place }
        ensures { slice_get (entries_of self.now.runs) (index_of self.now.runs place) ≡ Some result }
    {
        self.list.get(place).node
    }

    /// The place after the last entry.
    #[inline]
    pub fn end(&self) -> Place
        ensures gap { IsGap self.now.runs result }
        ensures index { index_of self.now.runs result ≡ length (entries_of self.now.runs) }
    {
        self.list.end()
    }

    /// Puts an entry at a place. Those from there on come after it.
    pub fn insert(&mut self, place: Place, entry: Entry)
        requires room { length (entries_of self.old.runs) < self.old.room }
        requires place { IsGap self.old.runs place }
        ensures room { self.new.room ≡ self.old.room }
        ensures numbers { entries_of self.new.runs ≡ insert (entries_of self.old.runs) (index_of self.old.runs place) entry.node }
        ensures entries { self.new.entries ≡ insert self.old.entries (index_of self.old.runs place) entry }
    {
        self.list.insert(place, entry);
    }

    /// Takes the entry at a place out.
    pub fn remove(&mut self, place: Place)
        requires { IsEntry self.old.runs place }
        ensures room { self.new.room ≡ self.old.room }
        ensures numbers { entries_of self.new.runs ≡ remove (entries_of self.old.runs) (index_of self.old.runs place) }
        ensures entries { self.new.entries ≡ remove self.old.entries (index_of self.old.runs place) }
    {
        self.list.remove(place);
    }

    /// How many entries stand before a place. It passes each run before it.
    pub fn index_of(&self, place: Place) -> u32
        requires { IsGap self.now.runs place }
        ensures { result ≡ index_of self.now.runs place }
    {
        self.list.index_of(place)
    }

    /// The place of an entry before which so many stand. It passes each run before it.
    pub fn place_of(&self, index: u32) -> Place
        requires { index < length (entries_of self.now.runs) }
        ensures entry { IsEntry self.now.runs result }
        ensures index { index_of self.now.runs result ≡ index }
    {
        self.list.place_of(index)
    }

    /// Puts entries after the last one.
    pub fn extend_from_slice(&mut self, entries: &[Entry])
        requires { length (entries_of self.old.runs) + length entries.now ≤ self.old.room }
        ensures room { self.new.room ≡ self.old.room }
        ensures numbers { entries_of self.new.runs ≡ entries_of self.old.runs ++ map number_in entries.now }
        ensures entries { self.new.entries ≡ self.old.entries ++ entries.now }
    {
        self.list.extend_from_slice(entries);
    }
}
