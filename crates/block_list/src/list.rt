//! The list.

ghost use Rattle.std.specs.Prelude.{◌≡◌, ℕ, ◌+◌, ◌*◌, ◌<◌, ◌≤◌, ◌==◌, ◌++◌, ◌↔◌, [], Some, IfOk, IsTrue, insert, length, remove, slice_get};
ghost use Rattle.std.specs.List.{slice_set};
ghost use Rattle.block_list.specs.Places.{IsEntry, IsGap, index_of};
ghost use Rattle.block_list.specs.Runs.{entries_of, run_at, start_of};

use crate::place::Place;
use crate::runs::Runs;
use crate::tight::{cut, put};
use fsrm_base::NoMemory;
use std::alloc::Global;
use std::marker::Model;

/// A long list of entries in memory that is reserved once. It is kept as *runs*, none of them empty, each in a block
/// of its own. Contracts see how many entries there may be and the runs; the list is what they are together.
#[derive(Drop)]
pub struct BlockList<T> {
    room: u32,
    len: u32,
    runs: Runs<T>,
}

impl<T> Model for BlockList<T> {
    ghost use Rattle.block_list.specs.Runs.{Contents};
    ghost use Rattle.block_list.specs.Tight.{IsList};

    ghost Value = { Contents T };

    ghost view = { λ l. record { room = l.room; runs = l.runs.runs } };

    ghost invariant = { λ l. IsList l.room l.len l.runs };
}

impl<T: Copy> BlockList<T> {
    /// An empty list with room for so many entries. No other call takes memory.
    pub fn reserve(alloc: Global, entries: u32) -> Result<BlockList<T>, NoMemory>
        ensures { IfOk result (λ list. list ≡ record { room = entries; runs = [] }) }
    {
        let most = 2 * u64::from(entries) / 129 + 2;
        let runs = Runs::reserve(alloc, most as u32)?;
        Ok(BlockList {
            room: entries,
            len: 0,
            runs,
        })
    }

    /// How many entries there may be at most.
    pub fn room(&self) -> u32
        ensures { result ≡ self.now.room }
    {
        self.room
    }

    /// How many entries there are.
    pub fn len(&self) -> u32
        ensures len { result ≡ length (entries_of self.now.runs) }
        ensures most { result ≤ self.now.room }
    {
        self.len
    }

    /// Whether there is no entry.
    pub fn is_empty(&self) -> bool
        ensures { result ≡ (length (entries_of self.now.runs) == 0) }
    {
        self.len == 0
    }

    /// Whether there is no room for another entry.
    pub fn is_full(&self) -> bool
        ensures { IsTrue result ↔ (self.now.room ≤ length (entries_of self.now.runs)) }
    {
        self.len >= self.room
    }

    /// How many runs there are. They are few, since no two neighbours would fit into one block.
    pub fn run_count(&self) -> usize
        ensures count { result ≡ length self.now.runs }
        ensures few { 129 * result ≤ 2 * length (entries_of self.now.runs) + 129 }
        ensures all { start_of self.now.runs result ≡ length (entries_of self.now.runs) }
    {
        self.runs.count()
    }

    /// The first entry of a run. It is at hand without a look into the run's block.
    pub fn first(&self, run: usize) -> T
        requires { run < length self.now.runs }
        ensures { slice_get (entries_of self.now.runs) (start_of self.now.runs run) ≡ Some result }
    {
        self.runs.first(run)
    }

    /// A run, lent: 1 to 128 entries.
    pub fn run(&self, run: usize) -> &[T]
        requires { run < length self.now.runs }
        ensures run { result.now ≡ run_at self.now.runs run }
        ensures some { 0 < length result.now }
        ensures most { length result.now ≤ 128 }
        ensures entries { (k : ℕ) → k < length result.now → slice_get (entries_of self.now.runs) (start_of self.now.runs run + k) ≡ slice_get result.now k }
        ensures next { start_of self.now.runs (run + 1) ≡ start_of self.now.runs run + length result.now }
    {
        self.runs.run(run)
    }

    /// The entry at a place.
    pub fn get(&self, place: Place) -> T
        requires { IsEntry self.now.runs place }
        ensures { slice_get (entries_of self.now.runs) (index_of self.now.runs place) ≡ Some result }
    {
        self.run(place.run)[place.offset]
    }

    /// The entries from a place to the end of its run, lent. Those after them begin with the next run.
    pub fn rest(&self, place: Place) -> &[T]
        requires { IsEntry self.now.runs place }
        ensures some { 0 < length result.now }
        ensures entries { (k : ℕ) → k < length result.now → slice_get (entries_of self.now.runs) (index_of self.now.runs place + k) ≡ slice_get result.now k }
        ensures next { start_of self.now.runs (place.run + 1) ≡ index_of self.now.runs place + length result.now }
    {
        &self.run(place.run)[place.offset..]
    }

    /// The place after the last entry.
    pub fn end(&self) -> Place
        ensures gap { IsGap self.now.runs result }
        ensures index { index_of self.now.runs result ≡ length (entries_of self.now.runs) }
    {
        let count = self.runs.count();
        if count == 0 {
            return Place { run: 0, offset: 0 };
        }
        let run = count - 1;
        let offset = self.runs.run(run).len();
        Place { run, offset }
    }

    /// Puts an entry at a place. Those from there on come after it. It moves as many entries as two blocks hold at
    /// most.
    pub fn insert(&mut self, place: Place, entry: T)
        requires room { length (entries_of self.old.runs) < self.old.room }
        requires place { IsGap self.old.runs place }
        ensures room { self.new.room ≡ self.old.room }
        ensures entries { entries_of self.new.runs ≡ insert (entries_of self.old.runs) (index_of self.old.runs place) entry }
    {
        if self.runs.count() == 0 {
            self.runs.start(0, entry);
        } else {
            put(&mut self.runs, place.run, place.offset, entry);
        }
        self.len += 1;
    }

    /// Takes the entry at a place out. It moves as many entries as three blocks hold at most.
    pub fn remove(&mut self, place: Place)
        requires { IsEntry self.old.runs place }
        ensures room { self.new.room ≡ self.old.room }
        ensures entries { entries_of self.new.runs ≡ remove (entries_of self.old.runs) (index_of self.old.runs place) }
    {
        cut(&mut self.runs, place.run, place.offset);
        self.len -= 1;
    }

    /// Writes another entry over that at a place.
    pub fn replace(&mut self, place: Place, entry: T)
        requires { IsEntry self.old.runs place }
        ensures room { self.new.room ≡ self.old.room }
        ensures entries { entries_of self.new.runs ≡ slice_set (entries_of self.old.runs) (index_of self.old.runs place) entry }
    {
        self.runs.replace(place.run, place.offset, entry);
    }

    /// Which entry of the list stands at a place, or would if one were put there, counted from 0. It passes each run
    /// before the place.
    pub fn index_of(&self, place: Place) -> u32
        requires { IsGap self.now.runs place }
        ensures { result ≡ index_of self.now.runs place }
    {
        let mut index = place.offset;
        for run in 0..place.run {
            index += self.runs.run(run).len();
        }
        index as u32
    }

    /// The place of an entry of the list, counted from 0. It passes each run before the place.
    pub fn place_of(&self, index: u32) -> Place
        requires { index < length (entries_of self.now.runs) }
        ensures entry { IsEntry self.now.runs result }
        ensures index { index_of self.now.runs result ≡ index }
    {
        let mut run = 0;
        let mut offset = index as usize;
        while offset >= self.runs.run(run).len() {
            offset -= self.runs.run(run).len();
            run += 1;
        }
        Place { run, offset }
    }

    /// Puts entries after the last one, in their order.
    pub fn extend_from_slice(&mut self, entries: &[T])
        requires { length (entries_of self.old.runs) + length entries.now ≤ self.old.room }
        ensures room { self.new.room ≡ self.old.room }
        ensures entries { entries_of self.new.runs ≡ entries_of self.old.runs ++ entries.now }
    {
        for entry in entries {
            let place = self.end();
            self.insert(place, *entry);
        }
    }
}
