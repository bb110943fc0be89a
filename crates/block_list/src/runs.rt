//! Runs of entries, none of them empty.

ghost use Rattle.std.specs.Prelude.{◌≡◌, ◌+◌, ◌<◌, ◌≤◌, ◌++◌, ◌∷◌, [], IfOk, drop, insert, length, remove, take};
ghost use Rattle.std.specs.List.{slice_index_or, slice_set};
ghost use Rattle.block_list.specs.Runs.{AreUsed, run_at};

use crate::store::Store;
use fsrm_base::NoMemory;
use std::alloc::Global;
use std::marker::Model;

/// Runs of entries, of which none is empty, in memory that is reserved once. Contracts see the runs,
/// and how many there may be at most.
#[derive(Drop)]
pub(crate) struct Runs<T> {
    store: Store<T>,
}

impl<T> Model for Runs<T> {
    ghost use Rattle.block_list.specs.Runs.{IsShelf, Shelf};

    ghost Value = { Shelf T };

    ghost view = { λ r. r.store };

    ghost invariant = { λ r. IsShelf r.store };
}

impl<T: Copy> Runs<T> {
    /// No run, and room for so many.
    pub fn reserve(alloc: Global, most: u32) -> Result<Runs<T>, NoMemory>
        ensures { IfOk result (λ runs. runs ≡ record { most = most; runs = [] }) }
    {
        let store = Store::reserve(alloc, most)?;
        Ok(Runs { store })
    }

    /// How many runs there are.
    pub fn count(&self) -> usize
        ensures count { result ≡ length self.now.runs }
        ensures small { result < 4294967296 }
        ensures used { AreUsed self.now.runs }
    {
        self.store.count()
    }

    /// A run, lent.
    pub fn run(&self, run: usize) -> &[T]
        requires { run < length self.now.runs }
        ensures run { result.now ≡ run_at self.now.runs run }
        ensures used { 0 < length result.now }
        ensures most { length result.now ≤ 128 }
        ensures small { length self.now.runs < 4294967296 }
    {
        self.store.run(run)
    }

    /// The first entry of a run.
    pub fn first(&self, run: usize) -> T
        requires { run < length self.now.runs }
        ensures value { (d : T) → slice_index_or (run_at self.now.runs run) 0 d ≡ result }
        ensures used { 0 < length (run_at self.now.runs run) }
    {
        self.store.first(run)
    }

    /// Puts an entry into a run.
    pub fn insert(&mut self, run: usize, place: usize, entry: T)
        requires run { run < length self.old.runs }
        requires place { place ≤ length (run_at self.old.runs run) }
        requires room { length (run_at self.old.runs run) < 128 }
        ensures { self.new ≡ record self.old { runs = slice_set self.old.runs run (insert (run_at self.old.runs run) place entry) } }
    {
        self.store.put(run, place, entry);
    }

    /// Takes an entry out of a run that has others.
    pub fn remove(&mut self, run: usize, place: usize)
        requires run { run < length self.old.runs }
        requires place { place < length (run_at self.old.runs run) }
        requires others { 1 < length (run_at self.old.runs run) }
        ensures { self.new ≡ record self.old { runs = slice_set self.old.runs run (remove (run_at self.old.runs run) place) } }
    {
        self.store.cut(run, place);
    }

    /// Writes another entry over one of a run.
    pub fn replace(&mut self, run: usize, place: usize, entry: T)
        requires run { run < length self.old.runs }
        requires place { place < length (run_at self.old.runs run) }
        ensures { self.new ≡ record self.old { runs = slice_set self.old.runs run (slice_set (run_at self.old.runs run) place entry) } }
    {
        self.store.replace(run, place, entry);
    }

    /// Makes a run of one entry.
    pub fn start(&mut self, run: usize, entry: T)
        requires run { run ≤ length self.old.runs }
        requires room { length self.old.runs < self.old.most }
        ensures { self.new ≡ record self.old { runs = insert self.old.runs run (entry ∷ []) } }
    {
        self.store.open(run, entry);
        self.store.put(run, 0, entry);
    }

    /// Takes a run away.
    pub fn end(&mut self, run: usize)
        requires { run < length self.old.runs }
        ensures { self.new ≡ record self.old { runs = remove self.old.runs run } }
    {
        self.store.close(run);
    }

    /// Makes two runs of one.
    pub fn split(&mut self, run: usize, at: usize)
        requires run { run < length self.old.runs }
        requires room { length self.old.runs < self.old.most }
        requires some { 0 < at }
        requires at { at < length (run_at self.old.runs run) }
        requires most { length (run_at self.old.runs run) ≤ 128 }
        ensures { self.new ≡ record self.old { runs = insert (slice_set self.old.runs run (take at (run_at self.old.runs run))) (run + 1) (drop at (run_at self.old.runs run)) } }
    {
        let filler = self.store.first(run);
        self.store.open(run + 1, filler);
        self.store.shift(run, at, run + 1);
    }

    /// Makes one run of two neighbours.
    pub fn join(&mut self, run: usize)
        requires run { run + 1 < length self.old.runs }
        requires room { length (run_at self.old.runs run) + length (run_at self.old.runs (run + 1)) ≤ 128 }
        ensures { self.new ≡ record self.old { runs = remove (slice_set self.old.runs run (run_at self.old.runs run ++ run_at self.old.runs (run + 1))) (run + 1) } }
    {
        self.store.shift(run + 1, 0, run);
        self.store.close(run + 1);
    }
}
