//! Runs of entries, each in a block.

ghost use Rattle.std.specs.Prelude.{◌≡◌, ◌≢◌, ◌+◌, ◌-◌, ◌<◌, ◌≤◌, ◌++◌, [], IfOk, drop, insert, length, remove, take};
ghost use Rattle.std.specs.List.{slice_index_or, slice_set};
ghost use Rattle.block_list.specs.Runs.{run_at};

use crate::head::{Head, head_after, head_of};
use crate::pool::{BLOCK, copy_in, insert_in, remove_in, replace_in, run_in, take_block};
use fsrm_base::NoMemory;
use std::alloc::Global;
use std::marker::Model;

/// Runs of entries in memory that is reserved once. Contracts see the runs, and how many there may be at
/// most. A run may be empty, and is no longer than a block.
#[derive(Drop)]
pub(crate) struct Store<T> {
    most: usize,
    heads: Vec<Head<T>>,
    // Blocks that were used before.
    free: Vec<u32>,
    // The blocks that were ever used.
    pool: Vec<T>,
}

impl<T> Model for Store<T> {
    ghost use Rattle.block_list.specs.Runs.{Shelf};
    ghost use Rattle.block_list.specs.Heads.{IsStore, runs_in};

    ghost Value = { Shelf T };

    ghost view = { λ s. record { most = s.most; runs = runs_in s.heads.items s.pool.items } };

    ghost invariant = { λ s. IsStore s.most s.heads s.free s.pool };
}

impl<T: Copy> Store<T> {
    /// No run, and room for so many.
    pub fn reserve(alloc: Global, most: u32) -> Result<Store<T>, NoMemory>
        ensures { IfOk result (λ store. store ≡ record { most = most; runs = [] }) }
    {
        let most = most as usize;
        let heads = Vec::with_capacity(alloc, most)?;
        let free = Vec::with_capacity(alloc, most)?;
        let pool = Vec::with_capacity(alloc, most * BLOCK)?;
        Ok(Store {
            most,
            heads,
            free,
            pool,
        })
    }

    /// How many runs there are.
    pub fn count(&self) -> usize
        ensures count { result ≡ length self.now.runs }
        ensures small { result < 4294967296 }
    {
        self.heads.len()
    }

    /// A run, lent.
    pub fn run(&self, run: usize) -> &[T]
        requires { run < length self.now.runs }
        ensures run { result.now ≡ run_at self.now.runs run }
        ensures most { length result.now ≤ 128 }
        ensures small { length self.now.runs < 4294967296 }
    {
        let head = self.heads[run];
        run_in(&self.pool, head.block as usize, head.len as usize)
    }

    /// The first entry of a run.
    pub fn first(&self, run: usize) -> T
        requires run { run < length self.now.runs }
        requires some { 0 < length (run_at self.now.runs run) }
        ensures { (d : T) → slice_index_or (run_at self.now.runs run) 0 d ≡ result }
    {
        self.heads[run].first
    }

    /// Puts an entry into a run.
    pub fn put(&mut self, run: usize, place: usize, entry: T)
        requires run { run < length self.old.runs }
        requires place { place ≤ length (run_at self.old.runs run) }
        requires room { length (run_at self.old.runs run) < 128 }
        ensures { self.new ≡ record self.old { runs = slice_set self.old.runs run (insert (run_at self.old.runs run) place entry) } }
    {
        let head = self.heads[run];
        insert_in(
            &mut self.pool,
            head.block as usize,
            head.len as usize,
            place,
            entry,
        );
        self.heads[run] = head_after(&self.pool, head, place, head.len + 1);
    }

    /// Takes an entry out of a run.
    pub fn cut(&mut self, run: usize, place: usize)
        requires run { run < length self.old.runs }
        requires place { place < length (run_at self.old.runs run) }
        ensures { self.new ≡ record self.old { runs = slice_set self.old.runs run (remove (run_at self.old.runs run) place) } }
    {
        let head = self.heads[run];
        remove_in(
            &mut self.pool,
            head.block as usize,
            head.len as usize,
            place,
        );
        self.heads[run] = head_after(&self.pool, head, place, head.len - 1);
    }

    /// Writes another entry over one of a run.
    pub fn replace(&mut self, run: usize, place: usize, entry: T)
        requires run { run < length self.old.runs }
        requires place { place < length (run_at self.old.runs run) }
        ensures { self.new ≡ record self.old { runs = slice_set self.old.runs run (slice_set (run_at self.old.runs run) place entry) } }
    {
        let head = self.heads[run];
        replace_in(
            &mut self.pool,
            head.block as usize,
            head.len as usize,
            place,
            entry,
        );
        self.heads[run] = head_after(&self.pool, head, place, head.len);
    }

    /// Takes the entries from a place on out of a run, and appends them to another run.
    pub fn shift(&mut self, run: usize, place: usize, to: usize)
        requires run { run < length self.old.runs }
        requires place { place ≤ length (run_at self.old.runs run) }
        requires to { to < length self.old.runs }
        requires other { run ≢ to }
        requires room { length (run_at self.old.runs to) + (length (run_at self.old.runs run) - place) ≤ 128 }
        ensures { self.new ≡ record self.old { runs = slice_set (slice_set self.old.runs to (run_at self.old.runs to ++ drop place (run_at self.old.runs run))) run (take place (run_at self.old.runs run)) } }
    {
        let head = self.heads[run];
        let target = self.heads[to];
        copy_in(
            &mut self.pool,
            head.block as usize,
            head.len as usize,
            place,
            target.block as usize,
            target.len as usize,
        );
        let len = place as u32;
        self.heads[to] = head_of(&self.pool, target.block, target.len + (head.len - len));
        self.heads[run] = head_of(&self.pool, head.block, len);
    }

    /// Makes an empty run. The filler is no entry of it: it only stands where none is yet.
    pub fn open(&mut self, run: usize, filler: T)
        requires run { run ≤ length self.old.runs }
        requires room { length self.old.runs < self.old.most }
        ensures { self.new ≡ record self.old { runs = insert self.old.runs run [] } }
    {
        let block = take_block(&mut self.free, &mut self.pool, self.heads.len(), filler);
        let head = Head {
            first: filler,
            block,
            len: 0,
        };
        let _ = self.heads.insert(run, head);
    }

    /// Takes a run away.
    pub fn close(&mut self, run: usize)
        requires { run < length self.old.runs }
        ensures { self.new ≡ record self.old { runs = remove self.old.runs run } }
    {
        let head = self.heads.remove(run);
        let _ = self.free.push(head.block);
    }
}
