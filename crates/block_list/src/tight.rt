//! Edits of runs, after which no two neighbours fit into one block.

ghost use Rattle.std.specs.Prelude.{◌≡◌, ◌+◌, ◌-◌, ◌<◌, ◌≤◌, ℕ, insert, length, remove, take};
ghost use Rattle.block_list.specs.Runs.{entries_of, run_at};
ghost use Rattle.block_list.specs.Tight.{IsTight, IsTightBut};

use crate::pool::BLOCK;
use crate::runs::Runs;

const HALF: usize = BLOCK / 2;

// Makes one run of two neighbours if they fit into one block.
fn join_if_small<T: Copy>(runs: &mut Runs<T>, run: usize)
    ensures most { runs.new.most ≡ runs.old.most }
    ensures entries { entries_of runs.new.runs ≡ entries_of runs.old.runs }
    ensures one { IsTightBut runs.old.runs run run → IsTight runs.new.runs }
    ensures two { (q : ℕ) → q ≤ run → IsTightBut runs.old.runs run q → IsTightBut runs.new.runs q q }
{
    let count = runs.count();
    if run < count.saturating_sub(1) && runs.run(run).len() + runs.run(run + 1).len() <= BLOCK {
        runs.join(run);
    }
}

/// Puts an entry into a run; a full one is divided.
pub(crate) fn put<T: Copy>(runs: &mut Runs<T>, run: usize, place: usize, entry: T)
    requires run { run < length runs.old.runs }
    requires place { place ≤ length (run_at runs.old.runs run) }
    requires room { length runs.old.runs < runs.old.most }
    requires tight { IsTight runs.old.runs }
    ensures most { runs.new.most ≡ runs.old.most }
    ensures entries { entries_of runs.new.runs ≡ insert (entries_of runs.old.runs) (length (entries_of (take run runs.old.runs)) + place) entry }
    ensures tight { IsTight runs.new.runs }
{
    if runs.run(run).len() < BLOCK {
        runs.insert(run, place, entry);
    } else if place == BLOCK {
        append(runs, run, entry);
    } else {
        divide(runs, run, place, entry);
        join_if_small(runs, run + 1);
        join_if_small(runs, run.saturating_sub(1));
    }
}

// Puts an entry after a full run: into the next one, or if that is full too, into a run of its own.
fn append<T: Copy>(runs: &mut Runs<T>, run: usize, entry: T)
    requires run { run < length runs.old.runs }
    requires full { length (run_at runs.old.runs run) ≡ 128 }
    requires room { length runs.old.runs < runs.old.most }
    requires tight { IsTight runs.old.runs }
    ensures most { runs.new.most ≡ runs.old.most }
    ensures entries { entries_of runs.new.runs ≡ insert (entries_of runs.old.runs) (length (entries_of (take run runs.old.runs)) + 128) entry }
    ensures tight { IsTight runs.new.runs }
{
    let count = runs.count();
    let next = run + 1;
    if next < count && runs.run(next).len() < BLOCK {
        runs.insert(next, 0, entry);
        return;
    }
    runs.start(next, entry);
}

// Divides a full run at the entry's place, or at its middle if that comes later, and puts the entry into the
// first of both. So entries that come in order fill their blocks.
fn divide<T: Copy>(runs: &mut Runs<T>, run: usize, place: usize, entry: T)
    requires run { run < length runs.old.runs }
    requires place { place < 128 }
    requires small { length runs.old.runs < 4294967296 }
    requires full { length (run_at runs.old.runs run) ≡ 128 }
    requires room { length runs.old.runs < runs.old.most }
    requires tight { IsTight runs.old.runs }
    ensures most { runs.new.most ≡ runs.old.most }
    ensures entries { entries_of runs.new.runs ≡ insert (entries_of runs.old.runs) (length (entries_of (take run runs.old.runs)) + place) entry }
    ensures tight { IsTightBut runs.new.runs (run + 1) (run - 1) }
{
    runs.split(run, place.max(HALF));
    runs.insert(run, place, entry);
}

/// Takes an entry out of a run.
pub(crate) fn cut<T: Copy>(runs: &mut Runs<T>, run: usize, place: usize)
    requires run { run < length runs.old.runs }
    requires place { place < length (run_at runs.old.runs run) }
    requires tight { IsTight runs.old.runs }
    ensures most { runs.new.most ≡ runs.old.most }
    ensures entries { entries_of runs.new.runs ≡ remove (entries_of runs.old.runs) (length (entries_of (take run runs.old.runs)) + place) }
    ensures tight { IsTight runs.new.runs }
{
    if runs.run(run).len() == 1 {
        runs.end(run);
    } else {
        runs.remove(run, place);
        join_if_small(runs, run);
        join_if_small(runs, run.saturating_sub(1));
    }
}
