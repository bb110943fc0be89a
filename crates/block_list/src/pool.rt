//! Blocks of entries, one after another.

ghost use Rattle.std.specs.Prelude.{◌≡◌, ◌≢◌, ◌+◌, ◌-◌, ◌*◌, ◌<◌, ◌≤◌, ◌++◌, [], ℕ, drop, insert, length, remove};
ghost use Rattle.std.specs.List.{slice_set};
ghost use Rattle.std.specs.Vec.{vec_capacity};
ghost use Rattle.block_list.specs.Heads.{TakesBlock};
ghost use Rattle.block_list.specs.Pool.{run_in, SameBut};

/// How many entries a block has room for.
pub(crate) const BLOCK: usize = 128;

/// The run in a block, lent.
pub(crate) fn run_in<T: Copy>(pool: &[T], block: usize, len: usize) -> &[T]
    requires block { block * 128 + 128 ≤ length pool.now }
    requires len { len ≤ 128 }
    ensures { result.now ≡ run_in pool.now block len }
{
    let from = block * BLOCK;
    &pool[from..from + len]
}

/// Puts an entry into the run in a block.
pub(crate) fn insert_in<T: Copy>(
    pool: &mut Vec<T>,
    block: usize,
    len: usize,
    place: usize,
    entry: T,
)
    requires block { block * 128 + 128 ≤ length pool.old.items }
    requires len { len < 128 }
    requires place { place ≤ len }
    ensures capacity { vec_capacity pool.new ≡ vec_capacity pool.old }
    ensures run { run_in pool.new.items block (len + 1) ≡ insert (run_in pool.old.items block len) place entry }
    ensures others { SameBut pool.old.items pool.new.items block }
{
    let from = block * BLOCK + place;
    let end = block * BLOCK + len;
    // It comes last and is turned to its place: a turn by one moves the others together, not one by one.
    pool[end] = entry;
    pool[from..end + 1].rotate_right(1);
}

/// Takes an entry out of the run in a block.
pub(crate) fn remove_in<T: Copy>(pool: &mut Vec<T>, block: usize, len: usize, place: usize)
    requires block { block * 128 + 128 ≤ length pool.old.items }
    requires len { len ≤ 128 }
    requires place { place < len }
    ensures capacity { vec_capacity pool.new ≡ vec_capacity pool.old }
    ensures run { run_in pool.new.items block (len - 1) ≡ remove (run_in pool.old.items block len) place }
    ensures others { SameBut pool.old.items pool.new.items block }
{
    let from = block * BLOCK + place;
    pool[from..block * BLOCK + len].rotate_left(1);
}

/// Copies the entries of a run from a place on to the end of another run.
pub(crate) fn copy_in<T: Copy>(
    pool: &mut Vec<T>,
    block: usize,
    len: usize,
    place: usize,
    to: usize,
    to_len: usize,
)
    requires block { block * 128 + 128 ≤ length pool.old.items }
    requires len { len ≤ 128 }
    requires place { place ≤ len }
    requires to { to * 128 + 128 ≤ length pool.old.items }
    requires to_len { to_len + (len - place) ≤ 128 }
    ensures capacity { vec_capacity pool.new ≡ vec_capacity pool.old }
    ensures run { run_in pool.new.items to (to_len + (len - place)) ≡ run_in pool.old.items to to_len ++ drop place (run_in pool.old.items block len) }
    ensures others { SameBut pool.old.items pool.new.items to }
{
    pool.copy_within(
        block * BLOCK + place..block * BLOCK + len,
        to * BLOCK + to_len,
    );
}

/// One more block.
pub(crate) fn push_block<T: Copy>(pool: &mut Vec<T>, filler: T)
    requires room { length pool.old.items + 128 ≤ vec_capacity pool.old }
    ensures capacity { vec_capacity pool.old ≤ vec_capacity pool.new }
    ensures length { length pool.new.items ≡ length pool.old.items + 128 }
    ensures runs { (b n : ℕ) → b * 128 + n ≤ length pool.old.items → run_in pool.new.items b n ≡ run_in pool.old.items b n }
{
    let _ = pool.resize(pool.len() + BLOCK, filler);
}

/// A free block, or if there is none, a new one after those that are used.
pub(crate) fn take_block<T: Copy>(
    free: &mut Vec<u32>,
    pool: &mut Vec<T>,
    used: usize,
    filler: T,
) -> u32
    requires small { used < 4294967296 }
    requires room { length pool.old.items ≡ (used + length free.old.items) * 128 }
    requires capacity { free.old.items ≡ [] → used * 128 + 128 ≤ vec_capacity pool.old }
    ensures free_capacity { vec_capacity free.new ≡ vec_capacity free.old }
    ensures pool_capacity { vec_capacity pool.old ≤ vec_capacity pool.new }
    ensures taken { TakesBlock used free.old.items free.new.items pool.old.items pool.new.items result }
{
    match free.pop() {
        Some(block) => block,
        None => {
            push_block(pool, filler);
            used as u32
        }
    }
}

/// Writes another entry over one of the run in a block.
pub(crate) fn replace_in<T: Copy>(
    pool: &mut Vec<T>,
    block: usize,
    len: usize,
    place: usize,
    entry: T,
)
    requires block { block * 128 + 128 ≤ length pool.old.items }
    requires len { len ≤ 128 }
    requires place { place < len }
    ensures capacity { vec_capacity pool.new ≡ vec_capacity pool.old }
    ensures run { run_in pool.new.items block len ≡ slice_set (run_in pool.old.items block len) place entry }
    ensures others { SameBut pool.old.items pool.new.items block }
{
    pool[block * BLOCK + place] = entry;
}
