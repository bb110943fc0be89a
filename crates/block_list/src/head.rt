//! Where the runs stand.

ghost use Rattle.std.specs.Prelude.{◌≡◌, ◌+◌, ◌*◌, ◌<◌, ◌≤◌, length};
ghost use Rattle.block_list.specs.Heads.{IsHead};

use crate::pool::BLOCK;

/// A run: the first entries of a block. `first` is the first of them, unless the run is empty.
#[derive(Clone, Copy)]
pub(crate) struct Head<T> {
    pub first: T,
    pub block: u32,
    pub len: u32,
}

/// The head of the first entries of a block.
pub(crate) fn head_of<T: Copy>(pool: &Vec<T>, block: u32, len: u32) -> Head<T>
    requires block { block * 128 + 128 ≤ length pool.now.items }
    requires len { len ≤ 128 }
    ensures block { result.block ≡ block }
    ensures len { result.len ≡ len }
    ensures head { IsHead pool.now.items result }
{
    let first = pool[block as usize * BLOCK];
    Head { first, block, len }
}

/// The head of a run after an edit at a place. The block's front is far from most places, so it isn't read if the place
/// is behind it.
pub(crate) fn head_after<T: Copy>(pool: &Vec<T>, head: Head<T>, place: usize, len: u32) -> Head<T>
    requires block { head.block * 128 + 128 ≤ length pool.now.items }
    requires len { len ≤ 128 }
    requires front { 0 < place → IsHead pool.now.items (record head { len = len }) }
    ensures block { result.block ≡ head.block }
    ensures len { result.len ≡ len }
    ensures head { IsHead pool.now.items result }
{
    if place == 0 {
        return head_of(pool, head.block, len);
    }
    Head { len, ..head }
}
