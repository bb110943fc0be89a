//! Where in a run the entries of lower folders end, sought from a place on: the nearer it is the fewer the steps.

ghost use Rattle.std.specs.Prelude.{◌+◌, ◌-◌, ◌<◌, ◌≤◌, length};
ghost use Rattle.node_order.specs.Entries.{parent_at};

use crate::entries::Entry;

// Passes entries by 1, 2, 4 and so on, as long as the last of so many is of a lower folder than this one. It gives up
// to where it came, and among how many entries from there on those of lower folders end.
fn leap(entries: &[Entry], from: usize, folder: u64) -> (usize, usize)
    requires from { from ≤ length entries.now }
    requires few { length entries.now ≤ 128 }
    ensures least { from ≤ result.0 }
    ensures within { result.0 + result.1 ≤ length entries.now }
    ensures lower { from < result.0 → parent_at entries.now (result.0 - 1) < folder }
    ensures other { result.0 + result.1 < length entries.now → folder ≤ parent_at entries.now (result.0 + result.1) }
{
    let mut low = from;
    let mut step = 1;
    while step <= entries.len() - low {
        let last = low + step - 1;
        if u64::from(entries[last].parent) >= folder {
            return (low, step - 1);
        }
        low += step;
        step *= 2;
    }
    (low, entries.len() - low)
}

/// Where the entries of lower folders than this one end, among so many from one on.
pub fn halve(entries: &[Entry], from: usize, count: usize, folder: u64) -> usize
    requires within { from + count ≤ length entries.now }
    requires other { from + count < length entries.now → folder ≤ parent_at entries.now (from + count) }
    ensures least { from ≤ result }
    ensures within { result ≤ length entries.now }
    ensures lower { from < result → parent_at entries.now (result - 1) < folder }
    ensures other { result < length entries.now → folder ≤ parent_at entries.now result }
{
    let mut low = from;
    let mut size = count;
    while size > 0 {
        let half = size / 2;
        if u64::from(entries[low + half].parent) < folder {
            low += half + 1;
            size -= half + 1;
        } else {
            size = half;
        }
    }
    low
}

/// Where the entries of lower folders than this one end in a run, from one of them on or at once. It takes about two
/// steps for each doubling of their number.
pub fn lower_end(entries: &[Entry], from: usize, folder: u64) -> usize
    requires from { from ≤ length entries.now }
    requires few { length entries.now ≤ 128 }
    ensures least { from ≤ result }
    ensures within { result ≤ length entries.now }
    ensures lower { from < result → parent_at entries.now (result - 1) < folder }
    ensures other { result < length entries.now → folder ≤ parent_at entries.now result }
{
    let (low, count) = leap(entries, from, folder);
    halve(entries, low, count, folder)
}
