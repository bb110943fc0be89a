//! Where in the order a folder's children stand.

ghost use Rattle.std.specs.Prelude.{◌≡◌, ℕ, ◌+◌, ◌-◌, ◌/◌, ◌<◌, ◌≤◌, if◌then◌else◌, true, length};
ghost use Rattle.fsrm_model.specs.values.Limits.{most_nodes};
ghost use Rattle.block_list.specs.Places.{IsGap, index_of};
ghost use Rattle.block_list.specs.Runs.{entries_of, run_at, start_of};
ghost use Rattle.node_order.specs.Entries.{IsFirst, IsLower, IsNotLower};

use crate::entries::Order;
use crate::gallop::{halve, lower_end};
use crate::order::entry_at;
use block_list::Place;

// Whether what stands in front of a place is known to be of lower folders than this one: at a place in a run, not at
// its beginning, or at the first of all.
fn is_after_lower(order: &Order, folder: u64, place: Place) -> bool
    ensures gap { result ≡ true → IsGap order.now.runs place }
    ensures lower { result ≡ true → 0 < index_of order.now.runs place → IsLower order.now folder (index_of order.now.runs place - 1) }
{
    if place.offset == 0 {
        return place.run == 0;
    }
    if place.run >= order.run_count() {
        return false;
    }
    let entries = order.run(place.run);
    if place.offset > entries.len() {
        return false;
    }
    u64::from(entries[place.offset - 1].parent) < folder
}

// Whether what stands at a place, if anything does, is not of a lower folder than this one.
fn ends_lower(order: &Order, folder: u64, place: Place) -> bool
    requires { IsGap order.now.runs place }
    ensures { result ≡ true → index_of order.now.runs place < length (entries_of order.now.runs) → IsNotLower order.now folder (index_of order.now.runs place) }
{
    match entry_at(order, place) {
        Some(entry) => u64::from(entry.parent) >= folder,
        None => true,
    }
}

// Whether a place is known to be the one from which the folders have this number or greater ones.
fn is_first(order: &Order, folder: u64, place: Place) -> bool
    ensures gap { result ≡ true → IsGap order.now.runs place }
    ensures first { result ≡ true → IsFirst order.now folder (index_of order.now.runs place) }
{
    if !is_after_lower(order, folder, place) {
        return false;
    }
    ends_lower(order, folder, place)
}

// Passes the entries of lower folders than this one that stand from a place on in its run.
fn pass_lower(order: &Order, folder: u64, place: Place) -> Place
    requires { IsGap order.now.runs place }
    ensures gap { IsGap order.now.runs result }
    ensures least { index_of order.now.runs place ≤ index_of order.now.runs result }
    ensures lower { index_of order.now.runs place < index_of order.now.runs result → IsLower order.now folder (index_of order.now.runs result - 1) }
{
    if place.run >= order.run_count() {
        return place;
    }
    let entries = order.run(place.run);
    let offset = lower_end(entries, place.offset, folder);
    Place {
        run: place.run,
        offset,
    }
}

// How many of the runs among which a place is sought are passed after a look at the middle one, and how many are left:
// those after it if it begins before the place, else those before it. Nobody can foresee which, so it is computed
// without a branch.
#[inline]
fn halved(size: usize, before: bool) -> (usize, usize)
    requires { 0 < size }
    ensures passed { result.0 ≡ (if before then size / 2 + 1 else 0) }
    ensures left { result.1 ≡ (if before then size - size / 2 - 1 else size / 2) }
{
    let half = size / 2;
    let after = usize::from(before);
    (after * (half + 1), half - after * (2 * half + 1 - size))
}

// How many runs, from the first one on, begin with an entry of a lower folder than this one.
fn lower_runs(order: &Order, folder: u64) -> usize
    ensures within { result ≤ length order.now.runs }
    ensures lower { (run : ℕ) → run + 1 ≡ result → IsLower order.now folder (start_of order.now.runs run) }
    ensures other { result < length order.now.runs → IsNotLower order.now folder (start_of order.now.runs result) }
{
    let mut low = 0;
    let mut size = order.run_count();
    while size > 0 {
        let entry = order.first(low + size / 2);
        let (passed, left) = halved(size, u64::from(entry.parent) < folder);
        low += passed;
        size = left;
    }
    low
}

/// The same place, but if it is the end of a run the beginning of the next one.
#[inline]
pub fn entry_from(order: &Order, place: Place) -> Place
    requires { IsGap order.now.runs place }
    ensures index { index_of order.now.runs result ≡ index_of order.now.runs place }
    ensures offset { 0 < result.offset → result.offset < length (run_at order.now.runs result.run) }
{
    if place.run >= order.run_count() || place.offset < order.run(place.run).len() {
        return place;
    }
    Place {
        run: place.run + 1,
        offset: 0,
    }
}

/// The place from which the folders have this number or greater ones. It is found by the folders alone that entries
/// name: no row is read for it, and no name compared.
pub fn first_from(order: &Order, folder: u64) -> Place
    ensures gap { IsGap order.now.runs result }
    ensures first { IsFirst order.now folder (index_of order.now.runs result) }
{
    let count = lower_runs(order, folder);
    if count == 0 {
        return Place { run: 0, offset: 0 };
    }
    let run = count - 1;
    let entries = order.run(run);
    let offset = halve(entries, 1, entries.len() - 1, folder);
    Place { run, offset }
}

// The place from which the folders have this number or greater ones, sought first at another place.
fn first_near(order: &Order, folder: u64, near: Place) -> Place
    ensures gap { IsGap order.now.runs result }
    ensures first { IsFirst order.now folder (index_of order.now.runs result) }
{
    if is_first(order, folder, near) {
        return near;
    }
    first_from(order, folder)
}

/// The place from which the folders have this number or greater ones, sought from one on in front of which they are
/// lower. Where it is near, in the same run or the next one, it is found in few steps.
pub fn first_after(order: &Order, folder: u64, from: Place) -> Place
    requires gap { IsGap order.now.runs from }
    requires lower { 0 < index_of order.now.runs from → IsLower order.now folder (index_of order.now.runs from - 1) }
    ensures gap { IsGap order.now.runs result }
    ensures first { IsFirst order.now folder (index_of order.now.runs result) }
{
    let near = pass_lower(order, folder, from);
    if ends_lower(order, folder, near) {
        return near;
    }
    let next = entry_from(order, near);
    if next.run < order.run_count() {
        let far = pass_lower(order, folder, next);
        if ends_lower(order, folder, far) {
            return far;
        }
    }
    first_from(order, folder)
}

/// From where to where in the order a folder's children stand. They are found at once if they begin at the place
/// where they are sought first, and are few.
pub fn segment(order: &Order, folder: u32, near: Place) -> (Place, Place)
    ensures first_gap { IsGap order.now.runs result.0 }
    ensures end_gap { IsGap order.now.runs result.1 }
    ensures first { IsFirst order.now folder (index_of order.now.runs result.0) }
    ensures end { IsFirst order.now (folder + 1) (index_of order.now.runs result.1) }
{
    let folder = u64::from(folder);
    let first = first_near(order, folder, near);
    let end = first_after(order, folder + 1, first);
    (first, end)
}

/// How many entries stand from one place to another, which isn't before it. It passes each run between them.
pub fn between(order: &Order, first: Place, end: Place) -> usize
    requires first { IsGap order.now.runs first }
    requires end { IsGap order.now.runs end }
    requires ordered { index_of order.now.runs first ≤ index_of order.now.runs end }
    requires few { length (entries_of order.now.runs) < most_nodes }
    ensures { index_of order.now.runs first + result ≡ index_of order.now.runs end }
{
    if first.run > end.run {
        return 0;
    }
    let mut count = end.offset;
    for run in first.run..end.run {
        count += order.run(run).len();
    }
    count - first.offset
}
