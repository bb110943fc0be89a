//! Where an entry is to stand whose node isn't listed. The names of two nodes are read only if they have one folder and
//! begin alike; nothing is counted as a look.

ghost use Rattle.std.specs.Prelude.{◌≡◌, ℕ, ◌+◌, ◌-◌, ◌<◌, ◌≤◌, Contains, IfSome, OnSome, Some, true, length, slice_get};
ghost use Rattle.fsrm_model.specs.declared.row.NodeRow.{NodeRow};
ghost use Rattle.fsrm_model.specs.nodes.Tree.{name_of, node_of};
ghost use Rattle.block_list.specs.Places.{IsEntry, IsGap, index_of};
ghost use Rattle.block_list.specs.Runs.{entries_of, run_at, start_of};
ghost use Rattle.node_order.specs.Entries.{AreOwn, IsOwn};
ghost use Rattle.node_order.specs.Order.{IsCeiling, IsFloor, IsListed, IsPlace, is_before};
ghost use Rattle.node_table.specs.Slots.{AreSlots, rows_of};

use crate::compare::{key_of, name_at};
use crate::entries::{Entry, Order};
use crate::order::{entry_at, passed};
use block_list::Place;
use name_rules::fold_cmp;
use node_table::NodeTable;

// With fewer runs a search compares one node less than it may.
const MANY_RUNS: usize = 8192;

// The entry in front of a place, if that is known to be one and isn't at the beginning of a run.
#[inline]
fn front(order: &Order, place: Place) -> Option<Entry>
    ensures gap { IfSome result (λ entry. IsGap order.now.runs place) }
    ensures within { IfSome result (λ entry. IsEntry order.now.runs (record place { offset = place.offset - 1 })) }
    ensures index { IfSome result (λ entry. index_of order.now.runs place ≡ index_of order.now.runs (record place { offset = place.offset - 1 }) + 1) }
    ensures number { IfSome result (λ entry. slice_get (entries_of order.now.runs) (index_of order.now.runs (record place { offset = place.offset - 1 })) ≡ Some entry.node) }
    ensures listed { IfSome result (Contains order.now.entries) }
    ensures some { IfSome result (λ entry. 0 < place.offset) }
{
    if place.offset == 0 || place.run >= order.run_count() {
        return None;
    }
    let entries = order.run(place.run);
    if place.offset > entries.len() {
        return None;
    }
    Some(entries[place.offset - 1])
}

// Whether the node of an entry comes before that of another one.
#[inline]
fn comes(slots: &NodeTable, entry: Entry, other: Entry) -> bool
    requires slots { AreSlots 0 slots.now.slots }
    requires entry { IsOwn (rows_of slots.now.slots) entry }
    requires other { IsOwn (rows_of slots.now.slots) other }
    ensures { (row : NodeRow) → node_of (rows_of slots.now.slots) entry.node ≡ Some row → result ≡ is_before row other.parent (name_of (rows_of slots.now.slots) other.node) }
{
    let (ours, theirs) = (key_of(entry), key_of(other));
    if ours == theirs {
        return fold_cmp(name_at(slots, entry.node), name_at(slots, other.node)).is_lt();
    }
    ours < theirs
}

// Whether a place is known to be that of an entry, at a place in a run and not at its beginning. The name of a node in
// front of it may be read, and none after it.
fn is_place(slots: &NodeTable, order: &Order, entry: Entry, place: Place) -> bool
    requires slots { AreSlots 0 slots.now.slots }
    requires order { IsListed (rows_of slots.now.slots) (entries_of order.now.runs) }
    requires entries { AreOwn (rows_of slots.now.slots) order.now }
    requires own { IsOwn (rows_of slots.now.slots) entry }
    ensures gap { result ≡ true → IsGap order.now.runs place }
    ensures place { result ≡ true → IsPlace (rows_of slots.now.slots) (entries_of order.now.runs) entry.parent (name_of (rows_of slots.now.slots) entry.node) (index_of order.now.runs place) }
{
    let Some(before) = front(order, place) else {
        return false;
    };
    if !comes(slots, before, entry) {
        return false;
    }
    match entry_at(order, place) {
        Some(after) => key_of(after) > key_of(entry),
        None => true,
    }
}

// How many runs begin before the place of an entry.
fn runs_before(slots: &NodeTable, order: &Order, entry: Entry) -> usize
    requires slots { AreSlots 0 slots.now.slots }
    requires order { IsListed (rows_of slots.now.slots) (entries_of order.now.runs) }
    requires entries { AreOwn (rows_of slots.now.slots) order.now }
    requires own { IsOwn (rows_of slots.now.slots) entry }
    ensures within { result ≤ length order.now.runs }
    ensures floor { (run : ℕ) → run + 1 ≡ result → IsFloor (rows_of slots.now.slots) (entries_of order.now.runs) entry.parent (name_of (rows_of slots.now.slots) entry.node) (start_of order.now.runs run + 1) }
    ensures ceiling { IsCeiling (rows_of slots.now.slots) (entries_of order.now.runs) entry.parent (name_of (rows_of slots.now.slots) entry.node) (start_of order.now.runs result) }
{
    let mut low = 0;
    let mut size = order.run_count();
    while size > 0 {
        let middle = low + (size - 1) / 2;
        let before = comes(slots, order.first(middle), entry);
        low += passed(size, before);
        size /= 2;
    }
    low
}

// Where in a run an entry is to stand. The run's first node comes before it, and its place isn't past the run's end.
fn offset_of(slots: &NodeTable, order: &Order, run: usize, entry: Entry) -> usize
    requires slots { AreSlots 0 slots.now.slots }
    requires order { IsListed (rows_of slots.now.slots) (entries_of order.now.runs) }
    requires entries { AreOwn (rows_of slots.now.slots) order.now }
    requires own { IsOwn (rows_of slots.now.slots) entry }
    requires run { run < length order.now.runs }
    requires floor { IsFloor (rows_of slots.now.slots) (entries_of order.now.runs) entry.parent (name_of (rows_of slots.now.slots) entry.node) (start_of order.now.runs run + 1) }
    requires ceiling { IsCeiling (rows_of slots.now.slots) (entries_of order.now.runs) entry.parent (name_of (rows_of slots.now.slots) entry.node) (start_of order.now.runs (run + 1)) }
    ensures within { result ≤ length (run_at order.now.runs run) }
    ensures place { IsPlace (rows_of slots.now.slots) (entries_of order.now.runs) entry.parent (name_of (rows_of slots.now.slots) entry.node) (start_of order.now.runs run + result) }
{
    let entries = order.run(run);
    let mut low = 1;
    let mut size = entries.len() - 1;
    while size > 0 {
        let middle = low + (size - 1) / 2;
        let before = comes(slots, entries[middle], entry);
        low += passed(size, before);
        size /= 2;
    }
    low
}

/// The place of an entry among those that are listed, sought first at a given place. It is the right one wherever it is
/// sought. For entries that come by folders and first characters, the place after the last one that was put in is the
/// one to give. No more than 21 nodes are compared by their names.
pub fn late_place(slots: &NodeTable, order: &Order, entry: Entry, near: Place) -> Place
    requires slots { AreSlots 0 slots.now.slots }
    requires order { IsListed (rows_of slots.now.slots) (entries_of order.now.runs) }
    requires entries { AreOwn (rows_of slots.now.slots) order.now }
    requires own { IsOwn (rows_of slots.now.slots) entry }
    ensures gap { IsGap order.now.runs result }
    ensures place { IsPlace (rows_of slots.now.slots) (entries_of order.now.runs) entry.parent (name_of (rows_of slots.now.slots) entry.node) (index_of order.now.runs result) }
{
    if order.run_count() < MANY_RUNS && is_place(slots, order, entry, near) {
        return near;
    }
    let count = runs_before(slots, order, entry);
    if count == 0 {
        return Place { run: 0, offset: 0 };
    }
    let run = count - 1;
    let offset = offset_of(slots, order, run, entry);
    Place { run, offset }
}
