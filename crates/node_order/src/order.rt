//! Searches among the entries of nodes, which stand in the order of their places: by folders, and in each folder by
//! folded names. They are kept in runs, each at the beginning of a block.

ghost use Rattle.std.specs.Prelude.{◌≡◌, ℕ, ◌+◌, ◌-◌, ◌/◌, ◌<◌, ◌≤◌, ◌==◌, if◌then◌else◌, Contains, IfOk, IfErr, IfSome, option_map, false, length, [], Some, None, slice_get};
ghost use Rattle.fsrm_model.specs.values.Limits.{most_nodes};
ghost use Rattle.std.specs.List.{list_any};
ghost use Rattle.block_list.specs.Places.{IsEntry, IsGap, index_of};
ghost use Rattle.block_list.specs.Runs.{entries_of, run_at, start_of};
ghost use Rattle.name_rules.specs.Prefix.{prefix as prefix_of};
ghost use Rattle.node_order.specs.Entries.{AreOwn, number_in};
ghost use Rattle.node_table.specs.Slots.{AreSlots, rows_of};
ghost use Rattle.node_order.specs.Order.{IsBeyond, IsFloor, IsListed, IsNamed, IsPlace, LacksName, is_child_of};

use crate::compare::is_before;
use crate::entries::{Entry, Order};
use block_list::Place;
use fsrm_model::{Ledger, Steps};
use name_rules::fold_prefix;
use node_table::NodeTable;
use std::hint::select_unpredictable;

/// How many of the entries among which a place is sought are passed after a look at the middle one: that one and those
/// before it, if it stands before the place, else none. Half of the entries are left in both cases, so that only the
/// place of the next look waits for this one.
#[inline]
pub fn passed(size: usize, before: bool) -> usize
    ensures { result ≡ (if before then size - size / 2 else 0) }
{
    select_unpredictable(before, size - size / 2, 0)
}

// The run that begins with the node of a name in a folder, or as an `Err` how many runs begin before the place of
// that name. It takes a look, if there is a run, and no more than 14, one less if there are fewer than 8,192.
fn runs_before<L: Ledger>(
    slots: &NodeTable,
    order: &Order,
    folder: u64,
    prefix: u64,
    name: &str,
    steps: &mut Steps<L>,
) -> Result<usize, usize>
    requires slots { AreSlots 0 slots.now.slots }
    requires order { IsListed (rows_of slots.now.slots) (entries_of order.now.runs) }
    requires entries { AreOwn (rows_of slots.now.slots) order.now }
    requires few { length (entries_of order.now.runs) < most_nodes }
    requires prefix { prefix ≡ prefix_of name.now }
    ensures run { IfOk result (λ run. run < length order.now.runs) }
    ensures named { IfOk result (λ run. IsNamed (rows_of slots.now.slots) (entries_of order.now.runs) folder name.now (start_of order.now.runs run)) }
    ensures taken { IfOk result (λ run. IsPlace (rows_of slots.now.slots) (entries_of order.now.runs) folder name.now (start_of order.now.runs run)) }
    ensures count { IfErr result (λ count. count ≤ length order.now.runs) }
    ensures floor { IfErr result (λ count. (run : ℕ) → run + 1 ≡ count → IsFloor (rows_of slots.now.slots) (entries_of order.now.runs) folder name.now (start_of order.now.runs run + 1)) }
    ensures beyond { IfErr result (λ count. IsBeyond (rows_of slots.now.slots) (entries_of order.now.runs) folder name.now (start_of order.now.runs count)) }
    ensures some { 0 < length order.now.runs → steps.old + 1 ≤ steps.new }
    ensures looks { steps.new ≤ steps.old + 14 }
    ensures fewer { length order.now.runs < 8192 → steps.new ≤ steps.old + 13 }
{
    let mut low = 0;
    let mut size = order.run_count();
    while size > 0 {
        let middle = low + (size - 1) / 2;
        let Some(before) = is_before(slots, order.first(middle), folder, prefix, name, steps) else {
            return Ok(middle);
        };
        low += passed(size, before);
        size /= 2;
    }
    Err(low)
}

// Where in a run the node of a name stands, or as an `Err` where one is to stand. The run's first node comes before the
// name, and the name's place isn't past the run's end. It takes no more than 7 looks.
fn offset_of<L: Ledger>(
    slots: &NodeTable,
    order: &Order,
    run: usize,
    folder: u64,
    prefix: u64,
    name: &str,
    steps: &mut Steps<L>,
) -> Result<usize, usize>
    requires slots { AreSlots 0 slots.now.slots }
    requires order { IsListed (rows_of slots.now.slots) (entries_of order.now.runs) }
    requires entries { AreOwn (rows_of slots.now.slots) order.now }
    requires run { run < length order.now.runs }
    requires prefix { prefix ≡ prefix_of name.now }
    requires floor { IsFloor (rows_of slots.now.slots) (entries_of order.now.runs) folder name.now (start_of order.now.runs run + 1) }
    requires beyond { IsBeyond (rows_of slots.now.slots) (entries_of order.now.runs) folder name.now (start_of order.now.runs (run + 1)) }
    ensures entry { IfOk result (λ offset. offset < length (run_at order.now.runs run)) }
    ensures named { IfOk result (λ offset. IsNamed (rows_of slots.now.slots) (entries_of order.now.runs) folder name.now (start_of order.now.runs run + offset)) }
    ensures taken { IfOk result (λ offset. IsPlace (rows_of slots.now.slots) (entries_of order.now.runs) folder name.now (start_of order.now.runs run + offset)) }
    ensures gap { IfErr result (λ offset. offset ≤ length (run_at order.now.runs run)) }
    ensures floor { IfErr result (λ offset. IsFloor (rows_of slots.now.slots) (entries_of order.now.runs) folder name.now (start_of order.now.runs run + offset)) }
    ensures beyond { IfErr result (λ offset. IsBeyond (rows_of slots.now.slots) (entries_of order.now.runs) folder name.now (start_of order.now.runs run + offset)) }
    ensures least { steps.old ≤ steps.new }
    ensures looks { steps.new ≤ steps.old + 7 }
{
    let entries = order.run(run);
    let mut low = 1;
    let mut size = entries.len() - 1;
    while size > 0 {
        let middle = low + (size - 1) / 2;
        let Some(before) = is_before(slots, entries[middle], folder, prefix, name, steps) else {
            return Ok(middle);
        };
        low += passed(size, before);
        size /= 2;
    }
    Err(low)
}

/// The place of the listed node that has a name in a folder, or as an `Err` the place where one is to stand. It takes a
/// look, if there is a run, and no more than 21. The folder may be any number.
pub fn place_of<L: Ledger>(
    slots: &NodeTable,
    order: &Order,
    folder: u64,
    prefix: u64,
    name: &str,
    steps: &mut Steps<L>,
) -> Result<Place, Place>
    requires slots { AreSlots 0 slots.now.slots }
    requires order { IsListed (rows_of slots.now.slots) (entries_of order.now.runs) }
    requires entries { AreOwn (rows_of slots.now.slots) order.now }
    requires few { length (entries_of order.now.runs) < most_nodes }
    requires prefix { prefix ≡ prefix_of name.now }
    ensures entry { IfOk result (λ place. IsEntry order.now.runs place) }
    ensures named { IfOk result (λ place. IsNamed (rows_of slots.now.slots) (entries_of order.now.runs) folder name.now (index_of order.now.runs place)) }
    ensures taken { IfOk result (λ place. IsPlace (rows_of slots.now.slots) (entries_of order.now.runs) folder name.now (index_of order.now.runs place)) }
    ensures gap { IfErr result (λ place. IsGap order.now.runs place) }
    ensures floor { IfErr result (λ place. IsFloor (rows_of slots.now.slots) (entries_of order.now.runs) folder name.now (index_of order.now.runs place)) }
    ensures beyond { IfErr result (λ place. IsBeyond (rows_of slots.now.slots) (entries_of order.now.runs) folder name.now (index_of order.now.runs place)) }
    ensures some { 0 < length order.now.runs → steps.old + 1 ≤ steps.new }
    ensures looks { steps.new ≤ steps.old + 21 }
    ensures fewer { length order.now.runs < 8192 → steps.new ≤ steps.old + 20 }
{
    match runs_before(slots, order, folder, prefix, name, steps) {
        Ok(run) => {
            // No run is empty.
            let _entries = order.run(run);
            Ok(Place { run, offset: 0 })
        }
        Err(0) => Err(Place { run: 0, offset: 0 }),
        Err(count) => {
            let run = count - 1;
            match offset_of(slots, order, run, folder, prefix, name, steps) {
                Ok(offset) => Ok(Place { run, offset }),
                Err(offset) => Err(Place { run, offset }),
            }
        }
    }
}

/// The place of the listed node that has a name in a folder, or as an `Err` the place where one is to stand. It takes a
/// look, at the folder if none is listed, and no more than 21.
pub fn search<L: Ledger>(
    slots: &NodeTable,
    order: &Order,
    folder: u32,
    name: &str,
    steps: &mut Steps<L>,
) -> Result<Place, Place>
    requires slots { AreSlots 0 slots.now.slots }
    requires order { IsListed (rows_of slots.now.slots) (entries_of order.now.runs) }
    requires entries { AreOwn (rows_of slots.now.slots) order.now }
    requires few { length (entries_of order.now.runs) < most_nodes }
    ensures entry { IfOk result (λ place. IsEntry order.now.runs place) }
    ensures gap { IfErr result (λ place. IsGap order.now.runs place) }
    ensures taken { IfOk result (λ place. IsPlace (rows_of slots.now.slots) (entries_of order.now.runs) folder name.now (index_of order.now.runs place)) }
    ensures free { IfErr result (λ place. IsPlace (rows_of slots.now.slots) (entries_of order.now.runs) folder name.now (index_of order.now.runs place)) }
    ensures named { IfOk result (λ place. IsNamed (rows_of slots.now.slots) (entries_of order.now.runs) folder name.now (index_of order.now.runs place)) }
    ensures none { IfErr result (λ place. LacksName (rows_of slots.now.slots) (entries_of order.now.runs) folder name.now) }
    ensures some { steps.old + 1 ≤ steps.new }
    ensures looks { steps.new ≤ steps.old + 21 }
    ensures fewer { length order.now.runs < 8192 → steps.new ≤ steps.old + 20 }
{
    if order.run_count() == 0 {
        // What is read is the folder.
        steps.tick();
        return Err(order.end());
    }
    place_of(
        slots,
        order,
        u64::from(folder),
        fold_prefix(name),
        name,
        steps,
    )
}

/// The entry that stands at a place, if that isn't the end.
#[inline]
pub fn entry_at(order: &Order, place: Place) -> Option<Entry>
    requires { IsGap order.now.runs place }
    ensures number { option_map number_in result ≡ slice_get (entries_of order.now.runs) (index_of order.now.runs place) }
    ensures listed { IfSome result (Contains order.now.entries) }
{
    if order.run_count() == 0 {
        return None;
    }
    let entries = order.run(place.run);
    if place.offset < entries.len() {
        return Some(entries[place.offset]);
    }
    let next = place.run + 1;
    if next < order.run_count() {
        Some(order.first(next))
    } else {
        None
    }
}

// Whether an entry is a folder's child. It takes a look.
fn is_child<L: Ledger>(entry: Entry, folder: u32, steps: &mut Steps<L>) -> bool
    ensures value { result ≡ (entry.parent == folder) }
    ensures count { steps.new ≡ steps.old + 1 }
{
    steps.tick();
    entry.parent == folder
}

// The place in the order from which the folders have this number or greater ones. It takes no more than 21 looks.
fn first_from<L: Ledger>(
    slots: &NodeTable,
    order: &Order,
    folder: u64,
    steps: &mut Steps<L>,
) -> Place
    requires slots { AreSlots 0 slots.now.slots }
    requires order { IsListed (rows_of slots.now.slots) (entries_of order.now.runs) }
    requires entries { AreOwn (rows_of slots.now.slots) order.now }
    requires few { length (entries_of order.now.runs) < most_nodes }
    ensures gap { IsGap order.now.runs result }
    ensures place { IsPlace (rows_of slots.now.slots) (entries_of order.now.runs) folder [] (index_of order.now.runs result) }
    ensures looks { steps.new ≤ steps.old + 21 }
{
    // No name comes before the empty one.
    match place_of(slots, order, folder, 0, "", steps) {
        Ok(place) | Err(place) => place,
    }
}

/// Whether a listed node is a folder's child. It takes no more than 22 looks.
pub fn lists_child<L: Ledger>(
    slots: &NodeTable,
    order: &Order,
    folder: u32,
    steps: &mut Steps<L>,
) -> bool
    requires slots { AreSlots 0 slots.now.slots }
    requires order { IsListed (rows_of slots.now.slots) (entries_of order.now.runs) }
    requires entries { AreOwn (rows_of slots.now.slots) order.now }
    requires few { length (entries_of order.now.runs) < most_nodes }
    ensures value { result ≡ list_any (λ n. is_child_of (rows_of slots.now.slots) n folder) (entries_of order.now.runs) }
    ensures looks { steps.new ≤ steps.old + 22 }
{
    let place = first_from(slots, order, u64::from(folder), steps);
    match entry_at(order, place) {
        Some(entry) => is_child(entry, folder, steps),
        None => false,
    }
}
