//! A folder's children where some nodes are late, by passes over the whole table. That is slow, and right: whoever asks
//! for many folders' children arranges the tree first.

ghost use Rattle.std.specs.Prelude.{◌≡◌, ◌+◌, ◌<◌, ◌==◌, ◌∷◌, [], Some, IfNone, IfSome, length, true};
ghost use Rattle.std.specs.List.{count_by};
ghost use Rattle.std.specs.Option.{option_map_or};
ghost use Rattle.fsrm_model.specs.nodes.Tree.{children, name_of};
ghost use Rattle.fsrm_model.specs.values.Name.{name_before};
ghost use Rattle.volume_tree.specs.Kept.{AreSlots, rows_of};
ghost use Rattle.volume_tree.specs.Late.{AreApart};
ghost use Rattle.volume_tree.specs.Siblings.{IsNext, comes_after, is_after, numbers_after};
ghost use Rattle.volume_tree.specs.Volume.{IsChildAt};

use crate::slots::row;
use name_rules::fold_cmp;
use node_order::Entry;
use node_table::NodeTable;

// The name of a node, empty if there is none.
fn name_of(slots: &NodeTable, number: u32) -> &str
    requires { AreSlots 0 slots.now.slots }
    ensures { result.now ≡ name_of (rows_of slots.now.slots) number }
{
    match row(slots, number) {
        Some(row) => row.name,
        None => "",
    }
}

// Whether a name comes after a child's, if one is given.
fn comes_after(slots: &NodeTable, last: Option<u32>, name: &str) -> bool
    requires { AreSlots 0 slots.now.slots }
    ensures { result ≡ comes_after (rows_of slots.now.slots) last name.now }
{
    match last {
        Some(last) => fold_cmp(name_of(slots, last), name).is_lt(),
        None => true,
    }
}

// Whether a name comes before a child's, if one is given.
fn comes_before(slots: &NodeTable, name: &str, next: Option<u32>) -> bool
    requires { AreSlots 0 slots.now.slots }
    ensures { result ≡ option_map_or (λ n. name_before name.now (name_of (rows_of slots.now.slots) n)) next true }
{
    match next {
        Some(next) => fold_cmp(name, name_of(slots, next)).is_lt(),
        None => true,
    }
}

// Whether a number is that of a folder's child that comes after the last one.
fn is_after(slots: &NodeTable, folder: u32, last: Option<u32>, number: u32) -> bool
    requires { AreSlots 0 slots.now.slots }
    ensures { result ≡ is_after (rows_of slots.now.slots) folder last number }
{
    match row(slots, number) {
        Some(row) => {
            row.number != 0 && row.parent == folder && comes_after(slots, last, row.name)
        }
        None => false,
    }
}

// The child that comes first, of the one that was found among lower numbers and that of a number.
fn nearer(
    slots: &NodeTable,
    folder: u32,
    last: Option<u32>,
    next: Option<u32>,
    number: u32,
) -> Option<u32>
    requires { AreSlots 0 slots.now.slots }
    ensures { IsNext (rows_of slots.now.slots) folder last number next → IsNext (rows_of slots.now.slots) folder last (number + 1) result }
{
    if !is_after(slots, folder, last, number) {
        return next;
    }
    if !comes_before(slots, name_of(slots, number), next) {
        return next;
    }
    Some(number)
}

/// The child that comes after another one in the order of the folded names, or if none is given, the first one.
pub fn next_child(slots: &NodeTable, folder: u32, last: Option<u32>) -> Option<u32>
    requires slots { AreSlots 0 slots.now.slots }
    requires apart { AreApart (rows_of slots.now.slots) }
    ensures some { IfSome result (λ n. numbers_after (rows_of slots.now.slots) folder last ≡ n ∷ numbers_after (rows_of slots.now.slots) folder (Some n)) }
    ensures none { IfNone result (numbers_after (rows_of slots.now.slots) folder last ≡ []) }
{
    let mut next = None;
    for number in 0..slots.len() {
        next = nearer(slots, folder, last, next, number);
    }
    next
}

/// The child that stands at a place in the order of the folded names.
pub fn nth_child(slots: &NodeTable, folder: u32, place: u32) -> u32
    requires slots { AreSlots 0 slots.now.slots }
    requires apart { AreApart (rows_of slots.now.slots) }
    requires place { place < length (children (rows_of slots.now.slots) folder) }
    ensures { IsChildAt (rows_of slots.now.slots) folder place result }
{
    let mut last = None;
    for _rank in 0..place {
        last = next_child(slots, folder, last);
    }
    next_child(slots, folder, last).unwrap_or(0)
}

/// How many of some entries are those of a folder's children.
pub fn count_in(entries: &[Entry], folder: u32) -> usize
    ensures { result ≡ count_by (λ entry. entry.parent == folder) entries.now }
{
    let mut count = 0;
    for entry in entries {
        if entry.parent == folder {
            count += 1;
        }
    }
    count
}
