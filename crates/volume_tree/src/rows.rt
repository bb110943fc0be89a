//! A tree's nodes as rows, and the parts of a tree from rows.

ghost use Rattle.std.specs.Prelude.{◌≡◌, ℕ, ◌+◌, ◌<◌, ◌≤◌, ◌==◌, ◌&&◌, ◌∷◌, [], List, IfOk, OnOk, IsErrOf, MatchBool, MatchOption, Some, true, false, length, nat_le, not, slice_index_or, slice_set};
ghost use Rattle.std.specs.List.{list_all};
ghost use Rattle.fsrm_base.specs.Keyed.{has_row};
ghost use Rattle.fsrm_base.specs.Numbers.{is_in};
ghost use Rattle.fsrm_model.specs.nodes.Tree.{number as key, node_of, parent_of, is_folder, is_under, name_bytes};
ghost use Rattle.fsrm_model.specs.store.Capacities.{is_capacity};
ghost use Rattle.fsrm_model.specs.store.Valid.{is_tree, is_moment, is_own, is_root_node};
ghost use Rattle.fsrm_model.specs.values.Limits.{most_nodes};
ghost use Rattle.block_list.specs.Runs.{entries_of};
ghost use Rattle.name_index.specs.Hash.{name_hash};
ghost use Rattle.name_index.specs.Index.{Holds};
ghost use Rattle.node_order.specs.Entries.{AreOwn};
ghost use Rattle.node_order.specs.Order.{IsListed, LacksName, has_name};
ghost use Rattle.node_table.specs.Views.{seen};
ghost use Rattle.volume_tree.specs.Kept.{AreSlots, IsFilled, IsHeld, rows_of};
ghost use Rattle.volume_tree.specs.Late.{AreApart, IsRegister};
ghost use Rattle.volume_tree.specs.Sound.{AreMarks, HasTwins, Reaches, are_from, are_sound, is_in_range, is_placed};
ghost use Rattle.volume_tree.specs.Twins.{AreApartBut, IsFree, IsTwin};

use crate::answer::RowsFault;
use crate::register::Register;
use crate::slots::{has_name, holes_in, is_there, row};
use block_list::Place;
use fsrm_model::limits::{LATEST_MOMENT, LONGEST_FILE};
use fsrm_model::{Capacity, NoMemory, NodeRow};
use name_index::{Index, hash_of};
use name_rules::is_name;
use node_order::{Entry, Order, entry_at, late_place};
use node_table::{NodeTable, NodeView};
use number_set::NumberSet;
use std::alloc::Global;

/// What a tree keeps of its rows.
#[derive(Drop)]
pub struct Parts {
    /// Each row in the slot of its number.
    pub slots: NodeTable,
    /// All rows but the root by their names.
    pub register: Register,
    /// How many rows there are, and the bytes of all their names.
    pub count: u32,
    pub used: u32,
    /// The numbers of the slots that are empty.
    pub holes: NumberSet,
}

/// The parts of the tree of these rows. They are bad exactly if they aren't the nodes of a
/// volume of this size.
pub fn read(alloc: Global, rows: &[NodeRow], size: Capacity) -> Result<Parts, RowsFault>
    requires { is_capacity size ≡ true }
    ensures kept { IfOk result (λ made. IsHeld size made.count made.used made.holes made.slots made.register) }
    ensures nodes { IfOk result (λ made. rows_of made.slots.slots ≡ rows.now) }
    ensures may { OnOk result (is_tree size rows.now ≡ true) }
    ensures bad { IsErrOf result RowsFault.BadRows → is_tree size rows.now ≡ false }
{
    let Some(used) = name_bytes(rows, size.names) else {
        return Err(RowsFault::BadRows);
    };
    let slots = sound_slots(alloc, rows, size)?;
    let register = register_of(alloc, rows, &slots, size.nodes)?;
    let holes = match holes_in(alloc, &slots, size.nodes) {
        Ok(holes) => holes,
        Err(NoMemory) => return Err(RowsFault::NoMemory),
    };
    Ok(Parts {
        slots,
        register,
        count: rows.len() as u32,
        used,
        holes,
    })
}

// A table of these rows. They are bad exactly if a number, a row by itself, a parent or a way up is.
fn sound_slots(alloc: Global, rows: &[NodeRow], size: Capacity) -> Result<NodeTable, RowsFault>
    requires names { name_bytes rows.now ≤ size.names }
    ensures filled { IfOk result (IsFilled size rows.now) }
    ensures may { OnOk result (are_sound size.nodes rows.now ≡ true) }
    ensures bad { IsErrOf result RowsFault.BadRows → are_sound size.nodes rows.now ≡ false }
{
    if !are_listed(rows, size.nodes) {
        return Err(RowsFault::BadRows);
    }
    if !are_in_range(rows) {
        return Err(RowsFault::BadRows);
    }
    let slots = match filled(alloc, rows, size) {
        Ok(slots) => slots,
        Err(NoMemory) => return Err(RowsFault::NoMemory),
    };
    if !are_nodes(&slots, rows) {
        return Err(RowsFault::BadRows);
    }
    match are_rooted(alloc, &slots, rows) {
        Ok(true) => Ok(slots),
        Ok(false) => Err(RowsFault::BadRows),
        Err(NoMemory) => Err(RowsFault::NoMemory),
    }
}

// Whether numbers ascend below a bound.
fn are_listed(rows: &[NodeRow], bound: u32) -> bool
    ensures { result ≡ are_from 0 bound rows.now }
{
    let mut next = 0;
    for row in rows {
        if row.number < next || row.number >= bound {
            return false;
        }
        next = row.number + 1;
    }
    true
}

// Whether no length and no moment is greater than those of nodes may be.
fn are_in_range(rows: &[NodeRow]) -> bool
    ensures { result ≡ list_all is_in_range rows.now }
{
    rows.iter().all(|row| is_in_range(row))
}

fn is_in_range(row: &NodeRow) -> bool
    ensures { result ≡ is_in_range row.now }
{
    let are_moments = is_moment(row.created) && is_moment(row.modified) && is_moment(row.accessed);
    row.length <= LONGEST_FILE && are_moments
}

// A table of rows whose numbers ascend.
fn filled(alloc: Global, rows: &[NodeRow], size: Capacity) -> Result<NodeTable, NoMemory>
    requires listed { are_from 0 size.nodes rows.now ≡ true }
    requires range { list_all is_in_range rows.now ≡ true }
    requires names { name_bytes rows.now ≤ size.names }
    ensures { IfOk result (IsFilled size rows.now) }
{
    let mut slots = NodeTable::reserve(alloc, size.nodes, size.names)?;
    for row in rows {
        slots.put(&NodeView::of(row));
    }
    Ok(slots)
}

// Whether one row is the root, and each row is in its place.
fn are_nodes(slots: &NodeTable, rows: &[NodeRow]) -> bool
    requires slots { AreSlots 0 slots.now.slots }
    requires rows { rows_of slots.now.slots ≡ rows.now }
    ensures { result ≡ has_row key 0 rows.now && list_all (is_placed rows.now) rows.now }
{
    has_root(slots) && are_placed(slots, rows)
}

fn has_root(slots: &NodeTable) -> bool
    requires slots { AreSlots 0 slots.now.slots }
    ensures { result ≡ has_row key 0 (rows_of slots.now.slots) }
{
    is_there(slots, 0)
}

// Whether each row is the root, or a node with what is its own and a parent that is a folder.
fn are_placed(slots: &NodeTable, rows: &[NodeRow]) -> bool
    requires slots { AreSlots 0 slots.now.slots }
    ensures { result ≡ list_all (is_placed (rows_of slots.now.slots)) rows.now }
{
    rows.iter().all(|row| is_placed(slots, row))
}

fn is_placed(slots: &NodeTable, row: &NodeRow) -> bool
    requires slots { AreSlots 0 slots.now.slots }
    ensures { result ≡ is_placed (rows_of slots.now.slots) row.now }
{
    if row.number == 0 {
        is_root(row)
    } else {
        is_own(row) && is_folder(slots, row.parent)
    }
}

fn is_root(row: &NodeRow) -> bool
    ensures { result ≡ is_root_node row.now }
{
    let is_folder = row.folder && row.name.as_str().is_empty();
    let is_top = row.parent == 0 && row.length == 0;
    let is_new = row.created == 0 && row.modified == 0 && row.accessed == 0;
    is_folder && is_top && row.owner == 1 && is_new
}

// Whether a node other than the root has what it must have, whatever stands beside it.
fn is_own(row: &NodeRow) -> bool
    ensures { result ≡ is_own row.now }
{
    let longest = if row.folder { 0 } else { LONGEST_FILE };
    let are_moments = is_moment(row.created) && is_moment(row.modified) && is_moment(row.accessed);
    is_name(row.name.as_str()) && row.owner > 0 && row.length <= longest && are_moments
}

fn is_moment(moment: u64) -> bool
    ensures { result ≡ is_moment moment }
{
    moment <= LATEST_MOMENT
}

fn is_folder(slots: &NodeTable, number: u32) -> bool
    requires { AreSlots 0 slots.now.slots }
    ensures { result ≡ is_folder (rows_of slots.now.slots) number }
{
    match row(slots, number) {
        Some(row) => row.folder,
        None => false,
    }
}

// Whether the way up from each row comes to the root. What a way passes is marked, and a later way
// ends at a mark, so no node is passed more than twice.
fn are_rooted(alloc: Global, slots: &NodeTable, rows: &[NodeRow]) -> Result<bool, NoMemory>
    requires slots { AreSlots 0 slots.now.slots }
    requires rows { rows_of slots.now.slots ≡ rows.now }
    requires root { has_row key 0 rows.now ≡ true }
    requires placed { list_all (is_placed rows.now) rows.now ≡ true }
    ensures { IfOk result (λ rooted. rooted ≡ list_all (λ row. is_under rows.now 0 row.number) rows.now) }
{
    let mut marks = root_mark(alloc, slots.len() as usize)?;
    for row in rows {
        if !is_rooted(slots, &marks, rows.len(), row.number) {
            return Ok(false);
        }
        mark_way(slots, &mut marks, rows.len(), row.number);
    }
    Ok(true)
}

// As many marks, of which that of the root alone is set.
fn root_mark(alloc: Global, len: usize) -> Result<Vec<bool>, NoMemory>
    requires { 0 < len }
    ensures root { IfOk result (λ marks. slice_index_or marks.items 0 false ≡ true) }
    ensures only { IfOk result (λ marks. (n : ℕ) → slice_index_or marks.items n false ≡ true → n ≡ 0) }
{
    let mut marks = vec![in alloc; false; len]?;
    marks[0] = true;
    Ok(marks)
}

fn is_marked(marks: &[bool], number: u32) -> bool
    ensures { result ≡ slice_index_or marks.now number false }
{
    match marks.get(number as usize) {
        Some(mark) => *mark,
        None => false,
    }
}

fn mark(marks: &mut [bool], number: u32)
    ensures { marks.new ≡ slice_set marks.old number true }
{
    let place = number as usize;
    if place < marks.len() {
        marks[place] = true;
    }
}

// The parent of a node, 0 if there is no such node.
fn parent(slots: &NodeTable, number: u32) -> u32
    requires { AreSlots 0 slots.now.slots }
    ensures { result ≡ parent_of (rows_of slots.now.slots) number }
{
    match row(slots, number) {
        Some(row) => row.parent,
        None => 0,
    }
}

// Whether the way up from a node comes to a mark. No way to the root is longer than there are nodes.
fn is_rooted(slots: &NodeTable, marks: &[bool], most: usize, number: u32) -> bool
    requires slots { AreSlots 0 slots.now.slots }
    requires marks { AreMarks (rows_of slots.now.slots) marks.now }
    requires most { most ≡ length (rows_of slots.now.slots) }
    ensures { MatchBool result (Reaches (rows_of slots.now.slots) number) (is_under (rows_of slots.now.slots) 0 number ≡ false) }
{
    let mut at = number;
    let mut left = most;
    while left > 0 {
        if is_marked(marks, at) {
            return true;
        }
        at = parent(slots, at);
        left -= 1;
    }
    is_marked(marks, at)
}

// Marks the way up from a node, up to the first mark.
fn mark_way(slots: &NodeTable, marks: &mut [bool], most: usize, number: u32)
    requires slots { AreSlots 0 slots.now.slots }
    requires marks { AreMarks (rows_of slots.now.slots) marks.old }
    requires rooted { Reaches (rows_of slots.now.slots) number }
    ensures { AreMarks (rows_of slots.now.slots) marks.new }
{
    let mut at = number;
    let mut left = most;
    while left > 0 && !is_marked(marks, at) {
        mark(marks, at);
        at = parent(slots, at);
        left -= 1;
    }
}

// The bytes of all names, if they aren't more than these.
fn name_bytes(rows: &[NodeRow], most: u32) -> Option<u32>
    ensures sum { MatchOption result (nat_le (name_bytes rows.now) most ≡ false) (λ used. used ≡ name_bytes rows.now) }
    ensures within { MatchOption result (nat_le (name_bytes rows.now) most ≡ false) (λ used. used ≤ most) }
{
    let mut left = most as usize;
    for row in rows {
        let bytes = row.name.as_str().len();
        if bytes > left {
            return None;
        }
        left -= bytes;
    }
    Some(most - left as u32)
}

// A register of all rows but the root, with room for so many nodes. The rows are bad exactly if two children of a folder
// have one name.
fn register_of(
    alloc: Global,
    rows: &[NodeRow],
    slots: &NodeTable,
    most: u32,
) -> Result<Register, RowsFault>
    requires slots { AreSlots 0 slots.now.slots }
    requires rows { rows_of slots.now.slots ≡ rows.now }
    requires root { has_row key 0 rows.now ≡ true }
    requires room { length rows.now ≤ most }
    requires most { most ≤ most_nodes }
    ensures register { IfOk result (IsRegister rows.now []) }
    ensures room { IfOk result (λ register. register.order.room ≡ most) }
    ensures apart { OnOk result (AreApart rows.now) }
    ensures bad { IsErrOf result RowsFault.BadRows → HasTwins rows.now }
{
    let mut register = match Register::reserve(alloc, most, rows.len() as u32) {
        Ok(register) => register,
        Err(NoMemory) => return Err(RowsFault::NoMemory),
    };
    // The first row is the root.
    let others = &rows[1..];
    for row in others {
        if !enter_alone(&mut register, slots, row.number) {
            return Err(RowsFault::BadRows);
        }
    }
    Ok(register)
}

// Enters a node that is absent, unless another one that was entered has its name. Answers whether it did.
fn enter_alone(register: &mut Register, slots: &NodeTable, number: u32) -> bool
    requires slots { AreSlots 0 slots.now.slots }
    requires there { has_row key number (rows_of slots.now.slots) ≡ true }
    requires inner { (number == 0) ≡ false }
    requires absent { (rest : List ℕ) × IsRegister (rows_of slots.now.slots) (number ∷ rest) register.old }
    ensures entered { result ≡ true → (rest : List ℕ) → IsRegister (rows_of slots.now.slots) (number ∷ rest) register.old → IsRegister (rows_of slots.now.slots) rest register.new }
    ensures apart { result ≡ true → (rest : List ℕ) → IsRegister (rows_of slots.now.slots) (number ∷ rest) register.old → AreApartBut (rows_of slots.now.slots) (number ∷ rest) → AreApartBut (rows_of slots.now.slots) rest }
    ensures twins { result ≡ false → HasTwins (rows_of slots.now.slots) }
    ensures room { register.new.order.room ≡ register.old.order.room }
{
    let row = slots.node(number);
    let hash = hash_of(row.parent, row.name);
    if has_twin(register, slots, &row, hash) {
        return false;
    }
    register.enter(slots, &row, hash, Place { run: 0, offset: 0 });
    true
}

// Whether a node that was entered has the name of one that is absent.
fn has_twin(register: &Register, slots: &NodeTable, row: &NodeView<'_>, hash: u32) -> bool
    requires slots { AreSlots 0 slots.now.slots }
    requires there { node_of (rows_of slots.now.slots) row.now.number ≡ Some (seen row.now) }
    requires inner { (row.now.number == 0) ≡ false }
    requires hash { hash ≡ name_hash row.now.parent row.now.name.now }
    requires absent { (rest : List ℕ) × IsRegister (rows_of slots.now.slots) (row.now.number ∷ rest) register.now }
    ensures twins { result ≡ true → HasTwins (rows_of slots.now.slots) }
    ensures free { result ≡ false → (rest : List ℕ) → IsRegister (rows_of slots.now.slots) (row.now.number ∷ rest) register.now → IsFree (rows_of slots.now.slots) (row.now.number ∷ rest) row.now.parent row.now.name.now }
{
    if holds_twin(&register.index, slots, row, hash) {
        return true;
    }
    if !register.index.has_lost(hash) {
        return false;
    }
    lists_twin(&register.order, slots, row)
}

// Whether the node that the index leads to is another one of the same name.
fn holds_twin(index: &Index, slots: &NodeTable, row: &NodeView<'_>, hash: u32) -> bool
    requires { AreSlots 0 slots.now.slots }
    ensures twin { result ≡ true → IsTwin (rows_of slots.now.slots) row.now }
    ensures none { result ≡ false → (n : ℕ) → Holds index.now hash n → (n == row.now.number) ≡ false → has_name (rows_of slots.now.slots) n row.now.parent row.now.name.now ≡ false }
{
    match index.find(hash) {
        Some(number) => is_twin(slots, number, row),
        None => false,
    }
}

// Whether a node that stands in the order has the name of one that doesn't.
fn lists_twin(order: &Order, slots: &NodeTable, row: &NodeView<'_>) -> bool
    requires slots { AreSlots 0 slots.now.slots }
    requires order { IsListed (rows_of slots.now.slots) (entries_of order.now.runs) }
    requires entries { AreOwn (rows_of slots.now.slots) order.now }
    requires there { node_of (rows_of slots.now.slots) row.now.number ≡ Some (seen row.now) }
    requires other { is_in (entries_of order.now.runs) row.now.number ≡ false }
    ensures twin { result ≡ true → IsTwin (rows_of slots.now.slots) row.now }
    ensures none { result ≡ false → LacksName (rows_of slots.now.slots) (entries_of order.now.runs) row.now.parent row.now.name.now }
{
    let entry = Entry::at(row.number, row.parent, row.name);
    let place = late_place(slots, order, entry, Place { run: 0, offset: 0 });
    match entry_at(order, place) {
        Some(other) => is_twin(slots, other.node, row),
        None => false,
    }
}

// Whether a number is that of another node of the same name, and not the root's.
fn is_twin(slots: &NodeTable, number: u32, row: &NodeView<'_>) -> bool
    requires { AreSlots 0 slots.now.slots }
    ensures { result ≡ not (number == row.now.number) && has_name (rows_of slots.now.slots) number row.now.parent row.now.name.now }
{
    number != row.number && has_name(slots, number, row.parent, row.name)
}
