//! Where a tree's nodes are found by their names.
//!
//! A new node is *late*: the index leads to it, and its entry waits to be put into the order. Most nodes of a full
//! volume are asked for by their names alone, so that most are put there many at once, when somebody asks for the
//! children of a folder. A node that the index has lost stands in the order at once. So each name is found by one of
//! both, however many nodes are late.

ghost use Rattle.std.specs.Prelude.{◌≡◌, ℕ, ◌+◌, ◌<◌, ◌≤◌, IfOk, List, ◌∷◌, [], true, false, length, map, vec_capacity, None, Some, IfSome, get_or, not, ◌==◌};
ghost use Rattle.fsrm_base.specs.Numbers.{is_in};
ghost use Rattle.fsrm_model.specs.declared.row.NodeRow.{NodeRow};
ghost use Rattle.fsrm_model.specs.nodes.Tree.{number as key, children, node_of};
ghost use Rattle.fsrm_model.specs.values.Limits.{most_nodes};
ghost use Rattle.std.specs.List.{list_any};
ghost use Rattle.name_index.specs.Hash.{name_hash};
ghost use Rattle.node_order.specs.declared.entries.Entry.{Entry};
ghost use Rattle.node_order.specs.Entries.{number_in};
ghost use Rattle.node_order.specs.Order.{LacksName, inner};
ghost use Rattle.block_list.specs.Runs.{entries_of};
ghost use Rattle.node_table.specs.Views.{seen};
ghost use Rattle.volume_tree.specs.Kept.{AreSlots, rows_of};
ghost use Rattle.volume_tree.specs.Late.{AreApart, AreEntered, HasLeft, IsRegister};

use crate::hints::Hints;
use block_list::Place;
use fsrm_model::{Ledger, NoMemory, Steps};
use name_index::{Index, hash_of};
use node_order::{Entry, Order, by_place, late_place, lists_child, search};
use node_table::{NodeTable, NodeView};
use std::alloc::Global;

// How many nodes may be late when one is removed or moved: so many are looked through.
const FEW_LATE: usize = 32;

/// The nodes of a tree but the root by their names.
#[derive(Drop)]
pub struct Register {
    /// The entries of nodes in the order of their places.
    pub order: Order,
    /// The entries of late nodes, which don't stand in the order yet.
    pub late: Vec<Entry>,
    /// Which node has a name.
    pub index: Index,
    /// Which folder may have a name. Nothing rests on it.
    pub hints: Hints,
}

impl Register {
    /// A register without entries, with room for so many nodes, and quick for so many of them at once. No other call
    /// takes memory.
    pub fn reserve(alloc: Global, most: u32, now: u32) -> Result<Register, NoMemory>
        requires { most ≤ most_nodes }
        ensures empty { IfOk result (λ register. (nodes : List NodeRow) → length (inner nodes) < most → IsRegister nodes (map key (inner nodes)) register) }
        ensures room { IfOk result (λ register. register.order.room ≡ most) }
    {
        let order = Order::reserve(alloc, most)?;
        let late = Vec::with_capacity(alloc, most as usize)?;
        let index = Index::reserve(alloc, most, now)?;
        let hints = Hints::reserve(alloc, most)?;
        Ok(Register {
            order,
            late,
            index,
            hints,
        })
    }

    /// Puts all late nodes into the order.
    pub fn arrange(&mut self, slots: &NodeTable)
        requires slots { AreSlots 0 slots.now.slots }
        requires apart { AreApart (rows_of slots.now.slots) }
        requires register { IsRegister (rows_of slots.now.slots) [] self.old }
        ensures register { IsRegister (rows_of slots.now.slots) [] self.new }
        ensures none { self.new.late.items ≡ [] }
        ensures room { self.new.order.room ≡ self.old.order.room }
    {
        if self.late.is_empty() {
            return;
        }
        self.late.sort_unstable_by(|a, b| by_place(a, b));
        put_all(slots, &mut self.order, &self.late);
        self.late.clear();
    }

    /// The same, unless few nodes are late.
    pub fn arrange_if_many(&mut self, slots: &NodeTable)
        requires slots { AreSlots 0 slots.now.slots }
        requires apart { AreApart (rows_of slots.now.slots) }
        requires register { IsRegister (rows_of slots.now.slots) [] self.old }
        ensures register { IsRegister (rows_of slots.now.slots) [] self.new }
        ensures room { self.new.order.room ≡ self.old.order.room }
    {
        if self.late.len() > FEW_LATE {
            self.arrange(slots);
        }
    }

    /// Whether a node has a child. A file has none: that takes no look. For a folder it takes no more than 22.
    pub fn has_child<L: Ledger>(
        &self,
        slots: &NodeTable,
        row: &NodeView<'_>,
        steps: &mut Steps<L>,
    ) -> bool
        requires slots { AreSlots 0 slots.now.slots }
        requires register { IsRegister (rows_of slots.now.slots) [] self.now }
        requires file { row.now.folder ≡ false → children (rows_of slots.now.slots) row.now.number ≡ [] }
        ensures value { result ≡ not (length (children (rows_of slots.now.slots) row.now.number) == 0) }
        ensures none { row.now.folder ≡ false → steps.new ≡ steps.old }
        ensures looks { steps.new ≤ steps.old + 22 }
    {
        if !row.folder {
            return false;
        }
        if lists_child(slots, &self.order, row.number, steps) {
            return true;
        }
        names_folder(&self.late, row.number)
    }

    /// Enters a node that is absent, under the hash of its name. If it has to stand in the order at once, its place is
    /// sought first at a given one. No look is counted.
    pub fn enter(&mut self, slots: &NodeTable, row: &NodeView<'_>, hash: u32, near: Place)
        requires slots { AreSlots 0 slots.now.slots }
        requires there { node_of (rows_of slots.now.slots) row.now.number ≡ Some (seen row.now) }
        requires inner { (row.now.number == 0) ≡ false }
        requires hash { hash ≡ name_hash row.now.parent row.now.name.now }
        requires alone { LacksName (rows_of slots.now.slots) (entries_of self.old.order.runs) row.now.parent row.now.name.now }
        requires absent { (rest : List ℕ) × IsRegister (rows_of slots.now.slots) (row.now.number ∷ rest) self.old }
        ensures entered { (rest : List ℕ) → IsRegister (rows_of slots.now.slots) (row.now.number ∷ rest) self.old → IsRegister (rows_of slots.now.slots) rest self.new }
        ensures room { self.new.order.room ≡ self.old.order.room }
    {
        self.hints.learn(hash, row.number, row.folder);
        let entry = Entry::at(row.number, row.parent, row.name);
        if self.index.enter(hash, row.number) {
            self.late.push_reserved(entry);
            return;
        }
        let place = late_place(slots, &self.order, entry, near);
        self.order.insert(place, entry);
    }

    /// Takes a node out, which is absent then. It takes no more than 21 looks, and passes the entries of late nodes.
    pub fn leave<L: Ledger>(&mut self, slots: &NodeTable, row: &NodeView<'_>, steps: &mut Steps<L>)
        requires slots { AreSlots 0 slots.now.slots }
        requires apart { AreApart (rows_of slots.now.slots) }
        requires there { node_of (rows_of slots.now.slots) row.now.number ≡ Some (seen row.now) }
        requires inner { (row.now.number == 0) ≡ false }
        requires register { IsRegister (rows_of slots.now.slots) [] self.old }
        ensures left { IsRegister (rows_of slots.now.slots) (row.now.number ∷ []) self.new }
        ensures room { self.new.order.room ≡ self.old.order.room }
        ensures looks { steps.new ≤ steps.old + 21 }
    {
        let hash = hash_of(row.parent, row.name);
        self.hints.unlearn(hash, row.number, row.folder);
        self.index.forget(hash, row.number);
        match search(slots, &self.order, row.parent, row.name, steps) {
            Ok(place) => self.order.remove(place),
            Err(_) => take_out(&mut self.late, row.number),
        }
    }
}

// Puts the entries of late nodes into the order. Each is sought first behind the one before it.
fn put_all(slots: &NodeTable, order: &mut Order, late: &[Entry])
    requires slots { AreSlots 0 slots.now.slots }
    requires apart { AreApart (rows_of slots.now.slots) }
    requires room { length (inner (rows_of slots.now.slots)) < order.old.room }
    requires entered { AreEntered (rows_of slots.now.slots) [] order.old late.now }
    ensures entered { AreEntered (rows_of slots.now.slots) [] order.new [] }
    ensures room { order.new.room ≡ order.old.room }
{
    let mut near = Place { run: 0, offset: 0 };
    for entry in late {
        let place = late_place(slots, order, *entry, near);
        order.insert(place, *entry);
        near = Place {
            run: place.run,
            offset: place.offset.saturating_add(1),
        };
    }
}

// Whether an entry is that of a node in this folder.
fn names_folder(late: &[Entry], folder: u32) -> bool
    ensures { result ≡ list_any (λ entry. entry.parent == folder) late.now }
{
    late.iter().any(|entry| entry.parent == folder)
}

// At which place the entry of a node stands.
fn position_of(late: &[Entry], number: u32) -> Option<usize>
    ensures within { IfSome result (λ place. place < length late.now) }
    ensures node { IfSome result (λ place. (d : Entry) → (get_or late.now place d).node ≡ number) }
    ensures none { result ≡ None → is_in (map number_in late.now) number ≡ false }
{
    for place in 0..late.len() {
        if late[place].node == number {
            return Some(place);
        }
    }
    None
}

// Takes the entry of a node out of a list in whatever order.
fn take_out(late: &mut Vec<Entry>, number: u32)
    ensures left { is_in (map number_in late.old.items) number ≡ true → HasLeft late.old.items late.new.items number }
    ensures room { vec_capacity late.new ≡ vec_capacity late.old }
{
    if let Some(place) = position_of(late, number) {
        late.swap_remove(place);
    }
}
