//! The nodes of a volume.

ghost use Rattle.std.specs.Prelude.{◌≡◌, ◌+◌, ◌<◌, ◌≤◌, IfOk, None, Some, false, length, option_map, true};
ghost use Rattle.fsrm_model.specs.nodes.FileOps.{placed, resized, touched};
ghost use Rattle.fsrm_model.specs.values.Limits.{latest_moment, longest_file};
ghost use Rattle.fsrm_model.specs.nodes.Tree.{name_bytes};
ghost use Rattle.name_region.specs.Contents.{live_count, text_of, used, with_text};
ghost use Rattle.node_table.specs.Slots.{is_taken, rows_of, slot_at, with_change_at, with_slot};
ghost use Rattle.node_table.specs.Table.{no_nodes};
ghost use Rattle.node_table.specs.Views.{IsInRange, seen};

use crate::row::Row;
use crate::rows::Rows;
use crate::view::NodeView;
use fsrm_base::{List, NoMemory};
use fsrm_model::NodeRow;
use name_region::Region;
use std::alloc::Global;
use std::marker::Model;

/// The nodes of a volume, each in the slot of its number, in memory that is reserved once. Contracts see how many nodes
/// and bytes of names there may be, and the slots: what is in each of them, a node's row or nothing.
#[derive(Drop)]
pub struct NodeTable {
    rows: Rows,
    // The name of each row, under a key that no other row has.
    names: Region,
}

impl Model for NodeTable {
    ghost use Rattle.node_table.specs.Table.{Table};
    ghost use Rattle.node_table.specs.Kept.{IsTable, table_of};

    ghost Value = { Table };

    ghost view = { λ t. table_of t.rows t.names };

    ghost invariant = { λ t. IsTable t.rows t.names };
}

// Stores a name that has room, and gives its key.
fn store(names: &mut Region, name: &str) -> u32
    requires room { used names.old + length name.now ≤ names.old.bytes }
    requires few { live_count names.old < length names.old.texts }
    ensures key { result < length names.old.texts }
    ensures dead { text_of names.old result ≡ None }
    ensures stored { names.new ≡ with_text names.old result (Some name.now) }
{
    names.store(name).unwrap()
}

impl NodeTable {
    /// A table without nodes, for so many of them and for so many bytes of their names together. It takes all the
    /// memory that the table will ever need.
    pub fn reserve(alloc: Global, nodes: u32, names: u32) -> Result<NodeTable, NoMemory>
        ensures { IfOk result (λ table. table ≡ no_nodes nodes names) }
    {
        let rows = Rows::reserve(alloc, nodes)?;
        let names = Region::reserve(alloc, names, nodes)?;
        Ok(NodeTable { rows, names })
    }

    /// How many slots there are: one more than the greatest number that a node ever had.
    pub fn len(&self) -> u32
        ensures len { result ≡ length self.now.slots }
        ensures most { result ≤ self.now.nodes }
    {
        self.rows.len()
    }

    /// Whether there is a node of this number.
    pub fn is_taken(&self, number: u32) -> bool
        ensures { result ≡ is_taken self.now.slots number }
    {
        !self.rows.is_empty(number)
    }

    /// The node of a number, if there is one.
    pub fn get(&self, number: u32) -> Option<NodeView<'_>>
        ensures { option_map seen result ≡ slot_at self.now.slots number }
    {
        if self.is_taken(number) {
            Some(self.node(number))
        } else {
            None
        }
    }

    /// A node that there is.
    pub fn node(&self, number: u32) -> NodeView<'_>
        requires { is_taken self.now.slots number ≡ true }
        ensures { slot_at self.now.slots number ≡ Some (seen result) }
    {
        let row = self.rows.get(number);
        row.view(number, self.names.get(row.name))
    }

    /// The folder of a node that there is.
    pub fn parent(&self, number: u32) -> u32
        requires { is_taken self.now.slots number ≡ true }
        ensures { option_map (λ row. row.parent) (slot_at self.now.slots number) ≡ Some result }
    {
        self.rows.get(number).parent
    }

    /// The name of a node that there is.
    pub fn name(&self, number: u32) -> &str
        requires { is_taken self.now.slots number ≡ true }
        ensures { option_map (λ row. row.name) (slot_at self.now.slots number) ≡ Some result.now }
    {
        self.names.get(self.rows.get(number).name)
    }

    /// Whether a node that there is is a folder.
    pub fn is_folder(&self, number: u32) -> bool
        requires { is_taken self.now.slots number ≡ true }
        ensures { option_map (λ row. row.folder) (slot_at self.now.slots number) ≡ Some result }
    {
        self.rows.get(number).is_folder()
    }

    /// The length of a node that there is.
    pub fn length(&self, number: u32) -> u64
        requires { is_taken self.now.slots number ≡ true }
        ensures { option_map (λ row. row.length) (slot_at self.now.slots number) ≡ Some result }
    {
        self.rows.get(number).length()
    }

    /// Puts a new node into the slot of its number. If there weren't as many slots, those before it are empty.
    pub fn put(&mut self, node: &NodeView<'_>)
        requires within { node.now.number < self.old.nodes }
        requires empty { is_taken self.old.slots node.now.number ≡ false }
        requires room { name_bytes (rows_of self.old.slots) + length node.now.name.now ≤ self.old.names }
        requires range { IsInRange (seen node.now) }
        ensures { self.new ≡ record self.old { slots = with_slot self.old.slots node.now.number (Some (seen node.now)) } }
    {
        let key = store(&mut self.names, node.name);
        self.rows.put(node.number, Row::of(node, key));
    }

    /// Takes a node away.
    pub fn take_away(&mut self, number: u32)
        requires { is_taken self.old.slots number ≡ true }
        ensures { self.new ≡ record self.old { slots = with_slot self.old.slots number None } }
    {
        self.names.release(self.rows.get(number).name);
        self.rows.put(number, Row::empty());
    }

    /// Sets the length of a node, in bytes, and the moment that it was modified.
    pub fn set_length(&mut self, number: u32, length: u64, moment: u64)
        requires taken { is_taken self.old.slots number ≡ true }
        requires length { length ≤ longest_file }
        requires moment { moment ≤ latest_moment }
        ensures { self.new ≡ record self.old { slots = with_change_at self.old.slots number (resized length moment) } }
    {
        let row = self.rows.get(number);
        self.rows.put(number, row.resized(length, moment));
    }

    /// Sets the moment that a node was accessed.
    pub fn set_accessed(&mut self, number: u32, moment: u64)
        requires taken { is_taken self.old.slots number ≡ true }
        requires moment { moment ≤ latest_moment }
        ensures { self.new ≡ record self.old { slots = with_change_at self.old.slots number (touched moment) } }
    {
        let row = self.rows.get(number);
        self.rows.put(number, row.touched(moment));
    }

    /// Puts a node into a folder under a name, which has room once its old name is gone.
    pub fn set_place(&mut self, number: u32, folder: u32, name: &str)
        requires taken { is_taken self.old.slots number ≡ true }
        requires room { name_bytes (rows_of (with_change_at self.old.slots number (placed folder name.now))) ≤ self.old.names }
        ensures { self.new ≡ record self.old { slots = with_change_at self.old.slots number (placed folder name.now) } }
    {
        let row = self.rows.get(number);
        self.names.release(row.name);
        let key = store(&mut self.names, name);
        self.rows.put(number, row.placed(folder, key));
    }

    /// Copies of all rows, in the order of their numbers.
    pub fn to_rows(&self, alloc: Global) -> Result<List<NodeRow>, NoMemory>
        ensures { IfOk result (λ rows. rows ≡ rows_of self.now.slots) }
    {
        let mut rows = List::new(alloc);
        for number in 0..self.len() {
            if self.is_taken(number) {
                rows.push(self.node(number).to_row(alloc)?)?;
            }
        }
        Ok(rows)
    }
}
