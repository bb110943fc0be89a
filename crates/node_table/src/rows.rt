//! Rows in slots.

ghost use Rattle.std.specs.Prelude.{◌≡◌, ◌<◌, ◌≤◌, [], IfOk, false, length};
ghost use Rattle.std.specs.Vec.{vec_capacity};
ghost use Rattle.node_table.specs.Rows.{empty_row, is_empty, row_at};
ghost use Rattle.node_table.specs.Slots.{with_at};

use crate::row::Row;
use fsrm_base::NoMemory;
use std::alloc::Global;
use std::marker::Model;

/// Rows in slots, in memory that is reserved once. Contracts see how many slots there may be, and the rows; past the
/// last one all slots are empty.
#[derive(Drop)]
pub struct Rows {
    room: u32,
    rows: Vec<Row>,
}

impl Model for Rows {
    ghost use Rattle.std.specs.Prelude.{◌<◌, ◌≤◌, length};
    ghost use Rattle.std.specs.Vec.{vec_capacity};
    ghost use Rattle.node_table.specs.Rows.{AreRows, Slotted};

    ghost Value = { Slotted };

    ghost view = { λ r. record { room = r.room; rows = r.rows.items } };

    ghost invariant = { λ r. AreRows r.room r.rows };
}

// Puts a row into a slot. It fills the slots before it that there were not with empty rows.
fn put_at(rows: &mut Vec<Row>, place: usize, row: Row)
    requires { place < vec_capacity rows.old }
    ensures rows { rows.new.items ≡ with_at empty_row rows.old.items place row }
    ensures capacity { vec_capacity rows.old ≤ vec_capacity rows.new }
{
    while rows.len() <= place {
        let _ = rows.push(Row::empty());
    }
    rows[place] = row;
}

impl Rows {
    /// No rows, and room for so many slots.
    pub fn reserve(alloc: Global, room: u32) -> Result<Rows, NoMemory>
        ensures { IfOk result (λ rows. rows ≡ record { room = room; rows = [] }) }
    {
        let rows = Vec::with_capacity(alloc, room as usize)?;
        Ok(Rows { room, rows })
    }

    /// How many slots there are, up to the last row that was put.
    pub fn len(&self) -> u32
        ensures len { result ≡ length self.now.rows }
        ensures most { result ≤ self.now.room }
    {
        self.rows.len() as u32
    }

    /// Whether a slot is empty.
    pub fn is_empty(&self, number: u32) -> bool
        ensures { result ≡ is_empty (row_at self.now.rows number) }
    {
        match self.rows.get(number as usize) {
            Some(row) => row.is_empty(),
            None => true,
        }
    }

    /// The row in a slot that isn't empty.
    pub fn get(&self, number: u32) -> Row
        requires { is_empty (row_at self.now.rows number) ≡ false }
        ensures { result ≡ row_at self.now.rows number }
    {
        self.rows[number as usize]
    }

    /// Puts a row into a slot.
    pub fn put(&mut self, number: u32, row: Row)
        requires { number < self.old.room }
        ensures { self.new ≡ record self.old { rows = with_at empty_row self.old.rows number row } }
    {
        put_at(&mut self.rows, number as usize, row);
    }
}
