//! A table whose rows stay where they are.

ghost use Rattle.std.specs.Prelude.{◌≡◌, ◌*◌, ◌<◌, ◌≤◌, ◌==◌, find, map, max, nat_le, option_map, IfSome, MatchOption, OnOk, OnErr, Some, None, [], true, false, length, slice_get, sum_by};
ghost use Rattle.std.specs.Option.{option_copied};
ghost use Rattle.fsrm_base.specs.Keyed.{has_row, least_free, row_of, with_change, with_row, without_row};
ghost use Rattle.fsrm_base.specs.Places.{IsAt};
ghost use Rattle.row_table.specs.Held.{AreHeld, Keeps};

use crate::index::{Entry, Index};
use crate::kind::{Edit, Kind, Test};
use crate::pool::Pool;
use fsrm_base::NoMemory;
use std::alloc::Global;
use std::marker::Model;

/// Rows that ascend by their numbers. Contracts see them, and for how many there is memory.
#[derive(Drop)]
pub struct Table<K: Kind> {
    index: Index,
    pool: Pool<K::Row>,
    // The bytes of all texts.
    texts: u32,
}

impl<K: Kind> Model for Table<K> {
    ghost use Rattle.row_table.specs.Held.{Held};
    ghost use Rattle.row_table.specs.Slotted.{IsTable, held_in};

    ghost Value = { Held K.Row };

    ghost view = { λ t. held_in t.index t.pool };

    ghost invariant = { λ t. IsTable K.key K.bytes K.MOST K.most_bytes t.index t.pool t.texts (held_in t.index t.pool) };
}

impl<K: Kind> Table<K> {
    /// A table without rows. It takes no memory.
    pub fn new(alloc: Global) -> Table<K>
        ensures { result ≡ record { rows = []; room = 0 } }
    {
        Table {
            index: Index::new(alloc),
            pool: Pool::new(alloc),
            texts: 0,
        }
    }

    /// Takes memory for so many rows. It fails only if there was none for as many, and then nothing has changed.
    pub fn reserve(&mut self, room: u32) -> Result<(), NoMemory>
        requires { room ≤ K.MOST }
        ensures ok { OnOk result (self.new ≡ record self.old { room = max self.old.room room }) }
        ensures err { OnErr result (self.new ≡ self.old) }
        ensures full { OnErr result (self.old.room < room) }
    {
        self.pool.reserve(room)?;
        self.index.reserve(room)
    }

    /// Puts a row in whose number none has. There is memory for it. If there is none for a note of its number, that is
    /// found by halves.
    pub fn insert(&mut self, row: K::Row)
        requires free { has_row K.key (K.key row) self.old.rows ≡ false }
        requires room { length self.old.rows < self.old.room }
        requires small { K.bytes row ≤ K.most_bytes }
        ensures { self.new ≡ record self.old { rows = with_row K.key row self.old.rows } }
    {
        let number = K::number(&row);
        self.texts += K::texts(&row);
        let slot = self.pool.put(row);
        self.index.insert(Entry { number, slot });
    }

    /// Takes out the row of a number. It takes no memory.
    pub fn remove(&mut self, number: u32) -> K::Row
        requires { has_row K.key number self.old.rows ≡ true }
        ensures rest { self.new ≡ record self.old { rows = without_row K.key number self.old.rows } }
        ensures row { row_of K.key number self.old.rows ≡ Some result }
    {
        let slot = self.index.remove(number);
        let row = self.pool.take(slot);
        self.texts -= K::texts(&row);
        row
    }

    /// Has a row and the one of its number change places. It takes no memory.
    pub fn swap(&mut self, row: &mut K::Row)
        requires there { has_row K.key (K.key row.old) self.old.rows ≡ true }
        requires small { K.bytes row.old ≤ K.most_bytes }
        ensures put { self.new ≡ record self.old { rows = with_change K.key (K.key row.old) (λ old. row.old) self.old.rows } }
        ensures taken { row_of K.key (K.key row.old) self.old.rows ≡ Some row.new }
    {
        let slot = self.index.note(K::number(row));
        let bytes = K::texts(row);
        self.pool.swap(slot, row);
        self.texts = self.texts - K::texts(row) + bytes;
    }

    /// Changes the row of a number where it stands, if there is one, and answers what the edit tells. The row's number
    /// and the bytes of its texts stay. It takes no memory.
    pub fn change<E: Edit<K::Row>>(&mut self, number: u32, edit: &E) -> Option<E::Told>
        requires may { (row : K.Row) → row_of K.key number self.old.rows ≡ Some row → E.may edit.now row }
        requires keeps { Keeps K.key K.bytes (E.edited edit.now) }
        ensures changed { self.new ≡ record self.old { rows = with_change K.key number (E.edited edit.now) self.old.rows } }
        ensures told { result ≡ option_map (E.told edit.now) (row_of K.key number self.old.rows) }
    {
        self.pool.change(self.index.note(number), edit)
    }

    /// Changes each row where it stands. Its number and the bytes of its texts stay. It takes no memory.
    pub fn change_each<E: Edit<K::Row>>(&mut self, edit: &E)
        requires may { (row : K.Row) → E.may edit.now row }
        requires keeps { Keeps K.key K.bytes (E.edited edit.now) }
        ensures { self.new ≡ record self.old { rows = map (E.edited edit.now) self.old.rows } }
    {
        self.pool.change_each(edit);
    }

    /// The row of a number. `kept` says how the rows are held.
    pub fn get(&self, number: u32) -> Option<&K::Row>
        ensures row { option_copied result ≡ row_of K.key number self.now.rows }
        ensures small { IfSome (option_copied result) (λ row. K.bytes row ≤ K.most_bytes) }
        ensures kept { AreHeld K.key K.bytes K.MOST K.most_bytes self.now }
    {
        self.pool.get(self.index.note(number))
    }

    /// Whether a row has the number.
    pub fn has(&self, number: u32) -> bool
        ensures { result ≡ has_row K.key number self.now.rows }
    {
        self.get(number).is_some()
    }

    /// How many rows there are. `kept` says how they are held.
    pub fn len(&self) -> u32
        ensures count { result ≡ length self.now.rows }
        ensures kept { AreHeld K.key K.bytes K.MOST K.most_bytes self.now }
    {
        self.index.len()
    }

    /// Whether there is no row.
    pub fn is_empty(&self) -> bool
        ensures { result ≡ (length self.now.rows == 0) }
    {
        self.len() == 0
    }

    /// Whether there are as many rows as there may be.
    pub fn is_full(&self) -> bool
        ensures { result ≡ nat_le K.MOST (length self.now.rows) }
    {
        self.len() >= K::MOST
    }

    /// The place of the row of a number, from 0, in the order of the numbers. It is found by halves.
    pub fn place(&self, number: u32) -> Option<u32>
        ensures place { MatchOption result (has_row K.key number self.now.rows ≡ false) (IsAt K.key number self.now.rows) }
        ensures few { length self.now.rows ≤ K.MOST }
    {
        self.index.place(number)
    }

    /// The row at a place, from 0, in the order of the numbers.
    pub fn at(&self, place: u32) -> &K::Row
        requires { place < length self.now.rows }
        ensures { slice_get self.now.rows place ≡ Some result.now }
    {
        self.pool.get(self.index.at(place).slot).unwrap()
    }

    /// The first row, in the order of the numbers, that passes a test. It looks at one after the other. `kept` says how
    /// the rows are held.
    pub fn find<T: Test<K::Row>>(&self, test: &T) -> Option<&K::Row>
        ensures row { option_copied result ≡ find (T.passes test.now) self.now.rows }
        ensures kept { AreHeld K.key K.bytes K.MOST K.most_bytes self.now }
    {
        for place in 0..self.len() {
            let row = self.at(place);
            if test.test(row) {
                return Some(row);
            }
        }
        None
    }

    /// The bytes of all texts. `kept` says how the rows are held.
    pub fn texts(&self) -> u32
        ensures sum { result ≡ sum_by K.bytes self.now.rows }
        ensures most { result ≤ K.MOST * K.most_bytes }
        ensures kept { AreHeld K.key K.bytes K.MOST K.most_bytes self.now }
    {
        self.texts
    }

    /// The least number that no row has. `kept` says how the rows are held.
    pub fn free_number(&self) -> u32
        ensures number { result ≡ least_free K.key self.now.rows }
        ensures kept { AreHeld K.key K.bytes K.MOST K.most_bytes self.now }
    {
        self.index.free_number()
    }
}
