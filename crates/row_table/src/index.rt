//! Which number has which slot.

ghost use Rattle.std.specs.Prelude.{◌≡◌, ◌<◌, ◌≤◌, max, nat_lt, MatchOption, OnOk, OnErr, [], true, false, length, slice_get, Some};
ghost use Rattle.std.specs.List.{list_all};
ghost use Rattle.fsrm_base.specs.Keyed.{has_row, is_ascending, least_free, row_of, with_row, without_row};
ghost use Rattle.fsrm_base.specs.Places.{IsAt};
ghost use Rattle.row_table.specs.Indexed.{AreIndexed, noted, number_of, slot_in};

use crate::notes::{NO_SLOT, cover, write};
use crate::order::Order;
use fsrm_base::NoMemory;
use std::alloc::Global;
use std::marker::Model;

// A number below this one has a note, so long as there is memory for it, and no volume has more nodes. So at most
// 2 MB of notes are written, and since they grow by doubling, less than twice that is taken for them.
const NOTED: u32 = 1_048_576;

/// The slot of a number.
#[derive(Clone, Copy)]
pub struct Entry {
    pub number: u32,
    pub slot: u16,
}

/// Numbers, each with its slot. Contracts see them as entries that ascend by number, and for how many there is memory.
#[derive(Drop)]
pub struct Index {
    order: Order,
    notes: Vec<u16>,
    // The numbers from here on have no notes.
    bound: u32,
}

impl Model for Index {
    ghost use Rattle.row_table.specs.Indexed.{Indexed, IsIndex};

    ghost Value = { Indexed };

    ghost view = { λ i. i.order };

    ghost invariant = { λ i. IsIndex i.order i.notes.items i.bound };
}

impl Index {
    /// An index without numbers. It takes no memory.
    pub fn new(alloc: Global) -> Index
        ensures { result ≡ record { entries = []; room = 0 } }
    {
        Index {
            order: Order::new(alloc),
            notes: Vec::new(alloc),
            bound: NOTED,
        }
    }

    /// Takes memory for so many entries. It fails only if there was none for as many, and then nothing has changed.
    pub fn reserve(&mut self, room: u32) -> Result<(), NoMemory>
        requires { room < 65536 }
        ensures ok { OnOk result (self.new ≡ record self.old { room = max self.old.room room }) }
        ensures err { OnErr result (self.new ≡ self.old) }
        ensures full { OnErr result (self.old.room < room) }
    {
        self.order.reserve(room)
    }

    /// What is noted of a number: its slot, or `NO_SLOT` if it isn't there.
    pub fn note(&self, number: u32) -> u16
        ensures { result ≡ noted (row_of number_of number self.now.entries) }
    {
        if (number as usize) < self.notes.len() {
            return self.notes[number as usize];
        }
        if number < self.bound {
            return NO_SLOT;
        }
        self.searched(number)
    }

    // The same by halves. It stands apart, since hardly a number has no note, so that what looks at notes is short enough
    // to be inlined.
    #[inline(never)]
    fn searched(&self, number: u32) -> u16
        ensures { result ≡ noted (row_of number_of number self.now.entries) }
    {
        match self.order.place(number) {
            Some(place) => self.order.at(place).slot,
            None => NO_SLOT,
        }
    }

    /// The place of a number, from 0, by halves.
    pub fn place(&self, number: u32) -> Option<u32>
        ensures { MatchOption result (has_row number_of number self.now.entries ≡ false) (IsAt number_of number self.now.entries) }
    {
        match self.order.place(number) {
            Some(place) => Some(place as u32),
            None => None,
        }
    }

    /// Puts in a number that isn't there. There is memory for its entry; if there is none for its note, it is found by
    /// halves.
    pub fn insert(&mut self, entry: Entry)
        requires free { has_row number_of entry.number self.old.entries ≡ false }
        requires room { length self.old.entries < self.old.room }
        requires small { entry.slot < 65535 }
        ensures { self.new ≡ record self.old { entries = with_row number_of entry self.old.entries } }
    {
        self.bound = cover(&mut self.notes, entry.number, self.bound);
        self.order.insert(entry);
        write(&mut self.notes, entry.number, entry.slot);
    }

    /// Takes a number out that is there, and answers its slot.
    pub fn remove(&mut self, number: u32) -> u16
        requires { has_row number_of number self.old.entries ≡ true }
        ensures rest { self.new ≡ record self.old { entries = without_row number_of number self.old.entries } }
        ensures slot { slot_in self.old.entries number ≡ Some result }
    {
        write(&mut self.notes, number, NO_SLOT);
        self.order.remove(number)
    }

    /// The entry at a place, from 0, in the order of the numbers.
    pub fn at(&self, place: u32) -> Entry
        requires { place < length self.now.entries }
        ensures { slice_get self.now.entries place ≡ Some result }
    {
        self.order.at(place as usize)
    }

    /// How many numbers there are. `kept` says how they are held.
    pub fn len(&self) -> u32
        ensures count { result ≡ length self.now.entries }
        ensures kept { AreIndexed self.now }
    {
        self.order.len() as u32
    }

    /// The least number that isn't there.
    pub fn free_number(&self) -> u32
        ensures { result ≡ least_free number_of self.now.entries }
    {
        let count = self.len();
        for place in 0..count {
            if self.at(place).number != place {
                return place;
            }
        }
        count
    }
}
