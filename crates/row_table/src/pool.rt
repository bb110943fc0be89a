//! Slots for rows, which stay where they are.

ghost use Rattle.std.specs.Prelude.{◌≡◌, ◌+◌, ◌<◌, ◌≤◌, max, map, OnOk, OnErr, [], IsSome, Some, None, length, option_map};
ghost use Rattle.std.specs.Option.{option_copied};
ghost use Rattle.row_table.specs.Pooled.{Puts, in_slot};

use crate::kind::Edit;
use fsrm_base::NoMemory;
use std::alloc::Global;
use std::marker::Model;
use std::mem;

// Changes the row of a slot, if it has one.
fn edit_slot<R, E: Edit<R>>(slot: &mut Option<R>, edit: &E) -> Option<E::Told>
    requires { (row : R) → slot.old ≡ Some row → E.may edit.now row }
    ensures edited { slot.new ≡ option_map (E.edited edit.now) slot.old }
    ensures told { result ≡ option_map (E.told edit.now) slot.old }
{
    match slot {
        Some(row) => Some(edit.edit(row)),
        None => None,
    }
}

// Changes the rows of all slots.
fn edit_slots<R, E: Edit<R>>(slots: &mut [Option<R>], edit: &E)
    requires { (row : R) → E.may edit.now row }
    ensures { slots.new ≡ map (option_map (E.edited edit.now)) slots.old }
{
    for slot in 0..slots.len() {
        edit_slot(&mut slots[slot], edit);
    }
}

/// Slots for rows. Contracts see what each has, how many have a row, and for how many rows there is memory.
#[derive(Drop)]
pub struct Pool<R> {
    slots: Vec<Option<R>>,
    // The slots without a row.
    free: Vec<u16>,
    room: u32,
}

impl<R> Model for Pool<R> {
    ghost use Rattle.std.specs.Prelude.{◌-◌, length};
    ghost use Rattle.std.specs.Vec.{vec_capacity};
    ghost use Rattle.row_table.specs.Pooled.{Pooled, IsPool};

    ghost Value = { Pooled R };

    ghost view = { λ p. record { slots = p.slots.items; held = length p.slots.items - length p.free.items; room = p.room } };

    ghost invariant = { λ p. IsPool p.slots.items p.free.items p.room (vec_capacity p.slots) (vec_capacity p.free) };
}

impl<R: Drop> Pool<R> {
    /// No rows. It takes no memory.
    pub fn new(alloc: Global) -> Pool<R>
        ensures { result ≡ record { slots = []; held = 0; room = 0 } }
    {
        Pool {
            slots: Vec::new(alloc),
            free: Vec::new(alloc),
            room: 0,
        }
    }

    /// Takes memory for so many rows. It fails only if there was none for as many, and then nothing has changed.
    pub fn reserve(&mut self, room: u32) -> Result<(), NoMemory>
        requires { room < 65536 }
        ensures ok { OnOk result (self.new ≡ record self.old { room = max self.old.room room }) }
        ensures err { OnErr result (self.new ≡ self.old) }
        ensures full { OnErr result (self.old.room < room) }
    {
        let slots = (room as usize).saturating_sub(self.slots.len());
        let free = (room as usize).saturating_sub(self.free.len());
        self.slots.reserve(slots)?;
        self.free.reserve(free)?;
        self.room = self.room.max(room);
        Ok(())
    }

    /// Puts a row into a slot that has none, which is the answer.
    pub fn put(&mut self, row: R) -> u16
        requires { self.old.held < self.old.room }
        ensures free { in_slot self.old.slots result ≡ None }
        ensures put { Puts self.old.slots self.new.slots result (Some row) }
        ensures held { self.new.held ≡ self.old.held + 1 }
        ensures room { self.new.room ≡ self.old.room }
        ensures small { result < 65535 }
    {
        match self.free.pop() {
            Some(slot) => {
                self.slots[slot as usize] = Some(row);
                slot
            }
            None => {
                let slot = self.slots.len() as u16;
                self.slots.push(Some(row)).unwrap();
                slot
            }
        }
    }

    /// Takes the row of a slot out.
    pub fn take(&mut self, slot: u16) -> R
        requires there { IsSome (in_slot self.old.slots slot) }
        requires some { 0 < self.old.held }
        ensures row { in_slot self.old.slots slot ≡ Some result }
        ensures taken { Puts self.old.slots self.new.slots slot None }
        ensures held { self.new.held + 1 ≡ self.old.held }
        ensures room { self.new.room ≡ self.old.room }
    {
        let row = self.slots[slot as usize].take().unwrap();
        self.free.push(slot).unwrap();
        row
    }

    /// Has a row and that of a slot change places.
    pub fn swap(&mut self, slot: u16, row: &mut R)
        requires { IsSome (in_slot self.old.slots slot) }
        ensures put { Puts self.old.slots self.new.slots slot (Some row.old) }
        ensures taken { in_slot self.old.slots slot ≡ Some row.new }
        ensures held { self.new.held ≡ self.old.held }
        ensures room { self.new.room ≡ self.old.room }
    {
        let held = self.slots[slot as usize].as_mut().unwrap();
        mem::swap(held, row);
    }

    /// Changes the row of a slot where it stands, if it has one, and answers what the edit tells.
    pub fn change<E: Edit<R>>(&mut self, slot: u16, edit: &E) -> Option<E::Told>
        requires { (row : R) → slot < 65535 → in_slot self.old.slots slot ≡ Some row → E.may edit.now row }
        ensures put { Puts self.old.slots self.new.slots slot (option_map (E.edited edit.now) (in_slot self.old.slots slot)) }
        ensures held { self.new.held ≡ self.old.held }
        ensures room { self.new.room ≡ self.old.room }
        ensures told { result ≡ option_map (E.told edit.now) (in_slot self.old.slots slot) }
        ensures few { length self.old.slots < 65536 }
    {
        if (slot as usize) < self.slots.len() {
            return edit_slot(&mut self.slots[slot as usize], edit);
        }
        None
    }

    /// Changes each row where it stands.
    pub fn change_each<E: Edit<R>>(&mut self, edit: &E)
        requires { (row : R) → E.may edit.now row }
        ensures { self.new ≡ record self.old { slots = map (option_map (E.edited edit.now)) self.old.slots } }
    {
        edit_slots(&mut self.slots, edit);
    }

    /// The row of a slot.
    pub fn get(&self, slot: u16) -> Option<&R>
        ensures row { option_copied result ≡ in_slot self.now.slots slot }
        ensures few { length self.now.slots < 65536 }
    {
        if (slot as usize) < self.slots.len() {
            return self.slots[slot as usize].as_ref();
        }
        None
    }
}
