//! Entries in the order of their numbers.
//!
//! An entry that goes keeps its place until another one comes or goes: mostly the next one that comes has its number, and
//! then none has to move. The functions that move entries stand apart: where LLVM sees a run alone, and that it moves by
//! one place, it makes one `memmove` of the loop.

ghost use Rattle.std.specs.Prelude.{◌≡◌, ◌-◌, ◌<◌, ◌≤◌, ◌∷◌, max, IfSome, MatchOption, OnOk, OnErr, [], Some, false, true, drop, insert, length, remove, slice_get, take};
ghost use Rattle.std.specs.Vec.{vec_capacity};
ghost use Rattle.fsrm_base.specs.Keyed.{has_row, is_ascending, with_row, without_row};
ghost use Rattle.fsrm_base.specs.Places.{IsAt};
ghost use Rattle.row_table.specs.Indexed.{AreIndexed, number_of, slot_in};
ghost use Rattle.row_table.specs.Ordered.{living, place_among, place_in};

use crate::index::Entry;
use fsrm_base::NoMemory;
use fsrm_base::places::{Key, gap, search};
use std::alloc::Global;
use std::marker::Model;

// Entries go by their numbers.
struct ByNumber;

impl Key for ByNumber {
    ghost use Rattle.row_table.specs.Indexed.{number_of};

    type Row = Entry;

    ghost key = { number_of };

    fn number(row: &Entry) -> u32 {
        row.number
    }
}

// Puts an entry before those of a run, the last of which goes.
#[inline(never)]
fn put_first(run: &mut [Entry], entry: Entry)
    requires { 0 < length run.old }
    ensures { run.new ≡ entry ∷ take (length run.old - 1) run.old }
{
    let last = run.len() - 1;
    run.copy_within(..last, 1);
    run[0] = entry;
}

// Has the first entry of a run go. What the last place has then is left open.
#[inline(never)]
fn cut_first(run: &mut [Entry])
    requires { 0 < length run.old }
    ensures rest { take (length run.old - 1) run.new ≡ drop 1 run.old }
    ensures length { length run.new ≡ length run.old }
{
    run.copy_within(1.., 0);
}

// Puts an entry in at a place. There is memory for it.
fn insert(order: &mut Vec<Entry>, place: usize, entry: Entry)
    requires place { place ≤ length order.old.items }
    requires room { length order.old.items < vec_capacity order.old }
    ensures put { order.new.items ≡ insert order.old.items place entry }
    ensures capacity { vec_capacity order.old ≤ vec_capacity order.new }
{
    order.push(entry).unwrap();
    put_first(&mut order[place..], entry);
}

// Takes the entry at a place out.
fn cut(order: &mut Vec<Entry>, place: usize)
    requires { place < length order.old.items }
    ensures rest { order.new.items ≡ remove order.old.items place }
    ensures capacity { vec_capacity order.new ≡ vec_capacity order.old }
{
    cut_first(&mut order[place..]);
    order.truncate(order.len() - 1);
}

// Has the entry that has gone keep its place no longer.
fn close(order: &mut Vec<Entry>, gone: Option<usize>)
    requires { IfSome gone (λ place. place < length order.old.items) }
    ensures rest { order.new.items ≡ living gone order.old.items }
    ensures capacity { vec_capacity order.new ≡ vec_capacity order.old }
{
    if let Some(place) = gone {
        cut(order, place);
    }
}

// Puts an entry in whose number none has. There is memory for it.
fn add(order: &mut Vec<Entry>, entry: Entry)
    requires ascending { is_ascending number_of order.old.items ≡ true }
    requires free { has_row number_of entry.number order.old.items ≡ false }
    requires room { length order.old.items < vec_capacity order.old }
    ensures put { order.new.items ≡ with_row number_of entry order.old.items }
    ensures capacity { vec_capacity order.old ≤ vec_capacity order.new }
{
    let place = gap::<ByNumber>(order, entry.number);
    insert(order, place, entry);
}

// The same if the entry at a place has gone. If that one has the number of the new one, nothing moves.
fn refill(order: &mut Vec<Entry>, place: usize, entry: Entry)
    requires ascending { is_ascending number_of order.old.items ≡ true }
    requires there { place < length order.old.items }
    requires free { has_row number_of entry.number (remove order.old.items place) ≡ false }
    requires room { length (remove order.old.items place) < vec_capacity order.old }
    ensures put { order.new.items ≡ with_row number_of entry (remove order.old.items place) }
    ensures capacity { vec_capacity order.old ≤ vec_capacity order.new }
{
    if order[place].number == entry.number {
        order[place] = entry;
        return;
    }
    cut(order, place);
    add(order, entry);
}

// Puts an entry in whose number none has of those that are there. There is memory for it.
fn put(order: &mut Vec<Entry>, gone: Option<usize>, entry: Entry)
    requires ascending { is_ascending number_of order.old.items ≡ true }
    requires there { IfSome gone (λ place. place < length order.old.items) }
    requires free { has_row number_of entry.number (living gone order.old.items) ≡ false }
    requires room { length (living gone order.old.items) < vec_capacity order.old }
    ensures put { order.new.items ≡ with_row number_of entry (living gone order.old.items) }
    ensures capacity { vec_capacity order.old ≤ vec_capacity order.new }
{
    match gone {
        Some(place) => refill(order, place, entry),
        None => add(order, entry),
    }
}

// The place of a number if, from the first one on, none is missing below it.
fn guess(order: &[Entry], number: u32) -> Option<usize>
    requires { is_ascending number_of order.now ≡ true }
    ensures { IfSome result (IsAt number_of number order.now) }
{
    let first = order.first()?;
    let place = number.wrapping_sub(first.number) as usize;
    let entry = order.get(place)?;
    if entry.number == number {
        return Some(place);
    }
    None
}

// The place of a number that is there. It is mostly as guessed, since numbers mostly follow one another.
fn find(order: &[Entry], number: u32) -> usize
    requires ascending { is_ascending number_of order.now ≡ true }
    requires there { has_row number_of number order.now ≡ true }
    ensures { IsAt number_of number order.now result }
{
    match guess(order, number) {
        Some(place) => place,
        None => search::<ByNumber>(order, number).unwrap(),
    }
}

// Where the entry at a place among those that are there stands.
fn place_in(gone: Option<usize>, place: usize) -> usize
    requires { place < 65535 }
    ensures { result ≡ place_in gone place }
{
    match gone {
        Some(gone) if gone <= place => place + 1,
        _ => place,
    }
}

// The place among those that are there of the entry that stands at a place.
fn place_among(gone: Option<usize>, place: usize) -> Option<usize>
    ensures { result ≡ place_among gone place }
{
    match gone {
        Some(gone) if gone == place => None,
        Some(gone) if gone < place => Some(place - 1),
        _ => Some(place),
    }
}

/// Entries that ascend by number. Contracts see them, and for how many there is memory.
#[derive(Drop)]
pub struct Order {
    entries: Vec<Entry>,
    // The place of an entry that has gone.
    gone: Option<usize>,
    room: u32,
}

impl Model for Order {
    ghost use Rattle.std.specs.Vec.{vec_capacity};
    ghost use Rattle.row_table.specs.Indexed.{Indexed};
    ghost use Rattle.row_table.specs.Ordered.{IsOrder, living};

    ghost Value = { Indexed };

    ghost view = { λ o. record { entries = living o.gone o.entries.items; room = o.room } };

    ghost invariant = { λ o. IsOrder o.entries.items o.gone o.room (vec_capacity o.entries) };
}

impl Order {
    /// No entries. It takes no memory.
    pub fn new(alloc: Global) -> Order
        ensures { result ≡ record { entries = []; room = 0 } }
    {
        Order {
            entries: Vec::new(alloc),
            gone: None,
            room: 0,
        }
    }

    /// Takes memory for so many entries. It fails only if there was none for as many, and then nothing has changed.
    pub fn reserve(&mut self, room: u32) -> Result<(), NoMemory>
        requires { room < 65536 }
        ensures ok { OnOk result (self.new ≡ record self.old { room = max self.old.room room }) }
        ensures err { OnErr result (self.new ≡ self.old) }
        ensures full { OnErr result (self.old.room < room) }
    {
        let more = (room as usize).saturating_sub(self.entries.len());
        self.entries.reserve(more)?;
        self.room = self.room.max(room);
        Ok(())
    }

    /// The place of a number, from 0, by halves.
    pub fn place(&self, number: u32) -> Option<usize>
        ensures { MatchOption result (has_row number_of number self.now.entries ≡ false) (IsAt number_of number self.now.entries) }
    {
        match search::<ByNumber>(&self.entries, number) {
            Ok(place) => place_among(self.gone, place),
            Err(_) => None,
        }
    }

    /// The entry at a place, from 0.
    pub fn at(&self, place: usize) -> Entry
        requires { place < length self.now.entries }
        ensures { slice_get self.now.entries place ≡ Some result }
    {
        self.entries[place_in(self.gone, place)]
    }

    /// How many there are. `kept` says how they are held.
    pub fn len(&self) -> usize
        ensures count { result ≡ length self.now.entries }
        ensures kept { AreIndexed self.now }
    {
        match self.gone {
            Some(_) => self.entries.len() - 1,
            None => self.entries.len(),
        }
    }

    /// Puts in an entry whose number none has. There is memory for it.
    pub fn insert(&mut self, entry: Entry)
        requires free { has_row number_of entry.number self.old.entries ≡ false }
        requires room { length self.old.entries < self.old.room }
        requires small { entry.slot < 65535 }
        ensures { self.new ≡ record self.old { entries = with_row number_of entry self.old.entries } }
    {
        put(&mut self.entries, self.gone, entry);
        self.gone = None;
    }

    /// Takes out the entry of a number, and answers its slot.
    pub fn remove(&mut self, number: u32) -> u16
        requires { has_row number_of number self.old.entries ≡ true }
        ensures rest { self.new ≡ record self.old { entries = without_row number_of number self.old.entries } }
        ensures slot { slot_in self.old.entries number ≡ Some result }
    {
        close(&mut self.entries, self.gone);
        let place = find(&self.entries, number);
        self.gone = Some(place);
        self.entries[place].slot
    }
}
