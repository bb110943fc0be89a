//! Texts one after another.

ghost use Rattle.std.specs.Prelude.{◌≡◌, ◌+◌, ◌-◌, ◌<◌, ◌≤◌, ◌++◌, ◌∷◌, [], true, IfOk, drop, filter, length, take};
ghost use Rattle.std.specs.List.{slice_set, sum_by};
ghost use Rattle.std.specs.Str.{IsUtf8};
ghost use Rattle.name_region.specs.Log.{end_of, is_kept, no_key, stored_at, text_len};

use crate::gather::gather_texts;
use fsrm_base::NoMemory;
use std::alloc::Global;
use std::marker::Model;
use std::str::from_utf8_unchecked;

/// The key of a text that was released.
pub const NO_KEY: u32 = u32::MAX;

/// The key of a text in a log, and where it ends. It begins where the one before it ends.
#[derive(Clone, Copy)]
pub struct Record {
    pub key: u32,
    pub end: u32,
}

/// Texts under keys, in the order in which they came, in memory that is reserved once. Contracts see how many bytes and
/// how many texts there may be, and the texts.
#[derive(Drop)]
pub struct Log {
    room: u32,
    most: u32,
    records: Vec<Record>,
    block: Vec<u8>,
}

impl Model for Log {
    ghost use Rattle.name_region.specs.Log.{IsLog, Written, stored_in};

    ghost Value = { Written };

    ghost view = { λ l. record { room = l.room; most = l.most; stored = stored_in 0 l.records.items l.block.items } };

    ghost invariant = { λ l. IsLog l.room l.most l.records l.block };
}

// Where a text begins.
fn start_of(records: &Vec<Record>, index: u32) -> u32
    requires { index < length records.now.items }
    ensures { result ≡ end_of 0 (take index records.now.items) }
{
    match index.checked_sub(1) {
        Some(before) => records[before as usize].end,
        None => 0,
    }
}

// The text between two places of a block.
fn text_in(block: &[u8], start: usize, end: usize) -> &str
    requires order { start ≤ end }
    requires within { end ≤ length block.now }
    requires utf8 { IsUtf8 (take (end - start) (drop start block.now)) }
    ensures { result.now ≡ take (end - start) (drop start block.now) }
{
    unsafe { from_utf8_unchecked(&block[start..end]) }
}

impl Log {
    /// No text, and room for so many bytes and so many texts.
    pub fn reserve(alloc: Global, room: u32, most: u32) -> Result<Log, NoMemory>
        ensures { IfOk result (λ log. log ≡ record { room = room; most = most; stored = [] }) }
    {
        let records = Vec::with_capacity(alloc, most as usize)?;
        let block = Vec::with_capacity(alloc, room as usize)?;
        Ok(Log {
            room,
            most,
            records,
            block,
        })
    }

    /// How many texts there are, with those that were released.
    pub fn len(&self) -> u32
        ensures len { result ≡ length self.now.stored }
        ensures most { result ≤ self.now.most }
    {
        self.records.len() as u32
    }

    /// The bytes of all texts, with those that were released.
    pub fn size(&self) -> u32
        ensures { result ≡ sum_by text_len self.now.stored }
    {
        self.block.len() as u32
    }

    /// Whether another text of so many bytes has room.
    pub fn has_room(&self, bytes: usize) -> bool
        ensures room { result ≡ true → sum_by text_len self.now.stored + bytes ≤ self.now.room }
        ensures most { result ≡ true → length self.now.stored < self.now.most }
    {
        self.records.len() < self.most as usize && bytes <= self.room as usize - self.block.len()
    }

    /// The key of a text.
    pub fn key(&self, index: u32) -> u32
        requires { index < length self.now.stored }
        ensures { result ≡ (stored_at self.now.stored index).key }
    {
        self.records[index as usize].key
    }

    /// A text, lent.
    pub fn text(&self, index: u32) -> &str
        requires { index < length self.now.stored }
        ensures { result.now ≡ (stored_at self.now.stored index).text }
    {
        let start = start_of(&self.records, index) as usize;
        let end = self.records[index as usize].end as usize;
        text_in(&self.block, start, end)
    }

    /// Adds a text.
    pub fn push(&mut self, key: u32, text: &str)
        requires room { sum_by text_len self.old.stored + length text.now ≤ self.old.room }
        requires most { length self.old.stored < self.old.most }
        ensures { self.new ≡ record self.old { stored = self.old.stored ++ record { key = key; text = text.now } ∷ [] } }
    {
        let _ = self.block.extend_from_slice(text.as_bytes());
        let end = self.block.len() as u32;
        let _ = self.records.push(Record { key, end });
    }

    /// Releases a text. Its bytes stay until the texts are gathered.
    pub fn release(&mut self, index: u32)
        requires { index < length self.old.stored }
        ensures { self.new ≡ record self.old { stored = slice_set self.old.stored index (record (stored_at self.old.stored index) { key = no_key }) } }
    {
        let place = index as usize;
        let end = self.records[place].end;
        self.records[place] = Record { key: NO_KEY, end };
    }

    /// Slides the texts down that weren't released. No others are left.
    pub fn gather(&mut self)
        ensures { self.new ≡ record self.old { stored = filter is_kept self.old.stored } }
    {
        gather_texts(&mut self.records, &mut self.block);
    }
}
