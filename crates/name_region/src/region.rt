//! Texts under keys that the region hands out.

ghost use Rattle.std.specs.Prelude.{◌≡◌, ◌+◌, ◌<◌, ◌≤◌, IfOk, OnOk, OnErr, IsErrOf, length, None, Some, false, true};
ghost use Rattle.name_region.specs.Contents.{fresh, is_live, live_count, text_of, used, with_text};

use crate::keys::{make_room, take_key};
use crate::log::Log;
use fsrm_base::NoMemory;
use std::alloc::Global;
use std::marker::Model;

/// Why a region stored no text.
#[derive(Clone, Copy, Debug, PartialEq, Eq)]
pub enum RegionFault {
    /// The texts would take more bytes than were reserved.
    Full,
    /// All keys are live.
    NoKey,
}

// What is reserved beyond an eighth, so that texts are gathered seldom in a small region, too.
const SPARE_BYTES: u32 = 65_536;

const SPARE_TEXTS: u32 = 1_024;

/// A reserved region of bytes, in which texts stand under keys. Contracts see how many bytes it
/// has for texts, and under each key, from 0, the text or none.
///
/// Only `reserve` takes memory: an eighth more than the bytes, and some 17 bytes for each key. Each text that is stored
/// uses its bytes of it and 12 more.
#[derive(Drop)]
pub struct Region {
    bytes: u32,
    keys: u32,
    // The bytes of all texts.
    used: u32,
    log: Log,
    // Of each key that was ever handed out, which text of the log is its own, if it has one.
    places: Vec<u32>,
    // The keys that were given back. The last one is handed out next.
    free: Vec<u32>,
}

impl Model for Region {
    ghost use Rattle.name_region.specs.Contents.{Contents};
    ghost use Rattle.name_region.specs.Kept.{IsRegion, contents_of};

    ghost Value = { Contents };

    ghost view = { λ r. contents_of r.bytes r.keys r.log };

    ghost invariant = { λ r. IsRegion r.bytes r.keys r.used r.log r.places r.free };
}

// A number with an eighth more, and some more.
fn with_spare(number: u32, more: u32) -> u32
    ensures { number ≤ result }
{
    number.saturating_add(number / 8).saturating_add(more)
}

impl Region {
    /// A region without texts, for texts of so many bytes together and for so many keys.
    pub fn reserve(alloc: Global, bytes: u32, keys: u32) -> Result<Region, NoMemory>
        ensures { IfOk result (λ region. region ≡ fresh bytes keys) }
    {
        let room = with_spare(bytes, SPARE_BYTES);
        let most = with_spare(keys, SPARE_TEXTS);
        let log = Log::reserve(alloc, room, most)?;
        let places = Vec::with_capacity(alloc, keys as usize)?;
        let free = Vec::with_capacity(alloc, keys as usize)?;
        Ok(Region {
            bytes,
            keys,
            used: 0,
            log,
            places,
            free,
        })
    }

    /// Stores a text, and answers its key, below the number of keys. Full exactly if the texts would
    /// take more bytes than were reserved, else NoKey exactly if all keys are live.
    /// It takes time for the text's length, and for all texts if they are gathered. That is done only if so much was
    /// released since the last time: an eighth of the region's bytes, an eighth of its keys, or as many bytes as all
    /// texts have.
    pub fn store(&mut self, text: &str) -> Result<u32, RegionFault>
        ensures key { IfOk result (λ key. key < length self.old.texts) }
        ensures dead { IfOk result (λ key. text_of self.old key ≡ None) }
        ensures stored { IfOk result (λ key. self.new ≡ with_text self.old key (Some text.now)) }
        ensures room { OnOk result (used self.old + length text.now ≤ self.old.bytes) }
        ensures few { OnOk result (live_count self.old < length self.old.texts) }
        ensures full { IsErrOf result RegionFault.Full → self.old.bytes < used self.old + length text.now }
        ensures no_key { IsErrOf result RegionFault.NoKey → (used self.old + length text.now ≤ self.old.bytes) × (live_count self.old ≡ length self.old.texts) }
        ensures err { OnErr result (self.new ≡ self.old) }
    {
        if text.len() > (self.bytes - self.used) as usize {
            return Err(RegionFault::Full);
        }
        if self.has_no_key() {
            return Err(RegionFault::NoKey);
        }
        make_room(&mut self.log, &mut self.places, self.used, text.len());
        let key = take_key(&mut self.free, &mut self.places);
        self.places[key as usize] = self.log.len();
        self.log.push(key, text);
        self.used += text.len() as u32;
        Ok(key)
    }

    /// The text of a live key, lent.
    pub fn get(&self, key: u32) -> &str
        requires { is_live self.now key ≡ true }
        ensures { text_of self.now key ≡ Some result.now }
    {
        self.log.text(self.places[key as usize])
    }

    /// Takes the text of a live key away. The key and the bytes can be had again.
    pub fn release(&mut self, key: u32)
        requires { is_live self.old key ≡ true }
        ensures { self.new ≡ with_text self.old key None }
    {
        let place = self.places[key as usize];
        self.used -= self.log.text(place).len() as u32;
        self.log.release(place);
        let _ = self.free.push(key);
    }

    /// The bytes of all texts.
    pub fn used(&self) -> u32
        ensures value { result ≡ used self.now }
        ensures most { result ≤ self.now.bytes }
    {
        self.used
    }

    /// Whether a key has a text.
    pub fn live(&self, key: u32) -> bool
        ensures { result ≡ is_live self.now key }
    {
        if key as usize >= self.places.len() {
            return false;
        }
        let place = self.places[key as usize];
        place < self.log.len() && self.log.key(place) == key
    }

    // Whether all keys are live.
    fn has_no_key(&self) -> bool
        ensures all { result ≡ true → live_count self.now ≡ length self.now.texts }
        ensures spare { result ≡ false → live_count self.now < length self.now.texts }
    {
        self.free.is_empty() && self.places.len() == self.keys as usize
    }
}
