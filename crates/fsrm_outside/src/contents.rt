//! The bytes of both parts of a disk, in memory.

ghost use Rattle.std.specs.Prelude.{◌≡◌, ◌+◌, ◌-◌, ◌≤◌, ◌<◌, ◌++◌, ◌∷◌, [], length, take, drop, replicate, vec_capacity, IfOk, OnOk, OnErr};
ghost use Rattle.fsrm_outside.specs.Changes.{over};
ghost use Rattle.fsrm_outside.specs.Crash.{IsFilled};

use crate::traits::Part;
use std::alloc::{AllocError, Global};

/// The bytes of both parts.
#[derive(Drop)]
pub struct Contents {
    zero: Vec<u8>,
    one: Vec<u8>,
}

impl Contents {
    ghost use Rattle.fsrm_outside.specs.Changes.{Written};
    ghost use Rattle.fsrm_outside.specs.Contents.{parts_in, room_of, HasRoom};
    ghost use Rattle.fsrm_outside.specs.Parts.{part_of, other};
    ghost use Rattle.fsrm_outside.specs.declared.traits.Part.TheVariants.{Zero, One};

    /// Copies of these bytes.
    pub fn copy_of(alloc: Global, zero: &[u8], one: &[u8]) -> Result<Contents, AllocError>
        ensures { IfOk result (λ contents. parts_in contents ≡ record { zero = zero.now; one = one.now }) }
    {
        let zero = Vec::from_slice(alloc, zero)?;
        let one = Vec::from_slice(alloc, one)?;
        Ok(Contents { zero, one })
    }

    /// Two empty parts with room for so many bytes each.
    pub fn with_room(alloc: Global, room: usize) -> Result<Contents, AllocError>
        ensures parts { IfOk result (λ contents. parts_in contents ≡ record { zero = []; one = [] }) }
        ensures zero { IfOk result (λ contents. room ≤ room_of Zero contents) }
        ensures one { IfOk result (λ contents. room ≤ room_of One contents) }
    {
        let zero = Vec::with_capacity(alloc, room)?;
        let one = Vec::with_capacity(alloc, room)?;
        Ok(Contents { zero, one })
    }

    /// The bytes of a part.
    pub fn part(&self, part: Part) -> &[u8]
        ensures { result.now ≡ part_of part (parts_in self.now) }
    {
        match part {
            Part::Zero => self.zero.as_slice(),
            Part::One => self.one.as_slice(),
        }
    }

    /// Writes the bytes over those of a part, and past its end. `AllocError`: there is no memory for a
    /// longer part, and nothing was written.
    pub fn write_at(&mut self, part: Part, place: usize, bytes: &[u8]) -> Result<(), AllocError>
        requires { place ≤ length (part_of part (parts_in self.old)) }
        ensures ok { OnOk result (parts_in self.new ≡ Written part place bytes.now (parts_in self.old)) }
        ensures err { OnErr result (parts_in self.new ≡ parts_in self.old) }
        ensures full { OnErr result (room_of part self.old < place + length bytes.now) }
        ensures zero { room_of Zero self.old ≤ room_of Zero self.new }
        ensures one { room_of One self.old ≤ room_of One self.new }
    {
        match part {
            Part::Zero => write_over(&mut self.zero, place, bytes),
            Part::One => write_over(&mut self.one, place, bytes),
        }
    }

    /// Makes room for a part of so many bytes. `AllocError`: there is no memory for it. The bytes stay as
    /// they are, and no room is given up.
    pub fn reserve(&mut self, part: Part, len: usize) -> Result<(), AllocError>
        ensures parts { parts_in self.new ≡ parts_in self.old }
        ensures room { OnOk result (len ≤ room_of part self.new) }
        ensures zero { room_of Zero self.old ≤ room_of Zero self.new }
        ensures one { room_of One self.old ≤ room_of One self.new }
    {
        match part {
            Part::Zero => make_room(&mut self.zero, len),
            Part::One => make_room(&mut self.one, len),
        }
    }

    /// Becomes a copy of others, for which there is room.
    pub fn become_copy(&mut self, other: &Contents)
        requires { HasRoom self.old (parts_in other.now) }
        ensures parts { parts_in self.new ≡ parts_in other.now }
        ensures zero { room_of Zero self.old ≤ room_of Zero self.new }
        ensures one { room_of One self.old ≤ room_of One self.new }
    {
        become_bytes(&mut self.zero, &other.zero);
        become_bytes(&mut self.one, &other.one);
    }

    /// Makes each byte of a range this one, up to the part's end.
    pub fn fill(&mut self, part: Part, place: u64, count: usize, byte: u8)
        ensures filled { IsFilled byte ((place, count) ∷ []) (part_of part (parts_in self.old)) (part_of part (parts_in self.new)) }
        ensures other { part_of (other part) (parts_in self.new) ≡ part_of (other part) (parts_in self.old) }
    {
        match part {
            Part::Zero => fill_bytes(&mut self.zero, place, count, byte),
            Part::One => fill_bytes(&mut self.one, place, count, byte),
        }
    }
}

fn fill_bytes(bytes: &mut [u8], place: u64, count: usize, byte: u8)
    ensures { IsFilled byte ((place, count) ∷ []) bytes.old bytes.new }
{
    let start = (place as usize).min(bytes.len());
    let end = bytes.len().min(start.saturating_add(count));
    bytes[start..end].fill(byte);
}

fn make_room(bytes: &mut Vec<u8>, len: usize) -> Result<(), AllocError>
    ensures bytes { bytes.new.items ≡ bytes.old.items }
    ensures room { OnOk result (len ≤ vec_capacity bytes.new) }
    ensures more { vec_capacity bytes.old ≤ vec_capacity bytes.new }
{
    bytes.try_reserve(len.saturating_sub(bytes.len()))
}

fn become_bytes(bytes: &mut Vec<u8>, other: &[u8])
    requires { length other.now ≤ vec_capacity bytes.old }
    ensures bytes { bytes.new.items ≡ other.now }
    ensures room { vec_capacity bytes.old ≤ vec_capacity bytes.new }
{
    bytes.clear();
    if bytes.extend_from_slice(other).is_err() {
        unreachable!()
    }
}

// Adds zeros up to a length, if there are fewer bytes.
fn lengthen(old: &mut Vec<u8>, len: usize) -> Result<(), AllocError>
    ensures ok { OnOk result (old.new.items ≡ old.old.items ++ replicate (len - length old.old.items) 0) }
    ensures err { OnErr result (old.new.items ≡ old.old.items) }
    ensures full { OnErr result (vec_capacity old.old < len) }
    ensures more { vec_capacity old.old ≤ vec_capacity old.new }
{
    if len > old.len() {
        old.resize(len, 0)?;
    }
    Ok(())
}

fn write_over(old: &mut Vec<u8>, place: usize, bytes: &[u8]) -> Result<(), AllocError>
    requires { place ≤ length old.old.items }
    ensures ok { OnOk result (old.new.items ≡ over place bytes.now old.old.items) }
    ensures err { OnErr result (old.new.items ≡ old.old.items) }
    ensures full { OnErr result (vec_capacity old.old < place + length bytes.now) }
    ensures more { vec_capacity old.old ≤ vec_capacity old.new }
{
    let end = place + bytes.len();
    lengthen(old, end)?;
    old[place..end].copy_from_slice(bytes);
    Ok(())
}

/// Fills the buffer from a place of these bytes on, up to their end, and answers how many these are.
pub fn fill_from(bytes: &[u8], place: u64, into: &mut [u8]) -> usize
    ensures count { result ≤ length into.new }
    ensures bytes { take result into.new ≡ take (length into.old) (drop place bytes.now) }
{
    let start = (place as usize).min(bytes.len());
    let rest = &bytes[start..];
    let count = rest.len().min(into.len());
    into[..count].copy_from_slice(&rest[..count]);
    count
}
