//! The calls that were made on a device in memory, and what they have made of its disk.

ghost use Rattle.std.specs.Prelude.{◌≡◌, ◌≤◌, ◌<◌, ◌++◌, ◌∷◌, [], true, length, slice_index_or, MatchBool, IfOk};
ghost use Rattle.fsrm_outside.specs.Contents.{parts_in, HasRoom};
ghost use Rattle.fsrm_outside.specs.Parts.{part_of};
ghost use Rattle.fsrm_outside.specs.Record.{now_of, since, valid, Stays};

use crate::calls::{Call, CallKind};
use crate::contents::Contents;
use crate::crash::{Pick, pick_image};
use crate::traits::Part;
use std::alloc::{AllocError, Global};

/// A record of all calls, and the parts that those since the last crash have made.
#[derive(Drop)]
pub struct History {
    // The parts after the last crash, and how many calls were made before it.
    start: Contents,
    begun: usize,
    parts: Contents,
    calls: Vec<Call>,
    ghost begins: { begun ≤ length calls.items },
    ghost parts_are: { parts_in parts ≡ now_of (parts_in start) (since begun calls.items) },
    ghost ranges: { valid (parts_in start) (since begun calls.items) ≡ true },
    // A crash takes no memory.
    ghost room: { HasRoom start (parts_in parts) },
}

impl History {
    ghost use Rattle.fsrm_outside.specs.Record.{kind_of};
    ghost use Rattle.fsrm_outside.specs.declared.calls.Call.{Call};
    ghost use Rattle.fsrm_outside.specs.declared.calls.Call.TheVariants.{FailedAt};
    ghost use Rattle.fsrm_outside.specs.History.{Crashed, Missed, Noted, NotedOrMissed, Stopped, Wrote};

    /// No call was made, and the parts are these, stable.
    pub fn begin(alloc: Global, zero: &[u8], one: &[u8]) -> Result<History, AllocError>
        ensures parts { IfOk result (λ h. parts_in h.parts ≡ record { zero = zero.now; one = one.now }) }
        ensures start { IfOk result (λ h. parts_in h.start ≡ record { zero = zero.now; one = one.now }) }
        ensures calls { IfOk result (λ h. h.calls.items ≡ []) }
        ensures begun { IfOk result (λ h. h.begun ≡ 0) }
    {
        Ok(History {
            start: Contents::copy_of(alloc, zero, one)?,
            begun: 0,
            parts: Contents::copy_of(alloc, zero, one)?,
            calls: Vec::new(alloc),
        })
    }

    /// How many calls were made.
    pub fn count(&self) -> usize
        ensures { result ≡ length self.now.calls.items }
    {
        self.calls.len()
    }

    /// Which function a call was one of. The first call is number 0.
    pub fn kind(&self, call: usize) -> CallKind
        requires { call < length self.now.calls.items }
        ensures { (d : Call) → result ≡ kind_of (slice_index_or self.now.calls.items call d) }
    {
        self.calls[call].kind()
    }

    /// The bytes of a part.
    pub fn part(&self, part: Part) -> &[u8]
        ensures { result.now ≡ part_of part (parts_in self.now.parts) }
    {
        self.parts.part(part)
    }

    /// Keeps a call that leaves what a read gives as it is. False: there is no memory for it, and
    /// nothing is kept.
    pub fn note(&mut self, call: Call) -> bool
        requires { Stays (parts_in self.old.parts) call }
        ensures { MatchBool result (Noted call self.old self.new) (Missed self.old self.new) }
    {
        self.calls.push(call).is_ok()
    }

    /// Writes the bytes over those of a part, and keeps the call. False: there is no memory for a longer
    /// part or for the call, and nothing is written or kept.
    pub fn write_at(&mut self, alloc: Global, part: Part, place: u64, bytes: &[u8]) -> bool
        requires { place ≤ length (part_of part (parts_in self.old.parts)) }
        ensures { MatchBool result (Wrote part place bytes.now self.old self.new) (Stopped self.old self.new) }
    {
        let at = place as usize;
        let Ok(copy) = Vec::from_slice(alloc, bytes) else {
            return false;
        };
        let end = at + bytes.len();
        if self.calls.try_reserve(1).is_err()
            || self.start.reserve(part, end).is_err()
            || self.parts.write_at(part, at, bytes).is_err()
        {
            return false;
        }
        if self.calls.push(Call::WriteAt(part, place, copy)).is_err() {
            unreachable!()
        }
        true
    }

    /// Makes the disk one of the images of this moment, stable. No call is kept, and the calls so far stay.
    pub fn crash(&mut self, pick: Pick)
        ensures { Crashed pick self.old self.new }
    {
        pick_image(
            &mut self.parts,
            &self.start,
            &self.calls[self.begun..],
            pick,
        );
        self.start.become_copy(&self.parts);
        self.begun = self.calls.len();
    }

    /// Keeps a write of so many bytes that failed, if there is memory for it.
    pub fn fail_at(&mut self, part: Part, place: u64, count: usize)
        requires { place ≤ length (part_of part (parts_in self.old.parts)) }
        ensures { NotedOrMissed (FailedAt part place count) self.old self.new }
    {
        let _ = self.note(Call::FailedAt(part, place, count));
    }
}
