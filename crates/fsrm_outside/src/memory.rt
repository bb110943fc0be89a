//! A source, a sink and a disk in memory, which fail when they are told to.

ghost use Rattle.std.specs.Prelude.{◌≡◌, ◌⊎◌, ◌+◌, ◌-◌, ◌≤◌, ◌<◌, ◌↔◌, ℕ, List, [], min, true, false, None, Some, IfOk, OnErr, OnOk, IsErr, IsTrue, MatchBool, Contains, take, drop, reverse, length, slice_index_or, ◌++◌, vec_len};
ghost use Rattle.fsrm_outside.specs.Causes.{Rose};
ghost use Rattle.fsrm_outside.specs.Contents.{parts_in};
ghost use Rattle.fsrm_outside.specs.History.{Crashed, Missed, Noted, NotedOrMissed, NotedShown, NotedUnshown, Stopped};
ghost use Rattle.fsrm_outside.specs.Plan.{IsFrom};
ghost use Rattle.fsrm_outside.specs.Record.{text_of, Stays};

use crate::calls::{Call, CallKind};
use crate::history::History;
use crate::{Failed, Part, Pick, Sink, Source};
use fsrm_base::NoMemory;
use std::alloc::Global;

mod disk;

/// A script to read, a record of what was shown, and a disk with what a crash may leave of it.
///
/// Its calls, those of its three traits together, are numbered from 1. A call whose number is among those to
/// fail fails, and from the call on at which it was told to stop, all do. So does one on more than 2^62 bytes of a
/// part, and one for which there is no memory. Every other call succeeds. Failed reads, writes and calls of the
/// disk are counted, each up to `u64::MAX`.
///
/// A call that failed has a number too. Only if there is no memory for its place in the record, it has none: it is
/// counted as failed alone, the next call takes the number, and the images of the disk stay as they were. An image may
/// be as long as the range of a failed write reaches, since that may have grown the part.
///
/// It keeps all that was written: it is made for tests, and grows with every call.
#[derive(Drop)]
pub struct MemoryOutside {
    alloc: Global,
    script: Vec<u8>,
    place: usize,
    piece: usize,
    shown: Vec<u8>,
    history: History,
    fail: Vec<u64>,
    stop: Option<u64>,
    read_faults: u64,
    write_faults: u64,
    disk_faults: u64,
    lacked: u64,
    ghost within: { place ≤ vec_len script },
    ghost some: { 0 < piece },
    ghost told: { shown.items ≡ text_of (reverse history.calls.items) },
}

impl MemoryOutside {
    ghost use Rattle.fsrm_outside.specs.Plan.{FailsNext};
    ghost use Rattle.fsrm_outside.specs.MemoryOutside.{calls_of, images_of, parts_of, plan_of, time_of};
    ghost use Rattle.fsrm_outside.specs.Parts.{Parts, part_of};
    ghost use Rattle.fsrm_outside.specs.Record.{kind_of};
    ghost use Rattle.fsrm_outside.specs.declared.calls.Call.{Call};

    /// Has the whole script left, has shown nothing, and has two empty parts. `fail` has the numbers of the
    /// calls that are to fail, in any order. `NoMemory`: there is no memory for a copy of either.
    pub fn new(alloc: Global, script: &[u8], fail: &[u64]) -> Result<MemoryOutside, NoMemory>
        ensures left { IfOk result (λ o. ⟦<MemoryOutside as Source>⟧.left o ≡ Some script.now) }
        ensures shown { IfOk result (λ o. ⟦<MemoryOutside as Sink>⟧.shown o ≡ Some []) }
        ensures parts { IfOk result (λ o. parts_of o ≡ record { zero = []; one = [] }) }
        ensures stable { (image : Parts) → IfOk result (λ o. images_of o 0 image → image ≡ parts_of o) }
        ensures read_faults { IfOk result (λ o. ⟦<MemoryOutside as Source>⟧.read_faults o ≡ 0) }
        ensures write_faults { IfOk result (λ o. ⟦<MemoryOutside as Sink>⟧.write_faults o ≡ 0) }
        ensures disk_faults { IfOk result (λ o. o.disk_faults ≡ 0) }
        ensures plan { IfOk result (λ o.
            plan_of o ≡ record { fail = fail.now; stop = None; calls = 0; piece = usize.MAX; lacked = 0 }) }
    {
        MemoryOutside::with_parts(alloc, [].as_slice(), [].as_slice(), script, fail)
    }

    /// The same with these parts, stable. `NoMemory`: there is no memory for a copy of all.
    pub fn with_parts(
        alloc: Global,
        zero: &[u8],
        one: &[u8],
        script: &[u8],
        fail: &[u64],
    ) -> Result<MemoryOutside, NoMemory>
        ensures left { IfOk result (λ o. ⟦<MemoryOutside as Source>⟧.left o ≡ Some script.now) }
        ensures shown { IfOk result (λ o. ⟦<MemoryOutside as Sink>⟧.shown o ≡ Some []) }
        ensures parts { IfOk result (λ o. parts_of o ≡ record { zero = zero.now; one = one.now }) }
        ensures stable { (image : Parts) → IfOk result (λ o. images_of o 0 image → image ≡ parts_of o) }
        ensures read_faults { IfOk result (λ o. ⟦<MemoryOutside as Source>⟧.read_faults o ≡ 0) }
        ensures write_faults { IfOk result (λ o. ⟦<MemoryOutside as Sink>⟧.write_faults o ≡ 0) }
        ensures disk_faults { IfOk result (λ o. o.disk_faults ≡ 0) }
        ensures plan { IfOk result (λ o.
            plan_of o ≡ record { fail = fail.now; stop = None; calls = 0; piece = usize.MAX; lacked = 0 }) }
    {
        Ok(MemoryOutside {
            alloc,
            script: Vec::from_slice(alloc, script)?,
            place: 0,
            piece: usize::MAX,
            shown: Vec::new(alloc),
            history: History::begin(alloc, zero, one)?,
            fail: Vec::from_slice(alloc, fail)?,
            stop: None,
            read_faults: 0,
            write_faults: 0,
            disk_faults: 0,
            lacked: 0,
        })
    }

    /// From here on a read gives at most `bytes` bytes. Before the first such call it gives as many
    /// as there are and as there is room for.
    pub fn set_piece(&mut self, bytes: usize)
        requires { 1 ≤ bytes }
        ensures left { ⟦<MemoryOutside as Source>⟧.left self.new
            ≡ ⟦<MemoryOutside as Source>⟧.left self.old }
        ensures shown { ⟦<MemoryOutside as Sink>⟧.shown self.new
            ≡ ⟦<MemoryOutside as Sink>⟧.shown self.old }
        ensures parts { parts_of self.new ≡ parts_of self.old }
        ensures images { (m : ℕ) (image : Parts) → images_of self.new m image ↔ images_of self.old m image }
        ensures read_faults { ⟦<MemoryOutside as Source>⟧.read_faults self.new
            ≡ ⟦<MemoryOutside as Source>⟧.read_faults self.old }
        ensures write_faults { ⟦<MemoryOutside as Sink>⟧.write_faults self.new
            ≡ ⟦<MemoryOutside as Sink>⟧.write_faults self.old }
        ensures disk_faults { self.new.disk_faults ≡ self.old.disk_faults }
        ensures plan { plan_of self.new ≡ record (plan_of self.old) { piece = bytes } }
    {
        self.piece = bytes;
    }

    /// From the call of this number on, all fail, as if the machine had stopped there, until `crash`.
    pub fn stop_at(&mut self, call: u64)
        ensures left { ⟦<MemoryOutside as Source>⟧.left self.new
            ≡ ⟦<MemoryOutside as Source>⟧.left self.old }
        ensures shown { ⟦<MemoryOutside as Sink>⟧.shown self.new
            ≡ ⟦<MemoryOutside as Sink>⟧.shown self.old }
        ensures parts { parts_of self.new ≡ parts_of self.old }
        ensures images { (m : ℕ) (image : Parts) → images_of self.new m image ↔ images_of self.old m image }
        ensures read_faults { ⟦<MemoryOutside as Source>⟧.read_faults self.new
            ≡ ⟦<MemoryOutside as Source>⟧.read_faults self.old }
        ensures write_faults { ⟦<MemoryOutside as Sink>⟧.write_faults self.new
            ≡ ⟦<MemoryOutside as Sink>⟧.write_faults self.old }
        ensures disk_faults { self.new.disk_faults ≡ self.old.disk_faults }
        ensures plan { plan_of self.new ≡ record (plan_of self.old) { stop = Some call } }
    {
        self.stop = Some(call);
    }

    /// Makes the disk one of the images that a crash at this moment may leave, stable, and lifts `stop_at`. It is no
    /// call, and what is left to read, what was shown and the counts stay.
    pub fn crash(&mut self, pick: Pick)
        ensures disk { Crashed pick self.old.history self.new.history }
        ensures stable { (image : Parts) → images_of self.new (time_of self.new) image → image ≡ parts_of self.new }
        ensures left { ⟦<MemoryOutside as Source>⟧.left self.new
            ≡ ⟦<MemoryOutside as Source>⟧.left self.old }
        ensures shown { ⟦<MemoryOutside as Sink>⟧.shown self.new
            ≡ ⟦<MemoryOutside as Sink>⟧.shown self.old }
        ensures read_faults { ⟦<MemoryOutside as Source>⟧.read_faults self.new
            ≡ ⟦<MemoryOutside as Source>⟧.read_faults self.old }
        ensures write_faults { ⟦<MemoryOutside as Sink>⟧.write_faults self.new
            ≡ ⟦<MemoryOutside as Sink>⟧.write_faults self.old }
        ensures disk_faults { self.new.disk_faults ≡ self.old.disk_faults }
        ensures plan { plan_of self.new ≡ record (plan_of self.old) { stop = None } }
    {
        self.history.crash(pick);
        self.stop = None;
    }

    /// The bytes shown so far.
    pub fn shown(&self) -> &[u8]
        ensures { ⟦<MemoryOutside as Sink>⟧.shown self.now ≡ Some result.now }
    {
        self.shown.as_slice()
    }

    /// What a read gives of a part.
    pub fn part(&self, part: Part) -> &[u8]
        ensures { result.now ≡ part_of part (parts_of self.now) }
    {
        self.history.part(part)
    }

    /// How many calls were made, which is the number of the last one.
    pub fn calls(&self) -> u64
        ensures { result ≡ time_of self.now }
    {
        self.history.count() as u64
    }

    /// Of which function the call of this number was one.
    pub fn kind(&self, call: u64) -> CallKind
        requires some { 1 ≤ call }
        requires made { call ≤ time_of self.now }
        ensures { (d : Call) → result ≡ kind_of (slice_index_or (calls_of self.now) (call - 1) d) }
    {
        self.history.kind((call - 1) as usize)
    }

    /// How many writes, of the output and of the disk, were not told to fail and failed for want of memory, up to
    /// `u64::MAX`.
    pub fn lacked(&self) -> u64
        ensures { result ≡ (plan_of self.now).lacked }
    {
        self.lacked
    }

    // Whether the next call is to fail.
    fn fails_next(&self) -> bool
        ensures { IsTrue result ↔ FailsNext (plan_of self.now) }
    {
        let call = self.history.count() as u64 + 1;
        is_among(&self.fail, call) || is_from(self.stop, call)
    }
}

fn is_among(numbers: &[u64], number: u64) -> bool
    ensures { IsTrue result ↔ Contains numbers.now number }
{
    numbers.contains(&number)
}

fn is_from(stop: Option<u64>, call: u64) -> bool
    ensures { IsTrue result ↔ IsFrom stop call }
{
    match stop {
        Some(stop) => stop <= call,
        None => false,
    }
}

// Keeps the call, which leaves what a read gives as it is, also if it is to fail. False: it is to fail, or there is no
// memory to keep it.
fn noted(fails: bool, history: &mut History, call: Call) -> bool
    requires { Stays (parts_in history.old.parts) call }
    ensures told { IsTrue fails → result ≡ false }
    ensures done { result ≡ true → Noted call history.old history.new }
    ensures kept { NotedOrMissed call history.old history.new }
    ensures only { result ≡ false → IsTrue fails ⊎ Missed history.old history.new }
{
    let kept = history.note(call);
    kept && !fails
}

// Shows the bytes, and keeps the call. False: it is to fail, or there is no memory for both, and neither is
// done.
fn show(
    fails: bool,
    alloc: Global,
    shown: &mut Vec<u8>,
    history: &mut History,
    bytes: &[u8],
) -> bool
    ensures told { IsTrue fails → result ≡ false }
    ensures done { MatchBool result
        (NotedShown bytes.now history.old history.new × (shown.new.items ≡ shown.old.items ++ bytes.now))
        (Stopped history.old history.new × (shown.new.items ≡ shown.old.items)) }
{
    if fails {
        return false;
    }
    let Ok(copy) = Vec::from_slice(alloc, bytes) else {
        return false;
    };
    if shown.try_reserve(bytes.len()).is_err() || !history.note(Call::Write(copy)) {
        return false;
    }
    if shown.extend_from_slice(bytes).is_err() {
        unreachable!()
    }
    true
}

// Counts a write that failed as one for want of memory, unless it was to fail.
fn count_lacked(fails: bool, lacked: &mut u64)
    ensures told { IsTrue fails → lacked.new ≡ lacked.old }
    ensures only { IsTrue fails ⊎ Rose lacked.old lacked.new }
{
    if !fails {
        *lacked = lacked.saturating_add(1);
    }
}

// Copies the front of what is left into the buffer, and answers how much.
fn copy_front(rest: &[u8], into: &mut [u8], most: usize) -> usize
    requires { 0 < most }
    ensures count { result ≡ min (min (length rest.now) (length into.new)) most }
    ensures copied { take result into.new ≡ take result rest.now }
    ensures end { result ≡ 0 → 0 < length into.new → rest.now ≡ [] }
{
    let count = rest.len().min(into.len()).min(most);
    into[..count].copy_from_slice(&rest[..count]);
    count
}

impl Source for MemoryOutside {
    ghost use Rattle.fsrm_outside.specs.Causes.{HasCause, count_after};
    ghost use Rattle.fsrm_outside.specs.MemoryOutside.{ByRead, left_of, plan_of, read_faults_of};
    ghost use Rattle.fsrm_outside.specs.MemoryLaws.{read_same, read_then};
    ghost use Rattle.fsrm_outside.specs.Plan.{FailsNext, GoesBy, most_of};
    ghost use Rattle.fsrm_outside.specs.Told.{GivesFront};

    ghost left = { λ o. Some (left_of o) };

    ghost read_faults = { read_faults_of };

    ghost by_read = { ByRead };

    /// Gives as many bytes as are left, fit into the buffer and may come by one read. Fails if it is
    /// told to, and if there is no memory for the record.
    fn read(&mut self, into: &mut [u8]) -> Result<usize, Failed>
        ensures count { IfOk result (λ n. n ≤ length into.new) }
        ensures front { IfOk result (λ n. GivesFront (left_of self.old) n into.new) }
        ensures rest { IfOk result (λ n. left_of self.new ≡ drop n (left_of self.old)) }
        ensures failed { OnErr result (left_of self.new ≡ left_of self.old) }
        ensures by { ByRead self.old self.new }
        ensures cause { HasCause (read_faults_of self.old) (read_faults_of self.new) result }

        ensures told { FailsNext (plan_of self.old) → IsErr result }
        ensures only { OnErr result (FailsNext (plan_of self.old) ⊎ Missed self.old.history self.new.history) }
        ensures noted { OnOk result (Noted Call.Read self.old.history self.new.history) }
        ensures noted_failed { OnErr result (NotedOrMissed Call.Read self.old.history self.new.history) }
        ensures plan { GoesBy (plan_of self.old) (plan_of self.new) }
        ensures counted { read_faults_of self.new ≡ count_after (read_faults_of self.old) result }
        ensures most { IfOk result (λ n.
            n ≡ most_of (plan_of self.old) (left_of self.old) into.new) }
    {
        let fails = self.fails_next();
        if !noted(fails, &mut self.history, Call::Read) {
            return Err(Failed::counted(&mut self.read_faults));
        }
        let count = copy_front(&self.script[self.place..], into, self.piece);
        self.place += count;
        Ok(count)
    }

    ghost read_same = { read_same };

    ghost read_then = { read_then };
}

impl Sink for MemoryOutside {
    ghost use Rattle.fsrm_outside.specs.Causes.{HasCause, count_after};
    ghost use Rattle.fsrm_outside.specs.MemoryOutside.{ByWrite, plan_of, shown_of, shown_at_of, time_of, write_faults_of};
    ghost use Rattle.fsrm_outside.specs.MemoryLaws.{write_same, write_then, write_later, write_past, shown_now, shown_grows};
    ghost use Rattle.fsrm_outside.specs.Plan.{FailsNext, Lacked, WritesBy};
    ghost use Rattle.fsrm_outside.specs.Told.{AtMostOneTick};

    ghost shown = { λ o. Some (shown_of o) };

    ghost sink_clock = { λ o. Some (time_of o) };

    ghost shown_at = { shown_at_of };

    ghost write_faults = { write_faults_of };

    ghost by_write = { ByWrite };

    /// Takes the whole piece. Fails if it is told to, and if there is no memory for the piece or
    /// for the record.
    fn write(&mut self, bytes: &[u8]) -> Result<usize, Failed>
        ensures count { IfOk result (λ n. n ≤ length bytes.now) }
        ensures some { IfOk result (λ n. 0 < length bytes.now → 0 < n) }
        ensures shown { IfOk result (λ n. shown_of self.new ≡ shown_of self.old ++ take n bytes.now) }
        ensures failed { OnErr result (shown_of self.new ≡ shown_of self.old) }
        ensures by { ByWrite self.old self.new }
        ensures clock { AtMostOneTick (Some (time_of self.old)) (Some (time_of self.new)) }
        ensures cause { HasCause (write_faults_of self.old) (write_faults_of self.new) result }

        ensures told { FailsNext (plan_of self.old) → IsErr result }
        ensures only { OnErr result (FailsNext (plan_of self.old) ⊎ Lacked (plan_of self.old) (plan_of self.new)) }
        ensures enough { IfOk result (λ _. (plan_of self.new).lacked ≡ (plan_of self.old).lacked) }
        ensures told_enough { FailsNext (plan_of self.old) → (plan_of self.new).lacked ≡ (plan_of self.old).lacked }
        ensures noted { OnOk result (NotedShown bytes.now self.old.history self.new.history) }
        ensures noted_failed { OnErr result (NotedUnshown self.old.history self.new.history) }
        ensures plan { WritesBy (plan_of self.old) (plan_of self.new) }
        ensures counted { write_faults_of self.new ≡ count_after (write_faults_of self.old) result }
        ensures all { IfOk result (λ n. n ≡ length bytes.now) }
    {
        let fails = self.fails_next();
        if !show(fails, self.alloc, &mut self.shown, &mut self.history, bytes) {
            let _ = noted(true, &mut self.history, Call::Write(Vec::new(self.alloc)));
            count_lacked(fails, &mut self.lacked);
            return Err(Failed::counted(&mut self.write_faults));
        }
        Ok(bytes.len())
    }

    ghost write_same = { write_same };

    ghost write_then = { write_then };

    ghost write_later = { write_later };

    ghost write_past = { write_past };

    ghost shown_now = { shown_now };

    ghost shown_grows = { shown_grows };
}
