//! The disk in memory.

ghost use Rattle.std.specs.Prelude.{◌≡◌, ◌⊎◌, ◌+◌, ◌^◌, ◌≤◌, ◌<◌, ℕ, Some, true, false, IfOk, OnErr, OnOk, IsErr, IsTrue, MatchBool, take, drop, length};
ghost use Rattle.std.specs.Option.{ForSome};
ghost use Rattle.fsrm_outside.specs.Causes.{HasCause, count_after};
ghost use Rattle.fsrm_outside.specs.Changes.{Same, Through, Torn, Written};
ghost use Rattle.fsrm_outside.specs.Contents.{parts_in};
ghost use Rattle.fsrm_outside.specs.History.{Missed, Noted, NotedOrMissed, Stopped, Wrote};
ghost use Rattle.fsrm_outside.specs.Parts.{Parts, part_of};
ghost use Rattle.fsrm_outside.specs.Plan.{FailsNext, GoesBy, Lacked, WritesBy};
ghost use Rattle.fsrm_outside.specs.Told.{AtMostOneTick};

use crate::calls::Call;
use crate::contents::fill_from;
use crate::history::History;
use crate::memory::{MemoryOutside, count_lacked, noted};
use crate::traits::{Disk, Failed, Outside, Part};
use std::alloc::Global;

// The most bytes that a part may have.
const MOST: u64 = 1 << 62;

impl MemoryOutside {
    ghost use Rattle.fsrm_outside.specs.MemoryOutside.{plan_of};

    // Whether a write of so many bytes at a place is to fail: it was told to, or they would end past 2^62.
    fn fails_write(&self, place: u64, count: usize) -> bool
        ensures told { FailsNext (plan_of self.now) → IsTrue result }
        ensures only { IsTrue result → FailsNext (plan_of self.now) ⊎ (2 ^ 62 < place + count) }
        ensures within { result ≡ false → place + count ≤ 2 ^ 62 }
    {
        let count = count as u64;
        self.fails_next() || count > MOST || place > MOST - count
    }
}

// Writes the bytes, and keeps the call. False: it is to fail, or there is no memory for it, and nothing is written or
// kept.
fn written(
    fails: bool,
    alloc: Global,
    history: &mut History,
    part: Part,
    place: u64,
    bytes: &[u8],
) -> bool
    requires { place ≤ length (part_of part (parts_in history.old.parts)) }
    ensures told { IsTrue fails → result ≡ false }
    ensures may { result ≡ true → fails ≡ false }
    ensures done { MatchBool result (Wrote part place bytes.now history.old history.new) (Stopped history.old history.new) }
{
    !fails && history.write_at(alloc, part, place, bytes)
}

impl Disk for MemoryOutside {
    ghost use Rattle.fsrm_outside.specs.MemoryOutside.{ByDisk, disk_faults_of, images_of, parts_of, plan_of, time_of};
    ghost use Rattle.fsrm_outside.specs.MemoryLaws.{disk_same, disk_then, disk_later, disk_past, reads_now, tells_reads};

    ghost reads = { λ o. Some (parts_of o) };

    ghost disk_clock = { λ o. Some (time_of o) };

    ghost images = { images_of };

    ghost disk_faults = { disk_faults_of };

    ghost by_disk = { ByDisk };

    /// Fails if it is told to, if there is no memory for the record, and for a part of more than 2^62 bytes.
    fn len(&mut self, part: Part) -> Result<u64, Failed>
        ensures length { IfOk result (λ n. n ≡ length (part_of part (parts_of self.old))) }
        ensures bound { IfOk result (λ n. n ≤ 2 ^ 62) }
        ensures reads { parts_of self.new ≡ parts_of self.old }
        ensures crash { Through (λ o. Some (time_of o)) images_of Same self.old self.new }
        ensures by { ByDisk self.old self.new }
        ensures clock { AtMostOneTick (Some (time_of self.old)) (Some (time_of self.new)) }
        ensures cause { HasCause (disk_faults_of self.old) (disk_faults_of self.new) result }

        ensures told { FailsNext (plan_of self.old) → IsErr result }
        ensures only { OnErr result (FailsNext (plan_of self.old) ⊎ Missed self.old.history self.new.history ⊎ (2 ^ 62 < length (part_of part (parts_of self.old)))) }
        ensures noted { OnOk result (Noted Call.Len self.old.history self.new.history) }
        ensures noted_failed { OnErr result (NotedOrMissed Call.Len self.old.history self.new.history) }
        ensures plan { GoesBy (plan_of self.old) (plan_of self.new) }
        ensures counted { disk_faults_of self.new ≡ count_after (disk_faults_of self.old) result }
    {
        let fails = self.fails_next();
        let kept = noted(fails, &mut self.history, Call::Len);
        let length = self.history.part(part).len() as u64;
        if !kept || length > MOST {
            return Err(Failed::counted(&mut self.disk_faults));
        }
        Ok(length)
    }

    /// Fails if it is told to, and if there is no memory for the record.
    fn read_at(&mut self, part: Part, place: u64, into: &mut [u8]) -> Result<usize, Failed>
        ensures count { IfOk result (λ n. n ≤ length into.new) }
        ensures bytes { IfOk result (λ n. take n into.new ≡ take (length into.old) (drop place (part_of part (parts_of self.old)))) }
        ensures reads { parts_of self.new ≡ parts_of self.old }
        ensures crash { Through (λ o. Some (time_of o)) images_of Same self.old self.new }
        ensures by { ByDisk self.old self.new }
        ensures clock { AtMostOneTick (Some (time_of self.old)) (Some (time_of self.new)) }
        ensures cause { HasCause (disk_faults_of self.old) (disk_faults_of self.new) result }

        ensures told { FailsNext (plan_of self.old) → IsErr result }
        ensures only { OnErr result (FailsNext (plan_of self.old) ⊎ Missed self.old.history self.new.history) }
        ensures noted { OnOk result (Noted Call.ReadAt self.old.history self.new.history) }
        ensures noted_failed { OnErr result (NotedOrMissed Call.ReadAt self.old.history self.new.history) }
        ensures plan { GoesBy (plan_of self.old) (plan_of self.new) }
        ensures counted { disk_faults_of self.new ≡ count_after (disk_faults_of self.old) result }
    {
        let fails = self.fails_next();
        if !noted(fails, &mut self.history, Call::ReadAt) {
            return Err(Failed::counted(&mut self.disk_faults));
        }
        Ok(fill_from(self.history.part(part), place, into))
    }

    /// Fails if it is told to, if there is no memory for the part or for the record, and past 2^62 bytes. What a read
    /// gives then stays.
    fn write_at(&mut self, part: Part, place: u64, bytes: &[u8]) -> Result<(), Failed>
        requires { ForSome (Some (parts_of self.old)) (λ parts. place ≤ length (part_of part parts)) }
        ensures written { OnOk result (parts_of self.new ≡ Written part place bytes.now (parts_of self.old)) }
        ensures bound { OnOk result (place + length bytes.now ≤ 2 ^ 62) }
        ensures failed { OnErr result (ForSome (Some (parts_of self.old)) (λ parts. (torn : Parts) × (Some (parts_of self.new) ≡ Some torn) × Torn part place (length bytes.now) parts torn)) }
        ensures crash { Through (λ o. Some (time_of o)) images_of (Torn part place (length bytes.now)) self.old self.new }
        ensures by { ByDisk self.old self.new }
        ensures clock { AtMostOneTick (Some (time_of self.old)) (Some (time_of self.new)) }
        ensures cause { HasCause (disk_faults_of self.old) (disk_faults_of self.new) result }

        ensures told { FailsNext (plan_of self.old) → IsErr result }
        ensures only { OnErr result (FailsNext (plan_of self.old) ⊎ (2 ^ 62 < place + length bytes.now) ⊎ Lacked (plan_of self.old) (plan_of self.new)) }
        ensures enough { OnOk result ((plan_of self.new).lacked ≡ (plan_of self.old).lacked) }
        ensures told_enough { FailsNext (plan_of self.old) → (plan_of self.new).lacked ≡ (plan_of self.old).lacked }
        ensures stays { OnErr result (parts_of self.new ≡ parts_of self.old) }
        ensures noted { OnOk result (Wrote part place bytes.now self.old.history self.new.history) }
        ensures noted_failed { OnErr result (NotedOrMissed (Call.FailedAt part place (length bytes.now)) self.old.history self.new.history) }
        ensures plan { WritesBy (plan_of self.old) (plan_of self.new) }
        ensures counted { disk_faults_of self.new ≡ count_after (disk_faults_of self.old) result }
    {
        let fails = self.fails_write(place, bytes.len());
        if !written(fails, self.alloc, &mut self.history, part, place, bytes) {
            self.history.fail_at(part, place, bytes.len());
            count_lacked(fails, &mut self.lacked);
            return Err(Failed::counted(&mut self.disk_faults));
        }
        Ok(())
    }

    /// Fails if it is told to, and if there is no memory for the record.
    fn sync(&mut self) -> Result<(), Failed>
        ensures durable { (t : ℕ) (image : Parts) → OnOk result (Some (time_of self.new) ≡ Some t → images_of self.new t image → Some (parts_of self.new) ≡ Some image) }
        ensures reads { parts_of self.new ≡ parts_of self.old }
        ensures crash { Through (λ o. Some (time_of o)) images_of Same self.old self.new }
        ensures by { ByDisk self.old self.new }
        ensures clock { AtMostOneTick (Some (time_of self.old)) (Some (time_of self.new)) }
        ensures cause { HasCause (disk_faults_of self.old) (disk_faults_of self.new) result }

        ensures told { FailsNext (plan_of self.old) → IsErr result }
        ensures only { OnErr result (FailsNext (plan_of self.old) ⊎ Missed self.old.history self.new.history) }
        ensures noted { OnOk result (Noted (Call.Sync true) self.old.history self.new.history) }
        ensures noted_failed { OnErr result (NotedOrMissed (Call.Sync false) self.old.history self.new.history) }
        ensures plan { GoesBy (plan_of self.old) (plan_of self.new) }
        ensures counted { disk_faults_of self.new ≡ count_after (disk_faults_of self.old) result }
    {
        let fails = self.fails_next();
        if !noted(fails, &mut self.history, Call::Sync(!fails)) {
            return Err(Failed::counted(&mut self.disk_faults));
        }
        Ok(())
    }

    ghost disk_same = { disk_same };

    ghost disk_then = { disk_then };

    ghost disk_later = { disk_later };

    ghost disk_past = { disk_past };

    ghost reads_now = { reads_now };

    ghost tells_reads = { tells_reads };
}

impl Outside for MemoryOutside {
    ghost use Rattle.fsrm_outside.specs.MemoryLaws.{one_clock, read_keeps_disk, read_keeps_sink, write_keeps_disk, write_keeps_source, disk_keeps_sink, disk_keeps_source};

    ghost one_clock = { one_clock };

    ghost read_keeps_disk = { read_keeps_disk };

    ghost read_keeps_sink = { read_keeps_sink };

    ghost write_keeps_disk = { write_keeps_disk };

    ghost write_keeps_source = { write_keeps_source };

    ghost disk_keeps_sink = { disk_keeps_sink };

    ghost disk_keeps_source = { disk_keeps_source };
}
