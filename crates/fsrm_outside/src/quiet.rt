//! A source, a sink and a disk in memory that take no memory after they are made.

ghost use Rattle.std.specs.Prelude.{◌≡◌, ◌+◌, ◌^◌, ◌≤◌, ◌<◌, List, [], None, Some, length, drop, take, vec_len, vec_capacity, IfOk, OnErr, IsErr, OnOk};
ghost use Rattle.fsrm_outside.specs.Contents.{parts_in, room_of};
ghost use Rattle.fsrm_outside.specs.declared.traits.Part.TheVariants.{Zero, One};

use crate::contents::{Contents, fill_from};
use crate::traits::{Disk, Failed, Outside, Part, Sink, Source};
use fsrm_base::NoMemory;
use std::alloc::Global;

// The most bytes that a part may have.
const MOST: usize = 1 << 62;

/// A script to read, a record of what was shown, and a disk, with room for so many bytes of output and
/// so many in each part.
///
/// The room is taken when it is made. A read never fails. A write fails, and is counted, only if it would
/// pass the room, and no other call of the disk fails. It tells what it has left, what it was shown and what
/// a read gives, and no clock: it keeps no record of calls.
#[derive(Drop)]
pub struct QuietOutside {
    script: Vec<u8>,
    place: usize,
    output: Vec<u8>,
    contents: Contents,
    room: usize,
    write_faults: u64,
    disk_faults: u64,
    ghost within: { place ≤ vec_len script },
    ghost room_output: { room ≤ vec_capacity output },
    ghost room_zero: { room ≤ room_of Zero contents },
    ghost room_one: { room ≤ room_of One contents },
    ghost fits_output: { length output.items ≤ room },
    ghost fits_zero: { length (parts_in contents).zero ≤ room },
    ghost fits_one: { length (parts_in contents).one ≤ room },
    ghost few: { room ≤ 2 ^ 62 },
}

impl QuietOutside {
    ghost use Rattle.fsrm_outside.specs.QuietOutside.{disk_faults_of, left_of, parts_of, shown_of, write_faults_of};

    /// Has the whole script left, has shown nothing, and has two empty parts. `NoMemory`: there is no memory for the
    /// script and three times the room, or the room is more than 2^62.
    pub fn new(alloc: Global, script: &[u8], room: usize) -> Result<QuietOutside, NoMemory>
        ensures left { IfOk result (λ o. left_of o ≡ script.now) }
        ensures shown { IfOk result (λ o. shown_of o ≡ []) }
        ensures parts { IfOk result (λ o. parts_of o ≡ record { zero = []; one = [] }) }
        ensures room { IfOk result (λ o. o.room ≡ room) }
        ensures write_faults { IfOk result (λ o. write_faults_of o ≡ 0) }
        ensures disk_faults { IfOk result (λ o. disk_faults_of o ≡ 0) }
    {
        if room > MOST {
            return Err(NoMemory);
        }
        Ok(QuietOutside {
            script: Vec::from_slice(alloc, script)?,
            place: 0,
            output: Vec::with_capacity(alloc, room)?,
            contents: Contents::with_room(alloc, room)?,
            room,
            write_faults: 0,
            disk_faults: 0,
        })
    }
}

impl Source for QuietOutside {
    ghost use Rattle.fsrm_outside.specs.QuietOutside.{ByRead, left_of, read_same, read_then};
    ghost use Rattle.fsrm_outside.specs.Told.{GivesFront};

    ghost left = { λ o. Some (left_of o) };

    ghost read_faults = { λ _. 0 };

    ghost by_read = { ByRead };

    fn read(&mut self, into: &mut [u8]) -> Result<usize, Failed> {
        let count = fill_from(&self.script, self.place as u64, into);
        self.place += count;
        Ok(count)
    }

    ghost read_same = { read_same };

    ghost read_then = { read_then };
}

impl Sink for QuietOutside {
    ghost use Rattle.std.specs.Prelude.{refl, ◌++◌};
    ghost use Rattle.fsrm_outside.specs.Causes.{HasCause, count_after};
    ghost use Rattle.fsrm_outside.specs.QuietOutside.{ByWrite, shown_of, untold, write_faults_of, write_same, write_then};

    ghost shown = { λ o. Some (shown_of o) };

    ghost sink_clock = { λ _. None };

    ghost shown_at = { λ _ _. [] };

    ghost write_faults = { write_faults_of };

    ghost by_write = { ByWrite };

    /// Takes the whole piece. Fails exactly if the room would be passed.
    fn write(&mut self, bytes: &[u8]) -> Result<usize, Failed>
        ensures count { IfOk result (λ n. n ≤ length bytes.now) }
        ensures some { IfOk result (λ n. 0 < length bytes.now → 0 < n) }
        ensures shown { IfOk result (λ n. shown_of self.new ≡ shown_of self.old ++ take n bytes.now) }
        ensures failed { OnErr result (shown_of self.new ≡ shown_of self.old) }
        ensures by { ByWrite self.old self.new }
        ensures cause { HasCause (write_faults_of self.old) (write_faults_of self.new) result }

        ensures full { OnErr result (self.old.room < length (shown_of self.old) + length bytes.now) }
        ensures within { IfOk result (λ _. length (shown_of self.old) + length bytes.now ≤ self.old.room) }
        ensures counted { write_faults_of self.new ≡ count_after (write_faults_of self.old) result }
        ensures all { IfOk result (λ n. n ≡ length bytes.now) }
    {
        if bytes.len() > self.room.saturating_sub(self.output.len()) {
            return Err(Failed::counted(&mut self.write_faults));
        }
        if self.output.extend_from_slice(bytes).is_err() {
            unreachable!()
        }
        Ok(bytes.len())
    }

    ghost write_same = { write_same };

    ghost write_then = { write_then };

    ghost write_later = { λ a b by. tt };

    ghost write_past = { λ a b t m by told few. refl };

    ghost shown_now = { λ a t told. untold t _ told };

    ghost shown_grows = { λ a t m n told first second. untold t _ told };
}

impl Disk for QuietOutside {
    ghost use Rattle.std.specs.Prelude.{IsOk};
    ghost use Rattle.std.specs.Option.{ForSome};
    ghost use Rattle.fsrm_outside.specs.Causes.{HasCause, count_after};
    ghost use Rattle.fsrm_outside.specs.Changes.{Torn, Written};
    ghost use Rattle.fsrm_outside.specs.Parts.{Parts, part_of};
    ghost use Rattle.fsrm_outside.specs.QuietOutside.{ByDisk, disk_faults_of, disk_same, disk_then, parts_of, untold};

    ghost reads = { λ o. Some (parts_of o) };

    ghost disk_clock = { λ _. None };

    ghost images = { λ _ _ _. Unit {0} };

    ghost disk_faults = { disk_faults_of };

    ghost by_disk = { ByDisk };

    /// Never fails.
    fn len(&mut self, part: Part) -> Result<u64, Failed>
        ensures length { IfOk result (λ n. n ≡ length (part_of part (parts_of self.old))) }
        ensures bound { IfOk result (λ n. n ≤ 2 ^ 62) }
        ensures reads { parts_of self.new ≡ parts_of self.old }
        ensures by { ByDisk self.old self.new }
        ensures cause { HasCause (disk_faults_of self.old) (disk_faults_of self.new) result }

        ensures never_fails { IsOk result }
    {
        Ok(self.contents.part(part).len() as u64)
    }

    /// Never fails.
    fn read_at(&mut self, part: Part, place: u64, into: &mut [u8]) -> Result<usize, Failed>
        ensures count { IfOk result (λ n. n ≤ length into.new) }
        ensures bytes { IfOk result (λ n. take n into.new ≡ take (length into.old) (drop place (part_of part (parts_of self.old)))) }
        ensures reads { parts_of self.new ≡ parts_of self.old }
        ensures by { ByDisk self.old self.new }
        ensures cause { HasCause (disk_faults_of self.old) (disk_faults_of self.new) result }

        ensures never_fails { IsOk result }
    {
        Ok(fill_from(self.contents.part(part), place, into))
    }

    /// Fails exactly if the room would be passed. What a read gives then stays.
    fn write_at(&mut self, part: Part, place: u64, bytes: &[u8]) -> Result<(), Failed>
        requires { ForSome (Some (parts_of self.old)) (λ parts. place ≤ length (part_of part parts)) }
        ensures written { OnOk result (parts_of self.new ≡ Written part place bytes.now (parts_of self.old)) }
        ensures bound { OnOk result (place + length bytes.now ≤ 2 ^ 62) }
        ensures failed { OnErr result (ForSome (Some (parts_of self.old)) (λ parts. (torn : Parts) × (Some (parts_of self.new) ≡ Some torn) × Torn part place (length bytes.now) parts torn)) }
        ensures by { ByDisk self.old self.new }
        ensures cause { HasCause (disk_faults_of self.old) (disk_faults_of self.new) result }

        ensures full { OnErr result (self.old.room < place + length bytes.now) }
        ensures within { OnOk result (place + length bytes.now ≤ self.old.room) }
        ensures stays { OnErr result (parts_of self.new ≡ parts_of self.old) }
        ensures counted { disk_faults_of self.new ≡ count_after (disk_faults_of self.old) result }
    {
        if bytes.len() > self.room || place as usize > self.room - bytes.len() {
            return Err(Failed::counted(&mut self.disk_faults));
        }
        if self.contents.write_at(part, place as usize, bytes).is_err() {
            unreachable!()
        }
        Ok(())
    }

    /// Never fails.
    fn sync(&mut self) -> Result<(), Failed>
        ensures reads { parts_of self.new ≡ parts_of self.old }
        ensures by { ByDisk self.old self.new }
        ensures cause { HasCause (disk_faults_of self.old) (disk_faults_of self.new) result }

        ensures never_fails { IsOk result }
    {
        Ok(())
    }

    ghost disk_same = { disk_same };

    ghost disk_then = { disk_then };

    ghost disk_later = { λ a b by. tt };

    ghost disk_past = { λ a b t m image by told few. untold t _ told };

    ghost reads_now = { λ a t parts told is. untold t _ told };

    ghost tells_reads = { λ a t told. untold t _ told };
}

impl Outside for QuietOutside {
    ghost use Rattle.fsrm_outside.specs.QuietOutside.{disk_stays, sink_stays, source_stays, untold};

    ghost one_clock = { λ a s t sink disk. untold s _ sink };

    ghost read_keeps_disk = { λ a b by. disk_stays a b by.parts by.disk_faults };

    ghost read_keeps_sink = { λ a b by. sink_stays a b by.shown by.write_faults };

    ghost write_keeps_disk = { λ a b by. disk_stays a b by.parts by.disk_faults };

    ghost write_keeps_source = { λ a b by. source_stays a b by.left };

    ghost disk_keeps_sink = { λ a b by. sink_stays a b by.shown by.write_faults };

    ghost disk_keeps_source = { λ a b by. source_stays a b by.left };
}
