//! Bytes of a half that were read ahead, so that a short record costs no call of the disk.

ghost use Rattle.std.specs.Prelude.{◌≡◌, ◌≤◌, ◌+◌, [], length, drop, IsTrue, IfOk, OnOk};
ghost use Rattle.byteorder.specs.Endian.{little_number};
ghost use Rattle.std.specs.Option.{ForSome};
ghost use Rattle.fsrm_outside.specs.Causes.{HasCause};
ghost use Rattle.fsrm_outside.specs.Changes.{Same, Through};
ghost use Rattle.fsrm_outside.specs.Parts.{part_of};
ghost use Rattle.fsrm_journal.specs.Records.{longest_record};

use crate::limits::LONGEST_RECORD;
use byteorder::{ByteOrder, LittleEndian};
use fsrm_base::NoMemory;
use fsrm_outside::{Disk, Failed, Part};
use std::alloc::Global;

/// Room for the longest record, and which bytes of it were read and not gone past.
#[derive(Drop)]
pub struct Window {
    bytes: Vec<u8>,
    start: usize,
    end: usize,
    ghost long: { length bytes.items ≡ longest_record },
    ghost within: { end ≤ longest_record },
    ghost order: { start ≤ end },
}

impl Window {
    ghost use Rattle.fsrm_journal.specs.Ahead.{ahead, AreEnough, StandThere};

    /// Nothing was read.
    pub fn new(alloc: Global) -> Result<Window, NoMemory>
        ensures { IfOk result (λ window. ahead window ≡ []) }
    {
        let bytes = vec![in alloc; 0; LONGEST_RECORD]?;
        Ok(Window {
            bytes,
            start: 0,
            end: 0,
        })
    }

    /// The bytes that were read and not gone past.
    pub fn ahead(&self) -> &[u8]
        ensures { result.now ≡ ahead self.now }
    {
        &self.bytes[self.start..self.end]
    }

    /// Goes past so many of them.
    pub fn pass(&mut self, count: usize)
        requires { count ≤ length (ahead self.old) }
        ensures { ahead self.new ≡ drop count (ahead self.old) }
    {
        self.start += count;
    }

    /// Goes past all of them.
    pub fn clear(&mut self)
        ensures { ahead self.new ≡ [] }
    {
        self.start = self.end;
    }

    /// Reads from a place of a part on, unless all of the record there was read. What was read stands there before, and
    /// also after an error.
    pub fn reach<D: Disk>(&mut self, disk: &mut D, part: Part, place: u64) -> Result<(), Failed>
        ensures there { ForSome (D.reads disk.old) (λ parts. StandThere (part_of part parts) place (ahead self.old) → StandThere (part_of part parts) place (ahead self.new)) }
        ensures enough { ForSome (D.reads disk.old) (λ parts. OnOk result (AreEnough (part_of part parts) place (ahead self.new))) }
        ensures reads { D.reads disk.new ≡ D.reads disk.old }
        ensures crash { Through D.disk_clock D.images Same disk.old disk.new }
        ensures by { D.by_disk disk.old disk.new }
        ensures cause { HasCause (D.disk_faults disk.old) (D.disk_faults disk.new) result }
    {
        if has_record(self.ahead()) {
            return Ok(());
        }
        self.start = 0;
        self.end = 0;
        self.end = disk.read_at(part, place, &mut self.bytes)?;
        Ok(())
    }
}

// Whether these are all bytes of a record of the length that they say.
fn has_record(bytes: &[u8]) -> bool
    ensures five { IsTrue result → 5 ≤ length bytes.now }
    ensures whole { IsTrue result → little_number 4 (drop 1 bytes.now) + 5 ≤ length bytes.now }
{
    bytes.len() >= 5 && LittleEndian::read_u32(&bytes[1..]) as usize <= bytes.len() - 5
}
