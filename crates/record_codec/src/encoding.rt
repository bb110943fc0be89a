//! Writing entries.

ghost use Rattle.std.specs.Prelude.{◌≡◌, ◌≤◌, true, length, take};
ghost use Rattle.fsrm_model.specs.declared.command.Deed.TheVariants.{File};
ghost use Rattle.fsrm_model.specs.declared.command.Entry.TheVariants.{Order, Finish};
ghost use Rattle.fsrm_model.specs.values.Limits.{longest_entry};
ghost use Rattle.record_codec.specs.Entries.{entry as entry_format};
ghost use Rattle.record_codec.specs.Writing.{lent, IsWritable, WritesEntry, entry_typed};

use crate::deeds::put_deed;
use crate::entry::EntryRef;
use crate::files::put_op;
use fsrm_model::limits::LONGEST_ENTRY;
use fsrm_model::{Command, FileOp};
use record_fields::{put_u8, put_u64};

/// Writes the one spelling of an entry from the first byte on, and answers its length. The spelling is legal, so the
/// entry is read again.
// Inlined, so that a caller who knows which entry it has needs no `EntryRef` when it runs.
#[inline(always)]
pub fn encode(entry: &EntryRef<'_>, into: &mut [u8]) -> usize
    requires writable { IsWritable (lent entry.now) }
    requires room { longest_entry ≤ length into.old }
    ensures legal { entry_format.legal (lent entry.now) ≡ true }
    ensures written { take result into.new ≡ entry_format.spell (lent entry.now) }
    ensures length { result ≡ length (entry_format.spell (lent entry.now)) }
    ensures short { result ≤ longest_entry }
{
    put_entry(entry, into)
}

#[inline(always)]
fn put_entry(entry: &EntryRef<'_>, into: &mut [u8]) -> usize
    requires { longest_entry ≤ length into.old }
    ensures written { WritesEntry into.old into.new result (lent entry.now) }
    ensures typed { entry_typed (lent entry.now) ≡ true }
{
    match *entry {
        EntryRef::Order(command) => put_order(command, into),
        EntryRef::Op { moment, op } => put_file_order(moment, op, into),
        EntryRef::Finish { moment, folder } => put_finish(moment, folder, into),
    }
}

// Each of the following takes as many bytes as the longest entry has. That they are there is known when it is compiled:
// so nothing before the first text is asked whether it has room.
fn put_order(command: &Command, into: &mut [u8]) -> usize
    requires { longest_entry ≤ length into.old }
    ensures written { WritesEntry into.old into.new result (Order command.now) }
    ensures typed { entry_typed (Order command.now) ≡ true }
{
    let into = &mut into[..LONGEST_ENTRY];
    let at = put_u64(into, 0, command.moment);
    put_deed(&command.deed, into, at)
}

fn put_file_order(moment: u64, op: &FileOp, into: &mut [u8]) -> usize
    requires { longest_entry ≤ length into.old }
    ensures written { WritesEntry into.old into.new result (Order (record { moment = moment; deed = File op.now })) }
    ensures typed { entry_typed (Order (record { moment = moment; deed = File op.now })) ≡ true }
{
    let into = &mut into[..LONGEST_ENTRY];
    let at = put_u64(into, 0, moment);
    put_op(op, into, at)
}

fn put_finish(moment: u64, folder: u32, into: &mut [u8]) -> usize
    requires { longest_entry ≤ length into.old }
    ensures written { WritesEntry into.old into.new result (Finish moment folder) }
    ensures typed { entry_typed (Finish moment folder) ≡ true }
{
    let into = &mut into[..LONGEST_ENTRY];
    let at = put_u64(into, 0, moment);
    let after = put_u8(into, at, 99);
    put_u64(into, after, folder as u64)
}
