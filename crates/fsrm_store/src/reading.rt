//! What the half that rules tells: its image, and the entries after it.

ghost use Rattle.std.specs.Prelude.{◌≡◌, ◌≢◌, ◌≤◌, ◌<◌, ◌+◌, ◌-◌, ◌^◌, ℕ, List, [], ◌∷◌, ◌++◌, length, true, None, Some, Ok, Err, IfErr, IfOk, IfSome};
ghost use Rattle.fsrm_model.specs.declared.command.Entry.{Entry as EntryValue};
ghost use Rattle.fsrm_model.specs.declared.row.Rows.{Rows as RowsValue};
ghost use Rattle.fsrm_model.specs.store.Replays.{is_valid_entry};
ghost use Rattle.fsrm_model.specs.values.Limits.{longest_entry};
ghost use Rattle.fsrm_outside.specs.Parts.{Parts};
ghost use Rattle.fsrm_outside.specs.Settling.{Stable};
ghost use Rattle.fsrm_journal.specs.Opened.{ReadsOn};
ghost use Rattle.fsrm_journal.specs.Stores.{ReadUpTo};
ghost use Rattle.fsrm_journal.specs.declared.heads.Head.{Head as HeadValue};
ghost use Rattle.record_codec.specs.declared.fault.CodecFault.TheVariants.{BadRecord};
ghost use Rattle.fsrm_store.specs.Faults.{of_bytes};
ghost use Rattle.fsrm_store.specs.Recovery.{AllRead, HasRead, IsRefused, OnlyReads, ReadsRows, TakenWhole, TellsFaults};
ghost use Rattle.fsrm_store.specs.declared.fault.StoreFault.TheVariants.{AlreadyStore};

use crate::fault::StoreFault;
use crate::limits::HEAD;
use fsrm_journal::{Head, Journal};
use fsrm_model::{Entry, Rows};
use fsrm_outside::{Disk, Part};
use image_codec::ImageIn;
use record_codec::{CodecFault, decode};
use std::alloc::Global;

// What is told of bytes that spell nothing, of which the first one stands at a place of the half that rules.
fn damaged(part: Part, first: u64, fault: CodecFault) -> StoreFault
    requires { (place : ℕ) → fault ≡ BadRecord place → first + place ≤ 2 ^ 64 - 1 }
    ensures { result ≡ of_bytes part first fault }
{
    match fault {
        CodecFault::BadRecord { place } => StoreFault::Damaged {
            part,
            place: first + place,
        },
        CodecFault::NoMemory => StoreFault::NoMemory,
    }
}

// A reader of the image, which has taken all of it that is there.
fn take_image<D: Disk>(
    alloc: Global,
    disk: &mut D,
    journal: &mut Journal,
    head: &Head,
    buffer: &mut [u8],
) -> Result<ImageIn, StoreFault>
    requires room { 0 < length buffer.old }
    ensures taken { IfOk result (λ image. TakenWhole head.now (D.reads disk.old) journal.old journal.new image) }
    ensures refused { (parts : Parts) → D.reads disk.old ≡ Some parts → ReadUpTo head.now [] [] parts journal.old → IfErr result (IsRefused parts) }
    ensures only { result ≢ Err AlreadyStore }
    ensures same { ReadsOn journal.old journal.new }
    ensures quiet { OnlyReads D.reads D.disk_clock D.images D.by_disk disk.old disk.new }
    ensures cause { TellsFaults (D.disk_faults disk.old) (D.disk_faults disk.new) result }
{
    let part = journal.ruling();
    let mut image = ImageIn::new(alloc, head.image);
    'pieces: loop {
        let count = journal.read_image(disk, buffer)?;
        if count == 0 {
            return Ok(image);
        }
        match image.feed(&buffer[..count]) {
            Ok(()) => {}
            Err(fault) => return Err(damaged(part, HEAD, fault)),
        }
    }
}

/// The rows that the image tells.
pub(crate) fn read_rows<D: Disk>(
    alloc: Global,
    disk: &mut D,
    journal: &mut Journal,
    head: &Head,
    buffer: &mut [u8],
) -> Result<Rows, StoreFault>
    requires room { 0 < length buffer.old }
    ensures rows { (parts : Parts) → D.reads disk.old ≡ Some parts → ReadUpTo head.now [] [] parts journal.old → IfOk result (λ rows. ReadsRows head.now rows parts journal.new) }
    ensures refused { (parts : Parts) → D.reads disk.old ≡ Some parts → ReadUpTo head.now [] [] parts journal.old → IfErr result (IsRefused parts) }
    ensures only { result ≢ Err AlreadyStore }
    ensures same { ReadsOn journal.old journal.new }
    ensures quiet { OnlyReads D.reads D.disk_clock D.images D.by_disk disk.old disk.new }
    ensures cause { TellsFaults (D.disk_faults disk.old) (D.disk_faults disk.new) result }
{
    let part = journal.ruling();
    let image = take_image(alloc, disk, journal, head, buffer)?;
    match image.finish() {
        Ok(rows) => Ok(rows),
        Err(fault) => Err(damaged(part, HEAD, fault)),
    }
}

/// The next entry, or None at the first closed gate: from then on entries may be added there.
pub(crate) fn next_entry<D: Disk>(
    alloc: Global,
    disk: &mut D,
    journal: &mut Journal,
    buffer: &mut [u8],
) -> Result<Option<Entry>, StoreFault>
    requires room { longest_entry ≤ length buffer.old }
    ensures next { (parts : Parts) (head : HeadValue) (base : RowsValue) (entries : List EntryValue) → D.reads disk.old ≡ Some parts → HasRead head base entries parts journal.old
        → IfOk result (λ found. IfSome found (λ entry. HasRead head base (entries ++ entry ∷ []) parts journal.new)) }
    ensures valid { IfOk result (λ found. IfSome found (λ entry. is_valid_entry entry ≡ true)) }
    ensures all { (parts : Parts) (head : HeadValue) (base : RowsValue) (entries : List EntryValue) → D.reads disk.old ≡ Some parts → HasRead head base entries parts journal.old → Stable D.reads D.disk_clock D.images disk.old
        → IfOk result (λ found. found ≡ None → AllRead D.reads D.disk_clock D.images head base entries journal.new disk.new) }
    ensures refused { (parts : Parts) (head : HeadValue) (base : RowsValue) (entries : List EntryValue) → D.reads disk.old ≡ Some parts → HasRead head base entries parts journal.old → IfErr result (IsRefused parts) }
    ensures only { result ≢ Err AlreadyStore }
    ensures further { IfOk result (λ found. IfSome found (λ entry. journal.old.end < journal.new.end)) }
    ensures same { ReadsOn journal.old journal.new }
    ensures quiet { OnlyReads D.reads D.disk_clock D.images D.by_disk disk.old disk.new }
    ensures cause { TellsFaults (D.disk_faults disk.old) (D.disk_faults disk.new) result }
{
    let part = journal.ruling();
    let found = journal.next(disk, buffer)?;
    let Some((place, size)) = found else {
        return Ok(None);
    };
    match decode(alloc, &buffer[..size]) {
        Ok(entry) => Ok(Some(entry)),
        Err(fault) => Err(damaged(part, place, fault)),
    }
}
