//! Entries that are kept: held in a group, and made stable.

ghost use Rattle.std.specs.Prelude.{◌≡◌, ◌+◌, ◌*◌, ◌≤◌, ◌<◌, true, false, length, take, Err, OnErr, OnOk};
ghost use Rattle.fsrm_model.specs.declared.row.Rows.{Rows};
ghost use Rattle.fsrm_model.specs.store.Lasting.{lasting};
ghost use Rattle.fsrm_model.specs.values.Limits.{longest_entry};
ghost use Rattle.fsrm_outside.specs.Causes.{HasCause};
ghost use Rattle.fsrm_outside.specs.Moments.{EachImage};
ghost use Rattle.fsrm_outside.specs.Parts.{other};
ghost use Rattle.record_codec.specs.Entries.{entry as entry_format};
ghost use Rattle.record_codec.specs.Writing.{lent, IsWritable};
ghost use Rattle.fsrm_store.specs.Amortized.{bytes_left, bytes_since, record_bytes, Amortized, KeepsHalf};
ghost use Rattle.fsrm_store.specs.Standing.{now_kept, HoldsEither, IsHeld, IsReady, IsWritten, Leads, Standing, StandsFor};
ghost use Rattle.fsrm_store.specs.declared.fault.StoreFault.TheVariants.{DiskFault};

use crate::fault::StoreFault;
use crate::limits::LONG_TAIL;
use crate::store::Store;
use fsrm_model::{Ledger, Steps};
use fsrm_outside::Disk;
use record_codec::{EntryRef, encode};

// Writes an entry to the front of a buffer, and answers how many bytes it has.
fn spell(entry: &EntryRef<'_>, buffer: &mut Vec<u8>) -> usize
    requires writable { IsWritable (lent entry.now) }
    requires room { longest_entry ≤ length buffer.old.items }
    ensures written { take result buffer.new.items ≡ entry_format.spell (lent entry.now) }
    ensures legal { entry_format.legal (lent entry.now) ≡ true }
    ensures short { result ≤ longest_entry }
    ensures room { length buffer.new.items ≡ length buffer.old.items }
{
    encode(entry, buffer)
}

impl Store {
    // Holds the entry of the command that led to the engine's rows, and makes the group stable if it is full. Whatever the
    // answer is, a crash leaves what was kept, or what is kept of the rows now. `DiskFault` alone refuses it.
    pub(crate) fn keep<D: Disk, L: Ledger>(
        &mut self,
        disk: &mut D,
        entry: &EntryRef<'_>,
        steps: &mut Steps<L>,
    ) -> Result<(), StoreFault>
        requires sound { self.old.sound ≡ true }
        requires writable { IsWritable (lent entry.now) }
        requires ready { IsReady D.reads self.old.journal disk.old }
        ensures leaves { (kept R : Rows) → StandsFor D.reads D.disk_clock D.images kept R self.old disk.old → Leads self.old.engine.size R (lent entry.now) self.old.engine.rows
            → EachImage D.disk_clock D.images (HoldsEither self.old.engine.size kept (lasting self.old.engine.rows)) disk.old disk.new }
        ensures store { (kept R : Rows) → StandsFor D.reads D.disk_clock D.images kept R self.old disk.old → Leads self.old.engine.size R (lent entry.now) self.old.engine.rows
            → OnOk result (Standing D.reads D.disk_clock D.images (now_kept kept self.new) self.new disk.new) }
        ensures held { self.old.journal.held + 1 < self.old.group → OnOk result (IsHeld self.old self.new × (disk.new ≡ disk.old)) }
        ensures written { self.old.journal.held + 1 ≡ self.old.group → OnOk result (IsWritten self.new) }
        ensures half { (kept R : Rows) → StandsFor D.reads D.disk_clock D.images kept R self.old disk.old → Leads self.old.engine.size R (lent entry.now) self.old.engine.rows
            → OnOk result (KeepsHalf self.old self.new (bytes_since self.old.journal + record_bytes (lent entry.now))) }
        ensures engine { self.new.engine ≡ self.old.engine }
        ensures sound { OnOk result (self.new.sound ≡ true) }
        ensures unsound { OnErr result (self.new.sound ≡ false) }
        ensures young { self.old.is_old ≡ false → OnOk result (self.new.is_old ≡ false) }
        ensures group { self.new.group ≡ self.old.group }
        ensures ready { OnOk result (IsReady D.reads self.new.journal disk.new) }
        ensures looks { steps.new ≤ steps.old + 2 * length self.old.engine.rows.nodes }
        ensures amortized { (kept R : Rows) → StandsFor D.reads D.disk_clock D.images kept R self.old disk.old → Leads self.old.engine.size R (lent entry.now) self.old.engine.rows
            → Amortized (length self.old.engine.rows.nodes) steps.old steps.new (bytes_since self.old.journal + record_bytes (lent entry.now)) (bytes_left result self.new) }
        ensures by { D.by_disk disk.old disk.new }
        ensures only { OnErr result (result ≡ Err DiskFault) }
        ensures cause { HasCause (D.disk_faults disk.old) (D.disk_faults disk.new) result }
    {
        self.sound = false;
        let size = spell(entry, &mut self.buffer);
        self.journal.hold(&self.buffer[..size]);
        if self.journal.held() < self.group {
            self.sound = true;
            return Ok(());
        }
        self.write(disk, steps)?;
        self.sound = true;
        Ok(())
    }

    // Makes the entries that are held stable, and gives the other half an image if the records are long.
    fn write<D: Disk, L: Ledger>(
        &mut self,
        disk: &mut D,
        steps: &mut Steps<L>,
    ) -> Result<(), StoreFault>
        requires unsound { self.old.sound ≡ false }
        requires ready { IsReady D.reads self.old.journal disk.old }
        ensures leaves { (kept : Rows) → Standing D.reads D.disk_clock D.images kept self.old disk.old
            → EachImage D.disk_clock D.images (HoldsEither self.old.engine.size kept (lasting self.old.engine.rows)) disk.old disk.new }
        ensures store { (kept : Rows) → Standing D.reads D.disk_clock D.images kept self.old disk.old
            → OnOk result (Standing D.reads D.disk_clock D.images (lasting self.new.engine.rows) self.new disk.new) }
        ensures written { OnOk result (IsWritten self.new) }
        ensures half { (kept : Rows) → Standing D.reads D.disk_clock D.images kept self.old disk.old → OnOk result (KeepsHalf self.old self.new (bytes_since self.old.journal)) }
        ensures engine { self.new.engine ≡ self.old.engine }
        ensures sound { self.new.sound ≡ false }
        ensures young { self.old.is_old ≡ false → OnOk result (self.new.is_old ≡ false) }
        ensures group { self.new.group ≡ self.old.group }
        ensures ready { OnOk result (IsReady D.reads self.new.journal disk.new) }
        ensures looks { steps.new ≤ steps.old + 2 * length self.old.engine.rows.nodes }
        ensures amortized { (kept : Rows) → Standing D.reads D.disk_clock D.images kept self.old disk.old
            → Amortized (length self.old.engine.rows.nodes) steps.old steps.new (bytes_since self.old.journal) (bytes_left result self.new) }
        ensures by { D.by_disk disk.old disk.new }
        ensures only { OnErr result (result ≡ Err DiskFault) }
        ensures cause { HasCause (D.disk_faults disk.old) (D.disk_faults disk.new) result }
    {
        self.journal.flush(disk)?;
        if self.journal.tail() > self.image.max(LONG_TAIL) {
            self.change(disk, steps)?;
        }
        Ok(())
    }

    /// Makes the entries that are held stable, all at once, and gives the other half an image if the records are long then.
    /// If none is held it does nothing. It takes no memory. `DiskFault` alone refuses it.
    pub fn flush<D: Disk, L: Ledger>(
        &mut self,
        disk: &mut D,
        steps: &mut Steps<L>,
    ) -> Result<(), StoreFault>
        requires sound { self.old.sound ≡ true }
        requires young { self.old.is_old ≡ false }
        requires ready { IsReady D.reads self.old.journal disk.old }
        ensures leaves { (kept : Rows) → Standing D.reads D.disk_clock D.images kept self.old disk.old
            → EachImage D.disk_clock D.images (HoldsEither self.old.engine.size kept (lasting self.old.engine.rows)) disk.old disk.new }
        ensures store { (kept : Rows) → Standing D.reads D.disk_clock D.images kept self.old disk.old
            → OnOk result (Standing D.reads D.disk_clock D.images (lasting self.new.engine.rows) self.new disk.new) }
        ensures idle { self.old.journal.held ≡ 0 → (self.new ≡ self.old) × (disk.new ≡ disk.old) }
        ensures written { 0 < self.old.journal.held → OnOk result (IsWritten self.new) }
        ensures half { (kept : Rows) → Standing D.reads D.disk_clock D.images kept self.old disk.old → OnOk result (KeepsHalf self.old self.new (bytes_since self.old.journal)) }
        ensures none { OnOk result (self.new.journal.held ≡ 0) }
        ensures engine { self.new.engine ≡ self.old.engine }
        ensures sound { OnOk result (self.new.sound ≡ true) }
        ensures unsound { OnErr result (self.new.sound ≡ false) }
        ensures young { OnOk result (self.new.is_old ≡ false) }
        ensures group { self.new.group ≡ self.old.group }
        ensures ready { OnOk result (IsReady D.reads self.new.journal disk.new) }
        ensures looks { steps.new ≤ steps.old + 2 * length self.old.engine.rows.nodes }
        ensures amortized { (kept : Rows) → Standing D.reads D.disk_clock D.images kept self.old disk.old
            → Amortized (length self.old.engine.rows.nodes) steps.old steps.new (bytes_since self.old.journal) (bytes_left result self.new) }
        ensures by { D.by_disk disk.old disk.new }
        ensures only { OnErr result (result ≡ Err DiskFault) }
        ensures cause { HasCause (D.disk_faults disk.old) (D.disk_faults disk.new) result }
    {
        if self.journal.held() == 0 {
            return Ok(());
        }
        self.sound = false;
        self.write(disk, steps)?;
        self.sound = true;
        Ok(())
    }

    /// Gives the other half an image of all that is kept, and has it rule. Entries that are held are made stable first. It
    /// takes no memory, and 2 looks for each node. `DiskFault` alone refuses it.
    pub fn checkpoint<D: Disk, L: Ledger>(
        &mut self,
        disk: &mut D,
        steps: &mut Steps<L>,
    ) -> Result<(), StoreFault>
        requires sound { self.old.sound ≡ true }
        requires ready { IsReady D.reads self.old.journal disk.old }
        ensures leaves { (kept : Rows) → Standing D.reads D.disk_clock D.images kept self.old disk.old
            → EachImage D.disk_clock D.images (HoldsEither self.old.engine.size kept (lasting self.old.engine.rows)) disk.old disk.new }
        ensures store { (kept : Rows) → Standing D.reads D.disk_clock D.images kept self.old disk.old
            → OnOk result (Standing D.reads D.disk_clock D.images (lasting self.new.engine.rows) self.new disk.new) }
        ensures none { OnOk result (self.new.journal.held ≡ 0) }
        ensures turned { OnOk result (self.new.journal.ruling ≡ other self.old.journal.ruling) }
        ensures empty { OnOk result (self.new.journal.end ≡ self.new.journal.image_end) }
        ensures engine { self.new.engine ≡ self.old.engine }
        ensures sound { OnOk result (self.new.sound ≡ true) }
        ensures unsound { OnErr result (self.new.sound ≡ false) }
        ensures young { OnOk result (self.new.is_old ≡ false) }
        ensures group { self.new.group ≡ self.old.group }
        ensures ready { OnOk result (IsReady D.reads self.new.journal disk.new) }
        ensures looks { steps.new ≤ steps.old + 2 * length self.old.engine.rows.nodes }
        ensures by { D.by_disk disk.old disk.new }
        ensures only { OnErr result (result ≡ Err DiskFault) }
        ensures cause { HasCause (D.disk_faults disk.old) (D.disk_faults disk.new) result }
    {
        self.sound = false;
        self.journal.flush(disk)?;
        self.change(disk, steps)?;
        self.sound = true;
        Ok(())
    }
}
