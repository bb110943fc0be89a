//! The store's change to the other half.

ghost use Rattle.std.specs.Prelude.{◌≡◌, ◌+◌, ◌*◌, ◌≤◌, false, length, Err, OnErr, OnOk};
ghost use Rattle.fsrm_model.specs.declared.row.Rows.{Rows};
ghost use Rattle.fsrm_model.specs.store.Lasting.{lasting};
ghost use Rattle.fsrm_outside.specs.Causes.{HasCause};
ghost use Rattle.fsrm_outside.specs.Moments.{EachImage};
ghost use Rattle.fsrm_outside.specs.Parts.{other};
ghost use Rattle.fsrm_store.specs.Keeps.{HoldsState};
ghost use Rattle.fsrm_store.specs.Standing.{IsReady, Standing};
ghost use Rattle.fsrm_store.specs.declared.fault.StoreFault.TheVariants.{DiskFault};

use crate::fault::StoreFault;
use crate::half::change_half;
use crate::store::Store;
use fsrm_model::{Ledger, Steps};
use fsrm_outside::Disk;

impl Store {
    // Gives the other half an image of the engine's rows, and has it rule. No entry is held. Whatever the answer is, a crash
    // leaves what is kept of these rows. `DiskFault` alone refuses it.
    pub(crate) fn change<D: Disk, L: Ledger>(
        &mut self,
        disk: &mut D,
        steps: &mut Steps<L>,
    ) -> Result<(), StoreFault>
        requires none { self.old.journal.held ≡ 0 }
        requires ready { IsReady D.reads self.old.journal disk.old }
        ensures leaves { (kept : Rows) → Standing D.reads D.disk_clock D.images kept self.old disk.old
            → EachImage D.disk_clock D.images (HoldsState self.old.engine.size (lasting self.old.engine.rows)) disk.old disk.new }
        ensures store { (kept : Rows) → Standing D.reads D.disk_clock D.images kept self.old disk.old
            → OnOk result (Standing D.reads D.disk_clock D.images (lasting self.new.engine.rows) self.new disk.new) }
        ensures none { self.new.journal.held ≡ 0 }
        ensures turned { OnOk result (self.new.journal.ruling ≡ other self.old.journal.ruling) }
        ensures empty { OnOk result (self.new.journal.end ≡ self.new.journal.image_end) }
        ensures engine { self.new.engine ≡ self.old.engine }
        ensures sound { self.new.sound ≡ self.old.sound }
        ensures young { OnOk result (self.new.is_old ≡ false) }
        ensures group { self.new.group ≡ self.old.group }
        ensures ready { OnOk result (IsReady D.reads self.new.journal disk.new) }
        ensures looks { steps.new ≤ steps.old + 2 * length self.old.engine.rows.nodes }
        ensures by { D.by_disk disk.old disk.new }
        ensures only { OnErr result (result ≡ Err DiskFault) }
        ensures cause { HasCause (D.disk_faults disk.old) (D.disk_faults disk.new) result }
    {
        let image = change_half(
            &mut self.journal,
            disk,
            &self.engine,
            &mut self.buffer,
            steps,
        )?;
        self.image = image;
        self.is_old = false;
        Ok(())
    }
}
