//! The states of quotas, and the queue of those that wait for a scan.

ghost use Rattle.std.specs.Prelude.{◌≡◌, ◌≤◌, ◌<◌, true, false, length, IfErr, IsErrOf, OnOk, OnErr, Some, None};
ghost use Rattle.std.specs.List.{list_all};
ghost use Rattle.fsrm_model.specs.declared.row.QuotaRow.{QuotaRow};
ghost use Rattle.fsrm_model.specs.declared.row.QuotaState.TheVariants.{Rebuilding};
ghost use Rattle.fsrm_base.specs.Keyed.{has_row, is_ascending, row_of, with_row, with_change};
ghost use Rattle.fsrm_base.specs.Numbers.{is_in};
ghost use Rattle.fsrm_model.specs.values.Limits.{most_quotas};
ghost use Rattle.fsrm_model.specs.objects.Quota.{folder_of, counts, is_limit};
ghost use Rattle.fsrm_model.specs.objects.QuotaStates.{queued, in_state};
ghost use Rattle.fsrm_model.specs.objects.Thresholds.{are_thresholds, is_threshold, percent_of};
ghost use Rattle.fsrm_model.specs.nodes.Tree.{is_folder, usage};
ghost use Rattle.fsrm_model.specs.store.Valid.{is_moment};
ghost use Rattle.fsrm_objects.specs.Tables.{IsFault, quota_fault};
ghost use Rattle.fsrm_engine.specs.Faults.{text_room};
ghost use Rattle.fsrm_engine.specs.Machine.{IsSound, Turned};

use crate::parts::Parts;
use fsrm_model::{QuotaRow, QuotaState};
use fsrm_objects::ObjectFault;
use fsrm_parts::requeue;

impl Parts {
    /// Puts a quota on a folder, and its scan into the queue if it is rebuilding. If it counts, nothing
    /// may be used yet. An `Err` changes nothing.
    pub(crate) fn enlist(&mut self, row: QuotaRow) -> Result<(), ObjectFault>
        requires sound { IsSound self.old }
        requires folder { is_folder self.old.tree.nodes row.folder ≡ true }
        requires limit { is_limit row.limit ≡ true }
        requires ascending { is_ascending percent_of row.thresholds ≡ true }
        requires thresholds { list_all is_threshold row.thresholds ≡ true }
        requires moment { is_moment row.peak_at ≡ true }
        requires nothing { counts row ≡ true → usage self.old.tree.size self.old.tree.nodes row.folder ≡ 0 }
        requires waits { length self.old.scans.queue ≤ length self.old.objects.quotas }
        ensures listed { OnOk result (Turned self.old self.new (with_row folder_of row self.old.objects.quotas) (queued self.old.scans.queue row.folder row.state)) }
        ensures may { OnOk result (quota_fault self.old.objects row (text_room self.old) ≡ None) }
        ensures refused { IfErr result (λ fault. IsFault fault (quota_fault self.old.objects row (text_room self.old))) }
        ensures full { IsErrOf result ObjectFault.NoMemory → self.old.objects.room ≤ length self.old.objects.quotas }
        ensures err { OnErr result (self.new ≡ self.old) }
        ensures sound { IsSound self.new }
    {
        let folder = row.folder;
        let state = row.state;
        self.add(row)?;
        requeue(&mut self.scans, folder, state);
        Ok(())
    }

    /// Gives a folder this quota in place of the one that it has, with its peak. If it comes to count, nothing may be
    /// used yet.
    pub(crate) fn replace(&mut self, row: QuotaRow)
        requires sound { IsSound self.old }
        requires there { has_row folder_of row.folder self.old.objects.quotas ≡ true }
        requires folder { is_folder self.old.tree.nodes row.folder ≡ true }
        requires limit { is_limit row.limit ≡ true }
        requires thresholds { are_thresholds row.thresholds ≡ true }
        requires moment { is_moment row.peak_at ≡ true }
        requires peak { (quota : QuotaRow) → row_of folder_of row.folder self.old.objects.quotas ≡ Some quota → row.peak ≡ quota.peak }
        requires nothing { (quota : QuotaRow) → row_of folder_of row.folder self.old.objects.quotas ≡ Some quota → counts quota ≡ false → counts row ≡ true → usage self.old.tree.size self.old.tree.nodes row.folder ≡ 0 }
        requires few { is_in self.old.scans.queue row.folder ≡ false → length self.old.scans.queue < most_quotas }
        ensures replaced { Turned self.old self.new (with_change folder_of row.folder (λ old. row) self.old.objects.quotas) (queued self.old.scans.queue row.folder row.state) }
        ensures sound { IsSound self.new }
    {
        requeue(&mut self.scans, row.folder, row.state);
        self.put(row);
    }

    /// Has a folder's quota wait for its scan.
    pub(crate) fn rebuild(&mut self, folder: u32)
        requires sound { IsSound self.old }
        requires there { has_row folder_of folder self.old.objects.quotas ≡ true }
        requires folder { is_folder self.old.tree.nodes folder ≡ true }
        requires few { is_in self.old.scans.queue folder ≡ false → length self.old.scans.queue < most_quotas }
        ensures rebuilt { Turned self.old self.new (with_change folder_of folder (in_state Rebuilding) self.old.objects.quotas) (queued self.old.scans.queue folder Rebuilding) }
        ensures sound { IsSound self.new }
    {
        requeue(&mut self.scans, folder, QuotaState::Rebuilding);
        self.uncount(folder);
    }
}
