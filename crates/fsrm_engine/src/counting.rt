//! Quotas that come, change and go, with their counters.

ghost use Rattle.std.specs.Prelude.{◌≡◌, ◌≤◌, ◌<◌, IfErr, IsErrOf, OnOk, OnErr, Some, None, true, false, length};
ghost use Rattle.std.specs.List.{list_all};
ghost use Rattle.fsrm_model.specs.declared.row.QuotaRow.{QuotaRow};
ghost use Rattle.fsrm_model.specs.declared.row.QuotaState.TheVariants.{Rebuilding};
ghost use Rattle.fsrm_base.specs.Keyed.{has_row, is_ascending, row_of, with_row, with_change, without_row};
ghost use Rattle.fsrm_model.specs.objects.Quota.{folder_of, counts, is_limit};
ghost use Rattle.fsrm_model.specs.objects.QuotaStates.{in_state};
ghost use Rattle.fsrm_model.specs.objects.Thresholds.{are_thresholds, is_threshold, percent_of};
ghost use Rattle.fsrm_model.specs.nodes.Tree.{is_folder, usage};
ghost use Rattle.fsrm_model.specs.store.Valid.{is_moment};
ghost use Rattle.fsrm_objects.specs.Tables.{IsFault, other_fault, quota_fault};
ghost use Rattle.quota_usage.specs.Counters.{counted};
ghost use Rattle.fsrm_engine.specs.Due.{Completes, MaySettle};
ghost use Rattle.fsrm_engine.specs.Faults.{text_room};
ghost use Rattle.fsrm_engine.specs.Machine.{AreCounted, recounted};

use crate::parts::Parts;
use fsrm_model::limits::MOST_TEXT_BYTES;
use fsrm_model::{QuotaRow, QuotaState};
use fsrm_objects::ObjectFault;
use fsrm_parts::{drop_quota, end_count, raise_peak, recount};

impl Parts {
    /// How many bytes of objects' texts may still come.
    pub(crate) fn room(&self) -> u32
        ensures { result ≡ text_room self.now }
    {
        MOST_TEXT_BYTES
            .saturating_sub(self.objects.texts())
            .saturating_sub(self.groups.texts())
            .saturating_sub(self.templates.texts())
    }

    /// Puts a quota on a folder. If it counts, nothing may be used yet. An `Err` changes nothing.
    pub(crate) fn add(&mut self, row: QuotaRow) -> Result<(), ObjectFault>
        requires counted { AreCounted self.old }
        requires folder { is_folder self.old.tree.nodes row.folder ≡ true }
        requires limit { is_limit row.limit ≡ true }
        requires ascending { is_ascending percent_of row.thresholds ≡ true }
        requires thresholds { list_all is_threshold row.thresholds ≡ true }
        requires moment { is_moment row.peak_at ≡ true }
        requires nothing { counts row ≡ true → usage self.old.tree.size self.old.tree.nodes row.folder ≡ 0 }
        ensures added { OnOk result (self.new ≡ recounted self.old (with_row folder_of row self.old.objects.quotas)) }
        ensures may { OnOk result (quota_fault self.old.objects row (text_room self.old) ≡ None) }
        ensures refused { IfErr result (λ fault. IsFault fault (quota_fault self.old.objects row (text_room self.old))) }
        ensures full { IsErrOf result ObjectFault.NoMemory → self.old.objects.room ≤ length self.old.objects.quotas }
        ensures err { OnErr result (self.new ≡ self.old) }
        ensures counted { AreCounted self.new }
    {
        let folder = row.folder;
        let counting = row.state.counts();
        let room = self.room();
        self.objects.add_quota(row, room)?;
        recount(&mut self.usage, folder, counting);
        Ok(())
    }

    /// Takes a folder's quota away.
    pub(crate) fn take_away(&mut self, folder: u32)
        requires counted { AreCounted self.old }
        ensures taken { self.new ≡ recounted self.old (without_row folder_of folder self.old.objects.quotas) }
        ensures counted { AreCounted self.new }
    {
        drop_quota(&mut self.usage, &mut self.objects, folder);
    }

    /// Whether a quota may take the place of the one that its folder has.
    pub(crate) fn may_put(&self, row: &QuotaRow) -> Result<(), ObjectFault>
        requires there { has_row folder_of row.now.folder self.now.objects.quotas ≡ true }
        requires thresholds { list_all is_threshold row.now.thresholds ≡ true }
        ensures may { OnOk result (other_fault self.now.objects row.now (text_room self.now) ≡ None) }
        ensures refused { IfErr result (λ fault. other_fault self.now.objects row.now (text_room self.now) ≡ Some fault) }
    {
        self.objects.may_set(row, self.room())
    }

    /// Gives a folder this quota in place of the one that it has, with its peak. If it comes to count, nothing may be
    /// used yet. Whether there is room for its texts isn't asked (`may_put`).
    pub(crate) fn put(&mut self, mut row: QuotaRow)
        requires counted { AreCounted self.old }
        requires there { has_row folder_of row.folder self.old.objects.quotas ≡ true }
        requires limit { is_limit row.limit ≡ true }
        requires thresholds { are_thresholds row.thresholds ≡ true }
        requires moment { is_moment row.peak_at ≡ true }
        requires peak { (quota : QuotaRow) → row_of folder_of row.folder self.old.objects.quotas ≡ Some quota → row.peak ≡ quota.peak }
        requires nothing { (quota : QuotaRow) → row_of folder_of row.folder self.old.objects.quotas ≡ Some quota → counts quota ≡ false → counts row ≡ true → usage self.old.tree.size self.old.tree.nodes row.folder ≡ 0 }
        ensures put { self.new ≡ recounted self.old (with_change folder_of row.folder (λ quota. row) self.old.objects.quotas) }
        ensures counted { AreCounted self.new }
    {
        recount(&mut self.usage, row.folder, row.state.counts());
        self.objects.put_quota(&mut row);
    }

    /// Has a folder's quota count no longer until it is scanned.
    pub(crate) fn uncount(&mut self, folder: u32)
        requires counted { AreCounted self.old }
        requires there { has_row folder_of folder self.old.objects.quotas ≡ true }
        ensures rebuilt { self.new ≡ recounted self.old (with_change folder_of folder (in_state Rebuilding) self.old.objects.quotas) }
        ensures counted { AreCounted self.new }
    {
        end_count(&mut self.usage, folder);
        self.objects.set_state(folder, QuotaState::Rebuilding);
    }

    /// A folder's quota, which didn't count, counts from now on, beginning with what is used. That ends the command:
    /// the quota's peak may rise, the actions run of the thresholds that it reaches, and the moment is the last one.
    pub(crate) fn complete(&mut self, folder: u32, used: u64, moment: u64)
        requires may { MaySettle self.old moment }
        requires there { has_row folder_of folder self.old.objects.quotas ≡ true }
        requires uncounted { (quota : QuotaRow) → row_of folder_of folder self.old.objects.quotas ≡ Some quota → counts quota ≡ false }
        requires used { used ≡ usage self.old.tree.size self.old.tree.nodes folder }
        ensures completed { Completes self.old self.new folder moment }
        ensures counted { AreCounted self.new }
    {
        self.objects.set_state(folder, QuotaState::Complete);
        self.usage.begin(folder, used);
        raise_peak(&self.usage, &mut self.objects, folder, moment);
        self.settle_quota(folder, None, None, moment);
        self.end(moment);
    }
}
