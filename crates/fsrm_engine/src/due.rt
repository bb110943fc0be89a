//! The actions of thresholds that a command makes due: they run, and wait to be handed out.

ghost use Rattle.std.specs.Prelude.{◌≡◌, ◌<◌, true};
ghost use Rattle.std.specs.Option.{option_copied};
ghost use Rattle.fsrm_base.specs.Keyed.{has_row};
ghost use Rattle.fsrm_model.specs.objects.Quota.{folder_of};
ghost use Rattle.quota_usage.specs.Counters.{used_in};
ghost use Rattle.thresholds.specs.Settled.{due_in};
ghost use Rattle.fsrm_engine.specs.Due.{MaySettle};
ghost use Rattle.fsrm_engine.specs.Machine.{AreCounted, Ran};

use crate::parts::Parts;
use fsrm_model::QuotaRow;

impl Parts {
    /// Has the actions of a folder's quota run that are due once it uses so much, where it used so much before; None is
    /// used if it doesn't count. `before` is the row as it was; None says that its limit and thresholds stayed.
    pub(crate) fn settle_used(
        &mut self,
        folder: u32,
        before: Option<&QuotaRow>,
        used: Option<u64>,
        now: Option<u64>,
        moment: u64,
    )
        requires may { MaySettle self.old moment }
        requires there { has_row folder_of folder self.old.objects.quotas ≡ true }
        ensures settled { Ran self.old self.new moment (due_in self.old.objects (option_copied before.entry) used now self.old.run_limit moment folder) }
        ensures counted { AreCounted self.new }
    {
        self.marks.settle(
            &mut self.objects,
            folder,
            before,
            used,
            now,
            self.run_limit,
            moment,
        );
    }

    /// Has the actions of a folder's quota run that are due, since a command changed its row, or what it uses. `before`
    /// is the row as it was; None says that its limit and thresholds stayed. What it used is None if it didn't count.
    pub(crate) fn settle_quota(
        &mut self,
        folder: u32,
        before: Option<&QuotaRow>,
        used: Option<u64>,
        moment: u64,
    )
        requires may { MaySettle self.old moment }
        requires there { has_row folder_of folder self.old.objects.quotas ≡ true }
        ensures settled { Ran self.old self.new moment (due_in self.old.objects (option_copied before.entry) used (used_in self.old.usage folder) self.old.run_limit moment folder) }
        ensures counted { AreCounted self.new }
    {
        let now = self.usage.used(folder);
        self.settle_used(folder, before, used, now, moment);
    }
}
