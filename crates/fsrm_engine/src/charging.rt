//! What file operations do to counters and peaks: which quotas cross a threshold then, and what a quota refuses.

ghost use Rattle.std.specs.Prelude.{◌≡◌, ◌+◌, ◌*◌, ◌<◌, ◌≤◌, Some, true, length};
ghost use Rattle.fsrm_base.specs.Keyed.{has_row};
ghost use Rattle.fsrm_model.specs.values.Limits.{most_entries};
ghost use Rattle.fsrm_model.specs.objects.Quota.{folder_of};
ghost use Rattle.fsrm_model.specs.store.Valid.{IsVolume};
ghost use Rattle.quota_usage.specs.Charge.{IsChange, Fits, height};
ghost use Rattle.quota_usage.specs.Counters.{counted};
ghost use Rattle.thresholds.specs.Settled.{are_orderly};
ghost use Rattle.fsrm_parts.specs.Crossing.{IsCovered};
ghost use Rattle.fsrm_engine.specs.Due.{charged_acts, Refuses};
ghost use Rattle.fsrm_engine.specs.Machine.{charged_parts, AreCounted, IsCalm, IsReady, Ran};

use crate::parts::Parts;
use fsrm_model::{Answer, Ledger, Outcome, Steps};
use fsrm_parts::{Gain, drop_kept, exceeded_by, gain_above, refused, settle_noted};
use quota_usage::{Change, Exceeded};

impl Parts {
    /// Makes a change of the counters, raises the peaks of the folders that gained, and has the actions run that are
    /// due.
    pub(crate) fn charge<L: Ledger>(&mut self, change: &Change, moment: u64, steps: &mut Steps<L>)
        requires volume { IsVolume self.old.tree.size self.old.tree.nodes }
        requires quotas { are_orderly self.old.objects.quotas ≡ true }
        requires change { IsChange self.old.tree.nodes change.now }
        requires fits { Fits self.old.tree.nodes self.old.usage change.now }
        requires covered { IsCovered self.old.tree.nodes self.old.usage change.now }
        requires calm { IsCalm self.old }
        requires log { length self.old.marks.log ≤ most_entries }
        ensures charged { Ran (charged_parts self.old change.now moment) self.new moment (charged_acts self.old change.now moment) }
        ensures looks { steps.new ≤ steps.old + 3 * (height self.old.tree.nodes change.now.from + height self.old.tree.nodes change.now.to) }
    {
        let minus = self.usage.take(&self.tree, change, steps);
        let Some(to) = change.to else {
            return;
        };
        let gain = Gain {
            minus,
            plus: change.plus,
            moment,
        };
        gain_above(
            &self.tree,
            &mut self.usage,
            &mut self.objects,
            &mut self.crossing,
            to,
            gain,
            steps,
        );
        drop_kept(
            &self.tree,
            &self.objects,
            &mut self.crossing,
            change,
            to,
            steps,
        );
        settle_noted(
            &self.usage,
            &mut self.objects,
            &mut self.marks,
            &mut self.crossing,
            gain,
            self.run_limit,
        );
    }

    /// The answer to an operation that a quota refuses. If actions are due of the thresholds that the quota would have
    /// reached they run, and the command lasts; else nothing changes.
    pub(crate) fn refuse(&mut self, exceeded: Exceeded, moment: u64) -> Answer
        requires ready { IsReady self.old moment }
        requires there { has_row folder_of exceeded.folder self.old.objects.quotas ≡ true }
        ensures refused { Refuses self.old self.new moment exceeded result }
        ensures counted { AreCounted self.new }
    {
        let used = self.usage.used(exceeded.folder);
        self.settle_used(exceeded.folder, None, used, Some(exceeded.would), moment);
        let refusal = exceeded_by(exceeded);
        if self.marks.is_empty() {
            return refused(refusal);
        }
        self.end(moment);
        Answer {
            outcome: Outcome::Refused(refusal),
            lasting: true,
        }
    }
}
