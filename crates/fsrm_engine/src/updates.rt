//! The actions that are due of quotas which a template's change reached.

ghost use Rattle.std.specs.Prelude.{◌≡◌, ◌≤◌, true, flat_map, length};
ghost use Rattle.std.specs.List.{AllByRecursion, list_all};
ghost use Rattle.fsrm_base.specs.Keyed.{has_row, is_ascending};
ghost use Rattle.fsrm_model.specs.values.Limits.{most_entries};
ghost use Rattle.fsrm_model.specs.objects.Quota.{folder_of};
ghost use Rattle.templates.specs.Reached.{were};
ghost use Rattle.fsrm_engine.specs.Due.{MaySettle};
ghost use Rattle.fsrm_parts.specs.Updated.{updated_acts, HasNow};
ghost use Rattle.fsrm_engine.specs.Machine.{AreCounted, Ran};

use crate::parts::Parts;
use fsrm_parts::settle_rows;
use templates::Reached;

impl Parts {
    /// Has the actions run that are due of quotas that had these rows before a template's change, whose thresholds stand
    /// apart if they have them now.
    pub(crate) fn settle_reached(&mut self, before: &mut Reached, moment: u64)
        requires may { MaySettle self.old moment }
        requires log { length self.old.marks.log ≤ most_entries }
        requires there { list_all (λ row. has_row folder_of row.folder self.old.objects.quotas) (were before.old) ≡ true }
        requires ascending { is_ascending folder_of (were before.old) ≡ true }
        requires now { AllByRecursion (HasNow before.old.thresholds self.old.objects.quotas) (were before.old) }
        ensures settled { Ran self.old self.new moment (flat_map (updated_acts self.old.objects self.old.usage self.old.run_limit moment) (were before.old)) }
        ensures counted { AreCounted self.new }
    {
        settle_rows(
            &self.usage,
            &mut self.objects,
            &mut self.marks,
            &mut before.rows,
            &mut before.thresholds,
            self.run_limit,
            moment,
        );
    }
}
