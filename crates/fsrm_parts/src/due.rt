//! The due actions of quotas that were noted as crossing a threshold: they run, and wait to be handed out.

ghost use Rattle.std.specs.Prelude.{◌≡◌, ℕ, ◌<◌, ◌≤◌, true, length};
ghost use Rattle.fsrm_base.specs.Numbers.{is_in, is_set};
ghost use Rattle.fsrm_model.specs.values.Limits.{most_entries};
ghost use Rattle.number_set.specs.Numbers.{no_numbers};
ghost use Rattle.thresholds.specs.Marked.{are_there};
ghost use Rattle.thresholds.specs.Settled.{Settles, are_orderly};
ghost use Rattle.fsrm_parts.specs.Crossing.{acts_at, gained_acts};

use crate::charging::{Gain, used_before};
use fsrm_objects::Objects;
use number_set::NumberSet;
use quota_usage::Usage;
use thresholds::Marks;

/// Settles the quotas whose places were noted, in the order of their folders. Each of their counters has gained this. The
/// run limit is in minutes, and stands for an action's -1.
pub fn settle_noted(
    usage: &Usage,
    objects: &mut Objects,
    marks: &mut Marks,
    crossing: &mut NumberSet,
    gain: Gain,
    run_limit: u32,
)
    requires orderly { are_orderly objects.old.quotas ≡ true }
    requires marked { are_there objects.old.quotas marks.old.numbers ≡ true }
    requires sorted { is_set marks.old.numbers ≡ true }
    requires log { length marks.old.log ≤ most_entries }
    requires noted { is_set crossing.old.members ≡ true }
    requires within { (place : ℕ) → is_in crossing.old.members place ≡ true → place < length objects.old.quotas }
    ensures settled { Settles marks.old marks.new objects.old objects.new gain.moment (acts_at (gained_acts usage.now gain.minus gain.plus run_limit gain.moment) objects.old.quotas crossing.old.members) }
    ensures sorted { is_set marks.new.numbers ≡ true }
    ensures none { crossing.new ≡ no_numbers crossing.old.bound }
{
    while let Some(place) = crossing.take_least() {
        let folder = objects.quota_at(place).folder;
        let used = usage.used(folder);
        let before = used.map(|now| used_before(gain.minus, gain.plus, now));
        let moment = gain.moment;
        marks.settle(objects, folder, None, before, used, run_limit, moment);
    }
}
