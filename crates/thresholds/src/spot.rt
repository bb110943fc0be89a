//! Where an action of a quota stands, and its number.

ghost use Rattle.std.specs.Prelude.{◌≡◌, ◌+◌, ◌*◌, ◌<◌};
ghost use Rattle.fsrm_model.specs.values.Limits.{most_actions, most_quotas, most_thresholds};
ghost use Rattle.thresholds.specs.Marked.{action_place, most_marks, most_of_quota, quota_place, threshold_place};

use fsrm_model::limits::{MOST_ACTIONS, MOST_QUOTAS, MOST_THRESHOLDS};

// How many actions a threshold may have, a quota, and all quotas together.
const PER_THRESHOLD: u32 = MOST_ACTIONS as u32;

const PER_QUOTA: u32 = MOST_THRESHOLDS as u32 * PER_THRESHOLD;

pub(crate) const MOST_MARKS: u32 = MOST_QUOTAS as u32 * PER_QUOTA;

/// Where an action stands: the places of its quota among all quotas, of its threshold among those of the quota, and its
/// own among those of the threshold. They are the digits of the action's number.
#[derive(Clone, Copy)]
pub(crate) struct Spot {
    pub(crate) quota: u32,
    pub(crate) threshold: u32,
    pub(crate) action: u32,
}

impl Spot {
    /// Where the action of a number stands.
    pub(crate) fn of(number: u32) -> Spot
        ensures quota { result.quota ≡ quota_place number }
        ensures threshold { result.threshold ≡ threshold_place number }
        ensures action { result.action ≡ action_place number }
    {
        Spot {
            quota: number / PER_QUOTA,
            threshold: number % PER_QUOTA / PER_THRESHOLD,
            action: number % PER_THRESHOLD,
        }
    }

    /// The number of the action that stands there.
    pub(crate) fn number(self) -> u32
        requires quota { self.quota < most_quotas }
        requires threshold { self.threshold < most_thresholds }
        requires action { self.action < most_actions }
        ensures { result ≡ self.quota * most_of_quota + self.threshold * most_actions + self.action }
    {
        self.quota * PER_QUOTA + self.threshold * PER_THRESHOLD + self.action
    }
}
