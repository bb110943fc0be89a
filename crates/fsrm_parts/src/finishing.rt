//! Which quotas are still to be counted.

ghost use Rattle.std.specs.Prelude.{◌≡◌, []};
ghost use Rattle.fsrm_model.specs.objects.QuotaStates.{state_of};
ghost use Rattle.fsrm_model.specs.store.Replays.{is_unfinished};
ghost use Rattle.fsrm_parts.specs.Places.{rows_with};

use fsrm_model::QuotaState;
use fsrm_objects::Objects;

// Whether a quota is still to be counted.
fn is_unfinished(state: QuotaState) -> bool
    ensures { result ≡ is_unfinished state }
{
    match state {
        QuotaState::Complete | QuotaState::Disabled => false,
        QuotaState::Rebuilding | QuotaState::Incomplete => true,
    }
}

/// Whether a folder has a quota that is still to be counted.
pub fn has_unfinished(objects: &Objects, folder: u32) -> bool
    ensures { result ≡ is_unfinished (state_of (rows_with [] objects.now) folder) }
{
    match objects.quota(folder) {
        None => false,
        Some(quota) => is_unfinished(quota.state),
    }
}
