//! Quotas whose scans a store gives up: they are incomplete.

ghost use Rattle.std.specs.Prelude.{◌≡◌, true, map};
ghost use Rattle.fsrm_base.specs.Keyed.{is_ascending, with_change};
ghost use Rattle.fsrm_model.specs.store.Lasting.{flagged_quota};
ghost use Rattle.fsrm_model.specs.objects.Quota.{folder_of};
ghost use Rattle.fsrm_model.specs.objects.QuotaStates.{is_rebuilding};

use fsrm_model::QuotaState;
use fsrm_objects::Objects;

// Whether a quota is rebuilding.
fn is_rebuilding(state: QuotaState) -> bool
    ensures { result ≡ is_rebuilding state }
{
    match state {
        QuotaState::Rebuilding => true,
        QuotaState::Complete | QuotaState::Disabled | QuotaState::Incomplete => false,
    }
}

// Flags a folder's quota if it is rebuilding.
fn flag(objects: &mut Objects, folder: u32)
    requires { is_ascending folder_of objects.old.quotas ≡ true }
    ensures { objects.new ≡ record objects.old { quotas = with_change folder_of folder flagged_quota objects.old.quotas } }
{
    let Some(quota) = objects.quota(folder) else {
        return;
    };
    if is_rebuilding(quota.state) {
        objects.set_state(folder, QuotaState::Incomplete);
    }
}

/// Flags each quota that is rebuilding.
pub fn flag_all(objects: &mut Objects)
    requires { is_ascending folder_of objects.old.quotas ≡ true }
    ensures { objects.new ≡ record objects.old { quotas = map flagged_quota objects.old.quotas } }
{
    for place in 0..objects.quota_count() {
        let folder = objects.quota_at(place).folder;
        flag(objects, folder);
    }
}
