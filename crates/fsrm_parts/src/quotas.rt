//! Quotas that commands make or change.

ghost use Rattle.std.specs.Prelude.{◌≡◌, true, IfOk, None};
ghost use Rattle.fsrm_base.specs.Keyed.{is_ascending};
ghost use Rattle.fsrm_model.specs.objects.QuotaStates.{is_disabled};
ghost use Rattle.fsrm_model.specs.commands.QuotaWork.{new_quota, modified, remarked};
ghost use Rattle.fsrm_model.specs.objects.Thresholds.{percent_of};

use crate::threshold_lists::changed_thresholds;
use fsrm_model::{List, NewThresholds, NoMemory, QuotaRow, QuotaState};
use std::alloc::Global;

/// A hard quota without thresholds, whose limit is to come.
pub fn new_quota(alloc: Global, folder: u32, state: QuotaState, moment: u64) -> QuotaRow
    ensures { result ≡ new_quota folder 0 true state moment }
{
    QuotaRow {
        folder,
        limit: 0,
        enforce: true,
        state,
        thresholds: List::new(alloc),
        template: None,
        peak: 0,
        peak_at: moment,
    }
}

/// Whether a quota of this state is disabled.
#[inline]
pub fn is_disabled(state: QuotaState) -> bool
    ensures { result ≡ is_disabled state }
{
    state == QuotaState::Disabled
}

/// A quota with another limit, or of another type, if these are given; of its thresholds some are removed, and then some
/// are added.
pub fn modified(
    alloc: Global,
    quota: &QuotaRow,
    limit: Option<u64>,
    enforce: Option<bool>,
    removed: &List<u16>,
    added: &NewThresholds,
) -> Result<QuotaRow, NoMemory>
    requires { is_ascending percent_of quota.now.thresholds ≡ true }
    ensures { IfOk result (λ row. row ≡ remarked removed.now added.now (modified limit enforce quota.now)) }
{
    Ok(QuotaRow {
        folder: quota.folder,
        limit: limit.unwrap_or(quota.limit),
        enforce: enforce.unwrap_or(quota.enforce),
        state: quota.state,
        thresholds: changed_thresholds(alloc, removed, added, &quota.thresholds)?,
        template: quota.template,
        peak: quota.peak,
        peak_at: quota.peak_at,
    })
}
