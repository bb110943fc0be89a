//! When a threshold is reached, and when an action may run.

ghost use Rattle.std.specs.Prelude.{◌≡◌, ◌<◌, length, slice_get, option_map, Some, unwrap_or};
ghost use Rattle.std.specs.Option.{option_copied};
ghost use Rattle.fsrm_base.specs.Keyed.{has_row};
ghost use Rattle.fsrm_model.specs.objects.DueActions.{minutes_of, ready};
ghost use Rattle.fsrm_model.specs.objects.Reached.{reaches, has_reached};
ghost use Rattle.fsrm_model.specs.objects.Thresholds.{percent_of};
ghost use Rattle.thresholds.specs.Settled.{crosses, crosses_any};

use fsrm_model::{Action, QuotaRow, Threshold};

/// Whether what is used comes up to a percentage of a limit; both in bytes. None, which a quota uses that doesn't
/// count, comes up to none.
pub fn reached(limit: u64, percent: u16, used: Option<u64>) -> bool
    ensures { result ≡ reaches limit percent used }
{
    match used {
        None => false,
        Some(bytes) => u128::from(percent) * u128::from(limit) <= 100 * u128::from(bytes),
    }
}

/// Whether an action may run at a moment: it never ran, or its minutes have passed since its last run. If it has none
/// of its own (-1) they are the run limit.
pub fn ready(action: &Action, run_limit: u32, moment: u64) -> bool
    ensures { result ≡ ready run_limit moment action.now }
{
    match action.last_run {
        None => true,
        Some(run) => {
            let seconds = 60 * u64::from(minutes(action.minutes, run_limit));
            run <= moment && seconds <= moment - run
        }
    }
}

fn minutes(own: i32, run_limit: u32) -> u32
    ensures { result ≡ minutes_of run_limit own }
{
    if own < 0 {
        run_limit
    } else {
        own.unsigned_abs()
    }
}

// Whether a quota has a threshold of a percentage that is reached.
fn has_reached(quota: &QuotaRow, percent: u16, used: Option<u64>) -> bool
    ensures { result ≡ has_reached quota.now percent used }
{
    has_percent(quota.thresholds.as_slice(), percent) && reached(quota.limit, percent, used)
}

/// Whether a percentage is among the thresholds.
pub fn has_percent(thresholds: &[Threshold], percent: u16) -> bool
    ensures { result ≡ has_row percent_of percent thresholds.now }
{
    thresholds
        .iter()
        .any(|threshold| threshold.percent == percent)
}

/// Whether a command crosses a percentage of a quota: it is reached now, and wasn't before. `before` is the row as it
/// was then; None says that its limit and thresholds were the same.
pub fn crosses(
    quota: &QuotaRow,
    percent: u16,
    before: Option<&QuotaRow>,
    used_before: Option<u64>,
    used_after: Option<u64>,
) -> bool
    ensures { result ≡ crosses (option_copied before.entry) used_before used_after quota.now percent }
{
    has_reached(quota, percent, used_after)
        && !has_reached(before.unwrap_or(quota), percent, used_before)
}

/// Whether a quota that counts, and used so much before and uses so much now, crosses one of its thresholds: it is
/// reached now, and wasn't before. Both are in bytes.
pub fn crosses_any(quota: &QuotaRow, before: u64, now: u64) -> bool
    ensures { result ≡ crosses_any quota.now before now }
{
    // What is used must rise to reach anything new.
    if now <= before {
        return false;
    }
    quota.thresholds.as_slice().iter().any(|threshold| {
        reached(quota.limit, threshold.percent, Some(now))
            && !reached(quota.limit, threshold.percent, Some(before))
    })
}
