//! Whether a job is due.

ghost use Rattle.std.specs.Prelude.{◌≡◌, ◌≤◌, true};
ghost use Rattle.fsrm_model.specs.values.Limits.{latest_moment};
ghost use Rattle.report_schedule.specs.DueJobs as Due;
ghost use Rattle.report_schedule.specs.DueJobs.{base_of};
ghost use Rattle.report_schedule.specs.Occasions.{is_schedule};

use crate::occasions::next_after;
use crate::reading::read_schedule;
use crate::schedule::Schedule;
use fsrm_model::JobRow;

// Whether a schedule has a moment after `base` and not after `moment`.
fn is_due(schedule: &Schedule, made: u64, base: u64, moment: u64) -> bool
    requires schedule { is_schedule schedule.now ≡ true }
    requires made { made ≤ latest_moment }
    requires base { base ≤ latest_moment }
    ensures { result ≡ Due.is_due schedule.now made base moment }
{
    match next_after(schedule, made, base) {
        Some(next) => next <= moment,
        None => false,
    }
}

/// Whether a job is due at a moment: since its last run, or since it was made if it hasn't run, a moment of its schedule
/// has come. A job whose text spells no schedule is never due. The job's own moments are at most 4,102,444,799.
pub fn is_due_job(job: &JobRow, moment: u64) -> bool
    requires made { job.now.made ≤ latest_moment }
    requires base { base_of job.now ≤ latest_moment }
    ensures { result ≡ Due.is_due_job moment job.now }
{
    match read_schedule(job.schedule.as_str()) {
        Ok(schedule) => {
            let base = job.last_run.unwrap_or(job.made);
            is_due(&schedule, job.made, base, moment)
        }
        Err(_) => false,
    }
}
