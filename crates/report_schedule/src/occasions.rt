//! The moments of a schedule.

ghost use Rattle.std.specs.Prelude.{◌≡◌, ◌≤◌, true, pos, IfSome, IfNone};
ghost use Rattle.jiff_core.specs.Date.{epoch_day};
ghost use Rattle.fsrm_model.specs.values.Limits.{latest_moment};
ghost use Rattle.report_schedule.specs.Occasions.{HasNone, IsNext, is_month_day, is_on, is_schedule, moment_on};

use crate::schedule::Schedule;
use jiff_core::civil::{Date, days_in_month};

const SECONDS_OF_A_DAY: u64 = 86_400;

// The days from 1970-01-01 to 2099-12-31.
const DAYS: u32 = 47_482;

// The days from -9999-01-01 to 1970-01-01.
const DAYS_TO_1970: u32 = 4_371_587;

// Whether a day is this one of its month, or the last one of a month that is shorter.
fn is_month_day(place: u8, day: u32) -> bool
    requires { day ≤ 47481 }
    ensures { result ≡ is_month_day place day }
{
    let date = Date::from_days_since_min(DAYS_TO_1970 + day);
    date.day == place.min(days_in_month(date.year, date.month))
}

// Whether a schedule is for a day, if its job was made on that other day.
fn is_on(schedule: &Schedule, made: u32, day: u32) -> bool
    requires schedule { is_schedule schedule.now ≡ true }
    requires day { day ≤ 47481 }
    ensures { result ≡ is_on schedule.now made day }
{
    match *schedule {
        Schedule::Never => false,
        Schedule::Daily { every, .. } => made <= day && (day - made) % u32::from(every) == 0,
        Schedule::Weekly { days, .. } => (days >> ((day + 3) % 7)) % 2 == 1,
        Schedule::Monthly { day: place, .. } => is_month_day(place, day),
    }
}

// The moment of a day at which its job would run.
fn moment_on(schedule: &Schedule, day: u32) -> u64
    ensures { result ≡ moment_on schedule.now day }
{
    let minute = match *schedule {
        Schedule::Never => 0,
        Schedule::Daily { minute, .. }
        | Schedule::Weekly { minute, .. }
        | Schedule::Monthly { minute, .. } => minute,
    };
    SECONDS_OF_A_DAY * u64::from(day) + 60 * u64::from(minute)
}

/// The first moment of a schedule after `base`, if its job was made at `made`; a schedule has moments after `made` alone.
/// None if there is none up to the end of 2099. All moments are seconds since 1970-01-01 00:00:00 UTC, up to
/// 4,102,444,799.
pub fn next_after(schedule: &Schedule, made: u64, base: u64) -> Option<u64>
    requires schedule { is_schedule schedule.now ≡ true }
    requires made { made ≤ latest_moment }
    requires base { base ≤ latest_moment }
    ensures some { IfSome result (IsNext schedule.now made base) }
    ensures none { IfNone result (HasNone schedule.now made base) }
{
    // Any other schedule that a text spells has a moment in each 366 days, so the loop passes few of them.
    if let Schedule::Never = schedule {
        return None;
    }
    let after = made.max(base);
    let made_day = (made / SECONDS_OF_A_DAY) as u32;
    for day in (after / SECONDS_OF_A_DAY) as u32..DAYS {
        let moment = moment_on(schedule, day);
        if after < moment && is_on(schedule, made_day, day) {
            return Some(moment);
        }
    }
    None
}
