//! The civil date and the time of a moment, in UTC.

ghost use Rattle.std.specs.Prelude.{◌≡◌, ◌+◌, ◌<◌, ◌≤◌, pos};
ghost use Rattle.jiff_core.specs.Date.{epoch_day};
ghost use Rattle.fsrm_model.specs.values.Date as Dates;
ghost use Rattle.fsrm_model.specs.values.Date.{day_text};
ghost use Rattle.fsrm_model.specs.values.Limits.{latest_moment};
ghost use Rattle.line_parts.specs.Moments.{moment_text};

use jiff_core::civil::Date;

const SECONDS_OF_A_DAY: u64 = 86_400;

// The bytes of a date.
const DATE_BYTES: usize = 10;

// The bytes of a date, a space and a time.
const MOMENT_BYTES: usize = 19;

// The days from -9999-01-01 to 1970-01-01.
const DAYS_TO_1970: u32 = 4_371_587;

// The date of a day since 1970-01-01.
fn date_of(day: u32) -> Date
    requires { day ≤ 47481 }
    ensures { epoch_day result ≡ pos day }
{
    Date::from_days_since_min(DAYS_TO_1970 + day)
}

fn digit(value: u32) -> u8
    requires { value < 10 }
    ensures { result ≡ 48 + value }
{
    b'0' + value as u8
}

// The date of a day since 1970-01-01 as YYYY-MM-DD, in ASCII. The day is at most 47,481, that is, 2099-12-31.
fn date_text(day: u32) -> [u8; DATE_BYTES]
    requires { day ≤ 47481 }
    ensures { result ≡ day_text (Dates.date_of day) }
{
    let date = date_of(day);
    let (year, month, day) = (
        u32::from(date.year.unsigned_abs()),
        u32::from(date.month),
        u32::from(date.day),
    );
    [
        digit(year / 100 / 10),
        digit(year / 100 % 10),
        digit(year % 100 / 10),
        digit(year % 100 % 10),
        b'-',
        digit(month / 10),
        digit(month % 10),
        b'-',
        digit(day / 10),
        digit(day % 10),
    ]
}

// A second of a day as hh:mm:ss, in ASCII. It is below 86,400.
fn time_text(second: u32) -> [u8; 8]
    requires { second < 86400 }
    ensures { result ≡ Dates.time_text second }
{
    let (hours, minutes, seconds) = (second / 3600, second / 60 % 60, second % 60);
    [
        digit(hours / 10),
        digit(hours % 10),
        b':',
        digit(minutes / 10),
        digit(minutes % 10),
        b':',
        digit(seconds / 10),
        digit(seconds % 10),
    ]
}

/// The date and the time of a moment as YYYY-MM-DD hh:mm:ss, in ASCII. The moment is in seconds since 1970-01-01
/// 00:00:00 UTC, at most 4,102,444,799.
pub fn moment_text(moment: u64) -> [u8; MOMENT_BYTES]
    requires { moment ≤ latest_moment }
    ensures { result ≡ moment_text moment }
{
    let date = date_text((moment / SECONDS_OF_A_DAY) as u32);
    let time = time_text((moment % SECONDS_OF_A_DAY) as u32);
    let mut text = [b' '; MOMENT_BYTES];
    text[..DATE_BYTES].copy_from_slice(&date);
    text[DATE_BYTES + 1..].copy_from_slice(&time);
    text
}
