//! Schedules.

/// When a report job runs. A minute is one of the day, in UTC: 0 to 1,439.
#[derive(Clone, Copy, Debug, PartialEq, Eq)]
pub enum Schedule {
    Never,
    /// On the day on which the job was made, and then every so many days, 1 to 366.
    Daily { minute: u16, every: u16 },
    /// On these days of the week: bit 0 is Monday, bit 6 is Sunday.
    Weekly { minute: u16, days: u8 },
    /// On this day of each month, 1 to 31, or on the month's last one if it is shorter.
    Monthly { minute: u16, day: u8 },
}

/// A text that spells no schedule.
#[derive(Clone, Copy, Debug, PartialEq, Eq)]
pub struct BadSchedule;
