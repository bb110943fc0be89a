//! Laws of the definitions, and worked examples.

ghost use Rattle.report_schedule.specs.DueJobs.{due_numbers_ascend};
ghost use Rattle.report_schedule.specs.OccasionLaws.{daily_moments, due_moments, monthly_moments, named_days, weekly_moments};
ghost use Rattle.report_schedule.specs.Ticks.{runs_in_time};
ghost use Rattle.report_schedule.specs.WorkedSchedules.{first_daily, first_monthly, first_weekly, leap_year, made_then, ran_daily, ran_late, spelled_daily, spelled_monthly, spelled_never, spelled_weekly, unspelled};

/// A job that hasn't run runs at the first tick at or after a moment of its schedule.
pub fn ticks()
    ensures { runs_in_time }
{}

/// The numbers of due jobs ascend.
pub fn numbers()
    ensures { due_numbers_ascend }
{}

/// The moments of each kind of schedule, by days and by jiff's calendar, and what it is to be due.
pub fn occasions()
    ensures daily { daily_moments }
    ensures weekly { weekly_moments }
    ensures monthly { monthly_moments }
    ensures names { named_days }
    ensures due { due_moments }
{}

/// What worked examples of schedules spell, and when they are due.
pub fn worked_schedules()
    ensures spelled_daily { spelled_daily }
    ensures spelled_weekly { spelled_weekly }
    ensures spelled_monthly { spelled_monthly }
    ensures spelled_never { spelled_never }
    ensures unspelled { unspelled }
    ensures first_daily { first_daily }
    ensures first_weekly { first_weekly }
    ensures first_monthly { first_monthly }
    ensures ran_daily { ran_daily }
    ensures ran_late { ran_late }
    ensures made_then { made_then }
    ensures leap_year { leap_year }
{}
