//! When report jobs run (MS-FSRM, IFsrmReportJob): schedules as texts spell them, the moments of a schedule, and whether
//! a job is due.
//!
//! A job runs at the first tick of a clock at or after each moment of its schedule. A tick is a moment at which somebody
//! asks which jobs are due; nothing here waits for one.
#![tactic(auto)]

mod due;
pub mod laws;
mod occasions;
mod reading;
mod runs;
mod schedule;

pub use due::is_due_job;
pub use occasions::next_after;
pub use reading::read_schedule;
pub use runs::{due_runs, unread_names};
pub use schedule::{BadSchedule, Schedule};
