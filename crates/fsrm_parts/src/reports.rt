//! Report jobs that commands make, and the outcome of a report.

ghost use Rattle.std.specs.Prelude.{◌≡◌, unwrap_or, [], None, IfOk};
ghost use Rattle.fsrm_model.specs.declared.command.Outcome.TheVariants.{Report};
ghost use Rattle.fsrm_parts.specs.Jobs.{blank_job};

use fsrm_model::{
    Boxed, Duplicate, Filter, JobRow, NewJob, NoMemory, Outcome, ReportAsk, ReportKind, Text,
};
use std::alloc::Global;

/// The outcome of a command that makes a report.
pub fn report_of(
    alloc: Global,
    kind: ReportKind,
    scope: u32,
    filter: &Filter,
) -> Result<Outcome, NoMemory>
    ensures { IfOk result (λ outcome. outcome ≡ Report (record { kind = kind; scope = scope; filter = filter.now })) }
{
    let filter = filter.copy(alloc)?;
    let ask = ReportAsk {
        kind,
        scope,
        filter,
    };
    Ok(Outcome::Report(Boxed::new(alloc, ask)?))
}

// The schedule of a new job, which is empty if none is given.
fn schedule_of(alloc: Global, schedule: &Option<Text>) -> Result<Text, NoMemory>
    ensures { IfOk result (λ text. text ≡ unwrap_or schedule.now []) }
{
    match schedule {
        Some(schedule) => schedule.copy(alloc),
        None => Text::from_str(alloc, ""),
    }
}

/// A new report job on a folder, whose number is to come. It never ran.
pub fn new_job(alloc: Global, job: &NewJob, scope: u32, moment: u64) -> Result<JobRow, NoMemory>
    ensures { IfOk result (λ row. row ≡ blank_job scope moment job.now) }
{
    Ok(JobRow {
        number: 0,
        name: job.name.copy(alloc)?,
        kind: job.kind,
        scope,
        filter: job.filter.copy(alloc)?,
        schedule: schedule_of(alloc, &job.schedule)?,
        made: moment,
        last_run: None,
    })
}
