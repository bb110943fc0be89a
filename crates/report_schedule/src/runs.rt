//! What a tick is to do.

ghost use Rattle.std.specs.Prelude.{◌≡◌, ◌++◌, ◌∷◌, [], true, IfOk, OnOk};
ghost use Rattle.std.specs.List.{list_all};
ghost use Rattle.fsrm_model.specs.objects.Jobs.{is_job};
ghost use Rattle.report_schedule.specs.DueJobs.{due_runs, unread_names};

use crate::due::is_due_job;
use crate::reading::read_schedule;
use fsrm_base::{Duplicate, Text};
use fsrm_model::{Boxed, Command, Deed, JobRow, NoMemory, ReportsDeed};
use fsrm_objects::Objects;
use std::alloc::Global;

// Adds the command that runs a job, if the job is due.
fn add_run(
    alloc: Global,
    runs: &mut Vec<Command>,
    job: &JobRow,
    moment: u64,
) -> Result<(), NoMemory>
    requires { is_job job.now ≡ true }
    ensures { OnOk result (runs.new.items ≡ runs.old.items ++ due_runs moment (job.now ∷ [])) }
{
    if !is_due_job(job, moment) {
        return Ok(());
    }
    let name = job.name.copy(alloc)?;
    let deed = Deed::Reports(Boxed::new(alloc, ReportsDeed::Run { name })?);
    runs.push(Command { moment, deed })?;
    Ok(())
}

/// The commands that run the jobs which are due at a moment, in the order of the jobs' numbers.
pub fn due_runs(alloc: Global, objects: &Objects, moment: u64) -> Result<Vec<Command>, NoMemory>
    requires { list_all is_job objects.now.jobs ≡ true }
    ensures { IfOk result (λ runs. runs.items ≡ due_runs moment objects.now.jobs) }
{
    let mut runs = Vec::new(alloc);
    for place in 0..objects.job_count() {
        add_run(alloc, &mut runs, objects.job_at(place), moment)?;
    }
    Ok(runs)
}

// Adds the name of a job, if the job's text spells no schedule.
fn add_unread(alloc: Global, names: &mut Vec<Text>, job: &JobRow) -> Result<(), NoMemory>
    ensures { OnOk result (names.new.items ≡ names.old.items ++ unread_names (job.now ∷ [])) }
{
    match read_schedule(job.schedule.as_str()) {
        Ok(_) => Ok(()),
        Err(_) => {
            names.push(job.name.copy(alloc)?)?;
            Ok(())
        }
    }
}

/// The names of the jobs whose texts spell no schedule, in the order of the jobs' numbers.
pub fn unread_names(alloc: Global, objects: &Objects) -> Result<Vec<Text>, NoMemory>
    ensures { IfOk result (λ names. names.items ≡ unread_names objects.now.jobs) }
{
    let mut names = Vec::new(alloc);
    for place in 0..objects.job_count() {
        add_unread(alloc, &mut names, objects.job_at(place))?;
    }
    Ok(names)
}
