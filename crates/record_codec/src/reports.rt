//! Commands on report jobs.

ghost use Rattle.std.specs.Prelude.{◌≡◌, ◌≤◌, true, length};
ghost use Rattle.record_fields.specs.Readers.{Gives};
ghost use Rattle.record_fields.specs.Writers.{Writes};
ghost use Rattle.record_codec.specs.Reports.{job_kind, job_deed, job_spelled, job_typed, new_job, new_job_typed};

use crate::fields::{ObjectNameField, ScheduleField};
use crate::filters::{ReportKindField, put_filter, read_filter};
use crate::paths::{PathField, put_path};
use crate::typed::{OwnText, Typed, put_some};
use fsrm_model::{NewJob, ReportsDeed};
use record_fields::{Field, FieldFault, Reader, put_u8, read_optional};
use std::alloc::Global;

/// The kinds of commands on report jobs.
#[derive(Clone, Copy, Debug, PartialEq, Eq)]
pub enum JobKind {
    Add,
    Delete,
    Run,
}

impl JobKind {
    /// The kind that a byte means, if it is one of these.
    pub fn of(byte: u8) -> Option<JobKind>
        ensures { result ≡ job_kind byte }
    {
        match byte {
            70 => Some(JobKind::Add),
            71 => Some(JobKind::Delete),
            72 => Some(JobKind::Run),
            _ => None,
        }
    }
}

/// Reads the values of a command on report jobs of this kind.
#[tactic(auto, unfolding(record_fields::specs::Formats::known_at))]
pub fn read_job_deed(
    alloc: Global,
    reader: &mut Reader<'_>,
    kind: JobKind,
) -> Result<ReportsDeed, FieldFault>
    ensures { Gives result reader.new ((job_deed kind).read reader.old) }
{
    Ok(match kind {
        JobKind::Add => ReportsDeed::Add(read_new_job(alloc, reader)?),
        JobKind::Delete => ReportsDeed::Delete {
            name: ObjectNameField::read(alloc, reader)?,
        },
        JobKind::Run => ReportsDeed::Run {
            name: ObjectNameField::read(alloc, reader)?,
        },
    })
}

#[tactic(auto, unfolding(record_fields::specs::Formats::known_at))]
fn read_new_job(alloc: Global, reader: &mut Reader<'_>) -> Result<NewJob, FieldFault>
    ensures { Gives result reader.new (new_job.read reader.old) }
{
    let name = ObjectNameField::read(alloc, reader)?;
    let kind = ReportKindField::read(alloc, reader)?;
    let scope = PathField::read(alloc, reader)?;
    let schedule = read_optional::<ScheduleField>(alloc, reader, false)?;
    let filter = read_filter(alloc, reader)?;
    Ok(NewJob {
        name,
        kind,
        scope,
        schedule,
        filter,
    })
}

/// Writes a command on report jobs, if its entry has a kind: the kind, and its values.
pub fn put_job_deed(deed: &ReportsDeed, into: &mut [u8], at: usize) -> usize
    requires { at ≤ length into.old }
    ensures written { Writes into.old at into.new result (job_spelled deed.now) }
    ensures typed { job_typed deed.now ≡ true }
{
    match deed {
        ReportsDeed::Add(new) => {
            let after = put_u8(into, at, 70);
            put_new_job(new, into, after)
        }
        ReportsDeed::Delete { name } => {
            let after = put_u8(into, at, 71);
            OwnText::put(name, into, after)
        }
        ReportsDeed::Run { name } => {
            let after = put_u8(into, at, 72);
            OwnText::put(name, into, after)
        }
        // No journal keeps another.
        _ => at,
    }
}

fn put_new_job(new: &NewJob, into: &mut [u8], at: usize) -> usize
    requires { at ≤ length into.old }
    ensures written { Writes into.old at into.new result (new_job.spell new.now) }
    ensures typed { new_job_typed new.now ≡ true }
{
    let name_end = OwnText::put(&new.name, into, at);
    let kind_end = ReportKindField::write(&new.kind, into, name_end);
    let scope_end = put_path(&new.scope, into, kind_end);
    let schedule_end = put_some::<OwnText>(&new.schedule, into, scope_end);
    put_filter(&new.filter, into, schedule_end)
}
