//! Rows of report jobs.

ghost use Rattle.std.specs.Prelude.{◌≡◌, ◌≤◌, true, length};
ghost use Rattle.record_fields.specs.Readers.{Gives};
ghost use Rattle.record_fields.specs.Writers.{Writes};
ghost use Rattle.image_codec.specs.Parts.{filter_meets, job_meets};
ghost use Rattle.image_codec.specs.Rows.{filter as filter_format, job as job_format};

use crate::parts::{Part, put_maybe};
use fsrm_model::{Filter, JobRow};
use record_codec::ReportKindField;
use record_fields::{Field, FieldFault, Reader, TextField, U32Field, U64Field, read_optional};
use std::alloc::Global;

#[tactic(auto, unfolding(record_fields::specs::Formats::known_at))]
fn read_filter(alloc: Global, reader: &mut Reader<'_>) -> Result<Filter, FieldFault>
    ensures { Gives result reader.new (filter_format.read reader.old) }
{
    let owner = read_optional::<U32Field>(alloc, reader, false)?;
    let pattern = read_optional::<TextField>(alloc, reader, false)?;
    let min_size = read_optional::<U64Field>(alloc, reader, false)?;
    let days = read_optional::<U32Field>(alloc, reader, false)?;
    let min_use = read_optional::<U32Field>(alloc, reader, false)?;
    let max = reader.read_u32()?;
    Ok(Filter {
        owner,
        pattern,
        min_size,
        days,
        min_use,
        max,
    })
}

fn put_filter(filter: &Filter, into: &mut [u8], at: usize) -> usize
    requires { at ≤ length into.old }
    ensures written { Writes into.old at into.new result (filter_format.spell filter.now) }
    ensures legal { filter_meets filter.now ≡ true → filter_format.legal filter.now ≡ true }
{
    let owner_end = put_maybe::<U32Field>(&filter.owner, into, at);
    let pattern_end = put_maybe::<TextField>(&filter.pattern, into, owner_end);
    let size_end = put_maybe::<U64Field>(&filter.min_size, into, pattern_end);
    let days_end = put_maybe::<U32Field>(&filter.days, into, size_end);
    let use_end = put_maybe::<U32Field>(&filter.min_use, into, days_end);
    U32Field::put(&filter.max, into, use_end)
}

/// A report job.
pub struct JobField;

impl Field for JobField {
    type Value = JobRow;

    ghost format = { job_format };

    #[tactic(auto, unfolding(record_fields::specs::Formats::known_at))]
    fn read(alloc: Global, reader: &mut Reader<'_>) -> Result<JobRow, FieldFault> {
        let number = reader.read_u32()?;
        let name = TextField::read(alloc, reader)?;
        let kind = ReportKindField::read(alloc, reader)?;
        let scope = reader.read_u32()?;
        let filter = read_filter(alloc, reader)?;
        let schedule = TextField::read(alloc, reader)?;
        let made = reader.read_u64()?;
        let last_run = read_optional::<U64Field>(alloc, reader, false)?;
        Ok(JobRow {
            number,
            name,
            kind,
            scope,
            filter,
            schedule,
            made,
            last_run,
        })
    }

    fn write(value: &JobRow, into: &mut [u8], at: usize) -> usize {
        put_job(value, into, at)
    }
}

pub fn put_job(job: &JobRow, into: &mut [u8], at: usize) -> usize
    requires { at ≤ length into.old }
    ensures written { Writes into.old at into.new result (job_format.spell job.now) }
    ensures legal { job_meets job.now ≡ true → job_format.legal job.now ≡ true }
{
    let number_end = U32Field::put(&job.number, into, at);
    let name_end = TextField::put(&job.name, into, number_end);
    let kind_end = ReportKindField::put(&job.kind, into, name_end);
    let scope_end = U32Field::put(&job.scope, into, kind_end);
    let filter_end = put_filter(&job.filter, into, scope_end);
    let schedule_end = TextField::put(&job.schedule, into, filter_end);
    let made_end = U64Field::put(&job.made, into, schedule_end);
    put_maybe::<U64Field>(&job.last_run, into, made_end)
}
