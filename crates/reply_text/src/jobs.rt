//! Writes the list of report jobs.

ghost use Rattle.std.specs.Prelude.{◌≡◌, ◌+◌, ◌≤◌, ◌∷◌, [], Some};
ghost use Rattle.fsrm_base.specs.Keyed.{row_of};
ghost use Rattle.fsrm_model.specs.commands.Cost.{list_cost, path_cost};
ghost use Rattle.fsrm_model.specs.declared.command.Ask.TheVariants.{Jobs};
ghost use Rattle.fsrm_model.specs.objects.Jobs.{job_number};
ghost use Rattle.fsrm_model.specs.store.Valid.{IsValid};
ghost use Rattle.fsrm_model.specs.texts.Printed.{body_line};
ghost use Rattle.fsrm_model.specs.texts.ReportWords.{report_word};
ghost use Rattle.fsrm_model.specs.texts.Text.{list_lines};
ghost use Rattle.line_parts.specs.Writes.{Writes};
ghost use Rattle.reply_text.specs.ReportLines.{job_text, scope_text};

use crate::lines::write_labelled;
use fsrm_engine::Engine;
use fsrm_model::{JobRow, Ledger, ReportKind, Steps};
use fsrm_outside::Sink;
use line_parts::{Part, TextFault, send};
use std::alloc::Global;

fn report_word(kind: ReportKind) -> &'static [u8]
    ensures { result.now ≡ report_word kind }
{
    match kind {
        ReportKind::LargeFiles => b"LargeFiles",
        ReportKind::FilesByType => b"FilesByType",
        ReportKind::LeastRecentlyAccessed => b"LeastRecentlyAccessed",
        ReportKind::MostRecentlyAccessed => b"MostRecentlyAccessed",
        ReportKind::QuotaUsage => b"QuotaUsage",
        ReportKind::FilesByOwner => b"FilesByOwner",
        ReportKind::DuplicateFiles => b"DuplicateFiles",
        ReportKind::FileScreenAudit => b"FileScreenAudit",
    }
}

// Writes the first line of a job: what it makes, and its name.
fn write_name<S: Sink>(sink: &mut S, kind: ReportKind, name: &str) -> Result<(), TextFault>
    ensures writes { Writes S.Sink result sink.old sink.new (body_line (report_word kind ∷ name.now ∷ [])) }
{
    send(
        sink,
        &[
            Part::Text(b"  "),
            Part::Text(report_word(kind)),
            Part::Text(b" "),
            Part::Text(name.as_bytes()),
            Part::Text(b"\n"),
        ],
    )
}

// Writes the line of the folder that a job reports on, which has this path.
fn write_scope<S: Sink>(sink: &mut S, path: &str) -> Result<(), TextFault>
    ensures writes { Writes S.Sink result sink.old sink.new (scope_text path.now) }
{
    send(
        sink,
        &[
            Part::Text(b"    scope "),
            Part::Text(path.as_bytes()),
            Part::Text(b"\n"),
        ],
    )
}

// Writes the lines of a job: what it makes and its name, its folder, and its schedule.
fn write_job<S: Sink, L: Ledger>(
    alloc: Global,
    sink: &mut S,
    job: &JobRow,
    engine: &Engine,
    steps: &mut Steps<L>,
) -> Result<(), TextFault>
    requires store { IsValid engine.now.size engine.now.rows }
    requires own { row_of job_number job.now.number engine.now.rows.jobs ≡ Some job.now }
    ensures writes { Writes S.Sink result sink.old sink.new (job_text engine.now.rows.nodes job.now) }
    ensures looks { steps.new ≤ steps.old + path_cost engine.now.rows.nodes job.now.scope }
{
    let path = engine.path_text(alloc, job.scope, steps)?;
    write_name(sink, job.kind, job.name.as_str())?;
    write_scope(sink, path.as_str())?;
    write_labelled(sink, b"schedule", &job.schedule)
}

/// Writes the lines of all report jobs.
pub fn write_jobs<S: Sink, L: Ledger>(
    alloc: Global,
    sink: &mut S,
    engine: &Engine,
    steps: &mut Steps<L>,
) -> Result<(), TextFault>
    ensures writes { Writes S.Sink result sink.old sink.new (list_lines engine.now.size engine.now.rows Jobs) }
    ensures looks { steps.new ≤ steps.old + list_cost engine.now.rows Jobs }
{
    let objects = engine.objects();
    for place in 0..objects.job_count() {
        write_job(alloc, sink, objects.job_at(place), engine, steps)?;
    }
    Ok(())
}
