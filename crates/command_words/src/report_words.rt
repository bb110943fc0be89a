//! What reports are about, and the schedules of report jobs, in the values of options.

ghost use Rattle.std.specs.Prelude.{◌≡◌};
ghost use Rattle.fsrm_model.specs.texts.ReportWords.{report_from, report_named, report_word, schedule_from};
ghost use Rattle.command_words.specs.LineFaults.{Reads};

use crate::fault::LineFault;
use crate::values::is_named;
use fsrm_model::{Refusal, ReportKind, Text};
use std::alloc::Global;
use text_rules::is_schedule;

const KINDS: [ReportKind; 8] = [
    ReportKind::LargeFiles,
    ReportKind::FilesByType,
    ReportKind::LeastRecentlyAccessed,
    ReportKind::MostRecentlyAccessed,
    ReportKind::QuotaUsage,
    ReportKind::FilesByOwner,
    ReportKind::DuplicateFiles,
    ReportKind::FileScreenAudit,
];

fn report_word(kind: ReportKind) -> &'static str
    ensures { result.now ≡ report_word kind }
{
    match kind {
        ReportKind::LargeFiles => "LargeFiles",
        ReportKind::FilesByType => "FilesByType",
        ReportKind::LeastRecentlyAccessed => "LeastRecentlyAccessed",
        ReportKind::MostRecentlyAccessed => "MostRecentlyAccessed",
        ReportKind::QuotaUsage => "QuotaUsage",
        ReportKind::FilesByOwner => "FilesByOwner",
        ReportKind::DuplicateFiles => "DuplicateFiles",
        ReportKind::FileScreenAudit => "FileScreenAudit",
    }
}

fn report_named(word: &str) -> Option<ReportKind>
    ensures { result ≡ report_named word.now }
{
    KINDS
        .iter()
        .find(|kind| is_named(report_word(**kind), word))
        .copied()
}

/// The report that a text of a word at this column names, in letters of either case.
pub fn read_report(text: &str, column: u32) -> Result<ReportKind, LineFault>
    ensures { Reads result (report_from column text.now) }
{
    report_named(text).ok_or(LineFault::bad_line(column))
}

/// Reads a text as the schedule of a report job: at most 200 bytes, no control character.
pub fn read_schedule(alloc: Global, text: &str) -> Result<Text, LineFault>
    ensures { Reads result (schedule_from text.now) }
{
    if !is_schedule(text) {
        return Err(LineFault::Refused(Refusal::InvalidName));
    }
    Ok(Text::from_str(alloc, text)?)
}
