//! What a report is asked for.

ghost use Rattle.std.specs.Prelude.{◌≡◌, ◌*◌, ◌<◌, unwrap_or};
ghost use Rattle.fsrm_model.specs.reports.Reports.{day, report_of};

use fsrm_model::{FileList, Filter, Report, ReportKind};

/// The seconds of a day.
pub const DAY: u64 = 86_400;

fn days(asked: Option<u32>, default: u64) -> u64
    requires { default < 1000 }
    ensures { result ≡ day * unwrap_or asked default }
{
    match asked {
        Some(days) => DAY * u64::from(days),
        None => DAY * default,
    }
}

/// The report of a kind, with what it is asked for.
pub fn report_of(kind: ReportKind, asked: &Filter) -> Report
    ensures { result ≡ report_of asked.now kind }
{
    match kind {
        ReportKind::LargeFiles => {
            let least = asked.min_size.unwrap_or(5_242_880);
            Report::Lists(FileList::Large { least })
        }
        ReportKind::LeastRecentlyAccessed => {
            let seconds = days(asked.days, 90);
            Report::Lists(FileList::Unused { seconds })
        }
        ReportKind::MostRecentlyAccessed => {
            let seconds = days(asked.days, 7);
            Report::Lists(FileList::Used { seconds })
        }
        ReportKind::FilesByOwner => Report::Owners,
        ReportKind::FilesByType => Report::Types,
        ReportKind::DuplicateFiles => Report::Doubles,
        ReportKind::QuotaUsage => Report::Quotas,
        ReportKind::FileScreenAudit => Report::Audits,
    }
}
