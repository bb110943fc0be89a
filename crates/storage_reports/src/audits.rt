//! Entries of the audit log.

ghost use Rattle.std.specs.Prelude.{◌≡◌, true, IfOk, map, take};
ghost use Rattle.std.specs.Option.{option_map_or};
ghost use Rattle.file_screens.specs.Blocked.{shown};
ghost use Rattle.fsrm_model.specs.values.Patterns.{is_pattern};
ghost use Rattle.fsrm_model.specs.reports.Reports.{audit_row, audit_rows, audited_from, is_audited, is_recent};

use crate::ask::DAY;
use crate::asked::{passes_owner, passes_pattern, pattern_in};
use file_screens::{Audit, AuditView};
use fsrm_model::{Filter, List, NoMemory, ReportRow, Table};
use name_patterns::Pattern;
use std::alloc::Global;

// Whether a moment is one of the last so many days, if that is asked for.
fn is_recent(days: Option<u32>, moment: u64, past: u64) -> bool
    ensures { result ≡ is_recent days moment past }
{
    match days {
        Some(days) => moment.saturating_sub(DAY * u64::from(days)) <= past,
        None => true,
    }
}

// Whether an entry is asked for.
fn is_audited(asked: &Filter, pattern: &Option<Pattern>, moment: u64, entry: &AuditView<'_>) -> bool
    requires { pattern.now ≡ asked.now.pattern }
    ensures { result ≡ is_audited asked.now moment (shown entry.now) }
{
    passes_owner(asked, entry.owner)
        && passes_pattern(pattern, entry.name)
        && is_recent(asked.days, moment, entry.moment)
}

// The places of the entries that are asked for.
fn audited(
    alloc: Global,
    audit: &Audit,
    asked: &Filter,
    pattern: &Option<Pattern>,
    moment: u64,
) -> Result<Vec<u32>, NoMemory>
    requires { pattern.now ≡ asked.now.pattern }
    ensures { IfOk result (λ places. places.items ≡ audited_from asked.now moment 0 audit.now) }
{
    let mut places = Vec::new(alloc);
    for place in 0..audit.len() {
        if is_audited(asked, pattern, moment, &audit.at(place)) {
            places.push(place)?;
        }
    }
    Ok(places)
}

fn rows_of(alloc: Global, places: Vec<u32>) -> Result<List<ReportRow>, NoMemory>
    ensures { IfOk result (λ rows. rows ≡ map audit_row places.items) }
{
    let mut rows = List::new(alloc);
    for place in places {
        rows.push(ReportRow::Audit { place })?;
    }
    Ok(rows)
}

/// The first entries of the audit log that are asked for, the oldest first.
pub fn list_audits(
    alloc: Global,
    audit: &Audit,
    asked: &Filter,
    moment: u64,
) -> Result<Table, NoMemory>
    requires { option_map_or is_pattern asked.now.pattern true ≡ true }
    ensures { IfOk result (λ table. table.rows ≡ take asked.now.max (audit_rows asked.now moment audit.now)) }
{
    let pattern = pattern_in(alloc, &asked.pattern)?;
    let mut places = audited(alloc, audit, asked, &pattern, moment)?;
    places.truncate(asked.max as usize);
    let rows = rows_of(alloc, places)?;
    Ok(Table { rows })
}
