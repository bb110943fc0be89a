//! Quotas that count, the fullest first.

ghost use Rattle.std.specs.Prelude.{◌≡◌, ◌*◌, ◌/◌, ◌<◌, ◌≤◌, nat_le, true, length, IfOk, map, filter, take};
ghost use Rattle.fsrm_base.specs.Order.{in_order};
ghost use Rattle.fsrm_model.specs.values.Limits.{least_limit};
ghost use Rattle.storage_reports.specs.Quotas.{IsQuota, listed_percent};
ghost use Rattle.storage_reports.specs.Ranks.{ranked, stands_before};
ghost use Rattle.fsrm_model.specs.reports.Reports.{is_much_used, percent_used, quota_row, quota_rows};
ghost use Rattle.storage_reports.specs.Marks.{AreBelow};

use crate::ranked::{Ranked, keep_first, table_of};
use fsrm_engine::Engine;
use fsrm_model::{NoMemory, QuotaRow, ReportAsk, ReportRow, Table};
use std::alloc::Global;

// How many percent of a limit are used, rounded down.
fn percent_of(used: u64, limit: u64) -> u64
    requires { least_limit ≤ limit }
    ensures { result ≡ 100 * used / limit }
{
    (100 * u128::from(used) / u128::from(limit)) as u64
}

// Whether what is used comes up to a percentage of a limit.
fn comes_up_to(used: u64, limit: u64, percent: u32) -> bool
    ensures { result ≡ nat_le (percent * limit) (100 * used) }
{
    u128::from(percent) * u128::from(limit) <= 100 * u128::from(used)
}

// How many percent of a quota are used. None if it has no row: its folder isn't marked, it doesn't count, or less of it
// is used than is asked for.
fn listed_percent(engine: &Engine, ask: &ReportAsk, marks: &[bool], quota: &QuotaRow) -> Option<u64>
    requires quota { IsQuota engine.now.rows quota.now }
    requires below { AreBelow engine.now.rows.nodes ask.now.scope marks.now }
    requires within { quota.now.folder < length marks.now }
    ensures { result ≡ listed_percent engine.now.size engine.now.rows ask.now quota.now }
{
    if !marks[quota.folder as usize] {
        return None;
    }
    let used = engine.used(quota.folder)?;
    if !comes_up_to(used, quota.limit, ask.filter.min_use.unwrap_or(0)) {
        return None;
    }
    Some(percent_of(used, quota.limit))
}

// The quotas that have a row, those that come first among them.
fn listed(
    alloc: Global,
    engine: &Engine,
    ask: &ReportAsk,
    marks: &[bool],
) -> Result<Vec<Ranked>, NoMemory>
    requires below { AreBelow engine.now.rows.nodes ask.now.scope marks.now }
    requires len { length marks.now ≡ engine.now.size.nodes }
    ensures { IfOk result (λ rows. take ask.now.filter.max (in_order (stands_before true) rows.items) ≡ take ask.now.filter.max (in_order (stands_before true) (map (ranked (percent_used engine.now.size engine.now.rows) (quota_row engine.now.size engine.now.rows)) (filter (is_much_used engine.now.size engine.now.rows ask.now) engine.now.rows.quotas)))) }
{
    let objects = engine.objects();
    let mut rows = Vec::new(alloc);
    for place in 0..objects.quota_count() {
        let quota = objects.quota_at(place);
        if let Some(percent) = listed_percent(engine, ask, marks, quota) {
            let row = ReportRow::Quota {
                folder: quota.folder,
                percent,
            };
            keep_first(
                &mut rows,
                Ranked {
                    rank: percent,
                    second: 0,
                    row,
                },
                true,
                ask.filter.max,
            )?;
        }
    }
    Ok(rows)
}

/// The first quotas that count and stand at or below the marked folder, the fullest first.
pub fn list_quotas(
    alloc: Global,
    engine: &Engine,
    ask: &ReportAsk,
    marks: &[bool],
) -> Result<Table, NoMemory>
    requires below { AreBelow engine.now.rows.nodes ask.now.scope marks.now }
    requires len { length marks.now ≡ engine.now.size.nodes }
    ensures { IfOk result (λ table. table.rows ≡ take ask.now.filter.max (quota_rows engine.now.size engine.now.rows ask.now)) }
{
    let rows = listed(alloc, engine, ask, marks)?;
    table_of(alloc, rows, true, ask.filter.max)
}
