//! Writes the lines of a list.

ghost use Rattle.std.specs.Prelude.{◌≡◌, ◌+◌, ◌≤◌, Some, flat_map, sum_by};
ghost use Rattle.fsrm_model.specs.declared.command.Ask.TheVariants.{Acts, Quotas, Settings};
ghost use Rattle.fsrm_model.specs.declared.command.Outcome.TheVariants.{Listing};
ghost use Rattle.fsrm_model.specs.commands.Cost.{list_cost, path_cost};
ghost use Rattle.fsrm_base.specs.Keyed.{row_of};
ghost use Rattle.fsrm_model.specs.values.Limits.{latest_moment};
ghost use Rattle.fsrm_model.specs.meaning.Named.{IsNamed};
ghost use Rattle.fsrm_model.specs.texts.Printed.{type_word};
ghost use Rattle.fsrm_model.specs.objects.Quota.{folder_of};
ghost use Rattle.fsrm_model.specs.texts.Text as Words;
ghost use Rattle.fsrm_model.specs.texts.Text.{list_lines};
ghost use Rattle.fsrm_model.specs.store.Valid.{IsValid};
ghost use Rattle.line_parts.specs.Moments.{moment_text};
ghost use Rattle.reply_text.specs.Lines.{used_word, quota_text, lines_text};
ghost use Rattle.line_parts.specs.Parts.{part_text};
ghost use Rattle.line_parts.specs.Writes.{Writes};

use crate::actions::write_thresholds;
use crate::acts::write_log;
use crate::groups::write_groups;
use crate::jobs::write_jobs;
use crate::quota_templates::{write_autos, write_templates};
use crate::screens::{write_excepts, write_screens};
use fsrm_engine::Engine;
use fsrm_model::{Ask, Ledger, QuotaRow, QuotaState, Steps};
use fsrm_outside::Sink;
use line_parts::{Part, TextFault, moment_text, send};
use std::alloc::Global;

/// The type of a quota or of a template.
pub fn type_word(enforce: bool) -> &'static [u8]
    ensures { result.now ≡ type_word enforce }
{
    if enforce { b"hard" } else { b"soft" }
}

fn state_word(state: QuotaState) -> &'static [u8]
    ensures { result.now ≡ Words.state_word state }
{
    match state {
        QuotaState::Complete => b"complete",
        QuotaState::Disabled => b"disabled",
        QuotaState::Rebuilding => b"rebuilding",
        QuotaState::Incomplete => b"incomplete",
    }
}

// What is used, in bytes, if the quota counts.
fn used_part<'a>(used: Option<u64>) -> Part<'a>
    ensures { part_text result ≡ used_word used }
{
    match used {
        Some(bytes) => Part::Number(bytes),
        None => Part::Text(b"-"),
    }
}

// Writes the line of a quota. Its folder has this usage and this path, and the moment of its peak has this text.
fn write_line<'a, S: Sink>(
    sink: &mut S,
    quota: &QuotaRow,
    used: Option<u64>,
    peak_at: &'a [u8],
    path: &'a str,
) -> Result<(), TextFault>
    requires { peak_at.now ≡ moment_text quota.now.peak_at }
    ensures writes { Writes S.Sink result sink.old sink.new (quota_text quota.now used path.now) }
{
    send(
        sink,
        &[
            Part::Text(b"  "),
            Part::Number(quota.limit),
            Part::Text(b" "),
            Part::Text(type_word(quota.enforce)),
            Part::Text(b" "),
            Part::Text(state_word(quota.state)),
            Part::Text(b" "),
            used_part(used),
            Part::Text(b" "),
            Part::Number(quota.peak),
            Part::Text(b" "),
            Part::Text(peak_at),
            Part::Text(b" "),
            Part::Text(path.as_bytes()),
            Part::Text(b"\n"),
        ],
    )
}

// Writes the line of a quota whose folder has this usage and this path.
fn write_row<S: Sink>(
    sink: &mut S,
    quota: &QuotaRow,
    used: Option<u64>,
    path: &str,
) -> Result<(), TextFault>
    requires { quota.now.peak_at ≤ latest_moment }
    ensures writes { Writes S.Sink result sink.old sink.new (quota_text quota.now used path.now) }
{
    write_line(sink, quota, used, &moment_text(quota.peak_at), path)
}

// Writes the lines of a quota.
fn write_quota<S: Sink, L: Ledger>(
    alloc: Global,
    sink: &mut S,
    quota: &QuotaRow,
    engine: &Engine,
    steps: &mut Steps<L>,
) -> Result<(), TextFault>
    requires store { IsValid engine.now.size engine.now.rows }
    requires own { row_of folder_of quota.now.folder engine.now.rows.quotas ≡ Some quota.now }
    ensures writes { Writes S.Sink result sink.old sink.new (lines_text engine.now.size engine.now.rows.nodes quota.now) }
    ensures looks { steps.new ≤ steps.old + path_cost engine.now.rows.nodes quota.now.folder }
{
    let path = engine.path_text(alloc, quota.folder, steps)?;
    let used = engine.used(quota.folder);
    write_row(sink, quota, used, path.as_str())?;
    write_thresholds(sink, quota.thresholds.as_slice())
}

// Writes the lines of all quotas.
fn write_quotas<S: Sink, L: Ledger>(
    alloc: Global,
    sink: &mut S,
    engine: &Engine,
    steps: &mut Steps<L>,
) -> Result<(), TextFault>
    ensures writes { Writes S.Sink result sink.old sink.new (flat_map (lines_text engine.now.size engine.now.rows.nodes) engine.now.rows.quotas) }
    ensures looks { steps.new ≤ steps.old + sum_by (λ quota. path_cost engine.now.rows.nodes quota.folder) engine.now.rows.quotas }
{
    let objects = engine.objects();
    for place in 0..objects.quota_count() {
        write_quota(alloc, sink, objects.quota_at(place), engine, steps)?;
    }
    Ok(())
}

// Writes the lines of a folder's quota, or those of all quotas.
fn write_asked<S: Sink, L: Ledger>(
    alloc: Global,
    sink: &mut S,
    folder: Option<u32>,
    engine: &Engine,
    steps: &mut Steps<L>,
) -> Result<(), TextFault>
    requires { IsNamed engine.now.rows (Listing (Quotas folder)) }
    ensures writes { Writes S.Sink result sink.old sink.new (list_lines engine.now.size engine.now.rows (Quotas folder)) }
    ensures looks { steps.new ≤ steps.old + list_cost engine.now.rows (Quotas folder) }
{
    match folder {
        None => write_quotas(alloc, sink, engine, steps),
        Some(folder) => {
            let quota = engine.objects().quota(folder).unwrap();
            write_quota(alloc, sink, quota, engine, steps)
        }
    }
}

// Writes what the engine is set to, how many scans wait, and how full the store is.
fn write_settings<S: Sink>(sink: &mut S, engine: &Engine) -> Result<(), TextFault>
    ensures writes { Writes S.Sink result sink.old sink.new (list_lines engine.now.size engine.now.rows Settings) }
{
    let settings = engine.settings();
    let tree = engine.tree();
    let size = tree.capacity();
    send(
        sink,
        &[
            Part::Text(b"  runlimit "),
            Part::Number(u64::from(settings.run_limit)),
            Part::Text(b"\n  scans "),
            Part::Number(u64::from(settings.scans)),
            Part::Text(b"\n  nodes "),
            Part::Number(u64::from(tree.count())),
            Part::Text(b" "),
            Part::Number(u64::from(size.nodes)),
            Part::Text(b"\n  names "),
            Part::Number(u64::from(tree.name_bytes())),
            Part::Text(b" "),
            Part::Number(u64::from(size.names)),
            Part::Text(b"\n"),
        ],
    )
}

/// Writes the lines of a list.
pub fn write_list<S: Sink, L: Ledger>(
    alloc: Global,
    sink: &mut S,
    ask: &Ask,
    engine: &Engine,
    steps: &mut Steps<L>,
) -> Result<(), TextFault>
    requires { IsNamed engine.now.rows (Listing ask.now) }
    ensures writes { Writes S.Sink result sink.old sink.new (list_lines engine.now.size engine.now.rows ask.now) }
    ensures looks { steps.new ≤ steps.old + list_cost engine.now.rows ask.now }
{
    match *ask {
        Ask::Quotas(folder) => write_asked(alloc, sink, folder, engine, steps),
        Ask::Templates => write_templates(sink, engine),
        Ask::Autos => write_autos(alloc, sink, engine, steps),
        Ask::Groups => write_groups(sink, engine),
        Ask::Screens => write_screens(alloc, sink, engine, steps),
        Ask::Excepts => write_excepts(alloc, sink, engine, steps),
        Ask::Jobs => write_jobs(alloc, sink, engine, steps),
        Ask::Settings => write_settings(sink, engine),
        Ask::Acts => write_log(sink, engine.marks()),
    }
}
