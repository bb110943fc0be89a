//! Writes the rows of reports.

ghost use Rattle.std.specs.Prelude.{◌≡◌, ◌+◌, ◌≤◌, ◌<◌, ◌∷◌, [], Some, true, decimal, flat_map, length};
ghost use Rattle.std.specs.List.{list_all};
ghost use Rattle.fsrm_model.specs.commands.Cost.{row_cost, rows_cost};
ghost use Rattle.fsrm_model.specs.store.Valid.{IsValid, are_audits};
ghost use Rattle.fsrm_model.specs.texts.Printed.{body_line};
ghost use Rattle.fsrm_model.specs.texts.ReportText.{type_word_of};
ghost use Rattle.fsrm_model.specs.texts.ScreenText.{mode_word};
ghost use Rattle.fsrm_model.specs.values.Limits.{latest_moment};
ghost use Rattle.line_parts.specs.Moments.{moment_text};
ghost use Rattle.line_parts.specs.Parts.{part_text};
ghost use Rattle.line_parts.specs.Writes.{Writes};
ghost use Rattle.node_table.specs.Views.{seen};
ghost use Rattle.reply_text.specs.ReportLines.{audit_text, file_text, is_counted, is_there, row_text, usage_text};

use crate::lines::write_word;
use crate::screens::mode_word;
use file_screens::{Audit, AuditView};
use fsrm_engine::Engine;
use fsrm_model::{Ledger, QuotaRow, ReportKind, ReportRow, Steps};
use fsrm_outside::Sink;
use line_parts::{Part, TextFault, moment_text, send};
use std::alloc::Global;
use volume_tree::NodeView;

// ---- files

// Writes the row of a large file: its length, what it takes, whose it is, and its path.
fn write_large<S: Sink>(
    sink: &mut S,
    node: &NodeView<'_>,
    alloc: u64,
    path: &str,
) -> Result<(), TextFault>
    ensures writes { Writes S.Sink result sink.old sink.new (body_line (decimal node.now.length ∷ decimal alloc ∷ decimal node.now.owner ∷ path.now ∷ [])) }
{
    send(
        sink,
        &[
            Part::Text(b"  "),
            Part::Number(node.length),
            Part::Text(b" "),
            Part::Number(alloc),
            Part::Text(b" "),
            Part::Number(u64::from(node.owner)),
            Part::Text(b" "),
            Part::Text(path.as_bytes()),
            Part::Text(b"\n"),
        ],
    )
}

// Writes the row of a file by the moment when it was accessed, which has this text.
fn write_accessed<'a, S: Sink>(
    sink: &mut S,
    moment: &'a [u8],
    length: u64,
    path: &'a str,
) -> Result<(), TextFault>
    ensures writes { Writes S.Sink result sink.old sink.new (body_line (moment.now ∷ decimal length ∷ path.now ∷ [])) }
{
    send(
        sink,
        &[
            Part::Text(b"  "),
            Part::Text(moment),
            Part::Text(b" "),
            Part::Number(length),
            Part::Text(b" "),
            Part::Text(path.as_bytes()),
            Part::Text(b"\n"),
        ],
    )
}

// Writes the row of a file that may be another one, too. The moment of its last change has this text.
fn write_double<'a, S: Sink>(
    sink: &mut S,
    length: u64,
    moment: &'a [u8],
    path: &'a str,
) -> Result<(), TextFault>
    ensures writes { Writes S.Sink result sink.old sink.new (body_line (decimal length ∷ moment.now ∷ path.now ∷ [])) }
{
    send(
        sink,
        &[
            Part::Text(b"  "),
            Part::Number(length),
            Part::Text(b" "),
            Part::Text(moment),
            Part::Text(b" "),
            Part::Text(path.as_bytes()),
            Part::Text(b"\n"),
        ],
    )
}

// Writes the row of a file, which takes so many bytes, and has this path.
fn write_file<S: Sink>(
    sink: &mut S,
    kind: ReportKind,
    node: &NodeView<'_>,
    alloc: u64,
    path: &str,
) -> Result<(), TextFault>
    requires accessed { node.now.accessed ≤ latest_moment }
    requires modified { node.now.modified ≤ latest_moment }
    ensures writes { Writes S.Sink result sink.old sink.new (file_text kind alloc (seen node.now) path.now) }
{
    match kind {
        ReportKind::LargeFiles => write_large(sink, node, alloc, path),
        ReportKind::LeastRecentlyAccessed | ReportKind::MostRecentlyAccessed => {
            write_accessed(sink, &moment_text(node.accessed), node.length, path)
        }
        ReportKind::DuplicateFiles => {
            write_double(sink, node.length, &moment_text(node.modified), path)
        }
        // No report of these kinds has rows of files.
        ReportKind::FilesByType
        | ReportKind::FilesByOwner
        | ReportKind::QuotaUsage
        | ReportKind::FileScreenAudit => write_word(sink, path),
    }
}

// ---- groups of files

fn type_word(name: &str) -> &[u8]
    ensures { result.now ≡ type_word_of name.now }
{
    if name.is_empty() {
        b"(none)"
    } else {
        name.as_bytes()
    }
}

// Writes the row of some files: what they have in common, how many there are, the sum of their lengths, and what they
// take.
fn write_sums<S: Sink>(
    sink: &mut S,
    group: Part<'_>,
    files: u64,
    lengths: u64,
    alloc: u64,
) -> Result<(), TextFault>
    ensures writes { Writes S.Sink result sink.old sink.new (body_line (part_text group.entry ∷ decimal files ∷ decimal lengths ∷ decimal alloc ∷ [])) }
{
    send(
        sink,
        &[
            Part::Text(b"  "),
            group,
            Part::Text(b" "),
            Part::Number(files),
            Part::Text(b" "),
            Part::Number(lengths),
            Part::Text(b" "),
            Part::Number(alloc),
            Part::Text(b"\n"),
        ],
    )
}

// ---- quotas

// Writes the row of a quota, of which so many bytes are used, and whose folder has this path.
fn write_usage<S: Sink>(
    sink: &mut S,
    quota: &QuotaRow,
    used: u64,
    percent: u64,
    path: &str,
) -> Result<(), TextFault>
    ensures writes { Writes S.Sink result sink.old sink.new (body_line (decimal quota.now.limit ∷ decimal used ∷ decimal percent ∷ decimal quota.now.peak ∷ path.now ∷ [])) }
{
    send(
        sink,
        &[
            Part::Text(b"  "),
            Part::Number(quota.limit),
            Part::Text(b" "),
            Part::Number(used),
            Part::Text(b" "),
            Part::Number(percent),
            Part::Text(b" "),
            Part::Number(quota.peak),
            Part::Text(b" "),
            Part::Text(path.as_bytes()),
            Part::Text(b"\n"),
        ],
    )
}

// Writes the row of the quota of a folder, which counts.
fn write_quota<S: Sink>(
    sink: &mut S,
    engine: &Engine,
    folder: u32,
    percent: u64,
    path: &str,
) -> Result<(), TextFault>
    requires { is_counted engine.now.rows folder ≡ true }
    ensures writes { Writes S.Sink result sink.old sink.new (usage_text engine.now.size engine.now.rows folder percent path.now) }
{
    let quota = engine.objects().quota(folder).unwrap();
    let used = engine.used(folder).unwrap();
    write_usage(sink, quota, used, percent, path)
}

// ---- the audit log

// Writes the row of an entry, whose moment has this text.
fn write_judged<'a, S: Sink>(
    sink: &mut S,
    entry: &AuditView<'a>,
    moment: &'a [u8],
) -> Result<(), TextFault>
    ensures writes { Writes S.Sink result sink.old sink.new (body_line (moment.now ∷ mode_word entry.now.active ∷ decimal entry.now.owner ∷ decimal entry.now.folder ∷ decimal entry.now.screen ∷ entry.now.name.now ∷ [])) }
{
    send(
        sink,
        &[
            Part::Text(b"  "),
            Part::Text(moment),
            Part::Text(b" "),
            Part::Text(mode_word(entry.active)),
            Part::Text(b" "),
            Part::Number(u64::from(entry.owner)),
            Part::Text(b" "),
            Part::Number(u64::from(entry.folder)),
            Part::Text(b" "),
            Part::Number(u64::from(entry.screen)),
            Part::Text(b" "),
            Part::Text(entry.name.as_bytes()),
            Part::Text(b"\n"),
        ],
    )
}

// Writes the row of the entry at a place.
fn write_entry<S: Sink>(sink: &mut S, audit: &Audit, place: u32) -> Result<(), TextFault>
    requires entries { are_audits audit.now ≡ true }
    requires within { place < length audit.now }
    ensures writes { Writes S.Sink result sink.old sink.new (audit_text audit.now place) }
{
    let entry = audit.at(place);
    write_judged(sink, &entry, &moment_text(entry.moment))
}

// ---- all rows

// Writes a row of a report of some kind.
fn write_row<S: Sink, L: Ledger>(
    alloc: Global,
    sink: &mut S,
    kind: ReportKind,
    row: &ReportRow,
    engine: &Engine,
    steps: &mut Steps<L>,
) -> Result<(), TextFault>
    requires store { IsValid engine.now.size engine.now.rows }
    requires there { is_there engine.now.rows row.now ≡ true }
    ensures writes { Writes S.Sink result sink.old sink.new (row_text engine.now.size engine.now.rows kind row.now) }
    ensures looks { steps.new ≤ steps.old + row_cost engine.now.rows.nodes row.now }
{
    match row {
        ReportRow::File { node, alloc: space } => {
            let path = engine.path_text(alloc, *node, steps)?;
            let view = engine.tree().node(*node, steps);
            write_file(sink, kind, &view, *space, path.as_str())
        }
        ReportRow::Kind {
            name,
            files,
            lengths,
            alloc: space,
        } => {
            let group = Part::Text(type_word(name.as_str()));
            write_sums(sink, group, *files, *lengths, *space)
        }
        ReportRow::Owner {
            owner,
            files,
            lengths,
            alloc: space,
        } => {
            let group = Part::Number(u64::from(*owner));
            write_sums(sink, group, *files, *lengths, *space)
        }
        ReportRow::Quota { folder, percent } => {
            let path = engine.path_text(alloc, *folder, steps)?;
            write_quota(sink, engine, *folder, *percent, path.as_str())
        }
        ReportRow::Audit { place } => write_entry(sink, engine.audit(), *place),
    }
}

/// Writes the rows of a report of some kind. What they name is there.
pub fn write_rows<S: Sink, L: Ledger>(
    alloc: Global,
    sink: &mut S,
    kind: ReportKind,
    rows: &[ReportRow],
    engine: &Engine,
    steps: &mut Steps<L>,
) -> Result<(), TextFault>
    requires store { IsValid engine.now.size engine.now.rows }
    requires there { list_all (is_there engine.now.rows) rows.now ≡ true }
    ensures writes { Writes S.Sink result sink.old sink.new (flat_map (row_text engine.now.size engine.now.rows kind) rows.now) }
    ensures looks { steps.new ≤ steps.old + rows_cost engine.now.rows.nodes rows.now }
{
    for row in rows {
        write_row(alloc, sink, kind, row, engine, steps)?;
    }
    Ok(())
}
