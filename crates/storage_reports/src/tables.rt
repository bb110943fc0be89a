//! The rows of a report.

ghost use Rattle.std.specs.Prelude.{◌≡◌, ◌+◌, ◌*◌, ◌≤◌, true, length, IfOk, take};
ghost use Rattle.std.specs.Option.{option_map_or};
ghost use Rattle.fsrm_model.specs.nodes.Tree.{is_folder};
ghost use Rattle.fsrm_model.specs.store.Valid.{IsVolume};
ghost use Rattle.fsrm_model.specs.values.Patterns.{is_pattern};
ghost use Rattle.fsrm_model.specs.reports.Files.{report_files};
ghost use Rattle.fsrm_model.specs.reports.Filters.{is_filter};
ghost use Rattle.fsrm_model.specs.reports.Reports.{file_rows, group_rows, quota_rows, table};

use crate::ask::report_of;
use crate::audits::list_audits;
use crate::below::marked_below;
use crate::doubles::list_doubles;
use crate::files::Files;
use crate::groups::{Grouping, list_groups};
use crate::lists::list_files;
use crate::owners::ByOwner;
use crate::quotas::list_quotas;
use crate::types::ByType;
use fsrm_engine::Engine;
use fsrm_model::{FileList, Ledger, NoMemory, Report, ReportAsk, Steps, Table};
use std::alloc::Global;
use volume_tree::Tree;

// The first files of a list.
fn listed_files<L: Ledger>(
    alloc: Global,
    tree: &Tree,
    ask: &ReportAsk,
    list: FileList,
    moment: u64,
    steps: &mut Steps<L>,
) -> Result<Table, NoMemory>
    requires volume { IsVolume tree.now.size tree.now.nodes }
    requires folder { is_folder tree.now.nodes ask.now.scope ≡ true }
    requires pattern { option_map_or is_pattern ask.now.filter.pattern true ≡ true }
    ensures rows { IfOk result (λ made. made.rows ≡ take ask.now.filter.max (file_rows tree.now.size list moment (report_files tree.now.nodes ask.now.scope ask.now.filter))) }
    ensures looks { steps.new ≤ steps.old + 4 * length tree.now.nodes }
{
    let mut files = Files::below(alloc, tree, ask.scope, &ask.filter, steps)?;
    list_files(alloc, tree, &mut files, list, moment, ask.filter.max, steps)
}

// The first groups of files.
fn grouped_files<G: Grouping, L: Ledger>(
    alloc: Global,
    tree: &Tree,
    ask: &ReportAsk,
    steps: &mut Steps<L>,
) -> Result<Table, NoMemory>
    requires volume { IsVolume tree.now.size tree.now.nodes }
    requires folder { is_folder tree.now.nodes ask.now.scope ≡ true }
    requires pattern { option_map_or is_pattern ask.now.filter.pattern true ≡ true }
    ensures rows { IfOk result (λ made. made.rows ≡ take ask.now.filter.max (group_rows G.is_same G.value_in G.row_of tree.now.size (report_files tree.now.nodes ask.now.scope ask.now.filter))) }
    ensures looks { steps.new ≤ steps.old + 4 * length tree.now.nodes }
{
    let mut files = Files::below(alloc, tree, ask.scope, &ask.filter, steps)?;
    list_groups::<G, L>(alloc, tree, &mut files, ask.filter.max, steps)
}

// The first quotas.
fn quotas_below<L: Ledger>(
    alloc: Global,
    engine: &Engine,
    tree: &Tree,
    ask: &ReportAsk,
    steps: &mut Steps<L>,
) -> Result<Table, NoMemory>
    requires size { tree.now.size ≡ engine.now.size }
    requires nodes { tree.now.nodes ≡ engine.now.rows.nodes }
    requires volume { IsVolume tree.now.size tree.now.nodes }
    requires folder { is_folder tree.now.nodes ask.now.scope ≡ true }
    ensures rows { IfOk result (λ made. made.rows ≡ take ask.now.filter.max (quota_rows engine.now.size engine.now.rows ask.now)) }
    ensures looks { steps.new ≤ steps.old + 4 * length tree.now.nodes }
{
    let marks = marked_below(alloc, tree, ask.scope, steps)?;
    list_quotas(alloc, engine, ask, &marks)
}

// The report of an engine with this tree.
fn report_over<L: Ledger>(
    alloc: Global,
    engine: &Engine,
    tree: &Tree,
    ask: &ReportAsk,
    moment: u64,
    steps: &mut Steps<L>,
) -> Result<Table, NoMemory>
    requires size { tree.now.size ≡ engine.now.size }
    requires nodes { tree.now.nodes ≡ engine.now.rows.nodes }
    requires volume { IsVolume tree.now.size tree.now.nodes }
    requires folder { is_folder tree.now.nodes ask.now.scope ≡ true }
    requires pattern { option_map_or is_pattern ask.now.filter.pattern true ≡ true }
    ensures rows { IfOk result (λ made. made.rows ≡ table engine.now.size engine.now.rows ask.now moment) }
    ensures looks { steps.new ≤ steps.old + 8 * length tree.now.nodes }
{
    match report_of(ask.kind, &ask.filter) {
        Report::Lists(list) => listed_files(alloc, tree, ask, list, moment, steps),
        Report::Owners => grouped_files::<ByOwner, L>(alloc, tree, ask, steps),
        Report::Types => grouped_files::<ByType, L>(alloc, tree, ask, steps),
        Report::Doubles => list_doubles(alloc, tree, ask, steps),
        Report::Quotas => quotas_below(alloc, engine, tree, ask, steps),
        Report::Audits => list_audits(alloc, engine.audit(), &ask.filter, moment),
    }
}

/// The first rows of a report, in its order. It takes no more than 8 looks for each node of the volume.
///
/// The scope is a folder, and the values of the filter are in their ranges. It fails only for want of memory.
pub fn report<L: Ledger>(
    alloc: Global,
    engine: &Engine,
    ask: &ReportAsk,
    moment: u64,
    steps: &mut Steps<L>,
) -> Result<Table, NoMemory>
    requires folder { is_folder engine.now.rows.nodes ask.now.scope ≡ true }
    requires filter { is_filter ask.now.filter ≡ true }
    ensures rows { IfOk result (λ made. made.rows ≡ table engine.now.size engine.now.rows ask.now moment) }
    ensures looks { steps.new ≤ steps.old + 8 * length engine.now.rows.nodes }
{
    report_over(alloc, engine, engine.tree(), ask, moment, steps)
}
