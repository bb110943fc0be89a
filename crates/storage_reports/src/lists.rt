//! Lists of files.

ghost use Rattle.std.specs.Prelude.{◌≡◌, ◌+◌, ◌≤◌, false, IfOk, map, filter, take};
ghost use Rattle.fsrm_model.specs.values.Limits.{longest_file};
ghost use Rattle.node_table.specs.Views.{seen};
ghost use Rattle.storage_reports.specs.Ranks.{ranked, stands_before};
ghost use Rattle.fsrm_base.specs.Order.{in_order};
ghost use Rattle.fsrm_model.specs.reports.Reports.{file_row, file_rows, is_listed, is_most_first, rank_of};

use crate::files::Files;
use crate::ranked::{Ranked, keep_first, table_of};
use fsrm_model::{FileList, Ledger, NoMemory, ReportRow, Steps, Table};
use std::alloc::Global;
use volume_tree::{NodeView, Tree};

// Whether a file has a row at a moment.
fn is_listed(list: FileList, moment: u64, node: &NodeView<'_>) -> bool
    ensures { result ≡ is_listed list moment (seen node.now) }
{
    match list {
        FileList::Large { least } => least <= node.length,
        FileList::Unused { seconds } => seconds <= moment && node.accessed <= moment - seconds,
        FileList::Used { seconds } => moment < seconds || moment - seconds <= node.accessed,
    }
}

// The number by which a file stands in order.
fn rank_of(list: FileList, node: &NodeView<'_>) -> u64
    ensures { result ≡ rank_of list (seen node.now) }
{
    match list {
        FileList::Large { least: _ } => node.length,
        FileList::Unused { seconds: _ } | FileList::Used { seconds: _ } => node.accessed,
    }
}

// Whether the files of the greatest numbers come first.
fn is_most_first(list: FileList) -> bool
    ensures { result ≡ is_most_first list }
{
    match list {
        FileList::Unused { seconds: _ } => false,
        FileList::Large { least: _ } | FileList::Used { seconds: _ } => true,
    }
}

/// The row of a file.
pub fn file_row(tree: &Tree, node: &NodeView<'_>) -> ReportRow
    requires short { node.now.length ≤ longest_file }
    requires file { node.now.folder ≡ false }
    ensures { result ≡ file_row tree.now.size (seen node.now) }
{
    ReportRow::File {
        node: node.number,
        alloc: tree.allocated(node.length),
    }
}

// The files that have a row, those that come first among them.
fn listed<L: Ledger>(
    alloc: Global,
    tree: &Tree,
    files: &mut Files<'_>,
    kind: FileList,
    moment: u64,
    max: u32,
    steps: &mut Steps<L>,
) -> Result<Vec<Ranked>, NoMemory>
    ensures rows { IfOk result (λ rows. take max (in_order (stands_before (is_most_first kind)) rows.items) ≡ take max (in_order (stands_before (is_most_first kind)) (map (ranked (rank_of kind) (file_row tree.now.size)) (filter (is_listed kind moment) files.old.files)))) }
    ensures looks { steps.new ≤ steps.old + files.old.looks }
{
    let mut rows = Vec::new(alloc);
    while let Some(node) = files.next(steps) {
        if is_listed(kind, moment, &node) {
            let rank = rank_of(kind, &node);
            let row = file_row(tree, &node);
            keep_first(
                &mut rows,
                Ranked {
                    rank,
                    second: 0,
                    row,
                },
                is_most_first(kind),
                max,
            )?;
        }
    }
    Ok(rows)
}

/// The first rows of a list of files.
pub fn list_files<L: Ledger>(
    alloc: Global,
    tree: &Tree,
    files: &mut Files<'_>,
    kind: FileList,
    moment: u64,
    max: u32,
    steps: &mut Steps<L>,
) -> Result<Table, NoMemory>
    ensures rows { IfOk result (λ table. table.rows ≡ take max (file_rows tree.now.size kind moment files.old.files)) }
    ensures looks { steps.new ≤ steps.old + files.old.looks }
{
    let rows = listed(alloc, tree, files, kind, moment, max, steps)?;
    table_of(alloc, rows, is_most_first(kind), max)
}
