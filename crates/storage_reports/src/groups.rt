//! Files in groups, and the groups that take the most.

ghost use Rattle.std.specs.Prelude.{◌≡◌, ◌+◌, ◌≤◌, Bool, IfOk, map, take};
ghost use Rattle.std.specs.Cmp.{IsEquivalence};
ghost use Rattle.fsrm_model.specs.declared.report.ReportRow.{ReportRow};
ghost use Rattle.fsrm_model.specs.declared.row.NodeRow.{NodeRow};
ghost use Rattle.node_table.specs.Views.{seen};
ghost use Rattle.fsrm_model.specs.declared.report.Sums.{Sums};
ghost use Rattle.storage_reports.specs.Files.{Fits, sums};
ghost use Rattle.fsrm_model.specs.reports.Groups.{groups, with_value};
ghost use Rattle.storage_reports.specs.Ranks.{ranked};
ghost use Rattle.fsrm_model.specs.reports.Reports.{alloc_in, group_rows};

use crate::files::Files;
use crate::ranked::{Ranked, table_of};
use crate::sums::add_file;
use fsrm_model::{Ledger, NoMemory, ReportRow, Steps, Sums, Table};
use indexmap::IndexMap;
use std::alloc::Global;
use std::hash::Hash;
use volume_tree::{NodeView, Tree};

/// By what files are grouped, and the row of a group.
pub trait Grouping {
    /// What the files of a group have in common.
    type Key: Hash + Eq + Drop;

    // What contracts see of a key, which of these are the same, that of a file, and the row of a group.
    ghost Value: { Type 0 };

    ghost value: { Self.Key → Self.Value };

    ghost is_same: { Self.Value → Self.Value → Bool };

    ghost value_in: { NodeRow → Self.Value };

    ghost row_of: { Self.Value × Sums → ReportRow };

    /// The key of a file.
    fn key(alloc: Global, node: &NodeView<'_>) -> Result<Self::Key, NoMemory>
        ensures { IfOk result (λ key. value key ≡ value_in (seen node.now)) };

    /// The row of a group.
    fn row(key: Self::Key, sums: Sums) -> ReportRow
        ensures { result ≡ row_of (value key, sums) };

    // Keys are the same exactly if contracts see them so.
    ghost agrees: { (a b : Self.Key) → Self.Key.eq a b ≡ is_same (value a) (value b) };

    ghost equivalence: { IsEquivalence is_same };
}

/// The files of each group, in the order in which the groups are first seen.
pub fn grouped<G: Grouping, L: Ledger>(
    alloc: Global,
    tree: &Tree,
    files: &mut Files<'_>,
    steps: &mut Steps<L>,
) -> Result<IndexMap<G::Key, Sums>, NoMemory>
    requires fits { Fits tree.now.size files.old.files }
    ensures groups { IfOk result (λ made. map (with_value G.value) made.entries ≡ groups G.is_same G.value_in (sums tree.now.size) files.old.files) }
    ensures looks { steps.new ≤ steps.old + files.old.looks }
    ensures all { files.new.all ≡ files.old.all }
    ensures whole { files.new.whole ≡ files.old.whole }
{
    let mut groups = IndexMap::new(alloc);
    while let Some(node) = files.next(steps) {
        let key = G::key(alloc, &node)?;
        let space = tree.allocated(node.length);
        add_file(&mut groups, key, node.number, node.length, space)?;
    }
    Ok(groups)
}

// The rows of groups, as they stand.
fn rows_of<G: Grouping>(
    alloc: Global,
    groups: IndexMap<G::Key, Sums>,
) -> Result<Vec<Ranked>, NoMemory>
    ensures { IfOk result (λ rows. rows.items ≡ map (ranked alloc_in G.row_of) (map (with_value G.value) groups.entries)) }
{
    let mut rows = Vec::new(alloc);
    for (key, sums) in groups {
        let row = G::row(key, sums);
        rows.push(Ranked {
            rank: sums.alloc,
            second: 0,
            row,
        })?;
    }
    Ok(rows)
}

/// The first groups, in the order of what their files take.
pub fn list_groups<G: Grouping, L: Ledger>(
    alloc: Global,
    tree: &Tree,
    files: &mut Files<'_>,
    max: u32,
    steps: &mut Steps<L>,
) -> Result<Table, NoMemory>
    requires fits { Fits tree.now.size files.old.files }
    ensures rows { IfOk result (λ table. table.rows ≡ take max (group_rows G.is_same G.value_in G.row_of tree.now.size files.old.files)) }
    ensures looks { steps.new ≤ steps.old + files.old.looks }
{
    let groups = grouped::<G, L>(alloc, tree, files, steps)?;
    let rows = rows_of::<G>(alloc, groups)?;
    table_of(alloc, rows, true, max)
}
