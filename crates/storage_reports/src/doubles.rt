//! Files that may be one: of one name in any spelling, one length and one moment of change.

ghost use Rattle.std.specs.Prelude.{◌≡◌, ◌+◌, ◌*◌, ◌<◌, ◌≤◌, true, bytes_eq, unwrap_or, length, IfOk, map, filter, take, OnOk};
ghost use Rattle.std.specs.Map.{lookup};
ghost use Rattle.std.specs.Option.{option_map_or};
ghost use Rattle.fsrm_base.specs.Order.{in_order};
ghost use Rattle.fsrm_model.specs.nodes.Tree.{is_folder};
ghost use Rattle.fsrm_model.specs.store.Valid.{IsVolume};
ghost use Rattle.fsrm_model.specs.values.Patterns.{is_pattern};
ghost use Rattle.node_table.specs.Views.{seen};
ghost use Rattle.storage_reports.specs.Doubles.{AreLeft, Shares, file_value};
ghost use Rattle.storage_reports.specs.Files.{no_files, report_files, sums};
ghost use Rattle.fsrm_model.specs.reports.Groups.{groups, with_value};
ghost use Rattle.storage_reports.specs.Ranks.{stands_before, twice_ranked};
ghost use Rattle.fsrm_model.specs.reports.Reports.{duplicate_rows, file_key, file_row, first_alike, has_double, length_of};

use crate::files::Files;
use crate::groups::{Grouping, grouped};
use crate::lists::file_row;
use crate::ranked::{Ranked, keep_first, table_of};
use crate::sums::sums_of;
use crate::twins::{slot_of, take_slot};
use crate::type_text::folded_name;
use fsrm_model::{Ledger, NoMemory, ReportAsk, ReportRow, Steps, Sums, Table};
use indexmap::IndexMap;
use number_set::NumberSet;
use std::alloc::Global;
use volume_tree::{NodeView, Tree};

// How many slots there are for each node: of so many, one file in 17 takes that of another one by chance.
const SLOTS: u32 = 16;

/// What files have in common that may be one.
#[derive(PartialEq, Eq, Hash, Drop)]
pub struct FileKey {
    length: u64,
    modified: u64,
    name: String,
}

/// Files are grouped with those that may be the same.
pub struct ByFile;

impl Grouping for ByFile {
    type Key = FileKey;

    ghost use Rattle.std.specs.Prelude.{ℕ, List, bytes_eq, refl};
    ghost use Rattle.std.proofs.lemmas.Cmp.{nat_list_eq_equiv};
    ghost use Rattle.storage_reports.specs.Doubles.{double_row, file_value};
    ghost use Rattle.fsrm_model.specs.reports.Reports.{file_key};

    ghost Value = { List ℕ };

    ghost value = { file_value };

    ghost is_same = { bytes_eq };

    ghost value_in = { file_key };

    ghost row_of = { double_row };

    fn key(alloc: Global, node: &NodeView<'_>) -> Result<FileKey, NoMemory> {
        let name = folded_name(alloc, node.name)?;
        Ok(FileKey {
            length: node.length,
            modified: node.modified,
            name,
        })
    }

    // The first file, with what all of them take.
    fn row(_key: FileKey, sums: Sums) -> ReportRow {
        ReportRow::File {
            node: sums.first,
            alloc: sums.alloc,
        }
    }

    ghost agrees = { λ a b. refl };

    ghost equivalence = { nat_list_eq_equiv };
}

// What the files that are like one come to, itself among them.
fn alike(
    alloc: Global,
    known: &IndexMap<FileKey, Sums>,
    node: &NodeView<'_>,
) -> Result<Sums, NoMemory>
    ensures { IfOk result (λ found. found ≡ unwrap_or (lookup (bytes_eq (file_key (seen node.now))) (map (with_value file_value) known.now.entries)) no_files) }
{
    let key = ByFile::key(alloc, node)?;
    Ok(sums_of(known, &key))
}

// The files that have a double, those that come first among them.
fn doubled<L: Ledger>(
    alloc: Global,
    tree: &Tree,
    files: &mut Files<'_>,
    known: &IndexMap<FileKey, Sums>,
    max: u32,
    steps: &mut Steps<L>,
) -> Result<Vec<Ranked>, NoMemory>
    requires { map (with_value file_value) known.now.entries ≡ groups bytes_eq file_key (sums tree.now.size) files.old.files }
    ensures rows { IfOk result (λ rows. take max (in_order (stands_before true) rows.items) ≡ take max (in_order (stands_before true) (map (twice_ranked length_of (first_alike files.old.files) (file_row tree.now.size)) (filter (has_double files.old.files) files.old.files)))) }
    ensures looks { steps.new ≤ steps.old + files.old.looks }
{
    let mut rows = Vec::new(alloc);
    while let Some(node) = files.next(steps) {
        let sums = alike(alloc, known, &node)?;
        if sums.files > 1 {
            let row = file_row(tree, &node);
            let ranked = Ranked {
                rank: node.length,
                second: sums.first,
                row,
            };
            keep_first(&mut rows, ranked, true, max)?;
        }
    }
    Ok(rows)
}

// The slots that two or more files share, of so many.
fn shared_slots<L: Ledger>(
    alloc: Global,
    files: &mut Files<'_>,
    slots: u32,
    steps: &mut Steps<L>,
) -> Result<NumberSet, NoMemory>
    requires { 0 < slots }
    ensures shares { IfOk result (λ shared. Shares files.old.files shared) }
    ensures bound { IfOk result (λ shared. shared.bound ≡ slots) }
    ensures looks { steps.new ≤ steps.old + files.old.looks }
    ensures all { files.new.all ≡ files.old.all }
    ensures whole { files.new.whole ≡ files.old.whole }
{
    let mut taken = NumberSet::reserve(alloc, slots)?;
    let mut shared = NumberSet::reserve(alloc, slots)?;
    while let Some(node) = files.next(steps) {
        let slot = slot_of(alloc, &node, slots)?;
        take_slot(slot, &mut taken, &mut shared);
    }
    Ok(shared)
}

// Leaves out most files that have no double, and begins again.
fn leave_single<L: Ledger>(
    alloc: Global,
    tree: &Tree,
    files: &mut Files<'_>,
    steps: &mut Steps<L>,
) -> Result<(), NoMemory>
    requires begun { files.old.files ≡ files.old.all }
    requires looks { files.old.looks ≡ files.old.whole }
    ensures left { OnOk result (AreLeft files.old.all files.new.all) }
    ensures begun { OnOk result (files.new.files ≡ files.new.all) }
    ensures room { OnOk result (files.new.looks ≡ files.old.whole) }
    ensures whole { OnOk result (files.new.whole ≡ files.old.whole) }
    ensures looks { steps.new ≤ steps.old + 2 * files.old.whole }
{
    let slots = tree.count().saturating_mul(SLOTS).max(1);
    let shared = shared_slots(alloc, files, slots, steps)?;
    files.leave_single(alloc, &shared, steps)?;
    files.again();
    Ok(())
}

/// The first files below a folder that have a double: the longest before the others, and each with its doubles. It takes
/// no more than 8 looks for each node of the volume.
pub fn list_doubles<L: Ledger>(
    alloc: Global,
    tree: &Tree,
    ask: &ReportAsk,
    steps: &mut Steps<L>,
) -> Result<Table, NoMemory>
    requires volume { IsVolume tree.now.size tree.now.nodes }
    requires folder { is_folder tree.now.nodes ask.now.scope ≡ true }
    requires pattern { option_map_or is_pattern ask.now.filter.pattern true ≡ true }
    ensures rows { IfOk result (λ table. table.rows ≡ take ask.now.filter.max (duplicate_rows tree.now.size (report_files tree.now.nodes ask.now.scope ask.now.filter))) }
    ensures looks { steps.new ≤ steps.old + 8 * length tree.now.nodes }
{
    let max = ask.filter.max;
    let mut files = Files::below(alloc, tree, ask.scope, &ask.filter, steps)?;
    leave_single(alloc, tree, &mut files, steps)?;
    let known = grouped::<ByFile, L>(alloc, tree, &mut files, steps)?;
    files.again();
    let rows = doubled(alloc, tree, &mut files, &known, max, steps)?;
    table_of(alloc, rows, true, max)
}
