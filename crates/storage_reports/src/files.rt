//! The files of a report, in the order of their numbers.

ghost use Rattle.std.specs.Prelude.{◌≡◌, ◌+◌, ◌*◌, ◌<◌, ◌≤◌, ◌∷◌, [], true, false, filter, length, IfOk, OnOk, IfSome, IfNone};
ghost use Rattle.std.specs.Option.{option_map_or};
ghost use Rattle.fsrm_model.specs.values.Limits.{longest_file};
ghost use Rattle.fsrm_model.specs.values.Patterns.{is_pattern};
ghost use Rattle.fsrm_model.specs.nodes.Tree.{is_folder};
ghost use Rattle.fsrm_model.specs.store.Valid.{IsVolume};
ghost use Rattle.node_table.specs.Views.{seen};
ghost use Rattle.storage_reports.specs.Files.{Fits, IsCourse, ahead, is_file, report_files, rows_from};
ghost use Rattle.storage_reports.specs.Doubles.{may_double};
ghost use Rattle.storage_reports.specs.Marks.{AreThere, IsLeft};

use crate::asked::{is_asked, pattern_in};
use crate::below::marked_below;
use crate::twins::may_double;
use fsrm_model::{Filter, Ledger, NoMemory, Steps};
use name_patterns::Pattern;
use number_set::NumberSet;
use std::alloc::Global;
use std::marker::Model;
use volume_tree::{NodeView, Tree};

/// The files below a folder that are asked for, each lent once, in the order of their numbers. Contracts see those that
/// are still to come, and how many looks they may take.
#[derive(Drop)]
pub struct Files<'t> {
    tree: &'t Tree,
    asked: &'t Filter,
    pattern: Option<Pattern>,
    marks: Vec<bool>,
    next: u32,
}

impl<'t> Model for Files<'t> {
    ghost use Rattle.storage_reports.specs.Files.{Course, IsCourse, ahead, is_file, rows_from};

    ghost Value = { Course };

    ghost view = { λ f. record { files = rows_from (is_file f.marks.items f.asked.now) f.next f.tree.now.nodes; looks = ahead f.next f.tree.now.nodes; all = rows_from (is_file f.marks.items f.asked.now) 0 f.tree.now.nodes; whole = ahead 0 f.tree.now.nodes } };

    ghost invariant = { λ f. IsCourse f.tree.now f.marks.items f.next f.pattern f.asked.now };
}

// The next marked file that is asked for, from a number on, which becomes the one after it.
fn next_file<'t, L: Ledger>(
    tree: &'t Tree,
    asked: &Filter,
    pattern: &Option<Pattern>,
    marks: &[bool],
    next: &mut u32,
    steps: &mut Steps<L>,
) -> Option<NodeView<'t>>
    requires course { IsCourse tree.now marks.now next.old pattern.now asked.now }
    ensures lent { IfSome result (λ view. rows_from (is_file marks.now asked.now) next.old tree.now.nodes ≡ seen view ∷ rows_from (is_file marks.now asked.now) next.new tree.now.nodes) }
    ensures short { IfSome result (λ view. view.length ≤ longest_file) }
    ensures file { IfSome result (λ view. view.folder ≡ false) }
    ensures none { IfNone result (rows_from (is_file marks.now asked.now) next.old tree.now.nodes ≡ []) }
    ensures empty { IfNone result (rows_from (is_file marks.now asked.now) next.new tree.now.nodes ≡ []) }
    ensures within { next.new ≤ tree.now.size.nodes }
    ensures looks { steps.new + ahead next.new tree.now.nodes ≤ steps.old + ahead next.old tree.now.nodes }
{
    let end = tree.capacity().nodes;
    for number in *next..end {
        if marks[number as usize] {
            let node = tree.node(number, steps);
            if is_asked(asked, pattern, &node) {
                *next = number + 1;
                return Some(node);
            }
        }
    }
    *next = end;
    None
}

// Takes the marks away from the nodes whose slots aren't shared.
fn leave_marked<L: Ledger>(
    alloc: Global,
    tree: &Tree,
    marks: &mut Vec<bool>,
    shared: &NumberSet,
    steps: &mut Steps<L>,
) -> Result<(), NoMemory>
    requires volume { IsVolume tree.now.size tree.now.nodes }
    requires there { AreThere tree.now.nodes marks.old.items }
    requires long { length marks.old.items ≡ tree.now.size.nodes }
    requires slots { 0 < shared.now.bound }
    ensures there { AreThere tree.now.nodes marks.new.items }
    ensures long { length marks.new.items ≡ tree.now.size.nodes }
    ensures each { OnOk result (IsLeft tree.now.nodes (may_double shared.now) marks.old.items marks.new.items) }
    ensures looks { steps.new ≤ steps.old + ahead 0 tree.now.nodes }
{
    let end = tree.capacity().nodes;
    for number in 0..end {
        if marks[number as usize] {
            let node = tree.node(number, steps);
            marks[number as usize] = may_double(alloc, shared, &node)?;
        }
    }
    Ok(())
}

impl<'t> Files<'t> {
    /// The files below a folder that are asked for. It takes no more than 3 looks for each node of the volume.
    pub fn below<L: Ledger>(
        alloc: Global,
        tree: &'t Tree,
        scope: u32,
        asked: &'t Filter,
        steps: &mut Steps<L>,
    ) -> Result<Files<'t>, NoMemory>
        requires volume { IsVolume tree.now.size tree.now.nodes }
        requires folder { is_folder tree.now.nodes scope ≡ true }
        requires pattern { option_map_or is_pattern asked.now.pattern true ≡ true }
        ensures files { IfOk result (λ files. files.files ≡ report_files tree.now.nodes scope asked.now) }
        ensures left { IfOk result (λ files. files.looks ≡ length tree.now.nodes) }
        ensures all { IfOk result (λ files. files.all ≡ report_files tree.now.nodes scope asked.now) }
        ensures whole { IfOk result (λ files. files.whole ≡ length tree.now.nodes) }
        ensures fits { IfOk result (λ files. Fits tree.now.size files.files) }
        ensures looks { steps.new ≤ steps.old + 3 * length tree.now.nodes }
    {
        // A volume of this size is small enough for the sums of a report.
        let _size = tree.capacity();
        let pattern = pattern_in(alloc, &asked.pattern)?;
        let marks = marked_below(alloc, tree, scope, steps)?;
        Ok(Files::all(tree, asked, pattern, marks))
    }

    // All marked files that are asked for.
    fn all(
        tree: &'t Tree,
        asked: &'t Filter,
        pattern: Option<Pattern>,
        marks: Vec<bool>,
    ) -> Files<'t>
        requires { IsCourse tree.now marks.items 0 pattern asked.now }
        ensures files { result.files ≡ rows_from (is_file marks.items asked.now) 0 tree.now.nodes }
        ensures looks { result.looks ≡ ahead 0 tree.now.nodes }
        ensures all { result.all ≡ rows_from (is_file marks.items asked.now) 0 tree.now.nodes }
        ensures whole { result.whole ≡ ahead 0 tree.now.nodes }
    {
        Files {
            tree,
            asked,
            pattern,
            marks,
            next: 0,
        }
    }

    /// The next file. None exactly if none is left. It takes a look for each node that it passes.
    pub fn next<L: Ledger>(&mut self, steps: &mut Steps<L>) -> Option<NodeView<'t>>
        ensures lent { IfSome result (λ view. self.old.files ≡ seen view ∷ self.new.files) }
        ensures short { IfSome result (λ view. view.length ≤ longest_file) }
        ensures file { IfSome result (λ view. view.folder ≡ false) }
        ensures none { IfNone result (self.old.files ≡ []) }
        ensures empty { IfNone result (self.new.files ≡ []) }
        ensures looks { steps.new + self.new.looks ≤ steps.old + self.old.looks }
        ensures all { self.new.all ≡ self.old.all }
        ensures whole { self.new.whole ≡ self.old.whole }
    {
        let tree = self.tree;
        next_file(
            tree,
            self.asked,
            &self.pattern,
            &self.marks,
            &mut self.next,
            steps,
        )
    }

    /// Begins again, with the first file.
    pub fn again(&mut self)
        ensures files { self.new.files ≡ self.old.all }
        ensures looks { self.new.looks ≡ self.old.whole }
        ensures all { self.new.all ≡ self.old.all }
        ensures whole { self.new.whole ≡ self.old.whole }
    {
        self.next = 0;
    }

    /// Leaves out, from now on, all files whose slots aren't shared. It takes a look for each node of the volume.
    pub fn leave_single<L: Ledger>(
        &mut self,
        alloc: Global,
        shared: &NumberSet,
        steps: &mut Steps<L>,
    ) -> Result<(), NoMemory>
        requires { 0 < shared.now.bound }
        ensures all { OnOk result (self.new.all ≡ filter (may_double shared.now) self.old.all) }
        ensures whole { self.new.whole ≡ self.old.whole }
        ensures looks { steps.new ≤ steps.old + self.old.whole }
    {
        leave_marked(alloc, self.tree, &mut self.marks, shared, steps)
    }
}
