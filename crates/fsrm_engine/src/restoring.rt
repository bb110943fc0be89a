//! An engine's parts, made from the rows of a store.

ghost use Rattle.std.specs.Prelude.{◌≡◌, ◌+◌, ◌*◌, ◌≤◌, [], true, false, length, IfOk, OnOk, IsErrOf};
ghost use Rattle.fsrm_model.specs.store.Capacities.{is_capacity};
ghost use Rattle.fsrm_model.specs.store.Valid.{IsVolume, are_audits, are_entries};
ghost use Rattle.row_rules.specs.Kept.{are_kept};
ghost use Rattle.fsrm_engine.specs.Machine.{IsWhole, bare, machine_of};
ghost use Rattle.fsrm_parts.specs.Filled.{are_fitting};
ghost use Rattle.fsrm_engine.specs.Restored.{idle_scans, is_restorable, restored, with_objects, with_rest};

use crate::parts::Parts;
use fsrm_model::{Capacity, Ledger, NoMemory, Rows, Steps};
use fsrm_parts::{
    are_texts_few, arrange_for_sums, begin_all, fill_audit, fill_groups, fill_log, fill_objects,
    fill_templates,
};
use row_rules::are_kept;
use std::alloc::Global;
use volume_tree::{RowsFault, Tree};

impl Parts {
    /// Those with these rows. They are bad exactly if they aren't the rows of a store of this size in which no scan
    /// waits.
    pub(crate) fn from_rows<L: Ledger>(
        alloc: Global,
        rows: &Rows,
        size: Capacity,
        steps: &mut Steps<L>,
    ) -> Result<Parts, RowsFault>
        requires { is_capacity size ≡ true }
        ensures machine { IfOk result (λ parts. machine_of parts ≡ record { size = size; rows = rows.now; waiting = [] }) }
        ensures whole { IfOk result IsWhole }
        ensures may { OnOk result (is_restorable size rows.now ≡ true) }
        ensures bad { IsErrOf result RowsFault.BadRows → is_restorable size rows.now ≡ false }
        ensures looks { steps.new ≤ steps.old + 3 * length rows.now.nodes }
    {
        let mut tree = Tree::from_rows(alloc, &rows.nodes, size)?;
        if !are_kept(rows) {
            return Err(RowsFault::BadRows);
        }
        arrange_for_sums(&mut tree, rows);
        Parts::over_rows(alloc, tree, rows, steps)
    }

    // Those over the tree of the rows. These are bad exactly if two names are the same, or the texts are too long.
    fn over_rows<L: Ledger>(
        alloc: Global,
        tree: Tree,
        rows: &Rows,
        steps: &mut Steps<L>,
    ) -> Result<Parts, RowsFault>
        requires kept { are_kept rows.now ≡ true }
        requires nodes { tree.nodes ≡ rows.now.nodes }
        requires volume { IsVolume tree.size tree.nodes }
        requires legal { is_capacity tree.size ≡ true }
        ensures ok { IfOk result (λ parts. parts ≡ restored tree rows.now) }
        ensures may { OnOk result (are_fitting rows.now ≡ true) }
        ensures bad { IsErrOf result RowsFault.BadRows → are_fitting rows.now ≡ false }
        ensures looks { steps.new ≤ steps.old + 3 * length tree.nodes }
    {
        let mut parts = match Parts::over(alloc, tree) {
            Ok(parts) => parts,
            Err(NoMemory) => return Err(RowsFault::NoMemory),
        };
        parts.take_rows(alloc, rows, steps)?;
        Ok(parts)
    }

    // Takes copies of all rows but the nodes, which are there.
    fn take_rows<L: Ledger>(
        &mut self,
        alloc: Global,
        rows: &Rows,
        steps: &mut Steps<L>,
    ) -> Result<(), RowsFault>
        requires kept { are_kept rows.now ≡ true }
        requires nodes { self.old.tree.nodes ≡ rows.now.nodes }
        requires volume { IsVolume self.old.tree.size self.old.tree.nodes }
        requires legal { is_capacity self.old.tree.size ≡ true }
        requires none { self.old ≡ bare self.old.tree (idle_scans self.old.tree.size) }
        ensures ok { OnOk result (self.new ≡ restored self.old.tree rows.now) }
        ensures may { OnOk result (are_fitting rows.now ≡ true) }
        ensures bad { IsErrOf result RowsFault.BadRows → are_fitting rows.now ≡ false }
        ensures looks { steps.new ≤ steps.old + 3 * length self.old.tree.nodes }
    {
        self.fill(alloc, rows)?;
        match begin_all(&mut self.usage, &self.tree, &self.objects, alloc, steps) {
            Ok(()) => self.fill_rest(rows),
            Err(NoMemory) => return Err(RowsFault::NoMemory),
        }
        Ok(())
    }

    // Fills the tables of objects. The rows are bad exactly if two names are the same, or the texts are too long.
    fn fill(&mut self, alloc: Global, rows: &Rows) -> Result<(), RowsFault>
        requires { are_kept rows.now ≡ true }
        ensures ok { OnOk result (self.new ≡ with_objects self.old rows.now) }
        ensures may { OnOk result (are_fitting rows.now ≡ true) }
        ensures bad { IsErrOf result RowsFault.BadRows → are_fitting rows.now ≡ false }
    {
        fill_groups(&mut self.groups, alloc, rows)?;
        fill_templates(&mut self.templates, alloc, rows)?;
        fill_objects(&mut self.objects, alloc, rows)?;
        if are_texts_few(&self.objects, &self.groups, &self.templates) {
            Ok(())
        } else {
            Err(RowsFault::BadRows)
        }
    }

    // Fills the logs, and takes over what the rows say of the engine itself.
    fn fill_rest(&mut self, rows: &Rows)
        requires acts { are_entries rows.now.acts ≡ true }
        requires audits { are_audits rows.now.audits ≡ true }
        requires no_acts { self.old.marks.log ≡ [] }
        requires no_audits { self.old.audit ≡ [] }
        ensures { self.new ≡ with_rest self.old rows.now }
    {
        fill_log(&mut self.marks, rows.acts.as_slice());
        fill_audit(&mut self.audit, rows.audits.as_slice());
        self.run_limit = rows.run_limit;
        self.last_moment = rows.last_moment;
    }
}
