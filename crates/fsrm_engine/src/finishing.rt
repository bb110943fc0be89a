//! Scans that finish at once, as a journal tells.

ghost use Rattle.std.specs.Prelude.{◌≡◌, ◌+◌, ◌*◌, ◌≤◌, length};
ghost use Rattle.fsrm_model.specs.store.Replays.{finish, finish_acts};
ghost use Rattle.fsrm_model.specs.nodes.Tree.{under};
ghost use Rattle.fsrm_engine.specs.Due.{MayFinish};
ghost use Rattle.fsrm_engine.specs.Machine.{AreMarked, IsSound, rows_of};

use crate::parts::Parts;
use fsrm_model::{Ledger, Steps};
use fsrm_parts::has_unfinished;

impl Parts {
    /// Finishes the scan of a folder at once, at a moment that may be before the last one, if the folder has a quota
    /// that is still to be counted.
    pub(crate) fn finish_fresh<L: Ledger>(&mut self, folder: u32, moment: u64, steps: &mut Steps<L>)
        requires may { MayFinish self.old moment }
        ensures size { self.new.tree.size ≡ self.old.tree.size }
        ensures rows { rows_of self.new ≡ finish self.old.tree.size (rows_of self.old) moment folder }
        ensures acts { AreMarked self.new (finish_acts self.old.tree.size (rows_of self.old) moment folder) }
        ensures sound { IsSound self.new }
        ensures looks { steps.new ≤ steps.old + 3 * length (under self.old.tree.nodes folder) }
    {
        if !has_unfinished(&self.objects, folder) {
            return;
        }
        let used = self.scans.sum_below(&self.tree, &self.usage, folder, steps);
        self.scans.leave(folder);
        self.complete(folder, used, moment);
    }
}
