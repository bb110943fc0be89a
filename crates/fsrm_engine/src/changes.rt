//! Files that get another length, or are read.

ghost use Rattle.std.specs.Prelude.{◌+◌, ◌≤◌};
ghost use Rattle.fsrm_model.specs.declared.command.Deed.TheVariants.{File};
ghost use Rattle.fsrm_model.specs.declared.command.FileOp.TheVariants.{Resize, Touch};
ghost use Rattle.fsrm_model.specs.commands.Cost.{deed_cost};
ghost use Rattle.fsrm_model.specs.values.Limits.{longest_file};
ghost use Rattle.fsrm_engine.specs.Machine.{Does, IsReady, IsSound, rows_of};

use crate::parts::Parts;
use fsrm_model::{Answer, Ledger, Path, Refusal, Steps};
use fsrm_parts::{file_at, refused};
use quota_usage::Change;

impl Parts {
    /// Gives a file another length, if no quota refuses that.
    pub(crate) fn resize<L: Ledger>(
        &mut self,
        path: &Path,
        length: u64,
        moment: u64,
        steps: &mut Steps<L>,
    ) -> Answer
        requires ready { IsReady self.old moment }
        requires length { length ≤ longest_file }
        ensures ok { Does self.old self.new moment (File (Resize path.now length)) result }
        ensures sound { IsSound self.new }
        ensures looks { steps.new ≤ steps.old + deed_cost (rows_of self.old) (File (Resize path.now length)) }
    {
        let Some(file) = file_at(&self.tree, path, steps) else {
            return refused(Refusal::PathNotFound);
        };
        let node = file.number;
        let old = file.length;
        let change = Change {
            from: Some(file.parent),
            to: Some(file.parent),
            minus: self.tree.allocated(old),
            plus: self.tree.allocated(length),
        };
        if let Err(exceeded) = self.admit(&change, steps) {
            return self.refuse(exceeded, moment);
        }
        self.scans
            .follow_resize(&self.tree, node, old, length, steps);
        self.tree.resize(node, length, moment, steps);
        self.charge(&change, moment, steps);
        self.done(moment)
    }

    /// Notes that a file was read. The active scan isn't told: what it visits and counts doesn't depend on moments.
    pub(crate) fn touch<L: Ledger>(
        &mut self,
        path: &Path,
        moment: u64,
        steps: &mut Steps<L>,
    ) -> Answer
        requires ready { IsReady self.old moment }
        ensures ok { Does self.old self.new moment (File (Touch path.now)) result }
        ensures sound { IsSound self.new }
        ensures looks { steps.new ≤ steps.old + deed_cost (rows_of self.old) (File (Touch path.now)) }
    {
        let Some(file) = file_at(&self.tree, path, steps) else {
            return refused(Refusal::PathNotFound);
        };
        let node = file.number;
        self.tree.touch(node, moment, steps);
        self.done(moment)
    }
}
