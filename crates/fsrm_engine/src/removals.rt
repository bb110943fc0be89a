//! Files and folders that are removed.

ghost use Rattle.std.specs.Prelude.{◌≡◌, ◌+◌, ◌*◌, ◌≤◌, ◌==◌, true, false, length, Some};
ghost use Rattle.fsrm_model.specs.declared.command.Deed.TheVariants.{File};
ghost use Rattle.fsrm_model.specs.declared.command.FileOp.TheVariants.{Remove};
ghost use Rattle.fsrm_model.specs.commands.Cost.{deed_cost};
ghost use Rattle.fsrm_model.specs.nodes.Tree.{resolve, is_folder};
ghost use Rattle.fsrm_engine.specs.Machine.{Does, IsReady, IsSound, rows_of};

use crate::parts::Parts;
use fsrm_model::{Answer, Ledger, Path, Refusal, Steps};
use fsrm_parts::{drop_auto, drop_quota, drop_screens, refused};
use quota_usage::Change;

impl Parts {
    /// Removes a file, or a folder in which nothing is.
    pub(crate) fn remove<L: Ledger>(
        &mut self,
        path: &Path,
        moment: u64,
        steps: &mut Steps<L>,
    ) -> Answer
        requires ready { IsReady self.old moment }
        ensures ok { Does self.old self.new moment (File (Remove path.now)) result }
        ensures sound { IsSound self.new }
        ensures looks { steps.new ≤ steps.old + deed_cost (rows_of self.old) (File (Remove path.now)) }
    {
        let Some(node) = self.tree.resolve(path, steps) else {
            return refused(Refusal::PathNotFound);
        };
        if node == 0 {
            return refused(Refusal::InvalidMove);
        }
        let view = self.tree.node(node, steps);
        if view.folder {
            return self.remove_folder(path, node, moment, steps);
        }
        // The folders above the file no longer use its space.
        let bytes = view.length;
        let change = Change {
            from: Some(view.parent),
            to: None,
            minus: self.tree.allocated(bytes),
            plus: 0,
        };
        self.scans.follow_remove(&self.tree, node, bytes, steps);
        self.tree.remove(node, steps).unwrap();
        self.usage.charge(&self.tree, &change, steps);
        self.done(moment)
    }

    // Removes a folder, and with it its quota and its scan, its auto-apply quota, its screen and its exception, and the
    // jobs that report on it. The path stands here for the clauses alone.
    fn remove_folder<L: Ledger>(
        &mut self,
        path: &Path,
        node: u32,
        moment: u64,
        steps: &mut Steps<L>,
    ) -> Answer
        requires ready { IsReady self.old moment }
        requires resolved { resolve self.old.tree.nodes path.now ≡ Some node }
        requires inner { (node == 0) ≡ false }
        requires kind { is_folder self.old.tree.nodes node ≡ true }
        ensures ok { Does self.old self.new moment (File (Remove path.now)) result }
        ensures sound { IsSound self.new }
        ensures looks { steps.new ≤ steps.old + (2 * length path.now + 50) }
    {
        if self.tree.child_count(node, steps) > 0 {
            return refused(Refusal::NotEmpty);
        }
        self.scans.leave(node);
        self.scans.follow_rmdir(&self.tree, node);
        self.tree.remove(node, steps).unwrap();
        drop_quota(&mut self.usage, &mut self.objects, node);
        drop_screens(&mut self.objects, node);
        self.objects.drop_jobs(node);
        drop_auto(&mut self.templates, node);
        self.done(moment)
    }
}
