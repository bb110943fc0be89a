//! Steps of the active scan.

ghost use Rattle.std.specs.Prelude.{◌≡◌, ◌+◌, ◌-◌, ◌≤◌, ◌==◌, true, length, is_some, sum_by, unwrap_or};
ghost use Rattle.fsrm_model.specs.commands.Cost.{visit_cost};
ghost use Rattle.fsrm_base.specs.Numbers.{without_number, without_numbers};
ghost use Rattle.fsrm_model.specs.objects.QuotaStates.{head as first};
ghost use Rattle.fsrm_model.specs.objects.Scan.{visits};
ghost use Rattle.fsrm_model.specs.nodes.Tree.{usage};
ghost use Rattle.rescan.specs.Frontiers.{Stands, Follows, unvisited};
ghost use Rattle.rescan.specs.Courses.{Scanning, Goes, Turns, left};
ghost use Rattle.volume_tree.specs.Volume.{Volume};

use crate::frontier::Frontier;
use crate::queue::{Scans, begin};
use fsrm_model::{Ledger, Steps};
use volume_tree::Tree;

impl Scans {
    /// Visits so many unvisited folders of the active scan, and tells how many it visited: fewer if no
    /// more are unvisited.
    pub fn visit<L: Ledger>(&mut self, tree: &Tree, most: u32, steps: &mut Steps<L>) -> u32
        requires scanning { Scanning tree.now self.old }
        ensures follows { Goes self.old self.new tree.now (λ scanned. visits most tree.now.nodes (left tree.now.nodes self.old)) }
        ensures visited { result ≡ length (left tree.now.nodes self.old) - length (left tree.now.nodes self.new) }
        ensures looks { steps.new ≤ steps.old + sum_by (visit_cost tree.now.nodes) (without_numbers (left tree.now.nodes self.new) (left tree.now.nodes self.old)) }
    {
        if !self.is_scanning() {
            return 0;
        }
        visit_folders(&mut self.frontier, tree, most, steps)
    }

    /// Whether the active scan has nothing more to visit.
    pub fn done(&self) -> bool
        ensures { (v : Volume) → Scanning v self.now → is_some (first self.now.queue) ≡ true → result ≡ (length (left v.nodes self.now) == 0) }
    {
        self.frontier.done()
    }

    /// Ends the active scan, which is done, and begins the next one. It gives the bytes that the files at and
    /// below its folder take.
    pub fn finish(&mut self) -> u64
        requires active { is_some (first self.old.queue) ≡ true }
        requires done { length self.old.front.tops ≡ 0 }
        ensures used { (v : Volume) → Scanning v self.old → result ≡ usage v.size v.nodes (unwrap_or (first self.old.queue) 0) }
        ensures queue { self.new.queue ≡ without_number (unwrap_or (first self.old.queue) 0) self.old.queue }
        ensures turns { (v : Volume) → Scanning v self.old → Turns self.old self.new v }
    {
        let used = self.frontier.finish();
        self.queue.remove(0);
        begin(self.queue.first().copied(), &mut self.frontier);
        used
    }
}

// Visits so many unvisited folders, if there are as many, and tells how many it visited.
fn visit_folders<L: Ledger>(
    frontier: &mut Frontier,
    tree: &Tree,
    most: u32,
    steps: &mut Steps<L>,
) -> u32
    requires stands { Stands tree.now frontier.old }
    ensures follows { Follows frontier.old frontier.new tree.now (visits most tree.now.nodes (unvisited tree.now.nodes frontier.old)) }
    ensures visited { result ≡ length (unvisited tree.now.nodes frontier.old) - length (unvisited tree.now.nodes frontier.new) }
    ensures looks { steps.new ≤ steps.old + sum_by (visit_cost tree.now.nodes) (without_numbers (unvisited tree.now.nodes frontier.new) (unvisited tree.now.nodes frontier.old)) }
{
    for visited in 0..most {
        if frontier.visit(tree, steps).is_none() {
            return visited;
        }
    }
    most
}
