//! The queue and the unvisited folders, as lists.

ghost use Rattle.std.specs.Prelude.{◌≡◌, ◌+◌, ◌*◌, ◌≤◌, length, is_some, IfOk, if◌then◌else◌};
ghost use Rattle.fsrm_model.specs.objects.QuotaStates.{head as first};
ghost use Rattle.rescan.specs.Courses.{Scanning, left};

use crate::queue::Scans;
use fsrm_model::{Ledger, List, NoMemory, Steps};
use std::alloc::Global;
use volume_tree::Tree;

impl Scans {
    /// The folders whose scans wait, the active one's first.
    pub fn waiting(&self, alloc: Global) -> Result<List<u32>, NoMemory>
        ensures { IfOk result (λ folders. folders ≡ self.now.queue) }
    {
        let mut folders = List::new(alloc);
        for folder in &self.queue {
            folders.push(*folder)?;
        }
        Ok(folders)
    }

    /// What the active scan has still to visit, ascending: nothing if there is none. It takes no more than 4 looks for
    /// each node, and none without a scan.
    pub fn unvisited<L: Ledger>(
        &self,
        alloc: Global,
        tree: &Tree,
        steps: &mut Steps<L>,
    ) -> Result<List<u32>, NoMemory>
        requires scanning { Scanning tree.now self.now }
        ensures ok { IfOk result (λ folders. folders ≡ left tree.now.nodes self.now) }
        ensures looks { steps.new ≤ steps.old + (if is_some (first self.now.queue) then 4 * length tree.now.nodes else 0) }
    {
        if !self.is_scanning() {
            return Ok(List::new(alloc));
        }
        self.frontier.unvisited(alloc, tree, steps)
    }
}
