//! Sums of folders that are made at once, beside the active scan.

ghost use Rattle.std.specs.Prelude.{◌≡◌, ◌+◌, ◌*◌, ◌≤◌, true, length};
ghost use Rattle.fsrm_model.specs.nodes.Tree.{is_folder, under, usage};
ghost use Rattle.fsrm_model.specs.store.Valid.{IsVolume};
ghost use Rattle.rescan.specs.Courses.{Scanning};
ghost use Rattle.rescan.specs.Frontiers.{Suits};
ghost use Rattle.rescan.specs.Sums.{AreSums};

use crate::frontier::Frontier;
use crate::queue::Scans;
use crate::visits::enter_children;
use fsrm_model::{Ledger, Steps};
use quota_usage::Usage;
use volume_tree::Tree;

impl Scans {
    /// The bytes that the files at and below a folder take, counted at once: no scan waits for it, and none goes on. A
    /// folder with a counter, which stands at its sum, is added as a whole, and what is below it isn't looked at. It
    /// takes no memory, and no more than 3 looks for each node at and below the folder.
    pub fn sum_below<L: Ledger>(
        &mut self,
        tree: &Tree,
        counters: &Usage,
        folder: u32,
        steps: &mut Steps<L>,
    ) -> u64
        requires scanning { Scanning tree.now self.old }
        requires folder { is_folder tree.now.nodes folder ≡ true }
        requires counters { AreSums tree.now.size tree.now.nodes counters.now }
        ensures sum { result ≡ usage tree.now.size tree.now.nodes folder }
        ensures kept { self.new ≡ self.old }
        ensures looks { steps.new ≤ steps.old + 3 * length (under tree.now.nodes folder) }
    {
        self.frontier.sum_below(tree, counters, folder, steps)
    }
}

impl Frontier {
    /// The bytes that the files at and below a folder take. A folder with a counter, which stands at its sum, is added
    /// as a whole, and what is below it isn't looked at. The scan stays as it is. It takes no memory, and no more than
    /// 3 looks for each node at and below the folder.
    pub fn sum_below<L: Ledger>(
        &mut self,
        tree: &Tree,
        counters: &Usage,
        folder: u32,
        steps: &mut Steps<L>,
    ) -> u64
        requires volume { IsVolume tree.now.size tree.now.nodes }
        requires fits { Suits tree.now.size self.old.room }
        requires folder { is_folder tree.now.nodes folder ≡ true }
        requires counters { AreSums tree.now.size tree.now.nodes counters.now }
        ensures sum { result ≡ usage tree.now.size tree.now.nodes folder }
        ensures kept { self.new ≡ self.old }
        ensures looks { steps.new ≤ steps.old + 3 * length (under tree.now.nodes folder) }
    {
        // The files of a volume of this size take fewer than 2^64 bytes.
        let _size = tree.capacity();
        let mut sum = 0u64;
        self.waiting.insert(folder);
        while let Some(next) = self.waiting.take_least() {
            if let Some(bytes) = counters.used(next) {
                sum += bytes;
            } else {
                sum += enter_children(tree, next, &mut self.finger, &mut self.waiting, steps);
            }
        }
        sum
    }
}
