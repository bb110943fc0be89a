//! A scan's way through moves.

ghost use Rattle.std.specs.Prelude.{◌≡◌, ℕ, ◌+◌, ◌*◌, ◌^◌, ◌<◌, ◌≤◌, ◌==◌, List, true, false, is_some, length};
ghost use Rattle.fsrm_model.specs.store.Capacities.{is_cluster};
ghost use Rattle.fsrm_base.specs.Keyed.{has_row};
ghost use Rattle.fsrm_model.specs.values.Limits.{longest_file};
ghost use Rattle.fsrm_model.specs.objects.Scan.{unvisited_moved};
ghost use Rattle.fsrm_model.specs.nodes.Tree.{number as key, is_folder, is_under, under, chain};
ghost use Rattle.fsrm_model.specs.store.Valid.{IsVolume};
ghost use Rattle.rescan.specs.Frontiers.{Stands, Follows, Suits, scanned, unvisited as unvisited_of};
ghost use Rattle.rescan.specs.Leaves.{counted_below, is_visited, Leaves};
ghost use Rattle.rescan.specs.Standings.{standing, share_of, FolderGoes};
ghost use Rattle.rescan.specs.Tops.{AreTops};
ghost use Rattle.volume_tree.specs.Volume.{with_place};

use crate::frontier::Frontier;
use crate::standing::Standing;
use crate::visits::enter_children;
use fsrm_model::{Ledger, Steps, allocated};
use volume_tree::Tree;

impl Frontier {
    /// Follows a node that is about to be moved into a folder. It takes no more than 4 looks for each node at and
    /// below it, and 2 for each node from it, and from the folder, up to the root.
    pub fn on_move<L: Ledger>(&mut self, tree: &Tree, node: u32, folder: u32, steps: &mut Steps<L>)
        requires stands { Stands tree.now self.old }
        requires there { has_row key node tree.now.nodes ≡ true }
        requires inner { (node == 0) ≡ false }
        requires folder { is_folder tree.now.nodes folder ≡ true }
        requires apart { is_under tree.now.nodes node folder ≡ false }
        ensures scan { self.new.folder ≡ self.old.folder }
        ensures room { self.new.room ≡ self.old.room }
        ensures follows { (name : List ℕ) → IsVolume tree.now.size (with_place tree.now node folder name).nodes → Follows self.old self.new (with_place tree.now node folder name) (unvisited_moved tree.now.nodes (with_place tree.now node folder name).nodes (scanned self.old) node folder (unvisited_of tree.now.nodes self.old)) }
        ensures looks { steps.new ≤ steps.old + (4 * length (under tree.now.nodes node) + 2 * (length (chain tree.now.nodes node) + length (chain tree.now.nodes folder))) }
    {
        if self.folder == Some(node) {
            return;
        }
        // The files of a volume of this size take fewer than 2^64 bytes.
        let _size = tree.capacity();
        let after = self.standing(tree, folder, steps);
        let view = tree.node(node, steps);
        if view.folder {
            let before = self.standing(tree, node, steps);
            self.move_folder(tree, node, before, after, steps);
        } else {
            let before = self.standing(tree, view.parent, steps);
            self.move_file(view.length, before, after);
        }
    }

    // Follows the move of a file of this length, from a folder that stands so to another.
    fn move_file(&mut self, length: u64, before: Standing, after: Standing)
        requires active { is_some self.old.folder ≡ true }
        requires length { length ≤ longest_file }
        requires counted { share_of self.old.room.cluster length before ≤ self.old.sum }
        requires fits { self.old.sum + share_of self.old.room.cluster length after < 2 ^ 64 + share_of self.old.room.cluster length before }
        ensures rest { self.new ≡ record self.old { sum = self.new.sum } }
        ensures sum { self.new.sum + share_of self.old.room.cluster length before ≡ self.old.sum + share_of self.old.room.cluster length after }
    {
        self.sum = self.sum - share(length, before, self.cluster)
            + share(length, after, self.cluster);
    }

    // Follows the move of a folder, from a place that stands so to another. It takes no more than 3 looks for
    // each node at and below it.
    fn move_folder<L: Ledger>(
        &mut self,
        tree: &Tree,
        node: u32,
        before: Standing,
        after: Standing,
        steps: &mut Steps<L>,
    )
        requires volume { IsVolume tree.now.size tree.now.nodes }
        requires room { Suits tree.now.size self.old.room }
        requires tops { AreTops tree.now.nodes self.old }
        requires folder { is_folder tree.now.nodes node ≡ true }
        requires before { before ≡ standing tree.now.nodes self.old node }
        requires counted { counted_below tree.now.size tree.now.nodes self.old node ≤ self.old.sum }
        ensures goes { FolderGoes before after tree.now.size tree.now.nodes self.old self.new node }
        ensures looks { steps.new ≤ steps.old + 3 * length (under tree.now.nodes node) }
    {
        match (before, after) {
            (Standing::Visited, Standing::Visited) => {}
            (Standing::Visited, _) => self.leave(tree, node, steps),
            (_, Standing::Visited) => self.tops.insert(node),
            (_, _) => self.tops.remove(node),
        }
    }

    // Takes back what is counted at and below a visited folder, and what is to be visited there. It takes no
    // more than 3 looks for each node at and below it.
    fn leave<L: Ledger>(&mut self, tree: &Tree, node: u32, steps: &mut Steps<L>)
        requires volume { IsVolume tree.now.size tree.now.nodes }
        requires room { Suits tree.now.size self.old.room }
        requires tops { AreTops tree.now.nodes self.old }
        requires folder { is_folder tree.now.nodes node ≡ true }
        requires visited { is_visited tree.now.nodes self.old node ≡ true }
        requires counted { counted_below tree.now.size tree.now.nodes self.old node ≤ self.old.sum }
        ensures leaves { Leaves tree.now.size tree.now.nodes self.old self.new node }
        ensures looks { steps.new ≤ steps.old + 3 * length (under tree.now.nodes node) }
    {
        self.waiting.insert(node);
        while let Some(next) = self.waiting.take_least() {
            if self.tops.contains(next) {
                self.tops.remove(next);
            } else {
                self.sum -= enter_children(tree, next, &mut self.finger, &mut self.waiting, steps);
            }
        }
    }
}

// What a file of this length, in a folder that stands so, adds to what is counted, by whole clusters.
fn share(length: u64, standing: Standing, cluster: u32) -> u64
    requires length { length ≤ longest_file }
    requires cluster { is_cluster cluster ≡ true }
    ensures { result ≡ share_of cluster length standing }
{
    match standing {
        Standing::Visited => allocated(length, cluster),
        Standing::Outside | Standing::Unvisited => 0,
    }
}
