//! A scan's way through changes of the tree: new nodes, removals, and other lengths.

ghost use Rattle.std.specs.Prelude.{◌≡◌, ◌+◌, ◌*◌, ◌≤◌, ◌==◌, true, false, length, Some};
ghost use Rattle.fsrm_model.specs.declared.row.NodeRow.{NodeRow};
ghost use Rattle.fsrm_base.specs.Keyed.{has_row};
ghost use Rattle.fsrm_model.specs.values.Limits.{longest_file};
ghost use Rattle.fsrm_base.specs.Numbers.{without_number};
ghost use Rattle.fsrm_model.specs.objects.Scan.{unvisited_with};
ghost use Rattle.fsrm_model.specs.nodes.Tree.{number as key, node_of, is_folder, children, chain};
ghost use Rattle.fsrm_model.specs.store.Valid.{IsVolume};
ghost use Rattle.rescan.specs.Frontiers.{Stands, Follows, scanned, sized, unvisited as unvisited_of};
ghost use Rattle.volume_tree.specs.Volume.{without_node};

use crate::frontier::Frontier;
use crate::standing::Standing;
use fsrm_model::{Ledger, Steps, allocated};
use volume_tree::Tree;

impl Frontier {
    /// Follows a new node. A folder is unvisited if its parent is. A file is taken as empty: its length is told to
    /// `on_resize`.
    pub fn on_create(&mut self, tree: &Tree, node: u32)
        requires volume { IsVolume tree.now.size tree.now.nodes }
        requires there { has_row key node tree.now.nodes ≡ true }
        requires stands { Stands (without_node tree.now node) self.old }
        ensures follows { (row : NodeRow) → node_of tree.now.nodes node ≡ Some row → Follows self.old self.new (sized tree.now node 0) (unvisited_with row (unvisited_of (without_node tree.now node).nodes self.old)) }
    {
        // What lies below an unvisited folder is unvisited, and nothing has to be noted.
        let _tree = tree;
        let _node = node;
    }

    /// Follows a node that is about to be removed: a file that is empty by now, or a folder without children. It isn't
    /// the scanned folder: whoever removes that one gives the scan up.
    pub fn on_remove(&mut self, tree: &Tree, node: u32)
        requires there { has_row key node tree.now.nodes ≡ true }
        requires inner { (node == 0) ≡ false }
        requires leaf { length (children tree.now.nodes node) ≡ 0 }
        requires other { (node == scanned self.old) ≡ false }
        requires stands { Stands (sized tree.now node 0) self.old }
        ensures follows { (IsVolume tree.now.size (without_node tree.now node).nodes) → Follows self.old self.new (without_node tree.now node) (without_number node (unvisited_of tree.now.nodes self.old)) }
    {
        let _tree = tree;
        self.tops.remove(node);
    }

    /// Follows a file whose length goes from one to another, in bytes. The tree may have changed already, or not yet.
    /// It takes no more than 2 looks for each node from the file up to the root.
    pub fn on_resize<L: Ledger>(
        &mut self,
        tree: &Tree,
        node: u32,
        old: u64,
        new: u64,
        steps: &mut Steps<L>,
    )
        requires there { has_row key node tree.now.nodes ≡ true }
        requires file { is_folder tree.now.nodes node ≡ false }
        requires old { old ≤ longest_file }
        requires new { new ≤ longest_file }
        requires stands { Stands (sized tree.now node old) self.old }
        ensures follows { Follows self.old self.new (sized tree.now node new) (unvisited_of tree.now.nodes self.old) }
        ensures looks { steps.new ≤ steps.old + 2 * length (chain tree.now.nodes node) }
    {
        // A legal size: what its files take is less than 2^64 bytes.
        let _size = tree.capacity();
        let parent = tree.node(node, steps).parent;
        if self.standing(tree, parent, steps) == Standing::Visited {
            self.sum = self.sum - allocated(old, self.cluster) + allocated(new, self.cluster);
        }
    }
}
