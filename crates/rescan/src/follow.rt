//! The active scan among changes of the tree. If none is active there is nothing to do.

ghost use Rattle.std.specs.Prelude.{◌≡◌, ℕ, ◌+◌, ◌*◌, ◌≤◌, ◌==◌, List, true, false, length, Some};
ghost use Rattle.fsrm_model.specs.declared.row.NodeRow.{NodeRow};
ghost use Rattle.fsrm_base.specs.Keyed.{has_row};
ghost use Rattle.fsrm_model.specs.values.Limits.{longest_file};
ghost use Rattle.fsrm_base.specs.Numbers.{is_in, without_number};
ghost use Rattle.fsrm_model.specs.objects.Scan.{unvisited_with, unvisited_moved};
ghost use Rattle.fsrm_model.specs.nodes.Tree.{number as key, node_of, is_folder, is_under, children, chain, under};
ghost use Rattle.fsrm_model.specs.store.Valid.{IsVolume};
ghost use Rattle.rescan.specs.Courses.{Scanning, Goes, left};
ghost use Rattle.volume_tree.specs.Volume.{without_node, with_length, with_place};

use crate::queue::Scans;
use fsrm_model::{Ledger, Steps};
use volume_tree::Tree;

impl Scans {
    /// Follows a new folder.
    pub fn follow_mkdir(&mut self, tree: &Tree, node: u32)
        requires volume { IsVolume tree.now.size tree.now.nodes }
        requires there { has_row key node tree.now.nodes ≡ true }
        requires folder { is_folder tree.now.nodes node ≡ true }
        requires scanning { Scanning (without_node tree.now node) self.old }
        ensures follows { (row : NodeRow) → node_of tree.now.nodes node ≡ Some row → Goes self.old self.new tree.now (λ scanned. unvisited_with row (left (without_node tree.now node).nodes self.old)) }
    {
        if self.is_scanning() {
            self.frontier.on_create(tree, node);
        }
    }

    /// Follows a new file of so many bytes. It takes no more than 2 looks for each node from it up to the root.
    pub fn follow_create<L: Ledger>(
        &mut self,
        tree: &Tree,
        node: u32,
        bytes: u64,
        steps: &mut Steps<L>,
    )
        requires volume { IsVolume tree.now.size tree.now.nodes }
        requires there { has_row key node tree.now.nodes ≡ true }
        requires file { is_folder tree.now.nodes node ≡ false }
        requires own { (row : NodeRow) → node_of tree.now.nodes node ≡ Some row → row.length ≡ bytes }
        requires short { bytes ≤ longest_file }
        requires scanning { Scanning (without_node tree.now node) self.old }
        ensures follows { Goes self.old self.new tree.now (λ scanned. left (without_node tree.now node).nodes self.old) }
        ensures looks { steps.new ≤ steps.old + 2 * length (chain tree.now.nodes node) }
    {
        if self.is_scanning() {
            self.frontier.on_create(tree, node);
            self.frontier.on_resize(tree, node, 0, bytes, steps);
        }
    }

    /// Follows a file that is about to have another length, in bytes. It takes no more than 2 looks for each node
    /// from it up to the root.
    pub fn follow_resize<L: Ledger>(
        &mut self,
        tree: &Tree,
        node: u32,
        old: u64,
        new: u64,
        steps: &mut Steps<L>,
    )
        requires scanning { Scanning tree.now self.old }
        requires there { has_row key node tree.now.nodes ≡ true }
        requires file { is_folder tree.now.nodes node ≡ false }
        requires own { (row : NodeRow) → node_of tree.now.nodes node ≡ Some row → row.length ≡ old }
        requires short { new ≤ longest_file }
        ensures follows { (moment : ℕ) → IsVolume tree.now.size (with_length tree.now node new moment).nodes → Goes self.old self.new (with_length tree.now node new moment) (λ scanned. left tree.now.nodes self.old) }
        ensures looks { steps.new ≤ steps.old + 2 * length (chain tree.now.nodes node) }
    {
        if self.is_scanning() {
            self.frontier.on_resize(tree, node, old, new, steps);
        }
    }

    /// Follows a folder without children that is about to be removed. It isn't in the queue.
    pub fn follow_rmdir(&mut self, tree: &Tree, node: u32)
        requires scanning { Scanning tree.now self.old }
        requires there { has_row key node tree.now.nodes ≡ true }
        requires inner { (node == 0) ≡ false }
        requires leaf { length (children tree.now.nodes node) ≡ 0 }
        requires folder { is_folder tree.now.nodes node ≡ true }
        requires absent { is_in self.old.queue node ≡ false }
        ensures follows { IsVolume tree.now.size (without_node tree.now node).nodes → Goes self.old self.new (without_node tree.now node) (λ scanned. without_number node (left tree.now.nodes self.old)) }
    {
        if self.is_scanning() {
            self.frontier.on_remove(tree, node);
        }
    }

    /// Follows a file of so many bytes that is about to be removed. It takes no more than 2 looks for each node from
    /// it up to the root.
    pub fn follow_remove<L: Ledger>(
        &mut self,
        tree: &Tree,
        node: u32,
        bytes: u64,
        steps: &mut Steps<L>,
    )
        requires scanning { Scanning tree.now self.old }
        requires there { has_row key node tree.now.nodes ≡ true }
        requires file { is_folder tree.now.nodes node ≡ false }
        requires own { (row : NodeRow) → node_of tree.now.nodes node ≡ Some row → row.length ≡ bytes }
        ensures follows { IsVolume tree.now.size (without_node tree.now node).nodes → Goes self.old self.new (without_node tree.now node) (λ scanned. without_number node (left tree.now.nodes self.old)) }
        ensures looks { steps.new ≤ steps.old + 2 * length (chain tree.now.nodes node) }
    {
        if self.is_scanning() {
            self.frontier.on_resize(tree, node, bytes, 0, steps);
            self.frontier.on_remove(tree, node);
        }
    }

    /// Follows a node that is about to be moved into a folder. It takes no more than 4 looks for each node at and
    /// below it, and 2 for each node from it, and from the folder, up to the root.
    pub fn follow_move<L: Ledger>(
        &mut self,
        tree: &Tree,
        node: u32,
        folder: u32,
        steps: &mut Steps<L>,
    )
        requires scanning { Scanning tree.now self.old }
        requires there { has_row key node tree.now.nodes ≡ true }
        requires inner { (node == 0) ≡ false }
        requires folder { is_folder tree.now.nodes folder ≡ true }
        requires apart { is_under tree.now.nodes node folder ≡ false }
        ensures follows { (name : List ℕ) → IsVolume tree.now.size (with_place tree.now node folder name).nodes → Goes self.old self.new (with_place tree.now node folder name) (λ scanned. unvisited_moved tree.now.nodes (with_place tree.now node folder name).nodes scanned node folder (left tree.now.nodes self.old)) }
        ensures looks { steps.new ≤ steps.old + (4 * length (under tree.now.nodes node) + 2 * (length (chain tree.now.nodes node) + length (chain tree.now.nodes folder))) }
    {
        if self.is_scanning() {
            self.frontier.on_move(tree, node, folder, steps);
        }
    }
}
