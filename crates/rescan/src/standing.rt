//! Where a folder stands in a scan.

ghost use Rattle.std.specs.Prelude.{◌≡◌, ◌+◌, ◌≤◌, length, true};
ghost use Rattle.fsrm_base.specs.Keyed.{has_row};
ghost use Rattle.fsrm_model.specs.nodes.Tree.{number as key, chain};
ghost use Rattle.fsrm_model.proofs.nodes.ChainLaws.{IsTree};
ghost use Rattle.rescan.specs.Tops.{AreTops};
ghost use Rattle.rescan.specs.Standings.{standing};

use crate::frontier::Frontier;
use fsrm_model::{Ledger, Steps};
use volume_tree::Tree;

/// Where a node stands in a scan.
#[derive(Clone, Copy, Debug, PartialEq, Eq)]
pub enum Standing {
    /// Neither at nor below the scanned folder.
    Outside,
    /// At or below the scanned folder, and at or below no unvisited one.
    Visited,
    /// At or below an unvisited folder.
    Unvisited,
}

impl Frontier {
    /// Where a node stands. It takes a look for each node from it up to the root.
    pub(crate) fn standing<L: Ledger>(
        &self,
        tree: &Tree,
        node: u32,
        steps: &mut Steps<L>,
    ) -> Standing
        requires tree { IsTree tree.now.nodes }
        requires tops { AreTops tree.now.nodes self.now }
        requires there { has_row key node tree.now.nodes ≡ true }
        ensures value { result ≡ standing tree.now.nodes self.now node }
        ensures looks { steps.new ≤ steps.old + length (chain tree.now.nodes node) }
    {
        let mut way = tree.way_up(node);
        while let Some(at) = way.next(steps) {
            if self.tops.contains(at) {
                return Standing::Unvisited;
            }
            if self.folder == Some(at) {
                return Standing::Visited;
            }
        }
        Standing::Outside
    }
}
