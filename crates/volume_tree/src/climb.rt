//! Whether a folder is a node or below it.

ghost use Rattle.std.specs.Prelude.{◌≡◌, ◌+◌, ◌≤◌, true, length};
ghost use Rattle.fsrm_model.proofs.nodes.ChainLaws.{IsTree};
ghost use Rattle.fsrm_base.specs.Keyed.{has_row};
ghost use Rattle.fsrm_model.specs.nodes.Tree.{number as key, chain, is_under};
ghost use Rattle.volume_tree.specs.Kept.{AreSlots, rows_of};
ghost use Rattle.volume_tree.specs.Looks.{passed};

use crate::way_up::WayUp;
use fsrm_model::{Ledger, Steps};
use node_table::NodeTable;

/// Whether a folder is a node or below it. It takes a look for each node on the way up from the folder to that node, or
/// else to the root, both among them.
pub fn is_at_or_below<L: Ledger>(
    slots: &NodeTable,
    node: u32,
    folder: u32,
    steps: &mut Steps<L>,
) -> bool
    requires slots { AreSlots 0 slots.now.slots }
    requires tree { IsTree (rows_of slots.now.slots) }
    requires there { has_row key folder (rows_of slots.now.slots) ≡ true }
    ensures value { result ≡ is_under (rows_of slots.now.slots) node folder }
    ensures count { steps.new ≡ steps.old + passed node (chain (rows_of slots.now.slots) folder) }
    ensures looks { steps.new ≤ steps.old + length (chain (rows_of slots.now.slots) folder) }
{
    let mut way = WayUp::from(slots, folder);
    while let Some(at) = way.next(steps) {
        if at == node {
            return true;
        }
    }
    false
}
