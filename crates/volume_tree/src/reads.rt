//! Reads of nodes. Each is counted as one look.

ghost use Rattle.std.specs.Prelude.{◌≡◌, ◌+◌, true, Some};
ghost use Rattle.fsrm_base.specs.Keyed.{has_row};
ghost use Rattle.fsrm_model.specs.nodes.Tree.{number as key, node_of};
ghost use Rattle.node_table.specs.Views.{seen};
ghost use Rattle.volume_tree.specs.Kept.{AreSlots, rows_of};

use fsrm_model::{Ledger, Steps};
use node_table::{NodeTable, NodeView};

/// A node that is there. It takes one look.
pub fn node<'a, L: Ledger>(slots: &'a NodeTable, number: u32, steps: &mut Steps<L>) -> NodeView<'a>
    requires slots { AreSlots 0 slots.now.slots }
    requires there { has_row key number (rows_of slots.now.slots) ≡ true }
    ensures node { node_of (rows_of slots.now.slots) number ≡ Some (seen result) }
    ensures count { steps.new ≡ steps.old + 1 }
{
    steps.tick();
    slots.node(number)
}
