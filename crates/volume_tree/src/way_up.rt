//! The way up to the root.

ghost use Rattle.std.specs.Prelude.{◌≡◌, ◌+◌, ◌<◌, ◌∷◌, [], IfSome, IfNone, false, length};
ghost use Rattle.fsrm_base.specs.Numbers.{is_in};
ghost use Rattle.fsrm_model.specs.nodes.Tree.{above, chain};
ghost use Rattle.volume_tree.specs.Kept.{rows_of};
ghost use Rattle.volume_tree.specs.Ways.{IsWay, left};

use fsrm_model::{Ledger, Steps};
use node_table::NodeTable;
use std::marker::Model;

/// What is left of the way up from a node: at first the node itself, its parent and so on up to the root. `next` lends
/// one after another. Contracts see a list of these nodes, which gets shorter.
#[derive(Drop)]
pub struct WayUp<'t> {
    slots: &'t NodeTable,
    // The node that was lent last, or before any was lent, the one that comes first.
    at: u32,
    lent: bool,
}

impl<'t> Model for WayUp<'t> {
    ghost use Rattle.std.specs.Prelude.{ℕ, List};
    ghost use Rattle.volume_tree.specs.Kept.{rows_of};
    ghost use Rattle.volume_tree.specs.Ways.{IsWay, left};

    ghost Value = { List ℕ };

    ghost view = { λ w. left (rows_of w.slots.now.slots) w.at w.lent };

    ghost invariant = { λ w. IsWay w.slots.now.slots w.at };
}

impl<'t> WayUp<'t> {
    // The whole way up from a node that there is. It reads no row.
    pub(crate) fn from(slots: &'t NodeTable, node: u32) -> WayUp<'t>
        requires { IsWay slots.now.slots node }
        ensures { result ≡ chain (rows_of slots.now.slots) node }
    {
        WayUp {
            slots,
            at: node,
            lent: false,
        }
    }

    /// The next node on the way up, which doesn't come again; None after the root. It takes one look for a node, and
    /// none at the end. A node's row is read only if the next node is asked for, so a climb that stops doesn't read the
    /// row of the node where it stops.
    pub fn next<L: Ledger>(&mut self, steps: &mut Steps<L>) -> Option<u32>
        ensures some { IfSome result (λ node. self.old ≡ node ∷ self.new) }
        ensures apart { IfSome result (λ node. is_in self.new node ≡ false) }
        ensures fewer { IfSome result (λ node. length self.new < length self.old) }
        ensures none { IfNone result (self.old ≡ []) }
        ensures rest { IfNone result (self.new ≡ []) }
        ensures count { steps.new + length self.new ≡ steps.old + length self.old }
    {
        let node = next_node(self.slots, self.at, self.lent)?;
        self.at = node;
        self.lent = true;
        steps.tick();
        Some(node)
    }
}

// The first node of what is left of a way up: the node itself if it wasn't lent yet, and else its parent, for which its
// row is read. None if it is the root, and was lent.
fn next_node(slots: &NodeTable, at: u32, lent: bool) -> Option<u32>
    requires { IsWay slots.now.slots at }
    ensures there { IfSome result (λ node. IsWay slots.now.slots node) }
    ensures some { IfSome result (λ node. left (rows_of slots.now.slots) at lent ≡ node ∷ above (rows_of slots.now.slots) node) }
    ensures apart { IfSome result (λ node. is_in (above (rows_of slots.now.slots) node) node ≡ false) }
    ensures none { IfNone result (left (rows_of slots.now.slots) at lent ≡ []) }
{
    if !lent {
        return Some(at);
    }
    if at == 0 {
        return None;
    }
    Some(slots.parent(at))
}
