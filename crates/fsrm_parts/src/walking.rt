//! When the nodes of a tree are put into their order: before somebody walks through it.

ghost use Rattle.std.specs.Prelude.{◌≡◌};

use crate::moves::Moving;
use fsrm_model::{Deed, FileOp, Rows};
use volume_tree::Tree;

/// Puts the nodes of a tree into their order if a command, or its reply, may walk through it.
pub fn arrange_for(tree: &mut Tree, deed: &Deed)
    ensures { tree.new ≡ tree.old }
{
    match deed {
        Deed::File(op) => arrange_for_op(tree, op),
        Deed::Usage { .. }
        | Deed::Step { .. }
        | Deed::Quota(_)
        | Deed::Autoquota(_)
        | Deed::Reports(_) => tree.arrange(),
        _ => {}
    }
}

/// The same for a file operation. A folder that is to go is asked for its children: that is quick if few nodes wait to be
/// put into the order. (Whether a folder is to move is known only later: `arrange_for_move`.)
pub fn arrange_for_op(tree: &mut Tree, op: &FileOp)
    ensures { tree.new ≡ tree.old }
{
    if matches!(op, FileOp::Remove { .. }) {
        tree.arrange_if_many();
    }
}

/// The same where an engine is made of rows: if there are quotas, what their folders use is added up.
pub fn arrange_for_sums(tree: &mut Tree, rows: &Rows)
    ensures { tree.new ≡ tree.old }
{
    if !rows.quotas.is_empty() {
        tree.arrange();
    }
}

/// Puts the nodes of a tree into their order if a folder is to move: what is in it is added up then.
pub fn arrange_for_move(tree: &mut Tree, moving: &Moving<'_>)
    ensures { tree.new ≡ tree.old }
{
    if moving.folder {
        tree.arrange();
    }
}
