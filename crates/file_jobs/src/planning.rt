//! Which files are to be moved.

ghost use Rattle.std.specs.Prelude.{◌≡◌, ◌+◌, ◌*◌, ◌≤◌, true, length, map, IfOk};
ghost use Rattle.fsrm_model.specs.nodes.Tree.{number as key, is_folder};
ghost use Rattle.file_jobs.specs.Expired.{expired};
ghost use Rattle.file_jobs.specs.Moves.{AreFiles};

use crate::expiry::Expiry;
use crate::finding::{find, members};
use fsrm_engine::Engine;
use fsrm_model::{Ledger, NoMemory, Steps};
use std::alloc::Global;

/// The files below a folder, and not below another one, that expire, by their numbers. There are none if the first folder is
/// the other one, or below it. It takes no more than 4 looks for each node, and 4 more.
pub fn plan<L: Ledger>(
    alloc: Global,
    engine: &Engine,
    from: u32,
    to: u32,
    expiry: &Expiry,
    steps: &mut Steps<L>,
) -> Result<Vec<u32>, NoMemory>
    requires from { is_folder engine.now.rows.nodes from ≡ true }
    requires to { is_folder engine.now.rows.nodes to ≡ true }
    ensures planned { IfOk result (λ files. files.items ≡ map key (expired engine.now.rows.nodes from to expiry.now)) }
    ensures files { IfOk result (λ files. AreFiles engine.now.rows.nodes files.items) }
    ensures looks { steps.new ≤ steps.old + 4 * (length engine.now.rows.nodes + 1) }
{
    let tree = engine.tree();
    if tree.is_at_or_below(to, from, steps) {
        return Ok(Vec::new(alloc));
    }
    let found = find(alloc, tree, from, to, expiry, steps)?;
    members(alloc, found)
}
