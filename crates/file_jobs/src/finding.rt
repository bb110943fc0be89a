//! Finds the files that expire.

ghost use Rattle.std.specs.Prelude.{◌≡◌, ◌+◌, ◌*◌, ◌≤◌, true, false, length, map, IfOk};
ghost use Rattle.fsrm_base.specs.Keyed.{has_row};
ghost use Rattle.fsrm_model.specs.nodes.Tree.{number as key, is_folder, is_under};
ghost use Rattle.fsrm_model.specs.store.Valid.{IsVolume};
ghost use Rattle.file_jobs.specs.Expired.{expired};

use crate::expiry::Expiry;
use fsrm_model::{Ledger, NoMemory, Steps};
use number_set::NumberSet;
use std::alloc::Global;
use tree_walk::Walk;
use volume_tree::Tree;

/// The members of a set, in their order.
pub fn members(alloc: Global, mut set: NumberSet) -> Result<Vec<u32>, NoMemory>
    ensures { IfOk result (λ numbers. numbers.items ≡ set.members) }
{
    let mut numbers = Vec::new(alloc);
    while let Some(number) = set.take_least() {
        numbers.push(number)?;
    }
    Ok(numbers)
}

/// The numbers of the files that expire below a folder, which isn't below the other one. It takes no more than 3 looks for
/// each node.
pub fn find<L: Ledger>(
    alloc: Global,
    tree: &Tree,
    from: u32,
    to: u32,
    expiry: &Expiry,
    steps: &mut Steps<L>,
) -> Result<NumberSet, NoMemory>
    requires volume { IsVolume tree.now.size tree.now.nodes }
    requires from { has_row key from tree.now.nodes ≡ true }
    requires to { is_folder tree.now.nodes to ≡ true }
    requires apart { is_under tree.now.nodes to from ≡ false }
    ensures found { IfOk result (λ found. found.members ≡ map key (expired tree.now.nodes from to expiry.now)) }
    ensures looks { steps.new ≤ steps.old + 3 * length tree.now.nodes }
{
    let mut found = NumberSet::reserve(alloc, tree.capacity().nodes)?;
    let mut walk = Walk::from(alloc, from)?;
    while let Some(node) = walk.next_outside(tree, to, steps)? {
        if expiry.is_old(&node) {
            found.insert(node.number);
        }
    }
    Ok(found)
}
