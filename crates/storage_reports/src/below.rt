//! The nodes at and below a folder, marked by their numbers.

ghost use Rattle.std.specs.Prelude.{◌≡◌, ◌+◌, ◌*◌, ◌≤◌, true, false, length, replicate, IfOk};
ghost use Rattle.fsrm_base.specs.Keyed.{has_row};
ghost use Rattle.fsrm_model.specs.nodes.Tree.{number as key, under};
ghost use Rattle.fsrm_model.specs.store.Valid.{IsVolume};
ghost use Rattle.storage_reports.specs.Marks.{AreBelow};

use fsrm_model::{Ledger, NoMemory, Steps};
use std::alloc::Global;
use tree_walk::Walk;
use volume_tree::Tree;

fn no_marks(alloc: Global, len: usize) -> Result<Vec<bool>, NoMemory>
    ensures { IfOk result (λ marks. marks.items ≡ replicate len false) }
{
    let marks = vec![in alloc; false; len]?;
    Ok(marks)
}

// All nodes are at or below the root.
fn all_marked(alloc: Global, tree: &Tree) -> Result<Vec<bool>, NoMemory>
    requires volume { IsVolume tree.now.size tree.now.nodes }
    ensures marks { IfOk result (λ marks. AreBelow tree.now.nodes 0 marks.items) }
    ensures len { IfOk result (λ marks. length marks.items ≡ tree.now.size.nodes) }
{
    let nodes = tree.capacity().nodes;
    let mut marks = no_marks(alloc, nodes as usize)?;
    for number in 0..nodes {
        marks[number as usize] = tree.live(number);
    }
    Ok(marks)
}

/// For each number of the volume whether it is that of a node at or below a folder. It takes no more than 3 looks for
/// each of these.
pub fn marked_below<L: Ledger>(
    alloc: Global,
    tree: &Tree,
    scope: u32,
    steps: &mut Steps<L>,
) -> Result<Vec<bool>, NoMemory>
    requires volume { IsVolume tree.now.size tree.now.nodes }
    requires there { has_row key scope tree.now.nodes ≡ true }
    ensures marks { IfOk result (λ marks. AreBelow tree.now.nodes scope marks.items) }
    ensures len { IfOk result (λ marks. length marks.items ≡ tree.now.size.nodes) }
    ensures looks { steps.new ≤ steps.old + 3 * length (under tree.now.nodes scope) }
{
    if scope == 0 {
        return all_marked(alloc, tree);
    }
    let nodes = tree.capacity().nodes;
    let mut marks = no_marks(alloc, nodes as usize)?;
    let mut walk = Walk::from(alloc, scope)?;
    while let Some(node) = walk.next(tree, steps)? {
        marks[node.number as usize] = true;
    }
    Ok(marks)
}
