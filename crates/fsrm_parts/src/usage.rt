//! What the files at and below a node take.

ghost use Rattle.std.specs.Prelude.{◌≡◌, ◌+◌, ◌*◌, ◌^◌, ◌<◌, ◌≤◌, ◌++◌, [], ◌∷◌, true, length, map, sum_by, IfOk, OnErr, OnOk};
ghost use Rattle.fsrm_model.specs.store.Capacities.{is_capacity};
ghost use Rattle.fsrm_base.specs.Keyed.{has_row};
ghost use Rattle.fsrm_model.specs.nodes.Tree.{number as key, children_in_order, is_folder, usage, under};
ghost use Rattle.fsrm_model.specs.store.Valid.{IsVolume};
ghost use Rattle.fsrm_parts.specs.Walk.{AreThere};
ghost use Rattle.rescan.specs.Visits.{folders_among, space_of};

use fsrm_model::{Ledger, NoMemory, Steps};
use std::alloc::Global;
use volume_tree::{Children, Finger, Siblings, Tree};

// Puts a node after the folders that are still to be visited, if it is a folder. What it takes, if it is a file, is
// answered.
#[inline]
fn put_one<L: Ledger>(
    tree: &Tree,
    number: u32,
    pending: &mut Vec<u32>,
    steps: &mut Steps<L>,
) -> Result<u64, NoMemory>
    requires { has_row key number tree.now.nodes ≡ true }
    ensures sum { IfOk result (λ bytes. bytes ≡ space_of tree.now.size tree.now.nodes number) }
    ensures folders { OnOk result (pending.new.items ≡ pending.old.items ++ folders_among tree.now.nodes (number ∷ [])) }
    ensures memory { OnErr result (is_folder tree.now.nodes number ≡ true) }
    ensures count { steps.new ≡ steps.old + 1 }
{
    let view = tree.node(number, steps);
    if view.folder {
        pending.push(number)?;
        Ok(0)
    } else {
        Ok(tree.allocated(view.length))
    }
}

// The same of some siblings. What the files among them take is summed up.
fn put_all<L: Ledger>(
    tree: &Tree,
    siblings: &Siblings<'_>,
    pending: &mut Vec<u32>,
    steps: &mut Steps<L>,
) -> Result<u64, NoMemory>
    requires there { AreThere tree.now.nodes siblings.now }
    requires small { sum_by (space_of tree.now.size tree.now.nodes) siblings.now < 2 ^ 64 }
    ensures sum { IfOk result (λ bytes. bytes ≡ sum_by (space_of tree.now.size tree.now.nodes) siblings.now) }
    ensures folders { OnOk result (pending.new.items ≡ pending.old.items ++ folders_among tree.now.nodes siblings.now) }
    ensures count { OnOk result (steps.new ≡ steps.old + length siblings.now) }
    ensures looks { steps.new ≤ steps.old + length siblings.now }
{
    let mut bytes = 0u64;
    for place in 0..siblings.len() {
        bytes += put_one(tree, siblings.number(place), pending, steps)?;
    }
    Ok(bytes)
}

// The same of all children. It takes two looks for each.
fn put<L: Ledger>(
    tree: &Tree,
    children: &mut Children<'_>,
    pending: &mut Vec<u32>,
    steps: &mut Steps<L>,
) -> Result<u64, NoMemory>
    requires there { AreThere tree.now.nodes children.old }
    requires small { sum_by (space_of tree.now.size tree.now.nodes) children.old < 2 ^ 64 }
    ensures sum { IfOk result (λ bytes. bytes ≡ sum_by (space_of tree.now.size tree.now.nodes) children.old) }
    ensures folders { OnOk result (pending.new.items ≡ pending.old.items ++ folders_among tree.now.nodes children.old) }
    ensures count { OnOk result (steps.new ≡ steps.old + 2 * length children.old) }
    ensures looks { steps.new ≤ steps.old + 2 * length children.old }
{
    let mut bytes = 0u64;
    while let Some(siblings) = children.next(steps) {
        bytes += put_all(tree, &siblings, pending, steps)?;
    }
    Ok(bytes)
}

// Visits a folder: the folders in it are put after those that are still to be visited, and what the files in it take is
// summed up.
pub fn visit<L: Ledger>(
    tree: &Tree,
    folder: u32,
    finger: &mut Finger,
    pending: &mut Vec<u32>,
    steps: &mut Steps<L>,
) -> Result<u64, NoMemory>
    requires volume { IsVolume tree.now.size tree.now.nodes }
    requires legal { is_capacity tree.now.size ≡ true }
    ensures sum { IfOk result (λ bytes. bytes ≡ sum_by (space_of tree.now.size tree.now.nodes) (map key (children_in_order tree.now.nodes folder))) }
    ensures folders { OnOk result (pending.new.items ≡ pending.old.items ++ folders_among tree.now.nodes (map key (children_in_order tree.now.nodes folder))) }
    ensures count { OnOk result (steps.new ≡ steps.old + (1 + 2 * length (map key (children_in_order tree.now.nodes folder)))) }
    ensures looks { steps.new ≤ steps.old + (1 + 2 * length (map key (children_in_order tree.now.nodes folder))) }
{
    let mut children = tree.children(folder, finger, steps);
    put(tree, &mut children, pending, steps)
}

/// What the files at and below a node take, made afresh. Memory can run out only for a folder.
pub fn usage_of<L: Ledger>(
    tree: &Tree,
    alloc: Global,
    node: u32,
    steps: &mut Steps<L>,
) -> Result<u64, NoMemory>
    requires volume { IsVolume tree.now.size tree.now.nodes }
    requires legal { is_capacity tree.now.size ≡ true }
    requires there { has_row key node tree.now.nodes ≡ true }
    ensures sum { IfOk result (λ bytes. bytes ≡ usage tree.now.size tree.now.nodes node) }
    ensures memory { OnErr result (is_folder tree.now.nodes node ≡ true) }
    ensures looks { steps.new ≤ steps.old + 3 * length (under tree.now.nodes node) }
{
    let mut pending = Vec::new(alloc);
    let mut total = put_one(tree, node, &mut pending, steps)?;
    let mut finger = Finger::default();
    while let Some(folder) = pending.pop() {
        total += visit(tree, folder, &mut finger, &mut pending, steps)?;
    }
    Ok(total)
}
