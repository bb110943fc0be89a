//! Visits of a scan.

ghost use Rattle.std.specs.Prelude.{◌≡◌, ◌+◌, ◌*◌, ◌^◌, ◌≤◌, ◌<◌, IfOk, length, true, sum_by, slice_index, ℕ};
ghost use Rattle.fsrm_base.specs.Keyed.{has_row};
ghost use Rattle.fsrm_base.specs.Numbers.{is_in, is_set, with_numbers};
ghost use Rattle.fsrm_model.specs.objects.Scan.{next_visit, visit as visited};
ghost use Rattle.fsrm_model.specs.values.Space.{space};
ghost use Rattle.fsrm_model.specs.nodes.Tree.{number as key, children};
ghost use Rattle.fsrm_model.specs.store.Valid.{IsVolume};
ghost use Rattle.rescan.specs.Frontiers.{Stands, Follows, visit_looks, unvisited as unvisited_of};
ghost use Rattle.rescan.specs.Visits.{folders_in, folders_among, space_of};

use crate::frontier::Frontier;
use fsrm_model::{Ledger, List, NoMemory, Steps};
use number_set::NumberSet;
use std::alloc::Global;
use volume_tree::{Finger, Siblings, Tree};

impl Frontier {
    /// Visits the unvisited folder of the least number among those whose parent is visited: counts the
    /// files in it, and leaves its folders to be visited. None exactly if no folder is unvisited. It
    /// takes no more than 2 looks, and 2 for each child.
    pub fn visit<L: Ledger>(&mut self, tree: &Tree, steps: &mut Steps<L>) -> Option<u32>
        requires stands { Stands tree.now self.old }
        ensures visited { result ≡ next_visit tree.now.nodes (unvisited_of tree.now.nodes self.old) }
        ensures follows { Follows self.old self.new tree.now (visited tree.now.nodes (unvisited_of tree.now.nodes self.old)) }
        ensures looks { steps.new ≤ steps.old + visit_looks tree.now.nodes result }
    {
        let folder = self.tops.take_least()?;
        self.sum += enter_children(tree, folder, &mut self.finger, &mut self.tops, steps);
        Some(folder)
    }

    /// The unvisited folders, ascending. It takes no more than 4 looks for each node.
    pub fn unvisited<L: Ledger>(
        &self,
        alloc: Global,
        tree: &Tree,
        steps: &mut Steps<L>,
    ) -> Result<List<u32>, NoMemory>
        requires stands { Stands tree.now self.now }
        ensures ok { IfOk result (λ folders. folders ≡ unvisited_of tree.now.nodes self.now) }
        ensures looks { steps.new ≤ steps.old + 4 * length tree.now.nodes }
    {
        let mut found = self.find(alloc, tree, steps)?;
        drained(alloc, &mut found)
    }

    // The unvisited folders, as a set: the topmost ones, with the folders in each that was found.
    fn find<L: Ledger>(
        &self,
        alloc: Global,
        tree: &Tree,
        steps: &mut Steps<L>,
    ) -> Result<NumberSet, NoMemory>
        requires stands { Stands tree.now self.now }
        ensures found { IfOk result (λ set. set.members ≡ unvisited_of tree.now.nodes self.now) }
        ensures looks { steps.new ≤ steps.old + 4 * length tree.now.nodes }
    {
        let mut waiting = copied(alloc, &self.tops)?;
        let mut found = NumberSet::reserve(alloc, self.tops.bound())?;
        let mut finger = self.finger;
        while let Some(next) = waiting.take_least() {
            found.insert(next);
            enter_children(tree, next, &mut finger, &mut waiting, steps);
        }
        Ok(found)
    }
}

// Puts the folders among a folder's children into a set. It gives the bytes that the files among them take.
// It takes a look, and 2 for each child.
pub(crate) fn enter_children<L: Ledger>(
    tree: &Tree,
    folder: u32,
    finger: &mut Finger,
    set: &mut NumberSet,
    steps: &mut Steps<L>,
) -> u64
    requires volume { IsVolume tree.now.size tree.now.nodes }
    requires room { tree.now.size.nodes ≤ set.old.bound }
    ensures set { set.new ≡ record set.old { members = with_numbers (folders_in tree.now.nodes folder) set.old.members } }
    ensures bytes { result ≡ sum_by (space tree.now.size) (children tree.now.nodes folder) }
    ensures small { sum_by (space tree.now.size) tree.now.nodes < 2 ^ 64 }
    ensures looks { steps.new ≤ steps.old + (1 + 2 * length (children tree.now.nodes folder)) }
{
    // The files of a volume of this size take fewer than 2^64 bytes.
    let _size = tree.capacity();
    let mut children = tree.children(folder, finger, steps);
    let mut bytes = 0u64;
    while let Some(siblings) = children.next(steps) {
        bytes += enter_nodes(tree, &siblings, set, steps);
    }
    bytes
}

// Puts the folders among these nodes into a set. It gives the bytes that the files among them take. It takes a look
// for each node.
fn enter_nodes<L: Ledger>(
    tree: &Tree,
    siblings: &Siblings<'_>,
    set: &mut NumberSet,
    steps: &mut Steps<L>,
) -> u64
    requires volume { IsVolume tree.now.size tree.now.nodes }
    requires room { tree.now.size.nodes ≤ set.old.bound }
    requires there { (k : ℕ) → k < length siblings.now → has_row key (slice_index siblings.now k) tree.now.nodes ≡ true }
    requires small { sum_by (space_of tree.now.size tree.now.nodes) siblings.now < 2 ^ 64 }
    ensures set { set.new ≡ record set.old { members = with_numbers (folders_among tree.now.nodes siblings.now) set.old.members } }
    ensures bytes { result ≡ sum_by (space_of tree.now.size tree.now.nodes) siblings.now }
    ensures count { steps.new ≡ steps.old + length siblings.now }
{
    let mut bytes = 0u64;
    for place in 0..siblings.len() {
        let number = siblings.number(place);
        let node = tree.node(number, steps);
        if node.folder {
            set.insert(number);
        } else {
            bytes += tree.allocated(node.length);
        }
    }
    bytes
}

// A copy of a set whose members are below its bound.
fn copied(alloc: Global, set: &NumberSet) -> Result<NumberSet, NoMemory>
    requires set { is_set set.now.members ≡ true }
    requires below { (n : ℕ) → is_in set.now.members n ≡ true → n < set.now.bound }
    ensures { IfOk result (λ copy. copy ≡ set.now) }
{
    let mut copy = NumberSet::reserve(alloc, set.bound())?;
    for number in 0..set.bound() {
        if set.contains(number) {
            copy.insert(number);
        }
    }
    Ok(copy)
}

// Takes all members out of a set, and gives them, ascending.
fn drained(alloc: Global, set: &mut NumberSet) -> Result<List<u32>, NoMemory>
    ensures { IfOk result (λ list. list ≡ set.old.members) }
{
    let mut list = List::new(alloc);
    while let Some(least) = set.take_least() {
        list.push(least)?;
    }
    Ok(list)
}
