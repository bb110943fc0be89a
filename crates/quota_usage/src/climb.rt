//! The way up to the root.

ghost use Rattle.std.specs.Prelude.{◌≡◌, ℕ, ◌+◌, ◌≤◌, Some, true, length, map};
ghost use Rattle.fsrm_model.proofs.nodes.ChainLaws.{IsTree};
ghost use Rattle.fsrm_base.specs.Keyed.{has_row};
ghost use Rattle.fsrm_model.specs.nodes.Tree.{number as key, chain, parent_of};
ghost use Rattle.quota_usage.specs.Charge.{charged_counter, lost_by, IsChange, Fits, height};
ghost use Rattle.quota_usage.specs.Climb.{FitsAbove, climbed, climbed_from};

use crate::change::Change;
use crate::usage::Usage;
use fsrm_model::{Ledger, Steps};
use volume_tree::Tree;

/// The parent of a node that there is. It takes one look.
pub fn parent<L: Ledger>(tree: &Tree, node: u32, steps: &mut Steps<L>) -> u32
    requires { has_row key node tree.now.nodes ≡ true }
    ensures value { result ≡ parent_of tree.now.nodes node }
    ensures count { steps.new ≡ steps.old + 1 }
{
    tree.node(node, steps).parent
}

/// How many nodes lie on the way up from a node, itself and the root among them. It takes a look for
/// each.
pub fn height<L: Ledger>(tree: &Tree, node: u32, steps: &mut Steps<L>) -> u64
    requires tree { IsTree tree.now.nodes }
    requires there { has_row key node tree.now.nodes ≡ true }
    ensures value { result ≡ length (chain tree.now.nodes node) }
    ensures looks { steps.new ≤ steps.old + length (chain tree.now.nodes node) }
{
    let count = tree.count() as u64;
    let mut way = tree.way_up(node);
    let mut height = 0;
    while let Some(_at) = way.next(steps) {
        // No way up passes more nodes than there are.
        prove!(height <= count);
        height += 1;
    }
    height
}

/// Takes bytes from the counter of each folder on the way up from a node, and then gives it others. It
/// takes a look for each node on the way, if there are counters.
pub fn climb<L: Ledger>(
    counters: &mut Usage,
    tree: &Tree,
    start: u32,
    minus: u64,
    plus: u64,
    steps: &mut Steps<L>,
)
    requires tree { IsTree tree.now.nodes }
    requires there { has_row key start tree.now.nodes ≡ true }
    requires fits { FitsAbove tree.now.nodes counters.old start minus plus }
    ensures made { counters.new ≡ climbed tree.now.nodes start minus plus counters.old }
    ensures looks { steps.new ≤ steps.old + length (chain tree.now.nodes start) }
{
    if counters.is_empty() {
        return;
    }
    let mut way = tree.way_up(start);
    while let Some(at) = way.next(steps) {
        counters.amend(at, minus, plus);
    }
}

/// Takes the bytes of a change from the folder that loses them and each one above it, unless the change gives bytes to
/// the same folder: then one climb from there is to do both. The answer is how many bytes that climb is to take.
pub fn take<L: Ledger>(
    counters: &mut Usage,
    tree: &Tree,
    change: &Change,
    steps: &mut Steps<L>,
) -> u64
    requires tree { IsTree tree.now.nodes }
    requires change { IsChange tree.now.nodes change.now }
    requires fits { Fits tree.now.nodes counters.old change.now }
    ensures lost { (to : ℕ) → change.now.to ≡ Some to → result ≡ lost_by change.now to }
    ensures left { climbed_from tree.now.nodes change.now.to result change.now.plus counters.new ≡ map (charged_counter tree.now.nodes change.now) counters.old }
    ensures fits { (to : ℕ) → change.now.to ≡ Some to → FitsAbove tree.now.nodes counters.new to result change.now.plus }
    ensures looks { steps.new ≤ steps.old + height tree.now.nodes change.now.from }
{
    let Some(from) = change.from else {
        return 0;
    };
    if change.to == Some(from) {
        return change.minus;
    }
    climb(counters, tree, from, change.minus, 0, steps);
    0
}

/// Makes a change of all counters that it touches.
pub fn charge<L: Ledger>(counters: &mut Usage, tree: &Tree, change: &Change, steps: &mut Steps<L>)
    requires tree { IsTree tree.now.nodes }
    requires change { IsChange tree.now.nodes change.now }
    requires fits { Fits tree.now.nodes counters.old change.now }
    ensures made { counters.new ≡ map (charged_counter tree.now.nodes change.now) counters.old }
    ensures looks { steps.new ≤ steps.old + (height tree.now.nodes change.now.from + height tree.now.nodes change.now.to) }
{
    let minus = take(counters, tree, change, steps);
    let Some(to) = change.to else {
        return;
    };
    climb(counters, tree, to, minus, change.plus, steps);
}
