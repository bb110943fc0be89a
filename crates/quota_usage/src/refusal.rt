//! Which quota refuses a change.

ghost use Rattle.std.specs.Prelude.{◌≡◌, ℕ, ◌+◌, ◌*◌, ◌<◌, ◌≤◌, ◌^◌, IfOk, IfErr, Some, true, false, length};
ghost use Rattle.fsrm_model.proofs.nodes.ChainLaws.{IsTree};
ghost use Rattle.fsrm_base.specs.Keyed.{has_row};
ghost use Rattle.fsrm_model.specs.objects.Quota.{refuses};
ghost use Rattle.fsrm_model.specs.nodes.Tree.{number as key, chain, is_under};
ghost use Rattle.quota_usage.specs.Charge.{IsChange, Fits, height as change_height};
ghost use Rattle.quota_usage.specs.Climb.{amended, FitsAbove, refusal_of, moved_refusal, refusal_at, IsFirst, IsNearest, IsNearestTo, IsMeeting};
ghost use Rattle.quota_usage.specs.Counters.{used_in};

use crate::change::{Change, Exceeded};
use crate::climb::{height, parent};
use crate::usage::Usage;
use fsrm_model::{Ledger, QuotaRow, Steps};
use fsrm_objects::Objects;
use volume_tree::Tree;

// Whether a quota refuses that its counter goes from one count to another.
fn refuses(quota: &QuotaRow, before: u64, after: u64) -> bool
    ensures { result ≡ refuses quota.now before after }
{
    quota.state.counts() && quota.enforce && before < after && quota.limit < after
}

// The refusal by the quota of a folder, if it refuses that its counter loses bytes and then gains others. A climb asks
// each folder; so the answer stays where it is computed, and isn't copied.
#[inline(always)]
fn judge(
    counters: &Usage,
    objects: &Objects,
    folder: u32,
    minus: u64,
    plus: u64,
) -> Option<Exceeded>
    requires { (bytes : ℕ) → used_in counters.now folder ≡ Some bytes → amended minus plus bytes < 2 ^ 64 }
    ensures { result ≡ refusal_of objects.now.quotas counters.now minus plus folder }
{
    let Some(before) = counters.used(folder) else {
        return None;
    };
    // A quota refuses nothing unless its bytes rise, so its row needn't be read.
    let would = before.saturating_sub(minus) + plus;
    if would <= before {
        return None;
    }
    let Some(quota) = objects.quota(folder) else {
        return None;
    };
    if !refuses(quota, before, would) {
        return None;
    }
    Some(Exceeded {
        folder,
        would,
        limit: quota.limit,
    })
}

// The refusal by the first quota on the way up from a node that refuses, if each folder on the way loses bytes and then
// gains others. It takes a look for each node on the way.
fn first_refusal<L: Ledger>(
    counters: &Usage,
    tree: &Tree,
    objects: &Objects,
    start: u32,
    minus: u64,
    plus: u64,
    steps: &mut Steps<L>,
) -> Option<Exceeded>
    requires tree { IsTree tree.now.nodes }
    requires there { has_row key start tree.now.nodes ≡ true }
    requires fits { FitsAbove tree.now.nodes counters.now start minus plus }
    ensures nearest { IsNearest tree.now.nodes (refusal_of objects.now.quotas counters.now minus plus) start result }
    ensures looks { steps.new ≤ steps.old + length (chain tree.now.nodes start) }
{
    let mut way = tree.way_up(start);
    while let Some(at) = way.next(steps) {
        let refusal = judge(counters, objects, at, minus, plus);
        if refusal.is_some() {
            return refusal;
        }
    }
    None
}

// Climbs from two nodes to the one where their ways up meet. Below that it judges the quotas on the way from `to`: none
// of their folders is above `from`, so they only gain. An `Err` is the first refusal. Together with a climb from the
// meeting to the root it takes no more than 2 looks for each node on both ways.
fn below_meeting<L: Ledger>(
    counters: &Usage,
    tree: &Tree,
    objects: &Objects,
    from: u32,
    to: u32,
    plus: u64,
    steps: &mut Steps<L>,
) -> Result<u32, Exceeded>
    requires tree { IsTree tree.now.nodes }
    requires from { has_row key from tree.now.nodes ≡ true }
    requires to { has_row key to tree.now.nodes ≡ true }
    requires fits { (folder bytes : ℕ) → is_under tree.now.nodes folder to ≡ true → is_under tree.now.nodes folder from ≡ false → used_in counters.now folder ≡ Some bytes → amended 0 plus bytes < 2 ^ 64 }
    ensures met { IfOk result (λ node. (minus : ℕ) → IsMeeting tree.now.nodes (moved_refusal tree.now.nodes objects.now.quotas counters.now from to minus plus) from to node) }
    ensures refused { IfErr result (λ exceeded. (minus : ℕ) → IsFirst tree.now.nodes (moved_refusal tree.now.nodes objects.now.quotas counters.now from to minus plus) to exceeded) }
    ensures left { IfOk result (λ node. steps.new + length (chain tree.now.nodes node) ≤ steps.old + 2 * (length (chain tree.now.nodes from) + length (chain tree.now.nodes to))) }
    ensures looks { steps.new ≤ steps.old + 2 * (length (chain tree.now.nodes from) + length (chain tree.now.nodes to)) }
{
    let mut at_from = from;
    let mut at_to = to;
    let mut from_height = height(tree, from, steps);
    let mut to_height = height(tree, to, steps);
    while at_from != at_to {
        if to_height < from_height {
            at_from = parent(tree, at_from, steps);
            from_height -= 1;
            continue;
        }
        if let Some(exceeded) = judge(counters, objects, at_to, 0, plus) {
            return Err(exceeded);
        }
        at_to = parent(tree, at_to, steps);
        to_height -= 1;
    }
    Ok(at_to)
}

// The refusal by the deepest quota that refuses a change from one folder to another.
fn move_refusal<L: Ledger>(
    counters: &Usage,
    tree: &Tree,
    objects: &Objects,
    change: &Change,
    from: u32,
    to: u32,
    steps: &mut Steps<L>,
) -> Option<Exceeded>
    requires tree { IsTree tree.now.nodes }
    requires from { change.now.from ≡ Some from }
    requires to { change.now.to ≡ Some to }
    requires change { IsChange tree.now.nodes change.now }
    requires fits { Fits tree.now.nodes counters.now change.now }
    ensures nearest { IsNearest tree.now.nodes (refusal_at tree.now.nodes objects.now.quotas counters.now change.now) to result }
    ensures looks { steps.new ≤ steps.old + 2 * (length (chain tree.now.nodes from) + length (chain tree.now.nodes to)) }
{
    let Change { minus, plus, .. } = *change;
    if from == to {
        return first_refusal(counters, tree, objects, to, minus, plus, steps);
    }
    match below_meeting(counters, tree, objects, from, to, plus, steps) {
        Ok(node) => first_refusal(counters, tree, objects, node, minus, plus, steps),
        Err(exceeded) => Some(exceeded),
    }
}

/// The refusal by the deepest quota that refuses a change.
pub fn refusal<L: Ledger>(
    counters: &Usage,
    tree: &Tree,
    objects: &Objects,
    change: &Change,
    steps: &mut Steps<L>,
) -> Option<Exceeded>
    requires tree { IsTree tree.now.nodes }
    requires change { IsChange tree.now.nodes change.now }
    requires fits { Fits tree.now.nodes counters.now change.now }
    ensures nearest { IsNearestTo tree.now.nodes (refusal_at tree.now.nodes objects.now.quotas counters.now change.now) change.now.to result }
    ensures looks { steps.new ≤ steps.old + 2 * (change_height tree.now.nodes change.now.from + change_height tree.now.nodes change.now.to) }
{
    if counters.is_empty() {
        return None;
    }
    // Only quotas above the folder that bytes are given to can refuse.
    let Some(to) = change.to else {
        return None;
    };
    match change.from {
        Some(from) => move_refusal(counters, tree, objects, change, from, to, steps),
        None => first_refusal(counters, tree, objects, to, 0, change.plus, steps),
    }
}
