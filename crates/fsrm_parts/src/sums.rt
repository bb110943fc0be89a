//! What the folders of all quotas use, counted in one walk.

ghost use Rattle.std.specs.Prelude.{◌≡◌, ◌+◌, ◌-◌, ◌*◌, ◌≤◌, ◌<◌, ◌++◌, ◌∷◌, [], map, true, length, slice_set, sum_by, IfOk, OnErr, OnOk};
ghost use Rattle.fsrm_model.specs.store.Capacities.{is_capacity};
ghost use Rattle.fsrm_model.specs.nodes.Tree.{children_in_order, number as key, under, usage};
ghost use Rattle.fsrm_model.specs.store.Valid.{AreQuotas, IsVolume};
ghost use Rattle.fsrm_parts.specs.Sums.{sums_of};
ghost use Rattle.rescan.specs.Visits.{space_of};
ghost use Rattle.fsrm_parts.specs.Tasks.{Ends, Enters, visits_of};
ghost use Rattle.fsrm_parts.specs.declared.sums.Task.TheVariants.{Visit};

use crate::usage::visit;
use fsrm_model::{Ledger, NoMemory, Steps};
use fsrm_objects::Objects;
use quota_usage::Usage;
use std::alloc::Global;
use volume_tree::{Finger, Tree};

/// What a walk has still to do.
#[derive(Clone, Copy, Debug, PartialEq, Eq)]
pub enum Task {
    /// Visits a folder.
    Visit { folder: u32 },
    /// Ends the sum of the quota at a place, in the order of the folders: what was counted before came to so many
    /// bytes.
    End { place: u32, before: u64 },
}

// A walk through folders: where the last visit ended, the folders that it found, until they are put among the tasks, and
// these tasks, of which the last is the next.
#[derive(Drop)]
struct Walk {
    finger: Finger,
    folders: Vec<u32>,
    tasks: Vec<Task>,
}

impl Walk {
    // One that is to visit the root.
    fn from_root(alloc: Global) -> Result<Walk, NoMemory>
        ensures tasks { IfOk result (λ walk. walk.tasks.items ≡ Visit 0 ∷ []) }
        ensures none { IfOk result (λ walk. walk.folders.items ≡ []) }
    {
        let mut tasks = Vec::new(alloc);
        tasks.push(Task::Visit { folder: 0 })?;
        Ok(Walk {
            finger: Finger::default(),
            folders: Vec::new(alloc),
            tasks,
        })
    }
}

/// What the folder of each quota uses, in the order of the quotas. A walk through the whole tree passes each folder once:
/// what it counts between a quota's folder and the end of what is below is the quota's sum, however many quotas stand
/// one below another. It takes no more than 3 looks for each node.
pub fn quota_sums<L: Ledger>(
    alloc: Global,
    tree: &Tree,
    objects: &Objects,
    steps: &mut Steps<L>,
) -> Result<Vec<u64>, NoMemory>
    requires volume { IsVolume tree.now.size tree.now.nodes }
    requires legal { is_capacity tree.now.size ≡ true }
    requires quotas { AreQuotas tree.now.nodes objects.now.quotas }
    ensures sums { IfOk result (λ sums. sums.items ≡ map (λ quota. usage tree.now.size tree.now.nodes quota.folder) objects.now.quotas) }
    ensures looks { steps.new ≤ steps.old + 3 * length tree.now.nodes }
{
    let mut sums = vec![in alloc; 0u64; objects.quota_count() as usize]?;
    let mut walk = Walk::from_root(alloc)?;
    sum_all(tree, objects, &mut walk, &mut sums, steps)?;
    Ok(sums)
}

// Does all tasks, at first the visit of the root.
fn sum_all<L: Ledger>(
    tree: &Tree,
    objects: &Objects,
    walk: &mut Walk,
    sums: &mut [u64],
    steps: &mut Steps<L>,
) -> Result<(), NoMemory>
    requires volume { IsVolume tree.now.size tree.now.nodes }
    requires legal { is_capacity tree.now.size ≡ true }
    requires quotas { AreQuotas tree.now.nodes objects.now.quotas }
    requires tasks { walk.old.tasks.items ≡ Visit 0 ∷ [] }
    requires none { walk.old.folders.items ≡ [] }
    requires size { length sums.old ≡ length objects.now.quotas }
    ensures sums { OnOk result (sums.new ≡ map (λ quota. usage tree.now.size tree.now.nodes quota.folder) objects.now.quotas) }
    ensures looks { steps.new ≤ steps.old + 3 * length (under tree.now.nodes 0) }
{
    let mut total = 0u64;
    while let Some(task) = walk.tasks.pop() {
        match task {
            Task::End { place, before } => end_sum(sums, place, before, total),
            Task::Visit { folder } => {
                total += enter(tree, objects, folder, total, walk, steps)?;
            }
        }
    }
    Ok(())
}

// What was counted since a sum began is the sum.
fn end_sum(sums: &mut [u64], place: u32, before: u64, total: u64)
    requires low { place < length sums.old }
    requires before { before ≤ total }
    ensures { sums.new ≡ slice_set sums.old place (total - before) }
{
    sums[place as usize] = total - before;
}

// Visits a folder: what the files in it take is summed up, and the folders in it are to be visited next. If it has a
// quota, its sum ends after these.
fn enter<L: Ledger>(
    tree: &Tree,
    objects: &Objects,
    folder: u32,
    total: u64,
    walk: &mut Walk,
    steps: &mut Steps<L>,
) -> Result<u64, NoMemory>
    requires volume { IsVolume tree.now.size tree.now.nodes }
    requires legal { is_capacity tree.now.size ≡ true }
    requires none { walk.old.folders.items ≡ [] }
    ensures none { OnOk result (walk.new.folders.items ≡ []) }
    ensures sum { IfOk result (λ bytes. bytes ≡ sum_by (space_of tree.now.size tree.now.nodes) (map key (children_in_order tree.now.nodes folder))) }
    ensures tasks { OnOk result (Enters objects.now.quotas tree.now.nodes folder total walk.old.tasks.items walk.new.tasks.items) }
    ensures count { OnOk result (steps.new ≡ steps.old + (1 + 2 * length (map key (children_in_order tree.now.nodes folder)))) }
    ensures looks { steps.new ≤ steps.old + (1 + 2 * length (map key (children_in_order tree.now.nodes folder))) }
{
    put_end(objects, folder, total, &mut walk.tasks)?;
    let bytes = visit(tree, folder, &mut walk.finger, &mut walk.folders, steps)?;
    put_visits(&mut walk.folders, &mut walk.tasks)?;
    Ok(bytes)
}

// If a folder has a quota, its sum ends when all is done that is put after this.
fn put_end(
    objects: &Objects,
    folder: u32,
    before: u64,
    tasks: &mut Vec<Task>,
) -> Result<(), NoMemory>
    ensures { OnOk result (Ends objects.now.quotas folder before tasks.old.items tasks.new.items) }
{
    if let Some(place) = objects.quota_place(folder) {
        tasks.push(Task::End { place, before })?;
    }
    Ok(())
}

// Has folders visited, of which then no list is left.
fn put_visits(folders: &mut Vec<u32>, tasks: &mut Vec<Task>) -> Result<(), NoMemory>
    ensures tasks { OnOk result (tasks.new.items ≡ tasks.old.items ++ visits_of folders.old.items) }
    ensures folders { OnOk result (folders.new.items ≡ []) }
{
    for folder in folders.iter() {
        tasks.push(Task::Visit { folder: *folder })?;
    }
    folders.clear();
    Ok(())
}

/// Has each quota that counts begin with its sum. The tree is there for the clauses alone.
pub fn begin_counters(counters: &mut Usage, tree: &Tree, objects: &Objects, sums: &[u64])
    requires none { counters.old ≡ [] }
    requires sums { sums.now ≡ map (λ quota. usage tree.now.size tree.now.nodes quota.folder) objects.now.quotas }
    ensures { counters.new ≡ sums_of tree.now.size tree.now.nodes objects.now.quotas }
{
    for place in 0..objects.quota_count() {
        let quota = objects.quota_at(place);
        if quota.state.counts() {
            counters.begin(quota.folder, sums[place as usize]);
        }
    }
}

/// Has each quota that counts begin with what its folder uses. If memory runs out, no counter has begun.
pub fn begin_all<L: Ledger>(
    usage: &mut Usage,
    tree: &Tree,
    objects: &Objects,
    alloc: Global,
    steps: &mut Steps<L>,
) -> Result<(), NoMemory>
    requires volume { IsVolume tree.now.size tree.now.nodes }
    requires legal { is_capacity tree.now.size ≡ true }
    requires quotas { AreQuotas tree.now.nodes objects.now.quotas }
    requires none { usage.old ≡ [] }
    ensures ok { OnOk result (usage.new ≡ sums_of tree.now.size tree.now.nodes objects.now.quotas) }
    ensures err { OnErr result (usage.new ≡ usage.old) }
    ensures looks { steps.new ≤ steps.old + 3 * length tree.now.nodes }
{
    if objects.quota_count() == 0 {
        return Ok(());
    }
    let sums = quota_sums(alloc, tree, objects, steps)?;
    begin_counters(usage, tree, objects, &sums);
    Ok(())
}
