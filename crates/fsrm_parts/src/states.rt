//! The states of quotas, and the queue of those that wait for a scan.

ghost use Rattle.std.specs.Prelude.{◌≡◌, ◌+◌, ◌≤◌, ◌<◌, if◌then◌else◌, true, false, length, Some, None};
ghost use Rattle.fsrm_model.specs.declared.row.Rows.{Rows};
ghost use Rattle.fsrm_model.specs.declared.row.QuotaState.TheVariants.{Disabled, Rebuilding};
ghost use Rattle.fsrm_base.specs.Numbers.{is_in};
ghost use Rattle.fsrm_model.specs.values.Limits.{most_quotas};
ghost use Rattle.fsrm_model.specs.objects.QuotaStates.{start, queued, state_of, state_after};
ghost use Rattle.fsrm_model.specs.nodes.Tree.{is_folder};
ghost use Rattle.fsrm_model.specs.store.Valid.{IsVolume};
ghost use Rattle.rescan.specs.Courses.{Scanning, Turns};
ghost use Rattle.volume_tree.specs.Volume.{Volume};

use fsrm_model::{Ledger, QuotaState, Steps};
use rescan::Scans;
use volume_tree::Tree;

/// Has a folder's scan wait if its quota is rebuilding, and else not.
#[inline]
pub fn requeue(scans: &mut Scans, folder: u32, state: QuotaState)
    requires room { folder < scans.old.front.room.nodes }
    requires few { is_in scans.old.queue folder ≡ false → length scans.old.queue < most_quotas }
    ensures queue { scans.new.queue ≡ queued scans.old.queue folder state }
    ensures turns { (v : Volume) → Scanning v scans.old → is_folder v.nodes folder ≡ true → Turns scans.old scans.new v }
{
    if state != QuotaState::Rebuilding {
        scans.leave(folder);
    } else if !scans.contains(folder) {
        scans.push(folder);
    }
}

// The state in which a folder's quota begins if it is made or enabled.
fn start<L: Ledger>(tree: &Tree, folder: u32, steps: &mut Steps<L>) -> QuotaState
    requires volume { IsVolume tree.now.size tree.now.nodes }
    requires folder { is_folder tree.now.nodes folder ≡ true }
    ensures state { result ≡ start tree.now.nodes folder }
    ensures looks { steps.new ≤ steps.old + 1 }
{
    if tree.child_count(folder, steps) == 0 {
        QuotaState::Complete
    } else {
        QuotaState::Rebuilding
    }
}

/// The state of a folder's new quota.
pub fn first_state<L: Ledger>(
    tree: &Tree,
    folder: u32,
    enabled: bool,
    steps: &mut Steps<L>,
) -> QuotaState
    requires volume { IsVolume tree.now.size tree.now.nodes }
    requires folder { is_folder tree.now.nodes folder ≡ true }
    ensures state { result ≡ (if enabled then start tree.now.nodes folder else Disabled) }
    ensures looks { steps.new ≤ steps.old + 1 }
{
    if enabled {
        start(tree, folder, steps)
    } else {
        QuotaState::Disabled
    }
}

/// The state that a status asks for, if one is given, of a quota in this state.
pub fn state_after<L: Ledger>(
    tree: &Tree,
    folder: u32,
    state: QuotaState,
    enabled: Option<bool>,
    steps: &mut Steps<L>,
) -> QuotaState
    requires volume { IsVolume tree.now.size tree.now.nodes }
    requires folder { is_folder tree.now.nodes folder ≡ true }
    ensures state { (R : Rows) → R.nodes ≡ tree.now.nodes → state_of R folder ≡ state → result ≡ state_after R folder enabled }
    ensures looks { steps.new ≤ steps.old + 1 }
{
    match (enabled, state) {
        (None, _) => state,
        (Some(false), _) => QuotaState::Disabled,
        (Some(true), QuotaState::Disabled) => start(tree, folder, steps),
        (Some(true), _) => state,
    }
}
