//! What a change of the counters does to peaks, and which quotas cross a threshold then; quotas that go.

ghost use Rattle.std.specs.Prelude.{◌≡◌, ℕ, ◌+◌, ◌<◌, ◌≤◌, ◌^◌, ◌==◌, ◌&&◌, Bool, List as Items, Some, true, map, length, if◌then◌else◌};
ghost use Rattle.fsrm_base.specs.Keyed.{has_row, is_ascending, row_of, with_change};
ghost use Rattle.fsrm_model.specs.values.Limits.{most_quotas};
ghost use Rattle.fsrm_model.specs.declared.row.QuotaRow.{QuotaRow};
ghost use Rattle.fsrm_model.specs.objects.Quota.{folder_of};
ghost use Rattle.fsrm_model.specs.nodes.Tree.{number as key, chain, is_under};
ghost use Rattle.fsrm_model.specs.store.Valid.{IsVolume};
ghost use Rattle.fsrm_objects.specs.Tables.{without_quota};
ghost use Rattle.quota_usage.specs.Charge.{IsChange, height};
ghost use Rattle.quota_usage.specs.Climb.{FitsAbove, amended, amended_counter, climbed};
ghost use Rattle.quota_usage.specs.Counters.{counted, used_in, without_counter};
ghost use Rattle.quota_usage.specs.declared.change.Counter.{Counter};
ghost use Rattle.thresholds.specs.Settled.{are_orderly};
ghost use Rattle.fsrm_parts.specs.Crossing.{is_crossing, used_before, Drops, Notes, is_kept};
ghost use Rattle.fsrm_parts.specs.Peaks.{raised, raised_to};

use fsrm_model::{Ledger, Steps};
use fsrm_objects::Objects;
use number_set::NumberSet;
use quota_usage::{Change, Usage};
use thresholds::crosses_any;
use volume_tree::Tree;

/// What a change gives on a way up: there each counter loses `minus` bytes, as many as it has at most, and then gains
/// `plus`, at a moment in seconds since 1970-01-01 00:00:00 UTC.
#[derive(Clone, Copy)]
pub struct Gain {
    pub minus: u64,
    pub plus: u64,
    pub moment: u64,
}

// Raises the peak of a folder's quota, which is this one, to what is used, if that is more.
fn raise_to(objects: &mut Objects, folder: u32, peak: u64, used: u64, moment: u64)
    requires ascending { is_ascending folder_of objects.old.quotas ≡ true }
    requires there { has_row folder_of folder objects.old.quotas ≡ true }
    requires peak { (quota : QuotaRow) → row_of folder_of folder objects.old.quotas ≡ Some quota → quota.peak ≡ peak }
    ensures { objects.new ≡ record objects.old { quotas = with_change folder_of folder (raised_to used moment) objects.old.quotas } }
{
    if peak < used {
        objects.set_peak(folder, used, moment);
    }
}

/// Raises the peak of a folder's quota to what is used, if that is more.
#[inline]
pub fn raise_peak(usage: &Usage, objects: &mut Objects, folder: u32, moment: u64)
    requires { is_ascending folder_of objects.old.quotas ≡ true }
    ensures { objects.new ≡ record objects.old { quotas = with_change folder_of folder (raised usage.now moment) objects.old.quotas } }
{
    let Some(used) = usage.used(folder) else {
        return;
    };
    let Some(quota) = objects.quota(folder) else {
        return;
    };
    let peak = quota.peak;
    raise_to(objects, folder, peak, used, moment);
}

/// What was used before `minus` bytes were taken, and then `plus` were given.
pub fn used_before(minus: u64, plus: u64, now: u64) -> u64
    ensures { result ≡ used_before minus plus now }
{
    now.saturating_sub(plus).saturating_add(minus)
}

// Notes a folder's quota if it crosses a threshold. Its place is sought by halves, so only then.
fn note_if(objects: &Objects, crossing: &mut NumberSet, folder: u32, crosses: bool)
    requires ascending { is_ascending folder_of objects.now.quotas ≡ true }
    requires bound { crossing.old.bound ≡ most_quotas }
    ensures { (passes : QuotaRow → Bool) → ((quota : QuotaRow) → row_of folder_of folder objects.now.quotas ≡ Some quota → passes quota ≡ crosses) → Notes crossing.old crossing.new objects.now.quotas (λ quota. (quota.folder == folder) && passes quota) }
{
    if !crosses {
        return;
    }
    let Some(place) = objects.quota_place(folder) else {
        return;
    };
    crossing.insert(place);
}

// Has a folder's counter lose bytes and gain others, raises the peak of its quota to what is used then, if that is more,
// and notes the quota's place if it crosses a threshold. Peaks and thresholds go by the folder's own counter alone, so
// the counters may come to anything else beside it.
#[inline(always)]
fn gain_at(
    usage: &mut Usage,
    objects: &mut Objects,
    crossing: &mut NumberSet,
    folder: u32,
    gain: Gain,
)
    requires fits { (bytes : ℕ) → used_in usage.old folder ≡ Some bytes → amended gain.minus gain.plus bytes < 2 ^ 64 }
    requires ascending { is_ascending folder_of objects.old.quotas ≡ true }
    requires bound { crossing.old.bound ≡ most_quotas }
    ensures counted { usage.new ≡ with_change counted folder (amended_counter gain.minus gain.plus) usage.old }
    ensures raised { (counters : Items Counter) → used_in counters folder ≡ used_in usage.new folder → objects.new ≡ record objects.old { quotas = with_change folder_of folder (raised counters gain.moment) objects.old.quotas } }
    ensures noted { (counters : Items Counter) → used_in counters folder ≡ used_in usage.new folder → Notes crossing.old crossing.new objects.old.quotas (λ quota. (quota.folder == folder) && is_crossing counters gain.minus gain.plus quota) }
{
    let Some(now) = usage.amend(folder, gain.minus, gain.plus) else {
        return;
    };
    let Some(quota) = objects.quota(folder) else {
        return;
    };
    let peak = quota.peak;
    let before = used_before(gain.minus, gain.plus, now);
    let crosses = crosses_any(quota, before, now);
    note_if(objects, crossing, folder, crosses);
    raise_to(objects, folder, peak, now, gain.moment);
}

/// Has the counters of a folder and of each above it gain bytes, on one way up: each loses bytes and gains others, the
/// peak of its quota is raised to what is used then, if that is more, and the quota's place is noted if it crosses a
/// threshold. It takes a look for each folder on the way.
pub fn gain_above<L: Ledger>(
    tree: &Tree,
    usage: &mut Usage,
    objects: &mut Objects,
    crossing: &mut NumberSet,
    folder: u32,
    gain: Gain,
    steps: &mut Steps<L>,
)
    requires volume { IsVolume tree.now.size tree.now.nodes }
    requires there { has_row key folder tree.now.nodes ≡ true }
    requires fits { FitsAbove tree.now.nodes usage.old folder gain.minus gain.plus }
    requires ascending { is_ascending folder_of objects.old.quotas ≡ true }
    requires bound { crossing.old.bound ≡ most_quotas }
    ensures counted { usage.new ≡ climbed tree.now.nodes folder gain.minus gain.plus usage.old }
    ensures quotas { objects.new ≡ record objects.old { quotas = map (λ quota. if is_under tree.now.nodes quota.folder folder then raised usage.new gain.moment quota else quota) objects.old.quotas } }
    ensures noted { Notes crossing.old crossing.new objects.old.quotas (λ quota. is_under tree.now.nodes quota.folder folder && is_crossing usage.new gain.minus gain.plus quota) }
    ensures looks { steps.new ≤ steps.old + length (chain tree.now.nodes folder) }
{
    // Without counters nothing is gained, so there is no need to climb.
    if usage.is_empty() {
        return;
    }
    let mut way = tree.way_up(folder);
    while let Some(at) = way.next(steps) {
        gain_at(usage, objects, crossing, at, gain);
    }
}

// Notes a folder's quota no longer.
fn drop_noted(objects: &Objects, crossing: &mut NumberSet, folder: u32)
    requires { is_ascending folder_of objects.now.quotas ≡ true }
    ensures { Drops crossing.old crossing.new objects.now.quotas (λ quota. quota.folder == folder) }
{
    let Some(place) = objects.quota_place(folder) else {
        return;
    };
    crossing.remove(place);
}

// The same of a folder's quota and of those above it.
fn drop_above<L: Ledger>(
    tree: &Tree,
    objects: &Objects,
    crossing: &mut NumberSet,
    folder: u32,
    steps: &mut Steps<L>,
)
    requires volume { IsVolume tree.now.size tree.now.nodes }
    requires there { has_row key folder tree.now.nodes ≡ true }
    requires ascending { is_ascending folder_of objects.now.quotas ≡ true }
    ensures dropped { Drops crossing.old crossing.new objects.now.quotas (λ quota. is_under tree.now.nodes quota.folder folder) }
    ensures looks { steps.new ≤ steps.old + length (chain tree.now.nodes folder) }
{
    let mut way = tree.way_up(folder);
    while let Some(at) = way.next(steps) {
        drop_noted(objects, crossing, at);
    }
}

/// Raises the peak of each folder's quota to what is used, if that is more.
pub fn raise_all(usage: &Usage, objects: &mut Objects, moment: u64)
    requires { is_ascending folder_of objects.old.quotas ≡ true }
    ensures { objects.new ≡ record objects.old { quotas = map (raised usage.now moment) objects.old.quotas } }
{
    for place in 0..objects.quota_count() {
        let folder = objects.quota_at(place).folder;
        raise_peak(usage, objects, folder, moment);
    }
}

/// Counts no longer for a folder.
#[inline]
pub fn end_count(usage: &mut Usage, folder: u32)
    ensures { usage.new ≡ without_counter usage.old folder }
{
    if usage.used(folder).is_some() {
        usage.end(folder);
    }
}

// Takes a folder's quota away, if it has one.
fn drop_row(objects: &mut Objects, folder: u32)
    ensures { objects.new ≡ without_quota objects.old folder }
{
    if objects.quota(folder).is_some() {
        objects.drop_quota(folder);
    }
}

/// Takes a folder's quota away, if it has one, and its counter.
#[inline]
pub fn drop_quota(usage: &mut Usage, objects: &mut Objects, folder: u32)
    ensures usage { usage.new ≡ without_counter usage.old folder }
    ensures objects { objects.new ≡ without_quota objects.old folder }
{
    end_count(usage, folder);
    drop_row(objects, folder);
}

/// Takes out of the noted quotas (`crossing`) those to which a change gives what it takes from them: they use as much as
/// before.
pub fn drop_kept<L: Ledger>(
    tree: &Tree,
    objects: &Objects,
    crossing: &mut NumberSet,
    change: &Change,
    to: u32,
    steps: &mut Steps<L>,
)
    requires volume { IsVolume tree.now.size tree.now.nodes }
    requires change { IsChange tree.now.nodes change.now }
    requires quotas { are_orderly objects.now.quotas ≡ true }
    ensures dropped { Drops crossing.old crossing.new objects.now.quotas (is_kept tree.now.nodes change.now to) }
    ensures looks { steps.new ≤ steps.old + height tree.now.nodes change.now.from }
{
    if crossing.is_empty() {
        return;
    }
    match change.from {
        Some(from) if from != to => {
            drop_above(tree, objects, crossing, from, steps);
        }
        _ => {}
    }
}
