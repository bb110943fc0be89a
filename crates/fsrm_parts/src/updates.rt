//! The actions that are due of quotas which a template's change reached.

ghost use Rattle.std.specs.Prelude.{◌≡◌, ℕ, ◌≤◌, [], Some, true, flat_map, length, map};
ghost use Rattle.std.specs.List.{AllByRecursion, list_all};
ghost use Rattle.fsrm_base.specs.Keyed.{has_row, is_ascending};
ghost use Rattle.fsrm_base.specs.Numbers.{is_set};
ghost use Rattle.fsrm_model.specs.values.Limits.{most_entries};
ghost use Rattle.fsrm_model.specs.objects.Quota.{folder_of};
ghost use Rattle.templates.specs.Reached.{whole};
ghost use Rattle.thresholds.specs.Marked.{are_there};
ghost use Rattle.thresholds.specs.Settled.{Settles, are_orderly, due_in};
ghost use Rattle.fsrm_parts.specs.Updated.{updated_acts, HasNow, limit_crosses};

use fsrm_model::{List, Threshold};
use fsrm_objects::Objects;
use quota_usage::Usage;
use templates::Was;
use thresholds::{Marks, reached};

// Whether what is used, which stays, reaches one of these thresholds by the limit that is now, and didn't by the one
// before.
fn crosses_some(thresholds: &[Threshold], before: u64, now: u64, used: Option<u64>) -> bool
    ensures { result ≡ limit_crosses before now used thresholds.now }
{
    thresholds.iter().any(|threshold| {
        reached(now, threshold.percent, used) && !reached(before, threshold.percent, used)
    })
}

// Whether a quota is sure to cross no threshold: it has those that it had, which stand apart, and by its limit it crosses
// none. Most quotas are, and are told by their limits alone.
fn is_calm(objects: &Objects, was: &Was, thresholds: &List<Threshold>, used: Option<u64>) -> bool
    requires { HasNow thresholds.now objects.now.quotas (whole thresholds.now was.now) }
    ensures { result ≡ true → (run_limit moment : ℕ) → due_in objects.now (Some (whole thresholds.now was.now)) used used run_limit moment was.now.row.folder ≡ [] }
{
    if !was.same {
        return false;
    }
    let Some(quota) = objects.quota(was.row.folder) else {
        return false;
    };
    !crosses_some(thresholds.as_slice(), was.row.limit, quota.limit, used)
}

// Settles a quota that had this row before. What it uses is as before.
fn settle_row(
    usage: &Usage,
    objects: &mut Objects,
    marks: &mut Marks,
    was: &mut Was,
    thresholds: &mut List<Threshold>,
    run_limit: u32,
    moment: u64,
)
    requires orderly { are_orderly objects.old.quotas ≡ true }
    requires marked { are_there objects.old.quotas marks.old.numbers ≡ true }
    requires sorted { is_set marks.old.numbers ≡ true }
    requires log { length marks.old.log ≤ most_entries }
    requires there { has_row folder_of was.old.row.folder objects.old.quotas ≡ true }
    requires now { HasNow thresholds.old objects.old.quotas (whole thresholds.old was.old) }
    ensures settled { Settles marks.old marks.new objects.old objects.new moment (updated_acts objects.old usage.now run_limit moment (whole thresholds.old was.old)) }
    ensures sorted { is_set marks.new.numbers ≡ true }
    ensures stays { was.new ≡ was.old }
    ensures stay { thresholds.new ≡ thresholds.old }
{
    let folder = was.row.folder;
    let used = usage.used(folder);
    if is_calm(objects, was, thresholds, used) {
        return;
    }
    was.trade(thresholds);
    marks.settle(
        objects,
        folder,
        Some(&was.row),
        used,
        used,
        run_limit,
        moment,
    );
    was.trade(thresholds);
}

/// Settles quotas that had these rows before a template's change, one after the other: the actions run that are due.
/// What the quotas use is as before. The run limit is in minutes.
pub fn settle_rows(
    usage: &Usage,
    objects: &mut Objects,
    marks: &mut Marks,
    rows: &mut List<Was>,
    thresholds: &mut List<Threshold>,
    run_limit: u32,
    moment: u64,
)
    requires orderly { are_orderly objects.old.quotas ≡ true }
    requires marked { are_there objects.old.quotas marks.old.numbers ≡ true }
    requires sorted { is_set marks.old.numbers ≡ true }
    requires log { length marks.old.log ≤ most_entries }
    requires there { list_all (λ row. has_row folder_of row.folder objects.old.quotas) (map (whole thresholds.old) rows.old) ≡ true }
    requires ascending { is_ascending folder_of (map (whole thresholds.old) rows.old) ≡ true }
    requires now { AllByRecursion (HasNow thresholds.old objects.old.quotas) (map (whole thresholds.old) rows.old) }
    ensures settled { Settles marks.old marks.new objects.old objects.new moment (flat_map (updated_acts objects.old usage.now run_limit moment) (map (whole thresholds.old) rows.old)) }
    ensures sorted { is_set marks.new.numbers ≡ true }
{
    for place in 0..rows.len() {
        let was = rows.get_mut(place).unwrap();
        settle_row(usage, objects, marks, was, thresholds, run_limit, moment);
    }
}
