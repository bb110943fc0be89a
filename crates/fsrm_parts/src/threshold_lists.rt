//! What a command makes of the thresholds of a quota or a template.

ghost use Rattle.std.specs.Prelude.{◌≡◌, ◌++◌, ◌∷◌, [], IfOk, OnOk, fold, true};
ghost use Rattle.std.specs.List.{list_all};
ghost use Rattle.fsrm_base.specs.Keyed.{has_row, is_ascending};
ghost use Rattle.fsrm_base.specs.Numbers.{each_once};
ghost use Rattle.fsrm_base.specs.Places.{IsAt};
ghost use Rattle.fsrm_model.specs.objects.Thresholds.{changed_thresholds, may_be_removed, percent_of, with_notice, with_threshold, without_thresholds};

use fsrm_model::{Action, Added, Duplicate, List, NewThresholds, NoMemory, Threshold};
use fsrm_objects::threshold_place;
use std::alloc::Global;
use thresholds::has_percent;

// Whether each percentage is among the thresholds.
fn are_there(percents: &[u16], thresholds: &[Threshold]) -> bool
    ensures { result ≡ list_all (λ percent. has_row percent_of percent thresholds.now) percents.now }
{
    percents
        .iter()
        .all(|percent| has_percent(thresholds, *percent))
}

fn each_once(percents: &[u16]) -> bool
    ensures { result ≡ each_once percents.now }
{
    let mut rest = percents;
    while let Some((percent, later)) = rest.split_first() {
        if later.contains(percent) {
            return false;
        }
        rest = later;
    }
    true
}

/// Whether percentages may be removed: each of them is there, and named once.
pub fn may_be_removed(percents: &[u16], thresholds: &[Threshold]) -> bool
    ensures { result ≡ may_be_removed percents.now thresholds.now }
{
    are_there(percents, thresholds) && each_once(percents)
}

// A copy of thresholds without some percentages.
fn without(
    alloc: Global,
    removed: &[u16],
    thresholds: &[Threshold],
) -> Result<List<Threshold>, NoMemory>
    ensures { IfOk result (λ kept. kept ≡ without_thresholds removed.now thresholds.now) }
{
    let mut kept = List::new(alloc);
    for threshold in thresholds {
        if !removed.contains(&threshold.percent) {
            kept.push(threshold.copy(alloc)?)?;
        }
    }
    Ok(kept)
}

// The place of a percentage, which comes without actions if it wasn't there.
fn place_of(
    alloc: Global,
    thresholds: &mut List<Threshold>,
    percent: u16,
) -> Result<usize, NoMemory>
    requires { is_ascending percent_of thresholds.old ≡ true }
    ensures with { OnOk result (thresholds.new ≡ with_threshold thresholds.old percent) }
    ensures place { IfOk result (IsAt percent_of percent thresholds.new) }
{
    match threshold_place(thresholds.as_slice(), percent) {
        Ok(place) => Ok(place),
        Err(place) => {
            let threshold = Threshold {
                percent,
                actions: List::new(alloc),
            };
            thresholds.insert(place, threshold)?;
            Ok(place)
        }
    }
}

// Puts a copy of an action after others.
fn append(alloc: Global, actions: &mut List<Action>, action: &Action) -> Result<(), NoMemory>
    ensures { OnOk result (actions.new ≡ actions.old ++ action.now ∷ []) }
{
    actions.push(action.copy(alloc)?)
}

// Gives a percentage one more action.
fn add_notice(
    alloc: Global,
    thresholds: &mut List<Threshold>,
    notice: &Added,
) -> Result<(), NoMemory>
    requires { is_ascending percent_of thresholds.old ≡ true }
    ensures { OnOk result (thresholds.new ≡ with_notice thresholds.old notice.now) }
{
    let place = place_of(alloc, thresholds, notice.percent)?;
    let threshold = thresholds.get_mut(place).unwrap();
    append(alloc, &mut threshold.actions, &notice.action)
}

fn add_percents(
    alloc: Global,
    thresholds: &mut List<Threshold>,
    percents: &[u16],
) -> Result<(), NoMemory>
    requires { is_ascending percent_of thresholds.old ≡ true }
    ensures { OnOk result (thresholds.new ≡ fold with_threshold thresholds.old percents.now) }
{
    for percent in percents {
        place_of(alloc, thresholds, *percent)?;
    }
    Ok(())
}

fn add_notices(
    alloc: Global,
    thresholds: &mut List<Threshold>,
    notices: &[Added],
) -> Result<(), NoMemory>
    requires { is_ascending percent_of thresholds.old ≡ true }
    ensures { OnOk result (thresholds.new ≡ fold with_notice thresholds.old notices.now) }
{
    for notice in notices {
        add_notice(alloc, thresholds, notice)?;
    }
    Ok(())
}

/// What a command makes of the thresholds of a quota or a template: some percentages are removed, then some are added,
/// and then some are given an action each.
pub fn changed_thresholds(
    alloc: Global,
    removed: &List<u16>,
    added: &NewThresholds,
    thresholds: &List<Threshold>,
) -> Result<List<Threshold>, NoMemory>
    requires { is_ascending percent_of thresholds.now ≡ true }
    ensures { IfOk result (λ changed. changed ≡ changed_thresholds removed.now added.now.percents added.now.notices thresholds.now) }
{
    let mut changed = without(alloc, removed.as_slice(), thresholds.as_slice())?;
    add_percents(alloc, &mut changed, added.percents.as_slice())?;
    add_notices(alloc, &mut changed, added.notices.as_slice())?;
    Ok(changed)
}
