//! Actions, and the thresholds and lists that have them.

ghost use Rattle.std.specs.Prelude.{◌≡◌};
ghost use Rattle.std.specs.List.{list_all, list_any};
ghost use Rattle.fsrm_model.specs.objects.Quota.{is_limit};
ghost use Rattle.fsrm_model.specs.objects.Templates.{is_unrun};
ghost use Rattle.fsrm_model.specs.objects.Thresholds.{are_minutes, are_thresholds, are_too_many, is_crowded, is_kept_action, is_percent, is_threshold};
ghost use Rattle.fsrm_model.specs.store.Valid.{are_screen_actions, is_moment};

use crate::keys::{Thresholds, ascend};
use fsrm_model::limits::{
    GREATEST_LIMIT, GREATEST_PERCENT, LATEST_MOMENT, LEAST_LIMIT, MOST_ACTIONS, MOST_MINUTES,
    MOST_THRESHOLDS,
};
use fsrm_model::{Action, Threshold};
use text_rules::is_action_text;

/// Whether a moment is one that a command may have.
pub fn is_moment(moment: u64) -> bool
    ensures { result ≡ is_moment moment }
{
    moment <= LATEST_MOMENT
}

/// Whether a quota or a template may have this limit.
pub fn is_limit(limit: u64) -> bool
    ensures { result ≡ is_limit limit }
{
    LEAST_LIMIT <= limit && limit <= GREATEST_LIMIT
}

fn are_minutes(minutes: i32) -> bool
    ensures { result ≡ are_minutes minutes }
{
    minutes >= -1 && minutes <= MOST_MINUTES as i32
}

fn is_kept_action(action: &Action) -> bool
    ensures { result ≡ is_kept_action action.now }
{
    let ran = match action.last_run {
        None => true,
        Some(moment) => is_moment(moment),
    };
    are_minutes(action.minutes) && is_action_text(action.text.as_str()) && ran
}

fn are_kept_actions(actions: &[Action]) -> bool
    ensures { result ≡ list_all is_kept_action actions.now }
{
    actions.iter().all(|action| is_kept_action(action))
}

/// Whether these are the actions of a screen.
pub fn are_screen_actions(actions: &[Action]) -> bool
    ensures { result ≡ are_screen_actions actions.now }
{
    actions.len() <= MOST_ACTIONS && are_kept_actions(actions)
}

fn is_percent(percent: u16) -> bool
    ensures { result ≡ is_percent percent }
{
    1 <= percent && percent <= GREATEST_PERCENT
}

fn is_threshold(threshold: &Threshold) -> bool
    ensures { result ≡ is_threshold threshold.now }
{
    is_percent(threshold.percent) && are_kept_actions(threshold.actions.as_slice())
}

fn is_crowded(threshold: &Threshold) -> bool
    ensures { result ≡ is_crowded threshold.now }
{
    threshold.actions.len() > MOST_ACTIONS
}

fn some_is_crowded(thresholds: &[Threshold]) -> bool
    ensures { result ≡ list_any is_crowded thresholds.now }
{
    thresholds.iter().any(|threshold| is_crowded(threshold))
}

fn are_too_many(thresholds: &[Threshold]) -> bool
    ensures { result ≡ are_too_many thresholds.now }
{
    thresholds.len() > MOST_THRESHOLDS || some_is_crowded(thresholds)
}

fn are_all_thresholds(thresholds: &[Threshold]) -> bool
    ensures { result ≡ list_all is_threshold thresholds.now }
{
    thresholds.iter().all(|threshold| is_threshold(threshold))
}

/// Whether these are the thresholds of a quota.
pub fn are_thresholds(thresholds: &[Threshold]) -> bool
    ensures { result ≡ are_thresholds thresholds.now }
{
    let few = ascend::<Thresholds>(thresholds) && !are_too_many(thresholds);
    few && are_all_thresholds(thresholds)
}

fn is_unrun(threshold: &Threshold) -> bool
    ensures { result ≡ is_unrun threshold.now }
{
    threshold
        .actions
        .as_slice()
        .iter()
        .all(|action| action.last_run.is_none())
}

/// Whether no action of these thresholds ever ran.
pub fn are_unrun(thresholds: &[Threshold]) -> bool
    ensures { result ≡ list_all is_unrun thresholds.now }
{
    thresholds.iter().all(|threshold| is_unrun(threshold))
}
