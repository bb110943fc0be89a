//! How long the lists and the texts of a row are.

ghost use Rattle.std.specs.Prelude.{◌≡◌, ◌+◌, ◌<◌, ◌^◌, length, MatchOption};
ghost use Rattle.std.specs.List.{list_any};
ghost use Rattle.std.specs.Option.{option_map_or};
ghost use Rattle.fsrm_model.specs.values.Texts.{action_bytes, job_bytes, threshold_bytes};
ghost use Rattle.fsrm_model.specs.objects.Thresholds.{are_too_many, is_crowded};
ghost use Rattle.fsrm_objects.specs.Tables.{is_long_screen};

use fsrm_base::room::left_of_text;
use fsrm_model::limits::{MOST_ACTIONS, MOST_SCREEN_GROUPS, MOST_THRESHOLDS};
use fsrm_model::{Action, Filter, JobRow, List, ScreenRow, Threshold};

/// Whether there are more thresholds than a quota or a template may have, or one of them has more actions than it may.
pub fn are_too_many(thresholds: &List<Threshold>) -> bool
    ensures { result ≡ are_too_many thresholds.now }
{
    thresholds.len() > MOST_THRESHOLDS || some_is_crowded(thresholds)
}

fn some_is_crowded(thresholds: &List<Threshold>) -> bool
    ensures { result ≡ list_any is_crowded thresholds.now }
{
    thresholds
        .as_slice()
        .iter()
        .any(|threshold| threshold.actions.len() > MOST_ACTIONS)
}

/// Whether a screen has more file groups or actions than it may.
pub fn is_long_screen(row: &ScreenRow) -> bool
    ensures { result ≡ is_long_screen row.now }
{
    row.groups.len() > MOST_SCREEN_GROUPS || row.actions.len() > MOST_ACTIONS
}

/// The bytes of the texts of thresholds, which fit.
pub fn threshold_texts(thresholds: &List<Threshold>) -> u32
    requires { threshold_bytes thresholds.now < 2 ^ 32 }
    ensures { result ≡ threshold_bytes thresholds.now }
{
    let room = u64::from(u32::MAX);
    let left = left_of_thresholds(thresholds, room).unwrap();
    (room - left) as u32
}

/// How much of the room the texts of thresholds leave; None if they are longer.
pub fn left_of_thresholds(thresholds: &List<Threshold>, room: u64) -> Option<u64>
    ensures { MatchOption result (room < threshold_bytes thresholds.now) (λ left. left + threshold_bytes thresholds.now ≡ room) }
{
    let mut left = room;
    for threshold in thresholds.as_slice() {
        left = left_of_actions(&threshold.actions, left)?;
    }
    Some(left)
}

/// The bytes of the texts of actions, which fit.
pub fn texts_of_actions(actions: &List<Action>) -> u32
    requires { action_bytes actions.now < 2 ^ 32 }
    ensures { result ≡ action_bytes actions.now }
{
    let room = u64::from(u32::MAX);
    let left = left_of_actions(actions, room).unwrap();
    (room - left) as u32
}

/// How much of the room the texts of actions leave; None if they are longer.
pub fn left_of_actions(actions: &List<Action>, room: u64) -> Option<u64>
    ensures { MatchOption result (room < action_bytes actions.now) (λ left. left + action_bytes actions.now ≡ room) }
{
    let mut left = room;
    for action in actions.as_slice() {
        left = left_of_text(action.text.as_str(), left)?;
    }
    Some(left)
}

/// The bytes of the texts of a report job, which fit: its name, its schedule, and the pattern of its filter.
pub fn job_texts(job: &JobRow) -> u32
    requires { job_bytes job.now < 2 ^ 32 }
    ensures { result ≡ job_bytes job.now }
{
    job.name.as_str().len() as u32 + job.schedule.as_str().len() as u32 + pattern_texts(&job.filter)
}

// The bytes of a filter's pattern, which fit. None are there if it has none.
fn pattern_texts(filter: &Filter) -> u32
    requires { option_map_or (λ pattern. length pattern) filter.now.pattern 0 < 2 ^ 32 }
    ensures { result ≡ option_map_or (λ pattern. length pattern) filter.now.pattern 0 }
{
    match &filter.pattern {
        Some(pattern) => pattern.as_str().len() as u32,
        None => 0,
    }
}
