//! Report jobs.

ghost use Rattle.std.specs.Prelude.{◌≡◌, nat_le, true};
ghost use Rattle.std.specs.List.{list_all};
ghost use Rattle.std.specs.Option.{option_map_or};
ghost use Rattle.fsrm_base.specs.Keyed.{is_ascending};
ghost use Rattle.fsrm_model.specs.nodes.Tree.{number};
ghost use Rattle.fsrm_model.specs.objects.Jobs.{is_job};
ghost use Rattle.fsrm_model.specs.reports.Filters.{is_filter, is_length, is_owner};
ghost use Rattle.fsrm_model.specs.store.Valid.{is_moment, is_sound_job};
ghost use Rattle.fsrm_model.specs.values.Patterns.{is_pattern};
ghost use Rattle.row_rules.specs.Kept.{are_numbered_jobs};

use crate::actions::is_moment;
use crate::keys::{Jobs, ascend, is_folder};
use fsrm_model::limits::{LONGEST_FILE, MOST_DAYS, MOST_JOBS, MOST_ROWS, MOST_USE};
use fsrm_model::{Filter, JobRow, NodeRow, Text};
use name_patterns::is_pattern;
use text_rules::{is_object_name, is_schedule};

fn may_be_owner(owner: Option<u32>) -> bool
    ensures { result ≡ option_map_or is_owner owner true }
{
    match owner {
        Some(owner) => owner > 0,
        None => true,
    }
}

fn may_be_pattern(pattern: &Option<Text>) -> bool
    ensures { result ≡ option_map_or is_pattern pattern.now true }
{
    match pattern {
        Some(pattern) => is_pattern(pattern.as_str()),
        None => true,
    }
}

fn may_be_length(length: Option<u64>) -> bool
    ensures { result ≡ option_map_or is_length length true }
{
    match length {
        Some(length) => length <= LONGEST_FILE,
        None => true,
    }
}

fn is_at_most(number: Option<u32>, most: u32) -> bool
    ensures { result ≡ option_map_or (λ n. nat_le n most) number true }
{
    match number {
        Some(number) => number <= most,
        None => true,
    }
}

fn is_filter(filter: &Filter) -> bool
    ensures { result ≡ is_filter filter.now }
{
    let files = may_be_owner(filter.owner)
        && may_be_pattern(&filter.pattern)
        && may_be_length(filter.min_size);
    let times = is_at_most(filter.days, MOST_DAYS) && is_at_most(filter.min_use, MOST_USE);
    files && times && 1 <= filter.max && filter.max <= MOST_ROWS
}

fn may_be_run(moment: Option<u64>) -> bool
    ensures { result ≡ option_map_or is_moment moment true }
{
    match moment {
        Some(moment) => is_moment(moment),
        None => true,
    }
}

fn is_job(job: &JobRow) -> bool
    ensures { result ≡ is_job job.now }
{
    let named = (job.number as usize) < MOST_JOBS && is_object_name(job.name.as_str());
    let moments = is_moment(job.made) && may_be_run(job.last_run);
    named && is_filter(&job.filter) && is_schedule(job.schedule.as_str()) && moments
}

fn is_sound_job(nodes: &[NodeRow], job: &JobRow) -> bool
    requires { is_ascending number nodes.now ≡ true }
    ensures { result ≡ is_sound_job nodes.now job.now }
{
    is_folder(nodes, job.scope) && is_job(job)
}

fn are_sound_jobs(nodes: &[NodeRow], jobs: &[JobRow]) -> bool
    requires { is_ascending number nodes.now ≡ true }
    ensures { result ≡ list_all (is_sound_job nodes.now) jobs.now }
{
    jobs.iter().all(|job| is_sound_job(nodes, job))
}

/// Whether these are report jobs on folders of these nodes, in the order of their numbers.
pub fn are_numbered_jobs(nodes: &[NodeRow], jobs: &[JobRow]) -> bool
    requires { is_ascending number nodes.now ≡ true }
    ensures { result ≡ are_numbered_jobs nodes.now jobs.now }
{
    let few = ascend::<Jobs>(jobs) && jobs.len() <= MOST_JOBS;
    few && are_sound_jobs(nodes, jobs)
}
