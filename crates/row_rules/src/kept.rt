//! The rows of a store in which no scan waits.

ghost use Rattle.std.specs.Prelude.{◌≡◌, true};
ghost use Rattle.fsrm_base.specs.Keyed.{is_ascending};
ghost use Rattle.fsrm_model.specs.nodes.Tree.{number};
ghost use Rattle.row_rules.specs.Kept.{are_kept, are_kept_quotas, are_kept_screens, is_kept_rest};

use crate::actions::is_moment;
use crate::jobs::are_numbered_jobs;
use crate::logs::{are_audits, are_entries};
use crate::objects::{
    are_autos, are_numbered_templates, are_quotas, have_sources, none_rebuilding,
};
use crate::screens::{are_excepts, are_numbered_groups, are_screens};
use fsrm_model::Rows;
use fsrm_model::limits::MOST_MINUTES;

/// Whether these are the rows of a store in which no scan waits, but for what its tables judge when they are filled.
/// The nodes ascend by number. It looks at no tree and takes no memory.
pub fn are_kept(rows: &Rows) -> bool
    requires { is_ascending number rows.now.nodes ≡ true }
    ensures { result ≡ are_kept rows.now }
{
    are_kept_quotas(rows) && are_kept_screens(rows) && is_kept_rest(rows)
}

fn are_kept_quotas(rows: &Rows) -> bool
    requires { is_ascending number rows.now.nodes ≡ true }
    ensures { result ≡ are_kept_quotas rows.now }
{
    let nodes = rows.nodes.as_slice();
    let quotas = rows.quotas.as_slice();
    let templates = rows.templates.as_slice();
    are_numbered_templates(templates)
        && are_quotas(nodes, quotas)
        && have_sources(templates, quotas)
        && are_autos(nodes, templates, rows.autos.as_slice())
        && none_rebuilding(quotas)
}

fn are_kept_screens(rows: &Rows) -> bool
    requires { is_ascending number rows.now.nodes ≡ true }
    ensures { result ≡ are_kept_screens rows.now }
{
    let nodes = rows.nodes.as_slice();
    let groups = rows.groups.as_slice();
    let excepts = rows.excepts.as_slice();
    are_numbered_groups(groups)
        && are_excepts(nodes, groups, excepts)
        && are_screens(nodes, groups, excepts, rows.screens.as_slice())
}

fn is_kept_rest(rows: &Rows) -> bool
    requires { is_ascending number rows.now.nodes ≡ true }
    ensures { result ≡ is_kept_rest rows.now }
{
    let logs = are_entries(rows.acts.as_slice()) && are_audits(rows.audits.as_slice());
    let settings = rows.run_limit <= MOST_MINUTES && is_moment(rows.last_moment);
    let jobs = are_numbered_jobs(rows.nodes.as_slice(), rows.jobs.as_slice());
    let idle = rows.queue.is_empty() && rows.unvisited.is_empty();
    logs && settings && jobs && idle
}
