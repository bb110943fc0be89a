//! Quotas, templates and auto-apply quotas.

ghost use Rattle.std.specs.Prelude.{◌≡◌, true};
ghost use Rattle.std.specs.List.{list_all};
ghost use Rattle.fsrm_base.specs.Keyed.{is_ascending};
ghost use Rattle.fsrm_model.specs.nodes.Tree.{number};
ghost use Rattle.fsrm_model.specs.objects.AutoApply.{is_auto};
ghost use Rattle.fsrm_model.specs.objects.QuotaStates.{is_rebuilding};
ghost use Rattle.fsrm_model.specs.objects.Templates.{is_template, template_number};
ghost use Rattle.fsrm_model.specs.store.Replays.{none_rebuilding};
ghost use Rattle.fsrm_model.specs.store.Valid.{are_autos, are_quotas, has_source, is_sound_auto, is_sound_quota};
ghost use Rattle.fsrm_model.specs.values.Name.{is_name};
ghost use Rattle.row_rules.specs.Kept.{are_numbered_templates};

use crate::actions::{are_thresholds, are_unrun, is_limit, is_moment};
use crate::keys::{Autos, Quotas, Templates, ascend, has, is_folder};
use fsrm_model::limits::{MOST_AUTOS, MOST_EXCLUDED, MOST_QUOTAS, MOST_TEMPLATES};
use fsrm_model::{AutoRow, NodeRow, QuotaRow, QuotaState, TemplateRow, Text};
use name_rules::is_name;
use text_rules::is_object_name;

fn is_sound_quota(nodes: &[NodeRow], quota: &QuotaRow) -> bool
    requires { is_ascending number nodes.now ≡ true }
    ensures { result ≡ is_sound_quota nodes.now quota.now }
{
    let in_range = are_thresholds(quota.thresholds.as_slice()) && is_moment(quota.peak_at);
    is_folder(nodes, quota.folder) && is_limit(quota.limit) && in_range
}

fn are_sound_quotas(nodes: &[NodeRow], quotas: &[QuotaRow]) -> bool
    requires { is_ascending number nodes.now ≡ true }
    ensures { result ≡ list_all (is_sound_quota nodes.now) quotas.now }
{
    quotas.iter().all(|quota| is_sound_quota(nodes, quota))
}

/// Whether these are the quotas of a store with these nodes.
pub fn are_quotas(nodes: &[NodeRow], quotas: &[QuotaRow]) -> bool
    requires { is_ascending number nodes.now ≡ true }
    ensures { result ≡ are_quotas nodes.now quotas.now }
{
    let few = ascend::<Quotas>(quotas) && quotas.len() <= MOST_QUOTAS;
    few && are_sound_quotas(nodes, quotas)
}

fn has_source(templates: &[TemplateRow], quota: &QuotaRow) -> bool
    requires { is_ascending template_number templates.now ≡ true }
    ensures { result ≡ has_source templates.now quota.now }
{
    match quota.template {
        None => true,
        Some(template) => has::<Templates>(templates, template),
    }
}

/// Whether the template of each quota that has one is there.
pub fn have_sources(templates: &[TemplateRow], quotas: &[QuotaRow]) -> bool
    requires { is_ascending template_number templates.now ≡ true }
    ensures { result ≡ list_all (has_source templates.now) quotas.now }
{
    quotas.iter().all(|quota| has_source(templates, quota))
}

fn is_rebuilding(state: QuotaState) -> bool
    ensures { result ≡ is_rebuilding state }
{
    match state {
        QuotaState::Rebuilding => true,
        QuotaState::Complete | QuotaState::Disabled | QuotaState::Incomplete => false,
    }
}

/// Whether no quota waits for a scan.
pub fn none_rebuilding(quotas: &[QuotaRow]) -> bool
    ensures { result ≡ none_rebuilding quotas.now }
{
    quotas.iter().all(|quota| !is_rebuilding(quota.state))
}

fn is_template(template: &TemplateRow) -> bool
    ensures { result ≡ is_template template.now }
{
    let named = is_object_name(template.name.as_str());
    let thresholds = template.thresholds.as_slice();
    let fresh = are_thresholds(thresholds) && are_unrun(thresholds);
    (template.number as usize) < MOST_TEMPLATES && named && is_limit(template.limit) && fresh
}

fn are_all_templates(templates: &[TemplateRow]) -> bool
    ensures { result ≡ list_all is_template templates.now }
{
    templates.iter().all(|template| is_template(template))
}

/// Whether these are templates, in the order of their numbers.
pub fn are_numbered_templates(templates: &[TemplateRow]) -> bool
    ensures { result ≡ are_numbered_templates templates.now }
{
    let few = ascend::<Templates>(templates) && templates.len() <= MOST_TEMPLATES;
    few && are_all_templates(templates)
}

fn are_names(names: &[Text]) -> bool
    ensures { result ≡ list_all is_name names.now }
{
    names.iter().all(|name| is_name(name.as_str()))
}

fn is_auto(auto: &AutoRow) -> bool
    ensures { result ≡ is_auto auto.now }
{
    auto.excluded.len() <= MOST_EXCLUDED && are_names(auto.excluded.as_slice())
}

fn is_sound_auto(nodes: &[NodeRow], templates: &[TemplateRow], auto: &AutoRow) -> bool
    requires nodes { is_ascending number nodes.now ≡ true }
    requires templates { is_ascending template_number templates.now ≡ true }
    ensures { result ≡ is_sound_auto nodes.now templates.now auto.now }
{
    let there = has::<Templates>(templates, auto.template);
    is_folder(nodes, auto.folder) && there && is_auto(auto)
}

fn are_sound_autos(nodes: &[NodeRow], templates: &[TemplateRow], autos: &[AutoRow]) -> bool
    requires nodes { is_ascending number nodes.now ≡ true }
    requires templates { is_ascending template_number templates.now ≡ true }
    ensures { result ≡ list_all (is_sound_auto nodes.now templates.now) autos.now }
{
    autos
        .iter()
        .all(|auto| is_sound_auto(nodes, templates, auto))
}

/// Whether these are the auto-apply quotas of a store with these nodes and templates.
pub fn are_autos(nodes: &[NodeRow], templates: &[TemplateRow], autos: &[AutoRow]) -> bool
    requires nodes { is_ascending number nodes.now ≡ true }
    requires templates { is_ascending template_number templates.now ≡ true }
    ensures { result ≡ are_autos nodes.now templates.now autos.now }
{
    let few = ascend::<Autos>(autos) && autos.len() <= MOST_AUTOS;
    few && are_sound_autos(nodes, templates, autos)
}
