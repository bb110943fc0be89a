//! Which quotas a template's change reaches, and which of them have its thresholds already.

ghost use Rattle.std.specs.Prelude.{◌≡◌};
ghost use Rattle.std.specs.Cmp.Lexicographic.{pointwise};
ghost use Rattle.std.specs.List.{list_all};
ghost use Rattle.fsrm_model.specs.objects.Templates.{is_derived, is_reached, is_unrun, matches_template, same_action, same_threshold};
ghost use Rattle.templates.specs.Reached.{has_thresholds};

use fsrm_model::{Action, QuotaRow, TemplateRow, Threshold, Update};

/// Whether a template's change reaches a quota. By its mode it reaches none, those that were derived from the template
/// and match it as it was (`old`), or all that were derived from it (MS-FSRM, FsrmTemplateApplyOptions).
pub fn is_reached(mode: Update, old: &TemplateRow, quota: &QuotaRow) -> bool
    ensures { result ≡ is_reached mode old.now quota.now }
{
    match mode {
        Update::Keep => false,
        Update::Matching => is_derived(old.number, quota) && matches_template(old, quota),
        Update::All => is_derived(old.number, quota),
    }
}

// Whether a quota was derived from the template of a number.
fn is_derived(number: u32, quota: &QuotaRow) -> bool
    ensures { result ≡ is_derived number quota.now }
{
    quota.template == Some(number)
}

// Whether a quota has the limit, the type and the thresholds of a template, whenever its actions ran.
fn matches_template(template: &TemplateRow, quota: &QuotaRow) -> bool
    ensures { result ≡ matches_template template.now quota.now }
{
    template.limit == quota.limit
        && template.enforce == quota.enforce
        && same_thresholds(template.thresholds.as_slice(), quota.thresholds.as_slice())
}

/// Whether a quota has the thresholds of a template, and none of their actions ever ran.
pub fn has_thresholds(template: &TemplateRow, quota: &QuotaRow) -> bool
    ensures { result ≡ has_thresholds template.now quota.now }
{
    same_thresholds(template.thresholds.as_slice(), quota.thresholds.as_slice())
        && are_unrun(quota.thresholds.as_slice())
}

// Whether none of their actions ever ran.
fn are_unrun(thresholds: &[Threshold]) -> bool
    ensures { result ≡ list_all is_unrun thresholds.now }
{
    thresholds.iter().all(|threshold| is_unrun(threshold))
}

fn is_unrun(threshold: &Threshold) -> bool
    ensures { result ≡ is_unrun threshold.now }
{
    threshold
        .actions
        .as_slice()
        .iter()
        .all(|action| action.last_run.is_none())
}

fn same_thresholds(a: &[Threshold], b: &[Threshold]) -> bool
    ensures { result ≡ pointwise same_threshold a.now b.now }
{
    if a.len() != b.len() {
        return false;
    }
    for (place, threshold) in a.iter().enumerate() {
        if !same_threshold(threshold, &b[place]) {
            return false;
        }
    }
    true
}

fn same_threshold(a: &Threshold, b: &Threshold) -> bool
    ensures { result ≡ same_threshold a.now b.now }
{
    a.percent == b.percent && same_actions(a.actions.as_slice(), b.actions.as_slice())
}

fn same_actions(a: &[Action], b: &[Action]) -> bool
    ensures { result ≡ pointwise same_action a.now b.now }
{
    if a.len() != b.len() {
        return false;
    }
    for (place, action) in a.iter().enumerate() {
        if !same_action(action, &b[place]) {
            return false;
        }
    }
    true
}

// Whether two actions are the same, whenever they ran.
fn same_action(a: &Action, b: &Action) -> bool
    ensures { result ≡ same_action a.now b.now }
{
    a.kind == b.kind && a.minutes == b.minutes && a.text.as_str() == b.text.as_str()
}
