//! Quota templates, the quotas that are derived from them, and auto-apply quotas. What they do is shown by scripts.

ghost use Rattle.std.specs.Prelude.{◌≡◌, None, Some, IfOk, true, nat_lt};
ghost use Rattle.fsrm_base.specs.Keyed.{has_row};
ghost use Rattle.fsrm_model.specs.declared.row.TemplateRow.{TemplateRow};
ghost use Rattle.fsrm_model.specs.objects.AutoApply.{is_auto};
ghost use Rattle.fsrm_model.specs.values.Limits.{most_templates};
ghost use Rattle.fsrm_model.specs.objects.Quota.{is_limit};
ghost use Rattle.fsrm_model.specs.objects.Templates.{is_template, template_number, template_of};
ghost use Rattle.vectors.specs.Kept.{IsPlain};

use crate::values::{one, text};
use fsrm_model::{AutoRow, List, QuotaState, TemplateRow, Update};
use fsrm_objects::Objects;
use std::alloc::Global;
use std::test::Fail;
use templates::Templates;

// A template named "text", without thresholds.
fn template(alloc: Global, number: u32, limit: u64) -> Result<TemplateRow, Fail>
    requires below { nat_lt number most_templates ≡ true }
    requires limit { is_limit limit ≡ true }
    ensures number { IfOk result (λ row. row.number ≡ number) }
    ensures plain { IfOk result IsPlain }
    ensures valid { IfOk result (λ row. is_template row ≡ true) }
{
    Ok(TemplateRow {
        number,
        name: text(alloc)?,
        limit,
        enforce: true,
        thresholds: List::new(alloc),
    })
}

fn kept(alloc: Global) -> Result<Templates, Fail>
    ensures there { IfOk result (λ templates. has_row template_number 0 templates.templates ≡ true) }
    ensures plain { IfOk result (λ templates. (row : TemplateRow) → template_of templates.templates 0 ≡ Some row → IsPlain row) }
{
    let mut templates = Templates::new(alloc);
    templates.add(template(alloc, 0, 5_000)?, 4)?;
    Ok(templates)
}

// Whether the only template has this limit.
fn has_limit(templates: &Templates, limit: u64) -> bool {
    templates.template_count() == 1
        && templates.template_at(0).limit == limit
        && matches!(templates.template(0), Some(row) if row.limit == limit)
}

#[test]
fn a_template_is_found(rt: HostRuntime) -> Result<(), Fail> {
    let templates = kept(rt.alloc())?;
    assert!(rt; templates.texts() == 4);
    assert!(rt; templates.find("TEXT") == Some(0));
    assert!(rt; has_limit(&templates, 5_000));
    Ok(())
}

fn stored(alloc: Global) -> Result<Templates, Fail> {
    let mut templates = Templates::new(alloc);
    templates.put(template(alloc, 1_023, 5_000)?, 4)?;
    Ok(templates)
}

fn deletes(templates: &mut Templates) -> bool {
    match templates.find("TEXT") {
        Some(number) => number == 1_023 && templates.delete(number).is_ok(),
        None => false,
    }
}

#[test]
fn a_stored_template_keeps_its_number(rt: HostRuntime) -> Result<(), Fail> {
    let mut templates = stored(rt.alloc())?;
    assert!(rt; deletes(&mut templates));
    assert!(rt; templates.template_count() == 0);
    Ok(())
}

// The template's quota of folder 5.
fn derived(templates: &Templates, alloc: Global) -> Result<Objects, Fail>
    requires there { has_row template_number 0 templates.now.templates ≡ true }
    requires plain { (row : TemplateRow) → template_of templates.now.templates 0 ≡ Some row → IsPlain row }
{
    let mut objects = Objects::new(alloc);
    let quota = templates.derive(alloc, 0, 5, QuotaState::Complete, 7)?;
    objects.add_quota(quota, 0)?;
    Ok(objects)
}

// The template gets another limit, and the quotas that match it as it was follow it: so many.
fn follow(templates: &mut Templates, alloc: Global, objects: &mut Objects) -> Result<usize, Fail>
    requires there { has_row template_number 0 templates.old.templates ≡ true }
    requires plain { (row : TemplateRow) → template_of templates.old.templates 0 ≡ Some row → IsPlain row }
{
    let row = template(alloc, 0, 6_000)?;
    let reached = templates.modify(alloc, objects, row, Update::Matching, 0)?;
    Ok(reached.len())
}

fn is_limited(objects: &Objects, limit: u64) -> bool {
    match objects.quota(5) {
        Some(quota) => quota.limit == limit && quota.template == Some(0),
        None => false,
    }
}

#[test]
fn a_quota_follows_its_template(rt: HostRuntime) -> Result<(), Fail> {
    let mut templates = kept(rt.alloc())?;
    let mut objects = derived(&templates, rt.alloc())?;
    assert!(rt; is_limited(&objects, 5_000));
    let reached = follow(&mut templates, rt.alloc(), &mut objects)?;
    assert!(rt; reached == 1);
    assert!(rt; is_limited(&objects, 6_000));
    Ok(())
}

// Template 0 for the folders in folder 5, but for those of a name.
fn auto(alloc: Global) -> Result<AutoRow, Fail>
    ensures template { IfOk result (λ row. row.template ≡ 0) }
    ensures valid { IfOk result (λ row. is_auto row ≡ true) }
{
    let excluded = one(alloc, text(alloc)?)?;
    Ok(AutoRow {
        folder: 5,
        template: 0,
        excluded,
    })
}

fn applied(alloc: Global) -> Result<Templates, Fail> {
    let mut templates = kept(alloc)?;
    templates.add_auto(auto(alloc)?, 4)?;
    Ok(templates)
}

// Whether the only auto-apply quota is that of folder 5.
fn applies(templates: &Templates) -> bool {
    templates.auto_count() == 1
        && templates.auto_at(0).folder == 5
        && templates.template_for(5, "new") == Some(0)
        && templates.template_for(5, "TEXT").is_none()
}

fn drops(templates: &mut Templates) -> bool {
    let there = templates.auto(5).is_some();
    if there {
        templates.drop_auto(5);
    }
    there && templates.auto(5).is_none()
}

#[test]
fn a_template_applies_itself(rt: HostRuntime) -> Result<(), Fail> {
    let mut templates = applied(rt.alloc())?;
    assert!(rt; templates.texts() == 8);
    assert!(rt; applies(&templates));
    assert!(rt; drops(&mut templates));
    assert!(rt; !applies(&templates));
    Ok(())
}
