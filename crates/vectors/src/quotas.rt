//! The texts of the actions of a quota, memory for quotas, and their template. All else of quotas and their counters is
//! shown by scripts.

ghost use Rattle.std.specs.Prelude.{◌≡◌, IfOk, true};
ghost use Rattle.fsrm_objects.specs.Tables.{has_short_texts};

use crate::values::{one, quota, text};
use fsrm_model::{Action, ActionKind, QuotaRow, Threshold};
use fsrm_objects::Objects;
use std::alloc::Global;
use std::test::Fail;

// A quota that has an action with the text `text`.
fn loud(alloc: Global) -> Result<QuotaRow, Fail>
    ensures { IfOk result (λ made. has_short_texts made ≡ true) }
{
    let action = Action {
        kind: ActionKind::Mail,
        minutes: -1,
        text: text(alloc)?,
        last_run: None,
    };
    let threshold = Threshold {
        percent: 85,
        actions: one(alloc, action)?,
    };
    let thresholds = one(alloc, threshold)?;
    Ok(QuotaRow {
        thresholds,
        ..quota(alloc, 5, 5_000)
    })
}

#[test]
fn a_quota_has_texts(rt: HostRuntime) -> Result<(), Fail> {
    let mut objects = Objects::new(rt.alloc());
    objects.add_quota(loud(rt.alloc())?, 4)?;
    assert!(rt; objects.texts() == 4);
    Ok(())
}

// A table that has memory for all quotas.
fn roomy(alloc: Global) -> Result<Objects, Fail> {
    let mut objects = Objects::new(alloc);
    objects.make_room()?;
    Ok(objects)
}

// Two quotas, of which one was derived from template 3.
fn derived(alloc: Global) -> Result<Objects, Fail> {
    let mut objects = roomy(alloc)?;
    let source = QuotaRow {
        template: Some(3),
        ..quota(alloc, 5, 5_000)
    };
    objects.add_quota(source, 0)?;
    objects.add_quota(quota(alloc, 6, 5_000), 0)?;
    Ok(objects)
}

fn has_source(objects: &Objects) -> bool {
    matches!(objects.quota(5), Some(quota) if quota.template.is_some())
}

#[test]
fn a_quota_stays_without_its_template(rt: HostRuntime) -> Result<(), Fail> {
    let mut objects = derived(rt.alloc())?;
    assert!(rt; has_source(&objects));
    objects.clear_template(3);
    assert!(rt; !has_source(&objects));
    assert!(rt; objects.quota_count() == 2);
    Ok(())
}
