//! Copies of the rows that tables hold.

ghost use Rattle.std.specs.Prelude.{◌≡◌, IfOk};
ghost use Rattle.file_screens.specs.Blocked.{shown};

use file_groups::Groups;
use file_screens::{Audit, AuditView};
use fsrm_model::{
    ActRow, AuditRow, AutoRow, Duplicate, ExceptRow, GroupRow, JobRow, List, NoMemory, QuotaRow,
    ScreenRow, TemplateRow, Text,
};
use fsrm_objects::Objects;
use std::alloc::Global;
use templates::Templates;
use thresholds::Marks;

/// Copies of the quotas.
#[tactic(auto, using(crate::proofs::Copied::one_more))]
pub fn quotas_in(alloc: Global, objects: &Objects) -> Result<List<QuotaRow>, NoMemory>
    ensures { IfOk result (λ rows. rows ≡ objects.now.quotas) }
{
    let mut rows = List::new(alloc);
    for place in 0..objects.quota_count() {
        rows.push(objects.quota_at(place).copy(alloc)?)?;
    }
    Ok(rows)
}

/// Copies of the screens.
#[tactic(auto, using(crate::proofs::Copied::one_more))]
pub fn screens_in(alloc: Global, objects: &Objects) -> Result<List<ScreenRow>, NoMemory>
    ensures { IfOk result (λ rows. rows ≡ objects.now.screens) }
{
    let mut rows = List::new(alloc);
    for place in 0..objects.screen_count() {
        rows.push(objects.screen_at(place).copy(alloc)?)?;
    }
    Ok(rows)
}

/// Copies of the exceptions.
#[tactic(auto, using(crate::proofs::Copied::one_more))]
pub fn excepts_in(alloc: Global, objects: &Objects) -> Result<List<ExceptRow>, NoMemory>
    ensures { IfOk result (λ rows. rows ≡ objects.now.excepts) }
{
    let mut rows = List::new(alloc);
    for place in 0..objects.except_count() {
        rows.push(objects.except_at(place).copy(alloc)?)?;
    }
    Ok(rows)
}

/// Copies of the report jobs.
#[tactic(auto, using(crate::proofs::Copied::one_more))]
pub fn jobs_in(alloc: Global, objects: &Objects) -> Result<List<JobRow>, NoMemory>
    ensures { IfOk result (λ rows. rows ≡ objects.now.jobs) }
{
    let mut rows = List::new(alloc);
    for place in 0..objects.job_count() {
        rows.push(objects.job_at(place).copy(alloc)?)?;
    }
    Ok(rows)
}

/// Copies of the quota templates.
#[tactic(auto, using(crate::proofs::Copied::one_more))]
pub fn templates_in(alloc: Global, tables: &Templates) -> Result<List<TemplateRow>, NoMemory>
    ensures { IfOk result (λ rows. rows ≡ tables.now.templates) }
{
    let mut rows = List::new(alloc);
    for place in 0..tables.template_count() {
        rows.push(tables.template_at(place).copy(alloc)?)?;
    }
    Ok(rows)
}

/// Copies of the auto-apply quotas.
#[tactic(auto, using(crate::proofs::Copied::one_more))]
pub fn autos_in(alloc: Global, tables: &Templates) -> Result<List<AutoRow>, NoMemory>
    ensures { IfOk result (λ rows. rows ≡ tables.now.autos) }
{
    let mut rows = List::new(alloc);
    for place in 0..tables.auto_count() {
        rows.push(tables.auto_at(place).copy(alloc)?)?;
    }
    Ok(rows)
}

/// Copies of the file groups.
#[tactic(auto, using(crate::proofs::Copied::one_more))]
pub fn groups_in(alloc: Global, groups: &Groups) -> Result<List<GroupRow>, NoMemory>
    ensures { IfOk result (λ rows. rows ≡ groups.now) }
{
    let mut rows = List::new(alloc);
    for place in 0..groups.count() {
        rows.push(groups.at(place).copy(alloc)?)?;
    }
    Ok(rows)
}

/// Copies of the acts in the log, the oldest first.
#[tactic(auto, using(crate::proofs::Copied::one_more))]
pub fn acts_in(alloc: Global, marks: &Marks) -> Result<List<ActRow>, NoMemory>
    ensures { IfOk result (λ rows. rows ≡ marks.now.log) }
{
    let mut rows = List::new(alloc);
    for place in 0..marks.log_len() {
        rows.push(marks.log_at(place))?;
    }
    Ok(rows)
}

/// Copies of the entries of the audit log, the oldest first.
#[tactic(auto, using(crate::proofs::Copied::one_more))]
pub fn audits_in(alloc: Global, audit: &Audit) -> Result<List<AuditRow>, NoMemory>
    ensures { IfOk result (λ rows. rows ≡ audit.now) }
{
    let mut rows = List::new(alloc);
    for place in 0..audit.len() {
        rows.push(shown(alloc, &audit.at(place))?)?;
    }
    Ok(rows)
}

// The row of an entry of the audit log.
fn shown(alloc: Global, entry: &AuditView<'_>) -> Result<AuditRow, NoMemory>
    ensures { IfOk result (λ row. row ≡ shown entry.now) }
{
    Ok(AuditRow {
        moment: entry.moment,
        active: entry.active,
        owner: entry.owner,
        folder: entry.folder,
        screen: entry.screen,
        name: Text::from_str(alloc, entry.name)?,
    })
}
