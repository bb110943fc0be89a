//! Tables and logs that are filled with the rows of a store.

ghost use Rattle.std.specs.Prelude.{◌≡◌, ◌+◌, ◌≤◌, [], nat_le, true, false, length, OnErr, OnOk, IsErrOf};
ghost use Rattle.fsrm_model.specs.store.Valid.{are_audits};
ghost use Rattle.fsrm_model.specs.values.Limits.{most_entries, most_text_bytes};
ghost use Rattle.fsrm_model.specs.values.Name.{names_differ};
ghost use Rattle.fsrm_model.specs.values.Patterns.{are_apart};
ghost use Rattle.fsrm_model.specs.objects.Jobs.{job_name};
ghost use Rattle.fsrm_model.specs.objects.Templates.{template_name};
ghost use Rattle.file_groups.specs.Kept.{group_texts};
ghost use Rattle.fsrm_objects.specs.Tables.{texts_in as object_texts};
ghost use Rattle.templates.specs.Held.{texts_in as template_texts};
ghost use Rattle.row_rules.specs.Kept.{are_kept};
ghost use Rattle.fsrm_parts.specs.Filled.{are_fitting};

use file_groups::Groups;
use file_screens::Audit;
use fsrm_model::limits::MOST_TEXT_BYTES;
use fsrm_model::{ActRow, AuditRow, Rows};
use fsrm_objects::Objects;
use std::alloc::Global;
use stored_rows::{groups_of, objects_of, templates_of};
use templates::Templates;
use thresholds::Marks;
use volume_tree::RowsFault;

/// Fills the table of file groups with those of rows that are judged (`are_kept`). They are bad only if two names are the
/// same, or the texts too long. After an `Err` the table is as it was.
pub fn fill_groups(groups: &mut Groups, alloc: Global, rows: &Rows) -> Result<(), RowsFault>
    requires { are_kept rows.now ≡ true }
    ensures ok { OnOk result (groups.new ≡ rows.now.groups) }
    ensures may { OnOk result (are_apart rows.now.groups ≡ true) }
    ensures bad { IsErrOf result RowsFault.BadRows → are_fitting rows.now ≡ false }
    ensures err { OnErr result (groups.new ≡ groups.old) }
{
    *groups = groups_of(alloc, rows.groups.as_slice())?;
    Ok(())
}

/// Fills the tables of templates and auto-apply quotas with those of such rows. They are bad only if two names are the
/// same, or the texts too long. After an `Err` the tables are as they were.
pub fn fill_templates(
    templates: &mut Templates,
    alloc: Global,
    rows: &Rows,
) -> Result<(), RowsFault>
    requires { are_kept rows.now ≡ true }
    ensures ok { OnOk result (templates.new ≡ record { templates = rows.now.templates; autos = rows.now.autos }) }
    ensures may { OnOk result (names_differ template_name rows.now.templates ≡ true) }
    ensures bad { IsErrOf result RowsFault.BadRows → are_fitting rows.now ≡ false }
    ensures err { OnErr result (templates.new ≡ templates.old) }
{
    *templates = templates_of(alloc, rows.templates.as_slice(), rows.autos.as_slice())?;
    Ok(())
}

/// Fills the tables of quotas, screens, exceptions and jobs with those of such rows. They are bad only if two jobs have
/// the same name, or the texts are too long. After an `Err` the tables are as they were.
pub fn fill_objects(objects: &mut Objects, alloc: Global, rows: &Rows) -> Result<(), RowsFault>
    requires { are_kept rows.now ≡ true }
    ensures ok { OnOk result (objects.new ≡ record { quotas = rows.now.quotas; screens = rows.now.screens; excepts = rows.now.excepts; jobs = rows.now.jobs; room = 0 }) }
    ensures may { OnOk result (names_differ job_name rows.now.jobs ≡ true) }
    ensures bad { IsErrOf result RowsFault.BadRows → are_fitting rows.now ≡ false }
    ensures err { OnErr result (objects.new ≡ objects.old) }
{
    let quotas = rows.quotas.as_slice();
    let screens = rows.screens.as_slice();
    let excepts = rows.excepts.as_slice();
    *objects = objects_of(alloc, quotas, screens, excepts, rows.jobs.as_slice())?;
    Ok(())
}

/// Whether the texts of all objects have no more bytes than they may have.
pub fn are_texts_few(objects: &Objects, groups: &Groups, templates: &Templates) -> bool
    ensures { result ≡ nat_le (object_texts objects.now + group_texts groups.now + template_texts templates.now) most_text_bytes }
{
    let in_objects = u64::from(objects.texts());
    let in_groups = u64::from(groups.texts());
    let in_templates = u64::from(templates.texts());
    in_objects + in_groups + in_templates <= u64::from(MOST_TEXT_BYTES)
}

/// Fills the log of the actions that ran, of which there are no more than it keeps.
pub fn fill_log(marks: &mut Marks, rows: &[ActRow])
    requires none { marks.old.log ≡ [] }
    requires few { length rows.now ≤ most_entries }
    ensures { marks.new ≡ record marks.old { log = rows.now } }
{
    for row in rows {
        marks.keep(*row);
    }
}

/// Fills the log of the names that screens judged, of which there are no more than it keeps.
pub fn fill_audit(audit: &mut Audit, rows: &[AuditRow])
    requires none { audit.old ≡ [] }
    requires rows { are_audits rows.now ≡ true }
    ensures { audit.new ≡ rows.now }
{
    for row in rows {
        let name = row.name.as_str();
        audit.push(
            row.moment, row.active, row.owner, row.folder, row.screen, name,
        );
    }
}
