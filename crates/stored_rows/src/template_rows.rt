//! The tables of quota templates and of auto-apply quotas.

ghost use Rattle.std.specs.Prelude.{◌≡◌, ◌≤◌, [], true, IfOk, IfErr, IsErrOf, OnOk, sum_by};
ghost use Rattle.fsrm_model.specs.objects.Templates.{template_name};
ghost use Rattle.fsrm_model.specs.store.Valid.{are_autos};
ghost use Rattle.fsrm_model.specs.values.Limits.{most_text_bytes};
ghost use Rattle.fsrm_model.specs.values.Name.{names_differ};
ghost use Rattle.fsrm_model.specs.values.Texts.{auto_bytes, template_bytes};
ghost use Rattle.row_rules.specs.Kept.{are_numbered_templates};
ghost use Rattle.stored_rows.specs.Rows.{are_tied_autos};

use fsrm_model::limits::MOST_TEXT_BYTES;
use fsrm_model::{AutoRow, Duplicate, TemplateRow};
use std::alloc::Global;
use templates::{TemplateFault, Templates};
use volume_tree::RowsFault;

/// Tables of these templates and auto-apply quotas, whose templates are there. They are bad only if two templates have
/// one name, or the texts of either kind are longer than all texts may be.
pub fn templates_of(
    alloc: Global,
    templates: &[TemplateRow],
    autos: &[AutoRow],
) -> Result<Templates, RowsFault>
    requires templates { are_numbered_templates templates.now ≡ true }
    requires autos { are_tied_autos templates.now autos.now ≡ true }
    ensures ok { IfOk result (λ tables. tables ≡ record { templates = templates.now; autos = autos.now }) }
    ensures may { OnOk result (names_differ template_name templates.now ≡ true) }
    ensures bad { IsErrOf result RowsFault.BadRows → names_differ template_name templates.now ≡ true → sum_by template_bytes templates.now ≤ most_text_bytes → sum_by auto_bytes autos.now ≤ most_text_bytes → ⊥ }
{
    let mut tables = Templates::new(alloc);
    match put_all(&mut tables, alloc, templates, autos) {
        Ok(()) => Ok(tables),
        Err(TemplateFault::NoMemory) => Err(RowsFault::NoMemory),
        Err(_) => Err(RowsFault::BadRows),
    }
}

// Puts templates and auto-apply quotas into tables that have none.
fn put_all(
    tables: &mut Templates,
    alloc: Global,
    templates: &[TemplateRow],
    autos: &[AutoRow],
) -> Result<(), TemplateFault>
    requires none { tables.old ≡ record { templates = []; autos = [] } }
    requires templates { are_numbered_templates templates.now ≡ true }
    requires autos { are_tied_autos templates.now autos.now ≡ true }
    ensures ok { OnOk result (tables.new ≡ record { templates = templates.now; autos = autos.now }) }
    ensures may { OnOk result (names_differ template_name templates.now ≡ true) }
    ensures only { IfErr result (λ fault. names_differ template_name templates.now ≡ true → sum_by template_bytes templates.now ≤ most_text_bytes → sum_by auto_bytes autos.now ≤ most_text_bytes → fault ≡ TemplateFault.NoMemory) }
{
    put_templates(tables, alloc, templates)?;
    // How tables are held says that no two names are the same.
    let _texts = tables.texts();
    put_autos(tables, alloc, autos)
}

fn put_templates(
    tables: &mut Templates,
    alloc: Global,
    rows: &[TemplateRow],
) -> Result<(), TemplateFault>
    requires none { tables.old ≡ record { templates = []; autos = [] } }
    requires rows { are_numbered_templates rows.now ≡ true }
    ensures ok { OnOk result (tables.new ≡ record { templates = rows.now; autos = [] }) }
    ensures only { IfErr result (λ fault. names_differ template_name rows.now ≡ true → sum_by template_bytes rows.now ≤ most_text_bytes → fault ≡ TemplateFault.NoMemory) }
{
    for row in rows {
        tables.put(row.copy(alloc)?, MOST_TEXT_BYTES)?;
    }
    Ok(())
}

fn put_autos(tables: &mut Templates, alloc: Global, rows: &[AutoRow]) -> Result<(), TemplateFault>
    requires none { tables.old.autos ≡ [] }
    requires rows { are_tied_autos tables.old.templates rows.now ≡ true }
    ensures ok { OnOk result (tables.new ≡ record tables.old { autos = rows.now }) }
    ensures only { IfErr result (λ fault. sum_by auto_bytes rows.now ≤ most_text_bytes → fault ≡ TemplateFault.NoMemory) }
{
    for row in rows {
        tables.add_auto(row.copy(alloc)?, MOST_TEXT_BYTES)?;
    }
    Ok(())
}
