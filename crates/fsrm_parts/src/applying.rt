//! Rows of quotas that folders get of a template.

ghost use Rattle.std.specs.Prelude.{◌≡◌, ◌+◌, ◌≤◌, true, length, IfOk, Some};
ghost use Rattle.std.specs.List.{list_all};
ghost use Rattle.fsrm_base.specs.Keyed.{has_row};
ghost use Rattle.fsrm_model.specs.declared.row.TemplateRow.{TemplateRow};
ghost use Rattle.fsrm_model.specs.objects.QuotaStates.{start};
ghost use Rattle.fsrm_model.specs.objects.Templates.{derived, template_number, template_of};
ghost use Rattle.fsrm_model.specs.nodes.Tree.{is_folder};
ghost use Rattle.fsrm_model.specs.store.Valid.{IsVolume};
ghost use Rattle.fsrm_parts.specs.Applying.{derived_rows};

use crate::states::first_state;
use fsrm_model::{Ledger, NoMemory, QuotaRow, Steps};
use std::alloc::Global;
use templates::Templates;
use volume_tree::Tree;

/// The quota of a template, which is there, on a folder. It counts from the first if the folder has no child.
pub fn derived_row<L: Ledger>(
    tree: &Tree,
    templates: &Templates,
    alloc: Global,
    template: u32,
    folder: u32,
    moment: u64,
    steps: &mut Steps<L>,
) -> Result<QuotaRow, NoMemory>
    requires there { has_row template_number template templates.now.templates ≡ true }
    requires volume { IsVolume tree.now.size tree.now.nodes }
    requires folder { is_folder tree.now.nodes folder ≡ true }
    ensures row { IfOk result (λ row. (source : TemplateRow) → template_of templates.now.templates template ≡ Some source → row ≡ derived source folder (start tree.now.nodes folder) moment) }
    ensures looks { steps.new ≤ steps.old + 1 }
{
    let state = first_state(tree, folder, true, steps);
    templates.derive(alloc, template, folder, state, moment)
}

/// The same on each of these folders.
pub fn derived_rows<L: Ledger>(
    tree: &Tree,
    templates: &Templates,
    alloc: Global,
    template: u32,
    folders: &[u32],
    moment: u64,
    steps: &mut Steps<L>,
) -> Result<Vec<QuotaRow>, NoMemory>
    requires there { has_row template_number template templates.now.templates ≡ true }
    requires volume { IsVolume tree.now.size tree.now.nodes }
    requires folders { list_all (is_folder tree.now.nodes) folders.now ≡ true }
    ensures rows { IfOk result (λ rows. (source : TemplateRow) → template_of templates.now.templates template ≡ Some source → rows.items ≡ derived_rows tree.now.nodes source moment folders.now) }
    ensures looks { steps.new ≤ steps.old + length folders.now }
{
    let mut rows = Vec::new(alloc);
    for folder in folders {
        let row = derived_row(tree, templates, alloc, template, *folder, moment, steps)?;
        rows.push(row)?;
    }
    Ok(rows)
}
