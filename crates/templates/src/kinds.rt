//! The kinds of rows, and tests of them.

use crate::rows::{auto_texts, template_texts};
use fsrm_base::places::Key;
use fsrm_model::limits::{MOST_AUTOS, MOST_TEMPLATES};
use fsrm_model::{AutoRow, TemplateRow};
use name_rules::same_name;
use row_table::{Kind, Test};

/// Templates by their numbers, with their names and the texts of their actions.
pub(crate) struct WholeTemplates;

impl Key for WholeTemplates {
    ghost use Rattle.fsrm_model.specs.objects.Templates.{template_number};

    type Row = TemplateRow;

    ghost key = { template_number };

    fn number(row: &TemplateRow) -> u32 {
        row.number
    }
}

impl Kind for WholeTemplates {
    ghost use Rattle.std.proofs.Common.{rules};
    ghost use Rattle.fsrm_model.specs.values.Limits.{most_templates};
    ghost use Rattle.fsrm_model.specs.values.Texts.{template_bytes};
    ghost use Rattle.templates.specs.Kept.{most_template_bytes};

    ghost bytes = { template_bytes };

    ghost most_bytes = { most_template_bytes };

    ghost MOST = { most_templates };

    const MOST: u32 = MOST_TEMPLATES as u32;

    fn texts(row: &TemplateRow) -> u32 {
        template_texts(row)
    }

    ghost few = { Prim.search rules };

    ghost fits = { Prim.search rules };
}

/// Auto-apply quotas by their folders, with the names that they exclude.
pub(crate) struct AutoQuotas;

impl Key for AutoQuotas {
    ghost use Rattle.fsrm_model.specs.objects.AutoApply.{auto_folder};

    type Row = AutoRow;

    ghost key = { auto_folder };

    fn number(row: &AutoRow) -> u32 {
        row.folder
    }
}

impl Kind for AutoQuotas {
    ghost use Rattle.std.proofs.Common.{rules};
    ghost use Rattle.fsrm_model.specs.values.Limits.{most_autos};
    ghost use Rattle.fsrm_model.specs.values.Texts.{auto_bytes};
    ghost use Rattle.templates.specs.Kept.{most_auto_bytes};

    ghost bytes = { auto_bytes };

    ghost most_bytes = { most_auto_bytes };

    ghost MOST = { most_autos };

    const MOST: u32 = MOST_AUTOS as u32;

    fn texts(row: &AutoRow) -> u32 {
        auto_texts(row)
    }

    ghost few = { Prim.search rules };

    ghost fits = { Prim.search rules };
}

/// Whether a template has a name, in any spelling.
#[derive(Clone, Copy)]
pub(crate) struct Named<'a> {
    pub name: &'a str,
}

impl<'a> Test<TemplateRow> for Named<'a> {
    ghost use Rattle.fsrm_model.specs.objects.Templates.{template_name};
    ghost use Rattle.fsrm_model.specs.values.Name.{is_named};

    ghost passes = { λ it row. is_named template_name it.name.now row };

    fn test(&self, row: &TemplateRow) -> bool {
        same_name(row.name.as_str(), self.name)
    }
}

/// Whether an auto-apply quota names a template.
#[derive(Clone, Copy)]
pub(crate) struct Uses {
    pub template: u32,
}

impl Test<AutoRow> for Uses {
    ghost use Rattle.std.specs.Prelude.{◌==◌};

    ghost passes = { λ it row. row.template == it.template };

    fn test(&self, row: &AutoRow) -> bool {
        row.template == self.template
    }
}
