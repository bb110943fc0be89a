//! The kinds of rows: quotas, screens and exceptions, each by its folder, and report jobs by their numbers.

use crate::texts::{job_texts, texts_of_actions, threshold_texts};
use fsrm_base::places::Key;
use fsrm_model::limits::{MOST_EXCEPTS, MOST_JOBS, MOST_QUOTAS, MOST_SCREENS};
use fsrm_model::{ExceptRow, JobRow, QuotaRow, ScreenRow};
use name_rules::same_name;
use row_table::{Kind, Test};

/// Quotas, with the texts of their actions.
pub(crate) struct Quotas;

impl Key for Quotas {
    ghost use Rattle.fsrm_model.specs.objects.Quota.{folder_of};

    type Row = QuotaRow;

    ghost key = { folder_of };

    fn number(row: &QuotaRow) -> u32 {
        row.folder
    }
}

impl Kind for Quotas {
    ghost use Rattle.std.proofs.Common.{rules};
    ghost use Rattle.fsrm_model.specs.values.Limits.{most_quotas};
    ghost use Rattle.fsrm_model.specs.values.Texts.{quota_bytes};
    ghost use Rattle.fsrm_objects.specs.Kept.{most_quota_bytes};

    ghost bytes = { quota_bytes };

    ghost most_bytes = { most_quota_bytes };

    ghost MOST = { most_quotas };

    const MOST: u32 = MOST_QUOTAS as u32;

    fn texts(row: &QuotaRow) -> u32 {
        threshold_texts(&row.thresholds)
    }

    ghost few = { Prim.search rules };

    ghost fits = { Prim.search rules };
}

/// Screens, with the texts of their actions.
pub(crate) struct Screens;

impl Key for Screens {
    ghost use Rattle.fsrm_model.specs.objects.Screens.{screen_folder};

    type Row = ScreenRow;

    ghost key = { screen_folder };

    fn number(row: &ScreenRow) -> u32 {
        row.folder
    }
}

impl Kind for Screens {
    ghost use Rattle.std.proofs.Common.{rules};
    ghost use Rattle.fsrm_model.specs.values.Limits.{most_screens};
    ghost use Rattle.fsrm_objects.specs.Kept.{most_screen_bytes};
    ghost use Rattle.fsrm_objects.specs.Tables.{screen_bytes};

    ghost bytes = { screen_bytes };

    ghost most_bytes = { most_screen_bytes };

    ghost MOST = { most_screens };

    const MOST: u32 = MOST_SCREENS as u32;

    fn texts(row: &ScreenRow) -> u32 {
        texts_of_actions(&row.actions)
    }

    ghost few = { Prim.search rules };

    ghost fits = { Prim.search rules };
}

/// Exceptions, which have no texts.
pub(crate) struct Excepts;

impl Key for Excepts {
    ghost use Rattle.fsrm_model.specs.objects.Screens.{except_folder};

    type Row = ExceptRow;

    ghost key = { except_folder };

    fn number(row: &ExceptRow) -> u32 {
        row.folder
    }
}

impl Kind for Excepts {
    ghost use Rattle.std.proofs.Common.{rules};
    ghost use Rattle.fsrm_model.specs.values.Limits.{most_excepts};

    ghost bytes = { λ _. 0 };

    ghost most_bytes = { 0 };

    ghost MOST = { most_excepts };

    const MOST: u32 = MOST_EXCEPTS as u32;

    fn texts(_row: &ExceptRow) -> u32 {
        0
    }

    ghost few = { Prim.search rules };

    ghost fits = { Prim.search rules };
}

/// Report jobs by their numbers, with their names, their schedules and the patterns of their filters.
pub(crate) struct Jobs;

impl Key for Jobs {
    ghost use Rattle.fsrm_model.specs.objects.Jobs.{job_number};

    type Row = JobRow;

    ghost key = { job_number };

    fn number(row: &JobRow) -> u32 {
        row.number
    }
}

impl Kind for Jobs {
    ghost use Rattle.std.proofs.Common.{rules};
    ghost use Rattle.fsrm_model.specs.values.Limits.{most_jobs};
    ghost use Rattle.fsrm_model.specs.values.Texts.{job_bytes};
    ghost use Rattle.fsrm_objects.specs.Kept.{most_job_bytes};

    ghost bytes = { job_bytes };

    ghost most_bytes = { most_job_bytes };

    ghost MOST = { most_jobs };

    const MOST: u32 = MOST_JOBS as u32;

    fn texts(row: &JobRow) -> u32 {
        job_texts(row)
    }

    ghost few = { Prim.search rules };

    ghost fits = { Prim.search rules };
}

/// Whether a report job has a name, in any spelling.
#[derive(Clone, Copy)]
pub(crate) struct Named<'a> {
    pub name: &'a str,
}

impl<'a> Test<JobRow> for Named<'a> {
    ghost use Rattle.fsrm_model.specs.objects.Jobs.{job_name};
    ghost use Rattle.fsrm_model.specs.values.Name.{is_named};

    ghost passes = { λ it row. is_named job_name it.name.now row };

    fn test(&self, row: &JobRow) -> bool {
        same_name(row.name.as_str(), self.name)
    }
}

/// Whether a report job reports on a folder.
#[derive(Clone, Copy)]
pub(crate) struct Reports {
    pub folder: u32,
}

impl Test<JobRow> for Reports {
    ghost use Rattle.std.specs.Prelude.{◌==◌};

    ghost passes = { λ it row. row.scope == it.folder };

    fn test(&self, row: &JobRow) -> bool {
        row.scope == self.folder
    }
}
