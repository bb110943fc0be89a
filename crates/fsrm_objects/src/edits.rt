//! Changes of rows where they stand.

use crate::runs::{note_last, note_run};
use fsrm_model::{JobRow, QuotaRow, QuotaState, ScreenRow};
use row_table::Edit;

/// Another peak of a quota, in bytes, and its moment.
#[derive(Clone, Copy)]
pub(crate) struct Peak {
    pub bytes: u64,
    pub moment: u64,
}

impl Edit<QuotaRow> for Peak {
    type Told = ();

    ghost use Rattle.fsrm_objects.specs.Tables.{peaked_at};

    ghost may = { λ peak quota. Unit {0} };

    ghost edited = { λ peak quota. peaked_at peak.bytes peak.moment quota };

    ghost told = { λ peak quota. tt };

    fn edit(&self, row: &mut QuotaRow) {
        row.peak = self.bytes;
        row.peak_at = self.moment;
    }
}

/// Another state of a quota.
#[derive(Clone, Copy)]
pub(crate) struct State {
    pub state: QuotaState,
}

impl Edit<QuotaRow> for State {
    type Told = ();

    ghost use Rattle.fsrm_model.specs.objects.QuotaStates.{in_state};

    ghost may = { λ new quota. Unit {0} };

    ghost edited = { λ new quota. in_state new.state quota };

    ghost told = { λ new quota. tt };

    fn edit(&self, row: &mut QuotaRow) {
        row.state = self.state;
    }
}

/// A template that a quota is no longer derived from, if it was.
#[derive(Clone, Copy)]
pub(crate) struct Source {
    pub template: u32,
}

impl Edit<QuotaRow> for Source {
    type Told = ();

    ghost use Rattle.fsrm_model.specs.objects.Templates.{without_source};

    ghost may = { λ source quota. Unit {0} };

    ghost edited = { λ source quota. without_source source.template quota };

    ghost told = { λ source quota. tt };

    fn edit(&self, row: &mut QuotaRow) {
        if row.template == Some(self.template) {
            row.template = None;
        }
    }
}

/// A run, at a moment, of the action at a place of a quota's threshold.
#[derive(Clone, Copy)]
pub(crate) struct QuotaRun {
    pub percent: u16,
    pub place: u16,
    pub moment: u64,
}

impl Edit<QuotaRow> for QuotaRun {
    type Told = ();

    ghost use Rattle.fsrm_objects.specs.Runs.{HasRun};
    ghost use Rattle.fsrm_objects.specs.Tables.{run_quota_at};

    ghost may = { λ run quota. HasRun run.percent run.place quota };

    ghost edited = { λ run quota. run_quota_at run.moment run.percent run.place quota };

    ghost told = { λ run quota. tt };

    fn edit(&self, row: &mut QuotaRow) {
        note_run(&mut row.thresholds, self.percent, self.place, self.moment);
    }
}

/// A run, at a moment, of the action at a place of a screen.
#[derive(Clone, Copy)]
pub(crate) struct ScreenRun {
    pub place: u16,
    pub moment: u64,
}

impl Edit<ScreenRow> for ScreenRun {
    type Told = ();

    ghost use Rattle.std.specs.Prelude.{◌<◌, length};
    ghost use Rattle.fsrm_objects.specs.Tables.{run_screen_at};

    ghost may = { λ run screen. run.place < length screen.actions };

    ghost edited = { λ run screen. run_screen_at run.moment run.place screen };

    ghost told = { λ run screen. tt };

    fn edit(&self, row: &mut ScreenRow) {
        note_last(&mut row.actions, self.place, self.moment);
    }
}

/// A run of a report job at a moment.
#[derive(Clone, Copy)]
pub(crate) struct JobRun {
    pub moment: u64,
}

impl Edit<JobRow> for JobRun {
    type Told = ();

    ghost use Rattle.fsrm_model.specs.objects.Jobs.{run_job};

    ghost may = { λ run job. Unit {0} };

    ghost edited = { λ run job. run_job run.moment job };

    ghost told = { λ run job. tt };

    fn edit(&self, row: &mut JobRow) {
        row.last_run = Some(self.moment);
    }
}
