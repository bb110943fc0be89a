//! Rows by their numbers.

ghost use Rattle.std.specs.Prelude.{◌≡◌, true};
ghost use Rattle.fsrm_base.specs.Keyed.{has_row, is_ascending};
ghost use Rattle.fsrm_model.specs.nodes.Tree.{is_folder, number as node_number};

use fsrm_base::places::{Key, search};
use fsrm_model::{
    AutoRow, ExceptRow, GroupRow, JobRow, NodeRow, QuotaRow, ScreenRow, TemplateRow, Threshold,
};

/// Whether numbers ascend, each at most once.
pub fn ascend<K: Key>(rows: &[K::Row]) -> bool
    ensures { result ≡ is_ascending K.key rows.now }
{
    rows.is_sorted_by(|a, b| K::number(a) < K::number(b))
}

/// Whether a row has a number.
pub fn has<K: Key>(rows: &[K::Row], number: u32) -> bool
    requires { is_ascending K.key rows.now ≡ true }
    ensures { result ≡ has_row K.key number rows.now }
{
    search::<K>(rows, number).is_ok()
}

/// Whether a node is a folder.
pub fn is_folder(nodes: &[NodeRow], number: u32) -> bool
    requires { is_ascending node_number nodes.now ≡ true }
    ensures { result ≡ is_folder nodes.now number }
{
    match search::<Nodes>(nodes, number) {
        Ok(place) => nodes[place].folder,
        Err(_) => false,
    }
}

/// Nodes by their numbers.
pub struct Nodes;

impl Key for Nodes {
    ghost use Rattle.fsrm_model.specs.nodes.Tree.{number};

    type Row = NodeRow;

    ghost key = { number };

    fn number(row: &NodeRow) -> u32 {
        row.number
    }
}

/// Thresholds by their percentages.
pub struct Thresholds;

impl Key for Thresholds {
    ghost use Rattle.fsrm_model.specs.objects.Thresholds.{percent_of};

    type Row = Threshold;

    ghost key = { percent_of };

    fn number(row: &Threshold) -> u32 {
        row.percent.into()
    }
}

/// Quotas by their folders.
pub struct Quotas;

impl Key for Quotas {
    ghost use Rattle.fsrm_model.specs.objects.Quota.{folder_of};

    type Row = QuotaRow;

    ghost key = { folder_of };

    fn number(row: &QuotaRow) -> u32 {
        row.folder
    }
}

/// Templates by their numbers.
pub struct Templates;

impl Key for Templates {
    ghost use Rattle.fsrm_model.specs.objects.Templates.{template_number};

    type Row = TemplateRow;

    ghost key = { template_number };

    fn number(row: &TemplateRow) -> u32 {
        row.number
    }
}

/// Auto-apply quotas by their folders.
pub struct Autos;

impl Key for Autos {
    ghost use Rattle.fsrm_model.specs.objects.AutoApply.{auto_folder};

    type Row = AutoRow;

    ghost key = { auto_folder };

    fn number(row: &AutoRow) -> u32 {
        row.folder
    }
}

/// File groups by their numbers.
pub struct Groups;

impl Key for Groups {
    ghost use Rattle.fsrm_model.specs.values.Patterns.{group_number};

    type Row = GroupRow;

    ghost key = { group_number };

    fn number(row: &GroupRow) -> u32 {
        row.number
    }
}

/// Screens by their folders.
pub struct Screens;

impl Key for Screens {
    ghost use Rattle.fsrm_model.specs.objects.Screens.{screen_folder};

    type Row = ScreenRow;

    ghost key = { screen_folder };

    fn number(row: &ScreenRow) -> u32 {
        row.folder
    }
}

/// Exceptions by their folders.
pub struct Excepts;

impl Key for Excepts {
    ghost use Rattle.fsrm_model.specs.objects.Screens.{except_folder};

    type Row = ExceptRow;

    ghost key = { except_folder };

    fn number(row: &ExceptRow) -> u32 {
        row.folder
    }
}

/// Report jobs by their numbers.
pub struct Jobs;

impl Key for Jobs {
    ghost use Rattle.fsrm_model.specs.objects.Jobs.{job_number};

    type Row = JobRow;

    ghost key = { job_number };

    fn number(row: &JobRow) -> u32 {
        row.number
    }
}
