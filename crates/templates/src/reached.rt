//! The quotas that a template's change reached, as they were.

ghost use Rattle.std.specs.Prelude.{◌≡◌, length};
ghost use Rattle.templates.specs.Reached.{own_list, traded, were};

use fsrm_model::{List, QuotaRow, Threshold};
use std::mem;

/// A quota as it was before its template's change.
#[derive(Drop)]
pub struct Was {
    /// Without its thresholds, if they stand apart.
    pub row: QuotaRow,
    /// Whether it had the thresholds that the template has now, and none of their actions ever ran. They stand apart then,
    /// once for all quotas.
    pub same: bool,
}

impl Was {
    /// If its thresholds stand apart, has this list and that of the row change places.
    pub fn trade(&mut self, thresholds: &mut List<Threshold>)
        ensures row { self.new ≡ traded thresholds.old self.old }
        ensures list { thresholds.new ≡ own_list thresholds.old self.old }
    {
        if self.same {
            mem::swap(&mut self.row.thresholds, thresholds);
        }
    }
}

/// The quotas that a template's change reached, as they were, in the order of their folders.
#[derive(Drop)]
pub struct Reached {
    pub rows: List<Was>,
    /// Those that stand apart.
    pub thresholds: List<Threshold>,
}

impl Reached {
    /// How many quotas it reached.
    pub fn len(&self) -> usize
        ensures { result ≡ length (were self.now) }
    {
        self.rows.len()
    }
}
