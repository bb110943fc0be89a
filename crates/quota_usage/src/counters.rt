//! Counters as rows of a table.

use crate::change::Counter;
use fsrm_base::places::Key;
use fsrm_model::limits::MOST_QUOTAS;
use row_table::{Edit, Kind};

/// Counters, by their folders. They have no texts.
pub(crate) struct Counters;

impl Key for Counters {
    ghost use Rattle.quota_usage.specs.Counters.{counted};

    type Row = Counter;

    ghost key = { counted };

    fn number(row: &Counter) -> u32 {
        row.folder
    }
}

impl Kind for Counters {
    ghost use Rattle.std.proofs.Common.{rules};
    ghost use Rattle.fsrm_model.specs.values.Limits.{most_quotas};

    ghost bytes = { λ _. 0 };

    ghost most_bytes = { 0 };

    ghost MOST = { most_quotas };

    const MOST: u32 = MOST_QUOTAS as u32;

    fn texts(_row: &Counter) -> u32 {
        0
    }

    ghost few = { Prim.search rules };

    ghost fits = { Prim.search rules };
}

/// Bytes that a counter loses, as many as it has at most, and then gets. It tells how many the counter has then.
#[derive(Clone, Copy)]
pub(crate) struct Amendment {
    pub minus: u64,
    pub plus: u64,
}

impl Edit<Counter> for Amendment {
    type Told = u64;

    ghost use Rattle.std.specs.Prelude.{◌<◌, ◌^◌};
    ghost use Rattle.quota_usage.specs.Climb.{amended, amended_counter};

    ghost may = { λ it counter. amended it.minus it.plus counter.bytes < 2 ^ 64 };

    ghost edited = { λ it counter. amended_counter it.minus it.plus counter };

    ghost told = { λ it counter. amended it.minus it.plus counter.bytes };

    fn edit(&self, row: &mut Counter) -> u64 {
        row.bytes = row.bytes.saturating_sub(self.minus) + self.plus;
        row.bytes
    }
}
