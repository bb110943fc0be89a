//! Files by their owners.

use crate::groups::Grouping;
use fsrm_model::{NoMemory, ReportRow, Sums};
use std::alloc::Global;
use volume_tree::NodeView;

/// Files are grouped by their owners.
pub struct ByOwner;

impl Grouping for ByOwner {
    type Key = u32;

    ghost use Rattle.std.specs.Prelude.{ℕ, nat_eq, refl};
    ghost use Rattle.std.specs.Cmp.{nat_eq_equiv};
    ghost use Rattle.fsrm_model.specs.reports.Reports.{owner_in, owner_row};

    ghost Value = { ℕ };

    ghost value = { λ owner. owner };

    ghost is_same = { nat_eq };

    ghost value_in = { owner_in };

    ghost row_of = { owner_row };

    fn key(_alloc: Global, node: &NodeView<'_>) -> Result<u32, NoMemory> {
        Ok(node.owner)
    }

    fn row(owner: u32, sums: Sums) -> ReportRow {
        ReportRow::Owner {
            owner,
            files: sums.files,
            lengths: sums.lengths,
            alloc: sums.alloc,
        }
    }

    ghost agrees = { λ a b. refl };

    ghost equivalence = { nat_eq_equiv };
}
