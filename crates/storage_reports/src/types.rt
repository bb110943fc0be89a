//! Files by their types.

use crate::groups::Grouping;
use crate::type_text::type_of;
use fsrm_model::{NoMemory, ReportRow, Sums, Text};
use std::alloc::Global;
use volume_tree::NodeView;

/// Files are grouped by their types, those without one apart from all others.
pub struct ByType;

impl Grouping for ByType {
    type Key = String;

    ghost use Rattle.std.specs.Prelude.{ℕ, List, bytes_eq, refl};
    ghost use Rattle.std.specs.Cmp.{decided};
    ghost use Rattle.std.specs.String.{string_bytes};
    ghost use Rattle.std.proofs.lemmas.Slice.Eq.{bytes_eq-Decides};
    ghost use Rattle.fsrm_model.specs.reports.Reports.{type_in, type_row};

    ghost Value = { List ℕ };

    ghost value = { string_bytes };

    ghost is_same = { bytes_eq };

    ghost value_in = { type_in };

    ghost row_of = { type_row };

    fn key(alloc: Global, node: &NodeView<'_>) -> Result<String, NoMemory> {
        type_of(alloc, node.name)
    }

    fn row(text: String, sums: Sums) -> ReportRow {
        ReportRow::Kind {
            name: Text::from_string(text),
            files: sums.files,
            lengths: sums.lengths,
            alloc: sums.alloc,
        }
    }

    ghost agrees = { λ a b. refl };

    ghost equivalence = { decided bytes_eq bytes_eq-Decides };
}
