//! Rows that are lent as pieces of an image.

ghost use Rattle.std.specs.Prelude.{◌≡◌, ◌+◌, ◌<◌, ◌^◌, [], ◌∷◌, map, drop, IfSome, MatchOption};
ghost use Rattle.image_codec.specs.Pieces.{Piece, NodePiece, QuotaPiece, TemplatePiece, AutoPiece, GroupPiece, ScreenPiece, ExceptPiece, JobPiece, ActPiece, AuditPiece, lent};

use crate::jobs::JobField;
use crate::logs::{ActField, AuditField};
use crate::nodes::NodeField;
use crate::objects::{AutoField, ExceptField, GroupField, QuotaField, ScreenField, TemplateField};
use crate::row_ref::RowRef;
use fsrm_base::List;
use fsrm_model::{
    ActRow, AuditRow, AutoRow, ExceptRow, GroupRow, JobRow, NodeRow, QuotaRow, ScreenRow,
    TemplateRow,
};

/// How a row is lent.
pub trait Lend {
    /// The row.
    type Value: Drop;

    ghost piece: { Self.Value → Piece };

    /// The piece that a row is.
    fn lend(row: &Self::Value) -> RowRef<'_>
        ensures { lent result ≡ piece row.now };
}

/// The row at a place, from 0, as a piece. None exactly past the end.
pub fn lend_at<L: Lend>(rows: &List<L::Value>, place: usize) -> Option<RowRef<'_>>
    ensures piece { MatchOption result (drop place (map L.piece rows.now) ≡ []) (λ row. drop place (map L.piece rows.now) ≡ lent row ∷ drop (place + 1) (map L.piece rows.now)) }
    ensures within { IfSome result (λ row. place + 1 < 2 ^ 64) }
{
    let rows = rows.as_slice();
    if place >= rows.len() {
        return None;
    }
    Some(L::lend(&rows[place]))
}

impl Lend for NodeField {
    type Value = NodeRow;

    ghost piece = { NodePiece };

    fn lend(row: &NodeRow) -> RowRef<'_> {
        RowRef::Node {
            number: row.number,
            parent: row.parent,
            name: row.name.as_str(),
            folder: row.folder,
            length: row.length,
            owner: row.owner,
            created: row.created,
            modified: row.modified,
            accessed: row.accessed,
        }
    }
}

impl Lend for AuditField {
    type Value = AuditRow;

    ghost piece = { AuditPiece };

    fn lend(row: &AuditRow) -> RowRef<'_> {
        RowRef::Audit {
            moment: row.moment,
            active: row.active,
            owner: row.owner,
            folder: row.folder,
            screen: row.screen,
            name: row.name.as_str(),
        }
    }
}

impl Lend for ActField {
    type Value = ActRow;

    ghost piece = { ActPiece };

    fn lend(row: &ActRow) -> RowRef<'_> {
        RowRef::Act(*row)
    }
}

impl Lend for QuotaField {
    type Value = QuotaRow;

    ghost piece = { QuotaPiece };

    fn lend(row: &QuotaRow) -> RowRef<'_> {
        RowRef::Quota(row)
    }
}

impl Lend for TemplateField {
    type Value = TemplateRow;

    ghost piece = { TemplatePiece };

    fn lend(row: &TemplateRow) -> RowRef<'_> {
        RowRef::Template(row)
    }
}

impl Lend for AutoField {
    type Value = AutoRow;

    ghost piece = { AutoPiece };

    fn lend(row: &AutoRow) -> RowRef<'_> {
        RowRef::Auto(row)
    }
}

impl Lend for GroupField {
    type Value = GroupRow;

    ghost piece = { GroupPiece };

    fn lend(row: &GroupRow) -> RowRef<'_> {
        RowRef::Group(row)
    }
}

impl Lend for ScreenField {
    type Value = ScreenRow;

    ghost piece = { ScreenPiece };

    fn lend(row: &ScreenRow) -> RowRef<'_> {
        RowRef::Screen(row)
    }
}

impl Lend for ExceptField {
    type Value = ExceptRow;

    ghost piece = { ExceptPiece };

    fn lend(row: &ExceptRow) -> RowRef<'_> {
        RowRef::Except(row)
    }
}

impl Lend for JobField {
    type Value = JobRow;

    ghost piece = { JobPiece };

    fn lend(row: &JobRow) -> RowRef<'_> {
        RowRef::Job(row)
    }
}
