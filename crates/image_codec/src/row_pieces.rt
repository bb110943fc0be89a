//! The pieces of which the image of rows consists, one after the other.

ghost use Rattle.std.specs.Prelude.{◌≡◌, ◌+◌, ◌<◌, ◌^◌, [], ◌∷◌, true, drop, IfSome, MatchOption};
ghost use Rattle.std.specs.List.{list_all};
ghost use Rattle.image_codec.specs.declared.section.Section.TheVariants.{Start};
ghost use Rattle.image_codec.specs.Pieces.{lent, pieces};
ghost use Rattle.image_codec.specs.PiecesLeft.{piece_fits, pieces_left, row_count, row_pieces};

use crate::jobs::JobField;
use crate::lent::lend_at;
use crate::logs::{ActField, AuditField};
use crate::nodes::NodeField;
use crate::objects::{AutoField, ExceptField, GroupField, QuotaField, ScreenField, TemplateField};
use crate::row_ref::RowRef;
use crate::section::Section;
use fsrm_model::Rows;

/// The pieces of rows from one on.
#[derive(Clone, Copy)]
pub struct RowPieces<'a> {
    rows: &'a Rows,
    section: Section,
    place: usize,
}

impl<'a> RowPieces<'a> {
    /// All pieces of rows.
    pub fn new(rows: &'a Rows) -> RowPieces<'a>
        ensures { pieces_left result ≡ pieces rows.now }
    {
        RowPieces {
            rows,
            section: Section::Start,
            place: 0,
        }
    }

    /// The next piece, or None at the end.
    // Inlined with what it calls, so that a row is lent without a copy of its fields.
    #[inline(always)]
    pub fn next(&mut self) -> Option<RowRef<'a>>
        requires { list_all piece_fits (pieces_left self.old) ≡ true }
        ensures { MatchOption result ((pieces_left self.old ≡ []) × (pieces_left self.new ≡ [])) (λ piece. pieces_left self.old ≡ lent piece ∷ pieces_left self.new) }
    {
        if let Some(row) = row_at(self.rows, self.section, self.place) {
            self.place += 1;
            return Some(row);
        }
        let Some(section) = self.section.next() else {
            return None;
        };
        let count = count_of(self.rows, section);
        self.section = section;
        self.place = 0;
        Some(RowRef::Count(count as u32))
    }
}

// What comes first, or a row of a list, at its place.
#[inline(always)]
fn row_at(rows: &Rows, section: Section, place: usize) -> Option<RowRef<'_>>
    ensures piece { MatchOption result (drop place (row_pieces section rows.now) ≡ []) (λ row. drop place (row_pieces section rows.now) ≡ lent row ∷ drop (place + 1) (row_pieces section rows.now)) }
    ensures within { IfSome result (λ row. place + 1 < 2 ^ 64) }
{
    match section {
        Section::Start => start_at(rows, place),
        Section::Nodes => lend_at::<NodeField>(&rows.nodes, place),
        Section::Quotas => lend_at::<QuotaField>(&rows.quotas, place),
        Section::Templates => lend_at::<TemplateField>(&rows.templates, place),
        Section::Autos => lend_at::<AutoField>(&rows.autos, place),
        Section::Groups => lend_at::<GroupField>(&rows.groups, place),
        Section::Screens => lend_at::<ScreenField>(&rows.screens, place),
        Section::Excepts => lend_at::<ExceptField>(&rows.excepts, place),
        Section::Jobs => lend_at::<JobField>(&rows.jobs, place),
        Section::Acts => lend_at::<ActField>(&rows.acts, place),
        Section::Audits => lend_at::<AuditField>(&rows.audits, place),
    }
}

fn start_at(rows: &Rows, place: usize) -> Option<RowRef<'_>>
    ensures piece { MatchOption result (drop place (row_pieces Start rows.now) ≡ []) (λ row. drop place (row_pieces Start rows.now) ≡ lent row ∷ drop (place + 1) (row_pieces Start rows.now)) }
    ensures within { IfSome result (λ row. place ≡ 0) }
{
    if place > 0 {
        return None;
    }
    Some(RowRef::Start {
        last_moment: rows.last_moment,
        run_limit: rows.run_limit,
    })
}

// How many rows a list has.
fn count_of(rows: &Rows, section: Section) -> usize
    ensures { result ≡ row_count section rows.now }
{
    match section {
        Section::Start => 1,
        Section::Nodes => rows.nodes.len(),
        Section::Quotas => rows.quotas.len(),
        Section::Templates => rows.templates.len(),
        Section::Autos => rows.autos.len(),
        Section::Groups => rows.groups.len(),
        Section::Screens => rows.screens.len(),
        Section::Excepts => rows.excepts.len(),
        Section::Jobs => rows.jobs.len(),
        Section::Acts => rows.acts.len(),
        Section::Audits => rows.audits.len(),
    }
}
