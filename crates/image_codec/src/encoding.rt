//! Writing pieces of an image.

ghost use Rattle.std.specs.Prelude.{◌≡◌, ◌≤◌, true, length, take};
ghost use Rattle.record_fields.specs.Writers.{Writes};
ghost use Rattle.image_codec.specs.Pieces.{lent, longest_piece, piece_spelled, piece_meets, piece_legal};

use crate::jobs::put_job;
use crate::logs::{AuditRef, put_act, put_audit};
use crate::nodes::{NodeRef, put_node};
use crate::objects::{put_auto, put_except, put_group, put_quota, put_screen, put_template};
use crate::parts::Part;
use crate::row_ref::RowRef;
use record_fields::{U32Field, U64Field};

/// How many bytes a piece has at most.
pub const LONGEST_PIECE: usize = 262_144;

/// Writes a piece from the first byte on, and answers its length. A quota that is rebuilt is written as incomplete. What
/// is written is legal, so it is read again.
pub fn encode_row(row: &RowRef<'_>, into: &mut [u8]) -> usize
    requires meets { piece_meets (lent row.now) ≡ true }
    requires room { longest_piece ≤ length into.old }
    ensures legal { piece_legal (lent row.now) ≡ true }
    ensures written { take result into.new ≡ piece_spelled (lent row.now) }
    ensures length { result ≡ length (piece_spelled (lent row.now)) }
    ensures short { result ≤ longest_piece }
{
    put_piece(row, into, 0)
}

/// Writes a piece at a place, as far as there is room.
#[inline(always)]
pub fn put_piece(piece: &RowRef<'_>, into: &mut [u8], at: usize) -> usize
    requires { at ≤ length into.old }
    ensures written { Writes into.old at into.new result (piece_spelled (lent piece.now)) }
    ensures legal { piece_meets (lent piece.now) ≡ true → piece_legal (lent piece.now) ≡ true }
{
    match *piece {
        RowRef::Start {
            last_moment,
            run_limit,
        } => {
            let after = U64Field::put(&last_moment, into, at);
            U32Field::put(&run_limit, into, after)
        }
        RowRef::Count(count) => U32Field::put(&count, into, at),
        RowRef::Node {
            number,
            parent,
            name,
            folder,
            length,
            owner,
            created,
            modified,
            accessed,
        } => {
            let node = NodeRef {
                number,
                parent,
                name,
                folder,
                length,
                owner,
                created,
                modified,
                accessed,
            };
            put_node(&node, into, at)
        }
        RowRef::Quota(row) => put_quota(row, into, at),
        RowRef::Template(row) => put_template(row, into, at),
        RowRef::Auto(row) => put_auto(row, into, at),
        RowRef::Group(row) => put_group(row, into, at),
        RowRef::Screen(row) => put_screen(row, into, at),
        RowRef::Except(row) => put_except(row, into, at),
        RowRef::Job(row) => put_job(row, into, at),
        RowRef::Act(row) => put_act(&row, into, at),
        RowRef::Audit {
            moment,
            active,
            owner,
            folder,
            screen,
            name,
        } => {
            let entry = AuditRef {
                moment,
                active,
                owner,
                folder,
                screen,
                name,
            };
            put_audit(&entry, into, at)
        }
    }
}
