//! The image of an engine's rows, written into the half that was begun.

ghost use Rattle.std.specs.Prelude.{◌≡◌, ◌+◌, ◌≤◌, ℕ, List, [], ◌++◌, length, take, true, Err, OnErr, OnOk};
ghost use Rattle.std.specs.List.{flat_map, list_all};
ghost use Rattle.std.specs.Option.{ForSome};
ghost use Rattle.fsrm_outside.specs.Causes.{HasCause};
ghost use Rattle.fsrm_outside.specs.Moments.{EachImage};
ghost use Rattle.fsrm_outside.specs.Parts.{part_of, other};
ghost use Rattle.fsrm_journal.specs.Opened.{HoldsOn};
ghost use Rattle.fsrm_journal.specs.Stores.{Changing, HoldsStore};
ghost use Rattle.fsrm_journal.specs.declared.fault.JournalFault.TheVariants.{DiskFault};
ghost use Rattle.fsrm_journal.specs.declared.heads.Head.{Head};
ghost use Rattle.image_codec.specs.Pieces.{piece_legal, piece_meets, piece_spelled, pieces};
ghost use Rattle.image_codec.specs.PiecesLeft.{piece_fits};
ghost use Rattle.fsrm_store.specs.EnginePieces.{engine_pieces_left, nodes_left};

use crate::limits::WRITTEN;
use crate::pieces::EnginePieces;
use fsrm_engine::Engine;
use fsrm_journal::{Journal, JournalFault};
use fsrm_model::{Ledger, Steps};
use fsrm_outside::Disk;
use image_codec::{encode_row, row_len};

/// How many bytes the image of an engine's rows has. It takes a look for each node.
pub fn image_len<L: Ledger>(engine: &Engine, steps: &mut Steps<L>) -> u64
    requires { list_all piece_fits (pieces engine.now.rows) ≡ true }
    ensures exact { result ≡ length (flat_map piece_spelled (pieces engine.now.rows)) }
    ensures looks { steps.new ≤ steps.old + length engine.now.rows.nodes }
{
    let mut pieces = EnginePieces::new(engine);
    let mut total = 0;
    while let Some(piece) = pieces.next(steps) {
        total += row_len(&piece);
    }
    total
}

// Writes the next pieces to the front of a buffer, until they are 64 KiB or all are written, and answers how many bytes
// these are. So it answers 0 exactly at the end.
fn fill<L: Ledger>(pieces: &mut EnginePieces<'_>, buffer: &mut [u8], steps: &mut Steps<L>) -> usize
    requires room { 327680 ≤ length buffer.old }
    requires meets { list_all piece_meets (engine_pieces_left pieces.old) ≡ true }
    ensures written { flat_map piece_spelled (engine_pieces_left pieces.old) ≡ take result buffer.new ++ flat_map piece_spelled (engine_pieces_left pieces.new) }
    ensures within { result ≤ length buffer.new }
    ensures whole { result ≡ 0 → engine_pieces_left pieces.new ≡ [] }
    ensures meets { list_all piece_meets (engine_pieces_left pieces.new) ≡ true }
    ensures legal { list_all piece_legal (engine_pieces_left pieces.new) ≡ true → list_all piece_legal (engine_pieces_left pieces.old) ≡ true }
    ensures engine { pieces.new.engine.now ≡ pieces.old.engine.now }
    ensures looks { steps.new + nodes_left pieces.new ≡ steps.old + nodes_left pieces.old }
{
    let mut end = 0;
    while end < WRITTEN {
        let Some(piece) = pieces.next(steps) else {
            return end;
        };
        end += encode_row(&piece, &mut buffer[end..]);
    }
    end
}

/// Writes the image of an engine's rows into the half that was begun. It takes a look for each node.
pub fn put_image<D: Disk, L: Ledger>(
    journal: &mut Journal,
    disk: &mut D,
    engine: &Engine,
    buffer: &mut [u8],
    steps: &mut Steps<L>,
) -> Result<(), JournalFault>
    requires room { 327680 ≤ length buffer.old }
    requires meets { list_all piece_meets (pieces engine.now.rows) ≡ true }
    requires place { ForSome (D.reads disk.old) (λ parts. journal.old.written ≤ length (part_of (other journal.old.ruling) parts)) }
    ensures store { (was next : Head) (image : List ℕ) (bodies : List (List ℕ)) → Changing D.reads D.disk_clock D.images was image bodies next [] journal.old disk.old
        → OnOk result (Changing D.reads D.disk_clock D.images was image bodies next (flat_map piece_spelled (pieces engine.now.rows)) journal.new disk.new) }
    ensures leaves { (was next : Head) (image : List ℕ) (bodies : List (List ℕ)) → Changing D.reads D.disk_clock D.images was image bodies next [] journal.old disk.old
        → EachImage D.disk_clock D.images (HoldsStore journal.old.ruling was image bodies) disk.old disk.new }
    ensures legal { OnOk result (list_all piece_legal (pieces engine.now.rows) ≡ true) }
    ensures held { HoldsOn journal.old journal.new }
    ensures ruling { journal.new.ruling ≡ journal.old.ruling }
    ensures here { (n : ℕ) → ForSome (D.reads disk.old) (λ parts. n ≤ length (part_of journal.old.ruling parts)) → OnOk result (ForSome (D.reads disk.new) (λ parts. n ≤ length (part_of journal.new.ruling parts))) }
    ensures ready { OnOk result (ForSome (D.reads disk.new) (λ parts. journal.new.written ≤ length (part_of (other journal.new.ruling) parts))) }
    ensures looks { steps.new ≤ steps.old + length engine.now.rows.nodes }
    ensures by { D.by_disk disk.old disk.new }
    ensures only { OnErr result (result ≡ Err DiskFault) }
    ensures cause { HasCause (D.disk_faults disk.old) (D.disk_faults disk.new) result }
{
    let mut pieces = EnginePieces::new(engine);
    let mut end = fill(&mut pieces, buffer, steps);
    while end > 0 {
        journal.put_image(disk, &buffer[..end])?;
        end = fill(&mut pieces, buffer, steps);
    }
    Ok(())
}
