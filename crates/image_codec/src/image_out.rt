//! Writing an image into buffers of any length.

ghost use Rattle.std.specs.Prelude.{◌≡◌, ◌≤◌, ◌<◌, ◌++◌, [], true, IfOk, length, min, take};
ghost use Rattle.std.specs.List.{list_all};
ghost use Rattle.fsrm_model.specs.store.Lasting.{lasting};
ghost use Rattle.image_codec.specs.ImageOut.{CanWrite, cut_off, image_left, left_legal};
ghost use Rattle.image_codec.specs.Images.{image};
ghost use Rattle.image_codec.specs.Pieces.{lent, piece_legal, piece_meets, piece_spelled, pieces};
ghost use Rattle.image_codec.specs.PiecesLeft.{piece_fits, pieces_left};

use crate::encoding::{LONGEST_PIECE, encode_row, put_piece};
use crate::lengths::row_len;
use crate::row_pieces::RowPieces;
use crate::row_ref::RowRef;
use fsrm_base::NoMemory;
use fsrm_model::Rows;
use record_fields::writer::put;
use std::alloc::Global;

/// A writer of the image of rows, which fills one buffer after the other. Of a piece that has no room whole in a buffer
/// it keeps the bytes for those that follow.
#[derive(Drop)]
pub struct ImageOut<'a> {
    pieces: RowPieces<'a>,
    row: Vec<u8>,
    from: usize,
    till: usize,
}

impl<'a> ImageOut<'a> {
    /// A writer that has still all to write. It takes memory for the longest piece, and none later.
    pub fn new(alloc: Global, rows: &'a Rows) -> Result<ImageOut<'a>, NoMemory>
        requires { list_all piece_fits (pieces rows.now) ≡ true }
        ensures ready { IfOk result CanWrite }
        ensures all { IfOk result (λ out. image_left out ≡ image.spell (lasting rows.now)) }
        ensures legal { IfOk result (λ out. left_legal out ≡ true → image.legal (lasting rows.now) ≡ true) }
    {
        let row = vec![in alloc; 0; LONGEST_PIECE]?;
        Ok(ImageOut {
            pieces: RowPieces::new(rows),
            row,
            from: 0,
            till: 0,
        })
    }

    /// Fills a buffer with the next bytes, as far as there are any, and answers how many it wrote. So it answers 0 for a
    /// buffer that isn't empty exactly at the image's end.
    pub fn next(&mut self, into: &mut [u8]) -> usize
        requires { CanWrite self.old }
        ensures ready { CanWrite self.new }
        ensures written { image_left self.old ≡ take result into.new ++ image_left self.new }
        ensures count { result ≡ min (length into.old) (length (image_left self.old)) }
        // What is written is read again: at the image's end nothing is left, so all of it was legal.
        ensures legal { left_legal self.new ≡ true → left_legal self.old ≡ true }
        ensures whole { image_left self.new ≡ [] → left_legal self.new ≡ true }
    {
        let mut end = self.put_cut_off(into);
        while end < into.len() {
            let Some(piece) = self.pieces.next() else {
                return end;
            };
            end = self.put_next(&piece, into, end);
        }
        end
    }

    // Writes what had no room before.
    fn put_cut_off(&mut self, into: &mut [u8]) -> usize
        requires { CanWrite self.old }
        ensures ready { CanWrite self.new }
        ensures pieces { self.new.pieces ≡ self.old.pieces }
        ensures within { result ≤ length into.new }
        ensures written { cut_off self.old ≡ take result into.new ++ cut_off self.new }
        ensures whole { result < length into.new → cut_off self.new ≡ [] }
    {
        let end = put(into, 0, &self.row[self.from..self.till]);
        self.from += end;
        end
    }

    // Writes a piece at a place, and keeps what has no room.
    fn put_next(&mut self, piece: &RowRef<'_>, into: &mut [u8], at: usize) -> usize
        requires ready { CanWrite self.old }
        requires meets { piece_meets (lent piece.now) ≡ true }
        requires place { at ≤ length into.old }
        requires empty { cut_off self.old ≡ [] }
        ensures ready { CanWrite self.new }
        ensures pieces { self.new.pieces ≡ self.old.pieces }
        ensures within { result ≤ length into.new }
        ensures written { take at into.old ++ piece_spelled (lent piece.now) ≡ take result into.new ++ cut_off self.new }
        ensures whole { result < length into.new → cut_off self.new ≡ [] }
        ensures legal { piece_legal (lent piece.now) ≡ true }
    {
        let end = put_piece(piece, into, at);
        if end == into.len() {
            self.till = encode_row(piece, self.row.as_mut_slice());
            self.from = end - at;
        }
        end
    }
}

/// How many bytes the image of rows has.
pub fn image_len(rows: &Rows) -> u64
    requires { list_all piece_fits (pieces rows.now) ≡ true }
    ensures { result ≡ length (image.spell (lasting rows.now)) }
{
    let mut pieces = RowPieces::new(rows);
    let mut total = 0;
    'pieces: while let Some(piece) = pieces.next() {
        total += row_len(&piece);
    }
    total
}
