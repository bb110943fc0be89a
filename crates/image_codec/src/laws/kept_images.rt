//! What an image is read as is kept as it is: it tells of no scan that isn't finished.

ghost use Rattle.std.specs.Prelude.{◌≡◌, ℕ, List, true, Ok, length};
ghost use Rattle.std.specs.List.{flat_map, list_all};
ghost use Rattle.fsrm_model.specs.declared.row.Rows.{Rows};
ghost use Rattle.fsrm_model.specs.store.Lasting.{lasting};
ghost use Rattle.image_codec.specs.Images.{image, image_in};
ghost use Rattle.image_codec.specs.Pieces.{pieces, piece_legal, piece_spelled};

/// Rows that an image is read as have no quota that is rebuilding, no scan that waits and no folder that is still to be
/// visited: what is kept of them is all of them. And the image had as many bytes as it should.
pub fn read_back()
    ensures kept { (len : ℕ) (bytes : List ℕ) (R : Rows) → image_in len bytes ≡ Ok R → lasting R ≡ R }
    ensures whole { (len : ℕ) (bytes : List ℕ) (R : Rows) → image_in len bytes ≡ Ok R → length bytes ≡ len }
    // So are all rows that have an image.
    ensures legal { (R : Rows) → image.legal R ≡ true → lasting R ≡ R }
    // The pieces of rows, joined, are read as what is kept of the rows, if each of them is legal.
    ensures written { (R : Rows) → list_all piece_legal (pieces R) ≡ true
        → image_in (length (flat_map piece_spelled (pieces R))) (flat_map piece_spelled (pieces R)) ≡ Ok (lasting R) }
{}
