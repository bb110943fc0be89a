//! What is proved of images.

ghost use Rattle.record_fields.specs.Laws.{AreBytes, Places};
ghost use Rattle.std.specs.Prelude.{◌≡◌, ◌<◌, ◌^◌, ℕ, List, true, Ok, length};
ghost use Rattle.std.specs.List.{flat_map, list_all};
ghost use Rattle.fsrm_model.specs.declared.row.Capacity.{Capacity};
ghost use Rattle.fsrm_model.specs.declared.row.Rows.{Rows};
ghost use Rattle.fsrm_model.specs.nodes.Fresh.{new_rows};
ghost use Rattle.fsrm_model.specs.store.Lasting.{lasting};
ghost use Rattle.fsrm_model.specs.store.Valid.{is_valid};
ghost use Rattle.image_codec.specs.Images.{image, image_in};
ghost use Rattle.image_codec.specs.NewImage.{new_image};
ghost use Rattle.image_codec.specs.Pieces.{pieces, piece_legal, piece_meets, piece_spelled};
ghost use Rattle.image_codec.specs.PiecesLeft.{piece_fits};

pub mod kept_images;

/// An image has one spelling, which is read again as these rows, whatever follows, and no other bytes spell it. Damage
/// is told at its place: up to there the bytes are whole fields of an image, and with no image do they agree in whole
/// fields any further.
pub fn image_places()
    ensures { Places image }
{}

/// The pieces of rows, joined, are the image of what is kept of them.
pub fn joined_pieces()
    ensures { (R : Rows) → flat_map piece_spelled (pieces R) ≡ image.spell (lasting R) }
{}

/// Valid rows meet the limits of all pieces.
pub fn valid_pieces()
    ensures { (K : Capacity) (R : Rows) → is_valid K R ≡ true → list_all piece_meets (pieces R) ≡ true }
{}

/// The pieces of valid rows can be written so that they are read again: each list is short enough for its count, too.
pub fn fitting_pieces()
    ensures { (K : Capacity) (R : Rows) → K.nodes < 2 ^ 32 → is_valid K R ≡ true → list_all piece_fits (pieces R) ≡ true }
{}

/// If each piece of rows is legal, so is the image of what is kept of them: it is read again.
pub fn legal_pieces()
    ensures { (R : Rows) → list_all piece_legal (pieces R) ≡ true → image.legal (lasting R) ≡ true }
{}

/// Of all bytes exactly the image of rows is read as these rows.
pub fn whole_images()
    ensures again { (R : Rows) → image.legal R ≡ true → image_in (length (image.spell R)) (image.spell R) ≡ Ok R }
    ensures takes { (len : ℕ) (bytes : List ℕ) (R : Rows) → AreBytes bytes → image_in len bytes ≡ Ok R → (image.legal R ≡ true) × (bytes ≡ image.spell R) × (length bytes ≡ len) }
{}

/// The image of a new store, byte by byte: there are 99.
pub fn new_images()
    ensures spelled { image.spell new_rows ≡ new_image }
    ensures long { length new_image ≡ 99 }
{}
