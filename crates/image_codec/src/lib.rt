//! Images of a store: how all rows that it keeps are spelled in bytes, and read again.
//!
//! An image (`specs/Images`) is the moment of the last command, the run limit, and ten lists, each after its count in
//! four bytes. The formats of the rows are in `specs/Rows`: all fields of a row in their order, each number in the width
//! that it has there. Which rows may stand in a store isn't judged here. The queue of scans and the unvisited folders
//! aren't written, and are read as empty; a quota that is rebuilt is written as incomplete.
//!
//! To write the image of `Rows`, ask `image_len` for its length, and let `ImageOut` fill one buffer after the other,
//! whatever their lengths. Where the rows stand elsewhere, go through the pieces of the image (`specs/Pieces`) twice:
//! `row_len` tells how long each is, and `encode_row` writes it, into a buffer of 262,144 bytes. `laws` says that the
//! pieces of rows, joined, are the image of what is kept of them, that it is legal if each of them is, and that valid
//! rows meet the limits that these calls ask for.
//!
//! To read one, give `ImageIn` the pieces in which it comes, whatever their lengths. What it answers doesn't depend on
//! them: it is what `image_in` says of all bytes together. It holds the bytes of a row until the row has come whole, so
//! that damage to a count, which may make a row longer than any row of a store, is told at its place too.
#![tactic(auto)]

mod actions;
mod choices;
mod encoding;
mod image_in;
mod image_out;
mod jobs;
pub mod laws;
mod lengths;
mod lent;
mod logs;
mod nodes;
mod objects;
mod parts;
mod reading;
mod row_pieces;
mod row_ref;
mod section;
mod sections;

pub use encoding::encode_row;
pub use image_in::ImageIn;
pub use image_out::{ImageOut, image_len};
pub use lengths::row_len;
pub use record_codec::CodecFault;
pub use row_pieces::RowPieces;
pub use row_ref::RowRef;
pub use section::Section;
