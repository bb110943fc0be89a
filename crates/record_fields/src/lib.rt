//! Fields of records: how values are spelled in bytes and read again. The crate knows nothing of the machine.
//!
//! A format (`specs/Formats`) is a value: which values are legal, how each is spelled, and how the front of bytes is
//! read. The format of a record is put together from those of its fields, and so are its laws (`specs/Laws`): that what
//! is spelled is read again, that no other bytes spell it, and where damage is told. A reader here gives what a
//! format's reading gives, as its one clause; a writer writes what the format spells.
//!
//! All numbers are little-endian. Where bytes can't be read, the first field that is cut short or has no legal value is
//! told, by how many bytes are left from its first one on.
#![tactic(auto)]

pub mod fields;
pub mod flaw;
pub mod laws;
pub mod lists;
pub mod pieces;
pub mod reader;
pub mod writer;

pub use fields::{Field, TextField, TruthField, U8Field, U16Field, U32Field, U64Field};
pub use flaw::{FieldFault, Flaw};
pub use lists::{
    put_items, put_long_list, put_optional, put_short_list, read_items, read_long_list,
    read_optional, read_short_list,
};
pub use pieces::feed;
pub use reader::Reader;
pub use writer::{put, put_text, put_truth, put_u8, put_u16, put_u32, put_u64};
