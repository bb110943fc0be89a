//! The machine on its journal: what it acknowledged outlives the process, wherever it is stopped.
//!
//! `Store::init` makes a store, and `Store::recover` opens one: it reads the image of the half that rules, makes an
//! engine of it, and does the entries after it once more. A command is taken by the engine first; if it lasts, its
//! entry is added to the journal before the call returns, or is held until a group of entries is full. When the entries
//! have become longer than the image and than 1 MiB, the other half is given a new image of all that is kept, and rules
//! from then on.
#![tactic(auto)]

mod checkpoint;
mod fault;
mod half;
mod image;
mod init;
mod keeping;
pub mod laws;
mod limits;
mod pieces;
mod reading;
mod recovery;
mod replay;
mod store;

pub use fault::StoreFault;
pub use store::Store;
