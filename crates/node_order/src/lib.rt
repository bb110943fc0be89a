//! The order of the places of a volume's nodes: by folders, and in each folder by folded names.
//!
//! An `Entry` has a node's folder and the first characters of its name, so that most entries are told apart without a
//! look at their nodes' rows. An `Order` keeps entries in the runs of a list in blocks. A search halves the runs' first
//! entries and then one run, and ends where it finds the name: at no more than 14 and 7 looks. An entry that is put in
//! late is sought first at a place that its caller gives. Where a folder's children stand is found by the folders
//! alone.
//!
//! Not all nodes of a table need be listed: each function says what it finds among those that are. Contracts see an
//! order as its entries and, run by run, the numbers in them.
#![tactic(auto)]

mod compare;
mod entries;
mod gallop;
mod late;
mod order;
mod segments;

pub use compare::{by_place, place_key};
pub use entries::{Entry, Order};
pub use late::late_place;
pub use order::{entry_at, lists_child, search};
pub use segments::{between, entry_from, first_after, first_from, segment};
