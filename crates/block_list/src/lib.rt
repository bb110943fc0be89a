//! A long list of entries, in which an entry is put in, taken out or found at any place in a few steps, in memory that
//! is reserved once.
//!
//! The entries are kept in *runs*, each at the beginning of a block of a common pool. A list of *heads* says in which
//! block each run is, how long it is and what its first entry is. To search an ordered list, halve the first entries
//! and then one run. An insertion or a removal moves entries of at most three blocks, and the heads of the runs after
//! them.
//!
//! Only `BlockList::reserve` takes memory. No two neighbours would fit into one block, so there are at most twice as
//! many runs as full blocks would need, and one more: the pool never runs out. Its memory isn't touched before it is
//! used.
//!
//! Contracts see a list as its runs; the plain list is `entries_of` these, and each call's clause speaks of that. How
//! an edit divides the runs is left open, so a `Place` is good until the next edit.
#![tactic(auto)]

mod head;
mod list;
mod place;
mod pool;
mod runs;
mod store;
mod tight;

pub use list::BlockList;
pub use place::Place;
