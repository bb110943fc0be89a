//! An index of numbers by hashes, and the hash of a name in a folder.
//!
//! All spellings of a name have one hash. The index tells which number stands under a hash, or that none does; but some
//! hashes lead to a bucket that has lost numbers, and there it tells nothing of those that it doesn't have. Each call
//! reads one bucket, the 64 bytes to which the hash leads, and no name.
//!
//! All memory is taken by `reserve`, and only as much of it is used as there are numbers. An index that grows is doubled
//! in place, from what it has.
#![tactic(auto)]

mod bucket;
mod hash;
mod index;

pub use hash::hash_of;
pub use index::Index;
