//! A reserved region of bytes, seen as a map from keys to texts.
//!
//! All memory is taken by `reserve`, and none of it is touched before it is used. `store` answers Full exactly if the
//! texts would take more bytes than were reserved, else NoKey exactly if all keys are live, else a key that wasn't
//! live; every other text stays.
//!
//! Texts stand in a log, in the order in which they came. A text that was released stays in it, and counts for nothing,
//! until the log is gathered: then all texts that are left slide down. That is done only if a text doesn't fit, or if
//! the texts that were released have more bytes than all others, and more than 1 MiB.
#![tactic(auto)]

mod gather;
mod keys;
mod log;
mod region;

pub use region::{Region, RegionFault};
