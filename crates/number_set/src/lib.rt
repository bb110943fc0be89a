//! Sets of numbers below a bound, of which the least member is always at hand, in memory that is reserved once.
//!
//! Levels of words, each over the places of the words below it that aren't empty, make each call a few steps long.
//! Contracts see a set as its members in their order.
#![tactic(auto)]

mod levels;
mod set;
mod words;

pub use set::NumberSet;
