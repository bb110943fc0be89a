//! A table of rows, each under a number of its own.
//!
//! A row stays in its slot while others come and go. An index has the numbers in their order, each with the slot of its
//! row, and a note of each number, so that a row is found without a search. Contracts see the rows alone, ascending by
//! their numbers, and for how many there is memory. Only `reserve` takes memory that a caller can miss: notes take some
//! as numbers come, and a number for whose note there is none is found by halves.
#![tactic(auto)]

mod index;
mod kind;
mod notes;
mod order;
mod pool;
mod table;

pub use kind::{Edit, Kind, Test};
pub use table::Table;
