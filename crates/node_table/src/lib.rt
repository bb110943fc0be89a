//! The rows of a volume's nodes, each in the slot of its number.
//!
//! A row takes 32 bytes; its name stands in a region, under a key that the row has. All memory is taken by `reserve`,
//! and a page of it is touched only when nodes come there. So what nodes take is in proportion to how many there are,
//! and no change of a table can fail.
//!
//! Contracts see a table as its bounds and its slots, each with a row or empty.
#![tactic(auto)]

mod row;
mod rows;
mod table;
mod view;

pub use table::NodeTable;
pub use view::NodeView;
