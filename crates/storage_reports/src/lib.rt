//! The eight reports of a store: each is a filter, an order and a cut over rows, or over groups of rows, and nothing in
//! their definitions walks.
//!
//! `report` marks the nodes at and below the scope in one walk, and then goes up the numbers, so that files come in the
//! order in which ties stand. No more rows are kept than twice those that are asked for. Owners, types and files that may
//! be one are counted in maps, in the order in which they are first seen; files that can't have a double are left out
//! before, by slots that each file takes.
#![tactic(auto)]

pub mod ask;
pub mod asked;
pub mod audits;
pub mod below;
pub mod doubles;
pub mod files;
pub mod groups;
pub mod laws;
pub mod lists;
pub mod owners;
pub mod quotas;
pub mod ranked;
pub mod sums;
pub mod tables;
pub mod twins;
pub mod type_text;
pub mod types;

pub use tables::report;
