//! Whether rows that come from outside are those of a store: each row by itself, and what rows name of others.
//!
//! `are_kept` is the whole test, but for what the tables of a store judge themselves when they are filled: the nodes,
//! whether two names of one kind are the same, and whether all texts fit.
#![tactic(auto)]

mod actions;
mod jobs;
mod kept;
mod keys;
mod logs;
mod objects;
mod screens;

pub use kept::are_kept;
