//! The scans of folders that are in use: the queue of those that wait, and how far the active one has come.
//!
//! `Scans` is the queue, and the active scan among all changes of the tree. The active scan is that of the folder at
//! the head; when another folder comes to the head, its scan begins with all folders at and below it (`turns`). The
//! `follow_` calls leave, of a change of the tree, exactly the definition's unvisited folders (`follows`).
//!
//! A `Frontier` is how far one scan has come. It holds the topmost unvisited folders, whose parent is visited, and one
//! sum. `Stands` says what it stands for over the nodes of a volume: that the folders at and below these are the
//! unvisited ones of the definition, and that the sum is what the definition counts. Each call's clause `follows` says
//! that it stands so again after its step. `finish` gives the fresh sum of the scanned folder (`fresh`).
//!
//! `sum_below` makes a folder's sum at once, beside the active scan, which stays as it is (`kept`).
#![tactic(auto)]

mod active;
mod changes;
mod copies;
mod follow;
mod frontier;
mod moves;
mod queue;
mod standing;
mod sums;
mod visits;

pub use frontier::Frontier;
pub use queue::Scans;
