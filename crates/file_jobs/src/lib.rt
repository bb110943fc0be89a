//! Jobs over files: which files of a folder expire, and how they are moved into another one (MS-FSRM, file management jobs).
//!
//! `plan` finds the files in one walk, which doesn't enter the folder that they go to. `move_of` makes the command that
//! moves one of them.
#![tactic(auto)]

mod expiry;
mod finding;
mod moves;
mod paths;
mod planning;

pub use expiry::Expiry;
pub use moves::move_of;
pub use planning::plan;
