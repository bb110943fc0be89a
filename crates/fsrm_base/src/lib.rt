//! What all other crates of the file server resource manager stand on. It knows nothing of the machine:
//! owned texts and lists, copies that may run out of memory, what texts leave of a room, where a number stands in
//! ascending rows, and a count of looks. In `specs/` and `proofs/` stand lists of rows in the order of their numbers,
//! sets of numbers, and their laws.
#![tactic(auto)]

pub mod list;
pub mod memory;
pub mod places;
pub mod room;
pub mod steps;
pub mod text;

pub use list::List;
pub use memory::{Duplicate, NoMemory};
pub use steps::{Ledger, Steps, Weightless, WeightlessPage};
pub use text::Text;
