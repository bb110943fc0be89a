//! What is used below the folders of quotas: one counter for each quota that counts, kept with every change.
//!
//! `admit` passes a change exactly if no quota refuses it, and else answers the deepest that does, with what would be
//! used and its limit; it takes at most two looks for each node on the two ways up. `charge` makes the change of every
//! counter that it touches. For a caller that looks at each folder on the way as its counter changes, `take` and `amend`
//! are its parts.
#![tactic(auto)]

mod change;
mod climb;
mod counters;
mod refusal;
mod usage;

pub use change::{Change, Counter, Exceeded};
pub use usage::Usage;
