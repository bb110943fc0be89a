//! A script of the program's own making, of any length, and what the replies to it come to.
//!
//! The same seed and count give the same script. Its first forty lines make folders and quotas; what each later line
//! asks for is drawn. `Work` makes the lines one after the other, and a `Tally` tells what replies come to.
#![tactic(auto)]

mod draws;
mod lines;
mod tally;
mod work;
mod writing;

pub use tally::Tally;
pub use work::Work;
