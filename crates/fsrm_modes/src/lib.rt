//! The program as a library: `run` does what the words ask for, over a store.
//!
//! `init` makes a store. `show` writes a text over a store: the list of its quotas, or its outbox. Each other mode is a
//! task that is taken over a store: `replay` reads a script in pieces, and has a session take each line that ends in a
//! piece; at the piece's end the replies are shown whose commands are kept. `work` takes a script of the program's own
//! making, whose replies it sums up. `expire` moves old files, and `tick` runs the report jobs that are due.
//!
//! The invariants of the loops (`specs/Reading`) speak of every way in which the script may go on, so `run`'s clauses
//! hold for any bytes in any pieces. Of a line no more than 65,538 bytes are held.
#![tactic(auto)]

mod answering;
mod ending;
mod expiring;
mod init;
pub mod laws;
mod lines;
mod pieces;
mod program;
mod script;
mod show;
mod status;
mod tasks;
mod ticking;
mod work;

pub use program::run;
pub use status::Status;
