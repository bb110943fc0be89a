//! A run over a store: commands are taken one after the other, and the reply to each is shown once it is kept.
//!
//! A `Session` has a store, and the text that waits to be shown. It is the one place where a command is journaled and
//! its reply shown. While entries are held the replies wait in memory; what is shown tells of nothing that is held.
//! What a run does is a list of turns (`specs/Turns`), and the contracts say of each call which turns it takes. What is
//! shown is the turns' text, and a crash leaves what is kept of some first turns, which hold all whose text is shown
//! (`specs/Covers`, `specs/Underway`).
#![tactic(auto)]

mod batch;
mod counting;
mod kept;
mod replies;
mod saying;
mod session;
mod showing;
mod stop;
mod taking;
mod telling;
mod writing;

pub use batch::Batch;
pub use session::Session;
pub use stop::Stop;
