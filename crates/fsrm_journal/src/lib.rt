//! Records on a disk that a crash cuts between two of them, never inside one.
//!
//! One of the two parts rules. After its head and its image come records, each with a gate before it, and a closed gate
//! ends them. A record is written after the closed gate, with the next closed gate after it, and synced; then its gate
//! is opened, and synced. So whatever a crash leaves, the records are those from before the call, or these and all of
//! the new ones. Several records may be held, and are then written as one batch.
//!
//! A store is made in part 0, by which no other is written over. A journal is opened, which tells the half that rules
//! and its head, or the first damage of the heads. Then its image is read to the end, then its records to the closed
//! gate, and then records may be added: where reading stops the journal is settled, and all that stands before is its
//! lead, whatever its bytes are.
//!
//! So that records don't grow without end, the other half is given a new image (`begin_half`, `put_image`) and then
//! made to rule (`switch`). Until its gate is opened it is closed, and the old half rules as it was; from then on the
//! new one does, by its greater generation.
#![tactic(auto)]

mod batches;
mod fault;
mod formatting;
mod halves;
mod heads;
mod journal;
pub mod laws;
mod limits;
mod reading;
mod window;

pub use fault::JournalFault;
pub use heads::Head;
pub use journal::Journal;
