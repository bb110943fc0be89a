//! What lines are made of: texts, numbers and dates, written to a sink one after another.
//!
//! Each writer writes exactly its text, or a front of it if the sink fails. A fault of writing was counted by the sink,
//! and any other answer leaves that count as it was. That is the record `Writes`, which each writer promises in one
//! clause.
#![tactic(auto)]

mod dates;
mod fault;
mod sending;

pub use dates::moment_text;
pub use fault::TextFault;
pub use sending::{Part, send, send_part, send_short, send_short_with};
