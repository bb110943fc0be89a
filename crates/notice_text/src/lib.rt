//! The latest notice of each action that ran, with its text: macros in it stand for what holds of the quota or the
//! screen now.
//!
//! A notice is of one action, and tells of its last run. `outbox` finds those since a moment; `write_notice` writes the
//! two lines of one, and `write_outbox` those of all. A text with macros goes out in pieces, and is never held whole.
#![tactic(auto)]

mod expand;
pub mod laws;
mod lines;
mod macros;
mod notice;
mod outboxes;

pub use expand::write_expanded;
pub use lines::write_lines;
pub use macros::{Facts, Macro, QuotaFacts};
pub use notice::Notice;
pub use outboxes::{outbox, write_notice, write_outbox};
