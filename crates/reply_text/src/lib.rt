//! The texts of replies, written to a sink.
//!
//! Each writer writes exactly the text of the definitions, or a front of it if the sink fails or memory runs out. A
//! fault of writing was counted by the sink, and any other answer leaves that count as it was. That is the record
//! `Writes`, which each writer promises in one clause.
#![tactic(auto)]

mod actions;
mod acts;
mod groups;
mod heads;
mod jobs;
mod lines;
mod lists;
mod quota_templates;
mod replies;
mod reports;
mod screens;

pub use acts::write_act;
pub use heads::write_head;
pub use lists::write_list;
pub use replies::{Line, write_answer};
