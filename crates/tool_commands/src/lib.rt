//! The lines of a script, read into commands.
//!
//! `read_line` answers exactly what the definitions read of a line: a command with all its values in their ranges, the
//! first refusal, or nothing for a line that is skipped.
#![tactic(auto)]

mod admin;
mod autos;
mod commands;
mod exceptions;
mod groups;
mod keys;
mod paths;
mod quotas;
mod reading;
mod reports;
mod screens;
mod templates;
mod tools;

pub use command_words::LineFault;
pub use reading::{is_skipped_line, read_line};
