//! What the words after the program's name ask for, and the texts of help and version.
//!
//! clap reads the words: four options, MODE, and words after it. Which words such a command takes, and what it finds in
//! them, is clap's own definition. `specs/Modes` says what each mode allows, and `specs/Worked` what some words ask for.
#![tactic(auto)]

mod command;
mod fault;
pub mod laws;
mod modes;
mod numbers;
mod plain;
mod reading;
mod values;

pub use command::{help_text, version_text};
pub use fault::WordsFault;
pub use modes::Mode;
pub use reading::read_words;
