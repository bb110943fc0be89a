//! The words of a command's line, the options that words give, and the values of both.
//!
//! `Words` are taken from left to right, each as it stands in the line, or as a moment, a length, an owner or a path.
//! What else a command has are options, which come in any order: `read_options` reads all words that are left as those
//! that the command takes, each a name, how often it may be given, and the form of its value (`forms`). Which commands
//! there are, and which options these take, isn't known here. Every call answers exactly what the definitions read of
//! the words, unless memory runs out.
#![tactic(auto)]

mod actions;
mod fault;
pub mod forms;
mod limits;
mod options;
mod patterns;
mod report_words;
mod values;
mod words;

pub use fault::LineFault;
pub use options::{AtMost, Form, Once, OptionWord, Options, Repeated, read_options, required};
pub use values::is_named;
pub use words::{LentWord, Word, Words, blanks};
