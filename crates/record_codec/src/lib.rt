//! Entries of a journal, as bytes.
//!
//! An entry is a moment, the kind of what was done in one byte, and the values of the command's words or options in
//! their order. `specs/Entries` says how each entry is spelled; each has one spelling, and each spelling is of one
//! entry. Bytes that spell none are refused at the first field that is missing, cut short or not legal.
//!
//! Each family of commands has a file of its own here and in `specs`: its kinds, and how the values of each are spelled.
#![tactic(auto)]

mod autoquotas;
mod decoding;
mod deeds;
mod encoding;
mod entry;
mod exceptions;
mod fault;
mod fields;
mod filegroups;
mod files;
mod filters;
mod kinds;
pub mod laws;
mod notices;
mod numbers;
mod paths;
mod quotas;
mod reports;
mod screens;
mod settings;
mod templates;
mod typed;

pub use autoquotas::AutoquotaKind;
pub use decoding::decode;
pub use deeds::DeedKind;
pub use encoding::encode;
pub use entry::EntryRef;
pub use exceptions::ExceptionKind;
pub use fault::CodecFault;
pub use fields::{ActionTextField, NameField, ObjectNameField, PatternField};
pub use filegroups::FilegroupKind;
pub use files::FileKind;
pub use filters::ReportKindField;
pub use kinds::Kind;
pub use notices::ActionKindField;
pub use numbers::{LimitField, PercentField};
pub use quotas::QuotaKind;
pub use reports::JobKind;
pub use screens::ScreenKind;
pub use settings::SettingKind;
pub use templates::TemplateKind;
