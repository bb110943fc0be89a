//! The machine that takes commands: a tree, the tables of objects, their counters and their scans, file groups, quota
//! templates, auto-apply quotas and the log of judged names.
//!
//! `Engine::apply` and `Engine::file_op` have one clause for all commands, `ok`: the answer is the plain machine's, and
//! so are the rows that are left and the acts that wait. `err` says that nothing has changed if memory ran out, `memory`
//! which commands can come to that, `kept` that the rows are valid, `named` that what the answer names is there, and
//! `looks` how many nodes were looked at, at most. `scan_step` is the step of a scan alone, under the same clauses but
//! `err` and `memory`: it takes none. `used` is what a counting quota's counter holds, and its clause says that this is
//! the sum over the tree.
//!
//! A command may leave acts that wait: actions of a screen and of thresholds that ran. `next_act` hands them out one by
//! one, and the next command is taken once none waits.
//!
//! `finish_fresh` and `flag_unfinished` are no commands: a journal tells that a scan finished, and a store gives up the
//! scans that did not. Neither refuses, or takes memory.
//!
//! `from_rows` makes an engine of the rows of a store, in which no scan may wait, and `to_rows` gives copies of an
//! engine's rows.
//!
//! In every command what can refuse and what takes memory come before the first change, and then what can't fail. Only
//! two undo a first step if memory runs out in the second: a folder is made and gets a quota, and an auto-apply quota
//! gives quotas.
#![tactic(auto)]

mod admin;
mod applying;
mod arrivals;
mod autos;
mod changes;
mod charging;
mod commands;
mod copying;
mod counting;
mod creations;
mod due;
mod engine;
mod finishing;
mod flagging;
mod groups;
mod moves;
mod parts;
mod path_text;
mod quota_templates;
mod quotas;
mod removals;
mod reports;
mod restoring;
mod rows;
mod scanning;
mod screening;
mod screens;
mod states;
mod updates;
mod usage;

pub use engine::{Engine, Settings};
pub use volume_tree::RowsFault;
