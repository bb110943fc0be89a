//! What the commands of an engine do with the tables that are lent to them, each with those alone that it needs.
//!
//! Places that paths lead to; rows that commands make, and changed ones; the sums of folders, and the counters that
//! begin with them; what a change of the counters does to peaks, and which thresholds it crosses; the actions that are due then;
//! tables that are filled with the rows of a store; and what the faults of the tables are as answers.
//!
//! None of it ends a command: `fsrm_engine` has all tables together, and calls these in the order that a command asks
//! for. Moments are seconds since 1970-01-01 00:00:00 UTC; limits, peaks and what is used are bytes. `NoMemory` says that
//! memory ran out.
#![tactic(auto)]

mod acts;
mod applying;
mod autos;
mod charging;
mod counting;
mod due;
mod exits;
mod filling;
mod finishing;
mod flagging;
mod group_lists;
mod groups;
mod moves;
mod path_text;
mod places;
mod quota_templates;
mod quotas;
mod removals;
mod reports;
mod screening;
mod screens;
mod states;
mod sums;
mod threshold_lists;
mod updates;
mod usage;
mod walking;

pub use acts::text_of;
pub use applying::{derived_row, derived_rows};
pub use autos::{given_folders, new_auto};
pub use charging::{Gain, drop_kept, drop_quota, end_count, gain_above, raise_all, raise_peak};
pub use counting::recount;
pub use due::settle_noted;
pub use exits::{
    exceeded_by, listing, passing, refusal_of, refused, refused_by_groups, refused_by_templates,
    refused_for,
};
pub use filling::{are_texts_few, fill_audit, fill_groups, fill_log, fill_objects, fill_templates};
pub use finishing::has_unfinished;
pub use flagging::flag_all;
pub use group_lists::{changed_groups, groups_with};
pub use groups::{given_patterns, is_used, patterns_of};
pub use moves::{Moving, moved_bytes, moved_source};
pub use path_text::{joined, named_nodes};
pub use places::{Place, file_at, folder_at, place_at, quota_at, screen_at, vacancy_at};
pub use quota_templates::{new_template, retemplated};
pub use quotas::{is_disabled, modified, new_quota};
pub use removals::{drop_auto, drop_screens};
pub use reports::{new_job, report_of};
pub use screening::blocking;
pub use screens::{new_screen, rescreened};
pub use states::{first_state, requeue, state_after};
pub use sums::begin_all;
pub use threshold_lists::{changed_thresholds, may_be_removed};
pub use updates::settle_rows;
pub use usage::usage_of;
pub use walking::{arrange_for, arrange_for_move, arrange_for_op, arrange_for_sums};
