//! The tables of a store, filled with its rows, and the rows that tables hold.
//!
//! Each row is put by its table's own call, which judges it once more. What a table can't judge by itself, as whether a
//! folder is there, is judged before (`row_rules`). So of good rows only memory can be wanting. The way back copies each
//! row, in the order of the table.
#![tactic(auto)]

mod copies;
mod group_rows;
mod object_rows;
mod template_rows;

pub use copies::{
    acts_in, audits_in, autos_in, excepts_in, groups_in, jobs_in, quotas_in, screens_in,
    templates_in,
};
pub use group_rows::groups_of;
pub use object_rows::objects_of;
pub use template_rows::templates_of;
