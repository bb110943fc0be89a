//! Pieces of an image that are written.

use fsrm_model::{ActRow, AutoRow, ExceptRow, GroupRow, JobRow, QuotaRow, ScreenRow, TemplateRow};

/// A piece of an image whose parts are lent, so that it is written without a copy: what comes first, the count of a
/// list, or a row.
#[derive(Clone, Copy)]
pub enum RowRef<'a> {
    Start {
        last_moment: u64,
        run_limit: u32,
    },
    Count(u32),
    Node {
        number: u32,
        parent: u32,
        name: &'a str,
        folder: bool,
        length: u64,
        owner: u32,
        created: u64,
        modified: u64,
        accessed: u64,
    },
    Quota(&'a QuotaRow),
    Template(&'a TemplateRow),
    Auto(&'a AutoRow),
    Group(&'a GroupRow),
    Screen(&'a ScreenRow),
    Except(&'a ExceptRow),
    Job(&'a JobRow),
    Act(ActRow),
    Audit {
        moment: u64,
        active: bool,
        owner: u32,
        folder: u32,
        screen: u32,
        name: &'a str,
    },
}
