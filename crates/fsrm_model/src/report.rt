//! Reports: what they are asked for, and their rows.

use crate::row::{Filter, ReportKind};
use fsrm_base::{List, Text};

/// A report that is to be made.
#[derive(Drop)]
pub struct ReportAsk {
    pub kind: ReportKind,
    /// The folder that it reports on.
    pub scope: u32,
    pub filter: Filter,
}

/// A list of files: which of them have a row, and by what they stand in order.
#[derive(Clone, Copy, Debug, PartialEq, Eq)]
pub enum FileList {
    /// Those of so many bytes or more, the longest first.
    Large { least: u64 },
    /// Those that weren't accessed for so many seconds, the one that was accessed first before the others.
    Unused { seconds: u64 },
    /// Those that were accessed in the last so many seconds, the one that was accessed last before the others.
    Used { seconds: u64 },
}

/// What a report has rows for.
#[derive(Clone, Copy, Debug, PartialEq, Eq)]
pub enum Report {
    /// Each file of a list.
    Lists(FileList),
    /// Each owner of files.
    Owners,
    /// Each type of files.
    Types,
    /// Each file that may be another one, too.
    Doubles,
    /// Each quota that counts.
    Quotas,
    /// Each entry of the audit log.
    Audits,
}

/// The least number of some files, how many there are, and the sums of their lengths and of what they take.
#[derive(Clone, Copy, Debug, PartialEq, Eq)]
pub struct Sums {
    pub first: u32,
    pub files: u64,
    pub lengths: u64,
    pub alloc: u64,
}

/// A row of a report. Files are counted if the report's filter lets them through. Their lengths, and the space that
/// they take (`alloc`), are in bytes.
#[derive(Drop)]
pub enum ReportRow {
    /// One file.
    File {
        node: u32,
        alloc: u64,
    },
    /// All files of one type: the folded text after the last dot of their names. It is empty for those that have no
    /// such text.
    Kind {
        name: Text,
        files: u64,
        lengths: u64,
        alloc: u64,
    },
    /// All files of one owner.
    Owner {
        owner: u32,
        files: u64,
        lengths: u64,
        alloc: u64,
    },
    /// A counting quota, and how much of its limit is used, rounded down.
    Quota {
        folder: u32,
        percent: u64,
    },
    /// An entry of the audit log, by its place in it, from 0.
    Audit {
        place: u32,
    },
}

/// A report's rows, in their order.
#[derive(Drop)]
pub struct Table {
    pub rows: List<ReportRow>,
}
