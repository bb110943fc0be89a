//! Entries that are written.

use fsrm_model::{Command, FileOp};

/// An entry whose parts are lent, so that it is written without a copy.
#[derive(Clone, Copy)]
pub enum EntryRef<'a> {
    /// A command.
    Order(&'a Command),
    /// The command of this moment that is this file operation.
    Op { moment: u64, op: &'a FileOp },
    /// The scan of a folder was finished.
    Finish { moment: u64, folder: u32 },
}
