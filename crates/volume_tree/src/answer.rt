//! What a tree answers.

/// Why a tree refused.
#[derive(Clone, Copy, Debug, PartialEq, Eq)]
pub enum TreeFault {
    /// The folder has a child of this name.
    AlreadyExists,
    /// The folder that the node was to come into is that node, or below it.
    InvalidMove,
    /// The folder that was to be removed has a child.
    NotEmpty,
    /// The volume has as many nodes as it may.
    VolumeFull,
    /// The names would take more bytes than they may.
    NamesFull,
}

/// Why rows made no tree.
#[derive(Clone, Copy, Debug, PartialEq, Eq)]
pub enum RowsFault {
    /// They aren't the nodes of a volume of this size.
    BadRows,
    /// Memory ran out.
    NoMemory,
}
