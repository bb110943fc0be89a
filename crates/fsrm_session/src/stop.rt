//! Why a session stops.

/// Why a call of a session was given up.
#[derive(Clone, Copy, Debug, PartialEq, Eq)]
pub enum Stop {
    /// A write failed, and was counted. Nothing more is to be shown.
    WriteFault,
    /// A call of the disk failed, and was counted. The store has to be opened again.
    DiskFault,
    /// Memory ran out. What was taken can still be made stable and shown.
    NoMemory,
}
