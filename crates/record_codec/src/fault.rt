//! Why bytes aren't read.

use thiserror::Error;

/// Why no entry is read.
#[derive(Clone, Copy, Debug, PartialEq, Eq, Drop, Error)]
pub enum CodecFault {
    /// The bytes spell no entry. A field is missing, cut short, or has no legal value; it begins at this place, and is
    /// the first such one. If none is, the first byte too many is at this place.
    #[error("BadRecord")]
    BadRecord { place: u64 },
    /// Memory ran out.
    #[error("NoMemory")]
    NoMemory,
}
