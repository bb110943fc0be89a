//! Why a call of the journal is refused.

ghost use Rattle.std.specs.Prelude.{◌≡◌};

use fsrm_outside::{Failed, Part};
use thiserror::Error;

/// Why a call of the journal is refused.
#[derive(Clone, Copy, Debug, PartialEq, Eq, Drop, Error)]
pub enum JournalFault {
    /// Neither part's gate is open.
    #[error("NoStore")]
    NoStore,
    /// A part's gate is open, so no store is made.
    #[error("AlreadyStore")]
    AlreadyStore,
    /// A field is missing or isn't legal. It begins at this place, and is the first such one.
    #[error("Damaged")]
    Damaged { part: Part, place: u64 },
    /// A call of the disk failed, and was counted unless the count stands at `u64::MAX`; no other fault tells of one. The
    /// journal has to be opened again.
    #[error("DiskFault")]
    DiskFault,
    /// There is no memory for the records that are held.
    #[error("NoMemory")]
    NoMemory,
}

impl From<Failed> for JournalFault {
    ghost use Rattle.fsrm_journal.specs.declared.fault.JournalFault.TheVariants.{DiskFault};

    ghost from_gives = { λ _ e. e ≡ DiskFault };

    fn from(_failed: Failed) -> Self {
        JournalFault::DiskFault
    }
}
