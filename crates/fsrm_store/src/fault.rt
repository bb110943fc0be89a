//! Why a call of the store is refused.

ghost use Rattle.std.specs.Prelude.{◌≡◌};

use fsrm_base::NoMemory;
use fsrm_journal::JournalFault;
use fsrm_outside::Part;
use thiserror::Error;

/// Why a call of the store is refused.
#[derive(Clone, Copy, Debug, PartialEq, Eq, Drop, Error)]
pub enum StoreFault {
    /// Neither part's gate is open.
    #[error("NoStore")]
    NoStore,
    /// A part's gate is open, so no store is made.
    #[error("AlreadyStore")]
    AlreadyStore,
    /// A field is missing or isn't legal, or the rows of the image aren't those of a store. It begins at this place, and
    /// is the first such one; rows are told at the image's first byte.
    #[error("Damaged")]
    Damaged { part: Part, place: u64 },
    /// A call of the disk failed, and was counted unless the count stands at `u64::MAX`. The store has to be recovered.
    #[error("DiskFault")]
    DiskFault,
    /// Memory ran out. The store is as it was.
    #[error("NoMemory")]
    NoMemory,
}

impl From<JournalFault> for StoreFault {
    ghost use Rattle.fsrm_store.specs.Faults.{of_journal};

    ghost from_gives = { λ fault told. told ≡ of_journal fault };

    fn from(fault: JournalFault) -> Self {
        match fault {
            JournalFault::NoStore => StoreFault::NoStore,
            JournalFault::AlreadyStore => StoreFault::AlreadyStore,
            JournalFault::Damaged { part, place } => StoreFault::Damaged { part, place },
            JournalFault::DiskFault => StoreFault::DiskFault,
            JournalFault::NoMemory => StoreFault::NoMemory,
        }
    }
}

impl From<NoMemory> for StoreFault {
    ghost use Rattle.fsrm_store.specs.declared.fault.StoreFault.TheVariants as faults;

    ghost from_gives = { λ _ told. told ≡ faults.NoMemory };

    fn from(_no_memory: NoMemory) -> Self {
        StoreFault::NoMemory
    }
}
