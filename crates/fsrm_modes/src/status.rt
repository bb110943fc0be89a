//! How a run ends.

ghost use Rattle.std.specs.Prelude.{◌≡◌};

use fsrm_outside::Part;
use fsrm_session::Stop;
use fsrm_store::StoreFault;

/// How a run ended. What was shown is, at every status, a prefix of the whole text of what the run does.
#[derive(Clone, Copy, Debug, PartialEq, Eq)]
pub enum Status {
    /// All was done, and its whole text shown.
    Done,
    /// The words ask for nothing that the program does. Nothing was read, shown or written.
    Usage,
    /// A read of the script failed. All lines that ended before were taken, and the replies shown, unless the disk or a
    /// write failed as well.
    ReadFault,
    /// A write of the replies failed.
    WriteFault,
    /// A call of the disk failed. What was acknowledged is kept.
    DiskFault,
    /// More than 2^32 bytes came. All lines that ended within the first 2^32 were taken.
    TooLong,
    /// The bytes of the store are damaged: this is the first such place of this part.
    Damaged { part: Part, place: u64 },
    /// Memory ran out.
    NoMemory,
    /// There is no store.
    NoStore,
    /// There is a store already, so none was made.
    AlreadyStore,
}

impl From<Stop> for Status {
    ghost use Rattle.fsrm_modes.specs.Statuses.{of_stop};

    ghost from_gives = { λ stop status. status ≡ of_stop stop };

    fn from(stop: Stop) -> Self {
        match stop {
            Stop::WriteFault => Status::WriteFault,
            Stop::DiskFault => Status::DiskFault,
            Stop::NoMemory => Status::NoMemory,
        }
    }
}

impl From<StoreFault> for Status {
    ghost use Rattle.fsrm_modes.specs.Statuses.{of_store};

    ghost from_gives = { λ fault status. status ≡ of_store fault };

    fn from(fault: StoreFault) -> Self {
        match fault {
            StoreFault::NoStore => Status::NoStore,
            StoreFault::AlreadyStore => Status::AlreadyStore,
            StoreFault::Damaged { part, place } => Status::Damaged { part, place },
            StoreFault::DiskFault => Status::DiskFault,
            StoreFault::NoMemory => Status::NoMemory,
        }
    }
}
