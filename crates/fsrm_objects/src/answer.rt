//! What the tables answer.

ghost use Rattle.std.specs.Prelude.{◌≡◌};

use fsrm_model::NoMemory;
use std::alloc::AllocError;

/// Why a row is refused. Of several causes the first in this order decides.
#[derive(Clone, Copy, Debug, PartialEq, Eq)]
pub enum ObjectFault {
    /// The folder has such an object.
    AlreadyExists,
    /// A screen meets an exception on one folder, or has no file group, or an exception has none.
    InvalidCombination,
    /// There is a report job of this name, in some spelling.
    DuplicateName,
    /// A list of the row is too long: a quota has at most 16 thresholds, a threshold or a screen at most 8 actions, a
    /// screen or an exception at most 16 file groups.
    OutOfRange,
    /// The table has as many rows as it may.
    TableFull,
    /// The row's texts, less those that they replace, are longer than the room that is left.
    TextsFull,
    /// There was no memory. Nothing in the tables is the cause.
    NoMemory,
}

impl From<NoMemory> for ObjectFault {
    ghost use Rattle.fsrm_objects.specs.declared.answer.ObjectFault.{ObjectFault};

    ghost from_gives = { λ _ fault. fault ≡ ObjectFault.NoMemory };

    fn from(_fault: NoMemory) -> Self {
        ObjectFault::NoMemory
    }
}

impl From<AllocError> for ObjectFault {
    ghost use Rattle.fsrm_objects.specs.declared.answer.ObjectFault.{ObjectFault};

    ghost from_gives = { λ _ fault. fault ≡ ObjectFault.NoMemory };

    fn from(_fault: AllocError) -> Self {
        ObjectFault::NoMemory
    }
}
