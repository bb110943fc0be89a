//! What the table of groups answers.

ghost use Rattle.std.specs.Prelude.{◌≡◌};

use fsrm_model::NoMemory;

/// Why a change of the table is refused. Of several causes the first in this order decides.
#[derive(Clone, Copy, Debug, PartialEq, Eq)]
pub enum GroupFault {
    /// There is a group of this name, in some spelling.
    DuplicateName,
    /// There are 1,024 groups.
    TableFull,
    /// The texts, less those that they replace, are longer than the room that is left.
    TextsFull,
    /// There was no memory. Nothing in the table is the cause.
    NoMemory,
}

impl From<NoMemory> for GroupFault {
    ghost use Rattle.file_groups.specs.declared.answer.GroupFault.{GroupFault};

    ghost from_gives = { λ _ fault. fault ≡ GroupFault.NoMemory };

    fn from(_fault: NoMemory) -> Self {
        GroupFault::NoMemory
    }
}
