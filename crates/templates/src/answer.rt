//! What the tables answer.

ghost use Rattle.std.specs.Prelude.{◌≡◌};

use fsrm_model::NoMemory;

/// Why a change is refused. Of several causes the first in this order decides.
#[derive(Clone, Copy, Debug, PartialEq, Eq)]
pub enum TemplateFault {
    /// There is a template of this name, in some spelling.
    DuplicateName,
    /// The folder has an auto-apply quota.
    AlreadyExists,
    /// An auto-apply quota names the template.
    InUse,
    /// The table has 1,024 rows.
    TableFull,
    /// The texts, less those that they replace, are longer than the room that is left.
    TextsFull,
    /// There was no memory. Nothing in the tables is the cause.
    NoMemory,
}

impl From<NoMemory> for TemplateFault {
    ghost use Rattle.templates.specs.declared.answer.TemplateFault.{TemplateFault};

    ghost from_gives = { λ _ fault. fault ≡ TemplateFault.NoMemory };

    fn from(_fault: NoMemory) -> Self {
        TemplateFault::NoMemory
    }
}
