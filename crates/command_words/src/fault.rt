//! Why a line is read as no command.

ghost use Rattle.std.specs.Prelude.{◌≡◌};
ghost use Rattle.fsrm_model.specs.declared.command.Refusal.TheVariants.{BadLine};
ghost use Rattle.command_words.specs.declared.fault.LineFault.TheVariants.{Refused, NoMemory as Memory};

use fsrm_model::{NoMemory, Refusal};

/// Why a line is read as no command.
#[derive(Clone, Copy, Debug, PartialEq, Eq)]
pub enum LineFault {
    /// What it spells is refused: BadLine, LineTooLong, InvalidPath, InvalidName, OutOfRange or
    /// InvalidLimit.
    Refused(Refusal),
    /// Memory ran out.
    NoMemory,
}

impl LineFault {
    /// A word that hasn't its form, or is missing. The column counts bytes from 1.
    pub fn bad_line(column: u32) -> LineFault
        ensures { result ≡ Refused (BadLine column) }
    {
        LineFault::Refused(Refusal::BadLine { column })
    }
}

impl From<NoMemory> for LineFault {
    ghost from_gives = { λ _ fault. fault ≡ Memory };

    fn from(_error: NoMemory) -> Self {
        LineFault::NoMemory
    }
}
