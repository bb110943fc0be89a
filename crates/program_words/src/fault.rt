//! Why words aren't read.

ghost use Rattle.std.specs.Prelude.{◌≡◌, ◌↔◌};
ghost use Rattle.clap.specs.Words.{kind_of};

use clap::Error;
use clap::error::ErrorKind;
use std::alloc::AllocError;

/// Why words aren't read.
#[derive(Clone, Copy, Debug, PartialEq, Eq)]
pub enum WordsFault {
    /// The words ask for nothing that the program does.
    Usage,
    /// Memory ran out.
    NoMemory,
}

impl From<AllocError> for WordsFault {
    ghost use Rattle.program_words.specs.declared.fault.WordsFault.{WordsFault};

    ghost from_gives = { λ _ fault. fault ≡ WordsFault.NoMemory };

    fn from(_error: AllocError) -> Self {
        WordsFault::NoMemory
    }
}

impl From<Error> for WordsFault {
    ghost use Rattle.program_words.specs.declared.fault.WordsFault.{WordsFault};
    ghost use Rattle.clap.specs.declared.error.kind.ErrorKind.{ErrorKind};

    ghost from_gives = { λ error fault. (fault ≡ WordsFault.NoMemory) ↔ (kind_of error ≡ ErrorKind.OutOfMemory) };

    fn from(error: Error) -> Self {
        match error.kind() {
            ErrorKind::OutOfMemory => WordsFault::NoMemory,
            _ => WordsFault::Usage,
        }
    }
}
