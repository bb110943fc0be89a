//! Why bytes aren't read.

ghost use Rattle.std.specs.Prelude.{◌≡◌};

use fsrm_base::NoMemory;
use std::alloc::{AllocError, AllocFailed};

/// Why no value is read: the first field that is cut short or isn't legal. `left` is how many bytes are left from the
/// first byte of this field on; so it stands at the place that is the number of all bytes less `left`.
#[derive(Clone, Copy, Debug, PartialEq, Eq)]
pub enum Flaw {
    /// The bytes end before the field does. With more bytes it may be sound.
    Truncated { left: usize },
    /// The field is there whole, and no legal value is spelled so. Nor is one, whatever follows.
    Illegal { left: usize },
}

/// Why a reader gives no value.
#[derive(Clone, Copy, Debug, PartialEq, Eq)]
pub enum FieldFault {
    /// Memory ran out. What the reader has left isn't said.
    NoMemory,
    /// The bytes don't begin with a spelling.
    Flawed(Flaw),
}

impl From<Flaw> for FieldFault {
    ghost use Rattle.record_fields.specs.declared.flaw.FieldFault.TheVariants as faults;

    ghost from_gives = { λ flaw fault. fault ≡ faults.Flawed flaw };

    fn from(flaw: Flaw) -> Self {
        FieldFault::Flawed(flaw)
    }
}

impl From<NoMemory> for FieldFault {
    ghost use Rattle.record_fields.specs.declared.flaw.FieldFault.TheVariants as faults;

    ghost from_gives = { λ _ fault. fault ≡ faults.NoMemory };

    fn from(_fault: NoMemory) -> Self {
        FieldFault::NoMemory
    }
}

impl From<AllocError> for FieldFault {
    ghost use Rattle.record_fields.specs.declared.flaw.FieldFault.TheVariants as faults;

    ghost from_gives = { λ _ fault. fault ≡ faults.NoMemory };

    fn from(_error: AllocError) -> Self {
        FieldFault::NoMemory
    }
}
