//! The answer when memory runs out, and copies that may run out of it.

ghost use Rattle.std.specs.Prelude.{◌≡◌, IfOk};

use std::alloc::{AllocError, AllocFailed, Global};

/// The one answer when memory runs out. It doesn't tell which allocation failed. The value that the call
/// was made on is as before, unless the call's own documentation says otherwise.
#[derive(Clone, Copy, Debug, PartialEq, Eq)]
pub struct NoMemory;

impl From<AllocError> for NoMemory {
    ghost from_gives = { λ _ e. e ≡ record {} };

    fn from(_error: AllocError) -> Self {
        NoMemory
    }
}

impl<T: Drop> From<AllocFailed<T>> for NoMemory {
    ghost from_gives = { λ _ e. e ≡ record {} };

    fn from(_error: AllocFailed<T>) -> Self {
        NoMemory
    }
}

/// What can be copied into memory of its own.
pub trait Duplicate: Drop {
    /// An equal value.
    fn copy(&self, alloc: Global) -> Result<Self, NoMemory>
        ensures { IfOk result (λ copy. copy ≡ self.now) };
}

impl Duplicate for u16 {
    fn copy(&self, _alloc: Global) -> Result<Self, NoMemory> {
        Ok(*self)
    }
}

impl Duplicate for u32 {
    fn copy(&self, _alloc: Global) -> Result<Self, NoMemory> {
        Ok(*self)
    }
}
