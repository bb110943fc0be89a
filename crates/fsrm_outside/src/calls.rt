//! The calls of a device, as its record keeps them.

ghost use Rattle.std.specs.Prelude.{◌≡◌};
ghost use Rattle.fsrm_outside.specs.Record.{kind_of};

use crate::traits::Part;

/// Which function of a device was called.
#[derive(Clone, Copy, Debug, PartialEq, Eq)]
pub enum CallKind {
    Read,
    Write,
    Len,
    ReadAt,
    WriteAt,
    Sync,
}

/// A call that was made, with what it did to the output and to the disk.
#[derive(Drop)]
pub enum Call {
    Read,
    /// The bytes were shown. A failed write has none.
    Write(Vec<u8>),
    Len,
    ReadAt,
    /// The bytes were written over those of the part.
    WriteAt(Part, u64, Vec<u8>),
    /// A write of so many bytes failed. What a read gives stays, and a crash may leave any bytes there.
    FailedAt(Part, u64, usize),
    /// A sync, and whether it did its work.
    Sync(bool),
}

impl Call {
    pub fn kind(&self) -> CallKind
        ensures { result ≡ kind_of self.now }
    {
        match self {
            Call::Read => CallKind::Read,
            Call::Write(_) => CallKind::Write,
            Call::Len => CallKind::Len,
            Call::ReadAt => CallKind::ReadAt,
            Call::WriteAt(..) | Call::FailedAt(..) => CallKind::WriteAt,
            Call::Sync(_) => CallKind::Sync,
        }
    }
}
