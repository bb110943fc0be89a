//! The kinds of entries.

ghost use Rattle.std.specs.Prelude.{◌≡◌};
ghost use Rattle.record_fields.specs.Readers.{Shows};
ghost use Rattle.record_codec.specs.Entries.{kind_of, entry_kind};

use crate::deeds::DeedKind;
use record_fields::{Flaw, Reader};

/// The kind of an entry, by which a reader of the journal knows what was done.
#[derive(Clone, Copy, Debug, PartialEq, Eq)]
pub enum Kind {
    /// A command was done.
    Deed(DeedKind),
    /// The scan of a folder was finished.
    Finish,
}

impl Kind {
    /// The kind that a byte means, if there is one.
    pub fn of(byte: u8) -> Option<Kind>
        ensures { result ≡ kind_of byte }
    {
        if let Some(kind) = DeedKind::of(byte) {
            return Some(Kind::Deed(kind));
        }
        match byte {
            99 => Some(Kind::Finish),
            _ => None,
        }
    }
}

/// Reads the byte of a kind.
#[tactic(auto, unfolding(record_fields::specs::Formats::known_at))]
pub fn read_kind(reader: &mut Reader<'_>) -> Result<Kind, Flaw>
    ensures { Shows result reader.new (entry_kind.read reader.old) }
{
    let left = reader.left();
    match Kind::of(reader.read_u8()?) {
        Some(kind) => Ok(kind),
        None => Err(Flaw::Illegal { left }),
    }
}
