//! File operations.

ghost use Rattle.std.specs.Prelude.{◌≡◌, ◌≤◌, true, length};
ghost use Rattle.record_fields.specs.Readers.{Gives};
ghost use Rattle.record_fields.specs.Writers.{Writes};
ghost use Rattle.record_codec.specs.Files.{file_kind, file_op, file_spelled};
ghost use Rattle.record_codec.specs.Writing.{file_typed};

use crate::numbers::{LengthField, OwnerField};
use crate::paths::{PathField, put_on_path, put_path};
use fsrm_model::FileOp;
use record_fields::{Field, FieldFault, Reader, put_u64};
use std::alloc::Global;

/// The kinds of file operations.
#[derive(Clone, Copy, Debug, PartialEq, Eq)]
pub enum FileKind {
    Mkdir,
    Create,
    Resize,
    Touch,
    Move,
    Remove,
}

impl FileKind {
    /// The kind that a byte means, if it is one of these.
    pub fn of(byte: u8) -> Option<FileKind>
        ensures { result ≡ file_kind byte }
    {
        match byte {
            1 => Some(FileKind::Mkdir),
            2 => Some(FileKind::Create),
            3 => Some(FileKind::Resize),
            4 => Some(FileKind::Touch),
            5 => Some(FileKind::Move),
            6 => Some(FileKind::Remove),
            _ => None,
        }
    }
}

/// Reads the values of a file operation of this kind.
#[tactic(auto, unfolding(record_fields::specs::Formats::known_at))]
pub fn read_op(alloc: Global, reader: &mut Reader<'_>, kind: FileKind) -> Result<FileOp, FieldFault>
    ensures { Gives result reader.new ((file_op kind).read reader.old) }
{
    // Each kind reads its path by itself: a jump by the kind that came after the loop over a path's bytes would be
    // guessed wrong more often.
    Ok(match kind {
        FileKind::Mkdir => FileOp::Mkdir {
            path: PathField::read(alloc, reader)?,
            owner: OwnerField::read(alloc, reader)?,
        },
        FileKind::Create => FileOp::Create {
            path: PathField::read(alloc, reader)?,
            length: LengthField::read(alloc, reader)?,
            owner: OwnerField::read(alloc, reader)?,
        },
        FileKind::Resize => FileOp::Resize {
            path: PathField::read(alloc, reader)?,
            length: LengthField::read(alloc, reader)?,
        },
        FileKind::Touch => FileOp::Touch {
            path: PathField::read(alloc, reader)?,
        },
        FileKind::Move => FileOp::Move {
            from: PathField::read(alloc, reader)?,
            to: PathField::read(alloc, reader)?,
        },
        FileKind::Remove => FileOp::Remove {
            path: PathField::read(alloc, reader)?,
        },
    })
}

/// Writes a file operation: its kind, and its values.
// Inlined with what it calls, since there are more entries of these than of all other commands.
#[inline(always)]
pub fn put_op(op: &FileOp, into: &mut [u8], at: usize) -> usize
    requires { at ≤ length into.old }
    ensures written { Writes into.old at into.new result (file_spelled op.now) }
    ensures typed { file_typed op.now ≡ true }
{
    match op {
        FileOp::Mkdir { path, owner } => {
            let at = put_on_path(1, path, into, at);
            put_u64(into, at, *owner as u64)
        }
        FileOp::Create {
            path,
            length,
            owner,
        } => {
            let at = put_on_path(2, path, into, at);
            let at = put_u64(into, at, *length);
            put_u64(into, at, *owner as u64)
        }
        FileOp::Resize { path, length } => {
            let at = put_on_path(3, path, into, at);
            put_u64(into, at, *length)
        }
        FileOp::Touch { path } => put_on_path(4, path, into, at),
        FileOp::Move { from, to } => {
            let at = put_on_path(5, from, into, at);
            put_path(to, into, at)
        }
        FileOp::Remove { path } => put_on_path(6, path, into, at),
    }
}
