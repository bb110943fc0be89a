//! Commands on exceptions from screens.

ghost use Rattle.std.specs.Prelude.{◌≡◌, ◌≤◌, true, length};
ghost use Rattle.record_fields.specs.Readers.{Gives};
ghost use Rattle.record_fields.specs.Writers.{Writes};
ghost use Rattle.record_codec.specs.Exceptions.{exception_kind, exception_deed, exception_spelled, exception_typed, new_exception, new_exception_typed};

use crate::fields::ObjectNameField;
use crate::paths::{PathField, put_on_path, put_path};
use crate::typed::{OwnText, put_all};
use fsrm_model::{ExceptionDeed, NewException};
use record_fields::{Field, FieldFault, Reader, put_u8, read_short_list};
use std::alloc::Global;

/// The kinds of commands on exceptions from screens.
#[derive(Clone, Copy, Debug, PartialEq, Eq)]
pub enum ExceptionKind {
    Add,
    Delete,
}

impl ExceptionKind {
    /// The kind that a byte means, if it is one of these.
    pub fn of(byte: u8) -> Option<ExceptionKind>
        ensures { result ≡ exception_kind byte }
    {
        match byte {
            60 => Some(ExceptionKind::Add),
            61 => Some(ExceptionKind::Delete),
            _ => None,
        }
    }
}

/// Reads the values of a command on exceptions of this kind.
#[tactic(auto, unfolding(record_fields::specs::Formats::known_at))]
pub fn read_exception_deed(
    alloc: Global,
    reader: &mut Reader<'_>,
    kind: ExceptionKind,
) -> Result<ExceptionDeed, FieldFault>
    ensures { Gives result reader.new ((exception_deed kind).read reader.old) }
{
    Ok(match kind {
        ExceptionKind::Add => ExceptionDeed::Add(read_new_exception(alloc, reader)?),
        ExceptionKind::Delete => ExceptionDeed::Delete {
            path: PathField::read(alloc, reader)?,
        },
    })
}

#[tactic(auto, unfolding(record_fields::specs::Formats::known_at))]
fn read_new_exception(alloc: Global, reader: &mut Reader<'_>) -> Result<NewException, FieldFault>
    ensures { Gives result reader.new (new_exception.read reader.old) }
{
    let path = PathField::read(alloc, reader)?;
    let groups = read_short_list::<ObjectNameField>(alloc, reader, 1, u16::MAX)?;
    Ok(NewException { path, groups })
}

/// Writes a command on exceptions, if its entry has a kind: the kind, and its values.
pub fn put_exception_deed(deed: &ExceptionDeed, into: &mut [u8], at: usize) -> usize
    requires { at ≤ length into.old }
    ensures written { Writes into.old at into.new result (exception_spelled deed.now) }
    ensures typed { exception_typed deed.now ≡ true }
{
    match deed {
        ExceptionDeed::Add(new) => {
            let after = put_u8(into, at, 60);
            put_new_exception(new, into, after)
        }
        ExceptionDeed::Delete { path } => put_on_path(61, path, into, at),
        // No journal keeps another.
        _ => at,
    }
}

fn put_new_exception(new: &NewException, into: &mut [u8], at: usize) -> usize
    requires { at ≤ length into.old }
    ensures written { Writes into.old at into.new result (new_exception.spell new.now) }
    ensures typed { new_exception_typed new.now ≡ true }
{
    let path_end = put_path(&new.path, into, at);
    put_all::<OwnText>(&new.groups, into, path_end)
}
