//! Commands on file groups.

ghost use Rattle.std.specs.Prelude.{◌≡◌, ◌≤◌, true, length};
ghost use Rattle.record_fields.specs.Readers.{Gives};
ghost use Rattle.record_fields.specs.Writers.{Writes};
ghost use Rattle.record_codec.specs.Filegroups.{filegroup_kind, filegroup_deed, filegroup_spelled, filegroup_typed, new_filegroup, new_filegroup_typed, filegroup_change, filegroup_change_typed};

use crate::fields::{MembersField, NonMembersField, ObjectNameField};
use crate::typed::{OwnText, OwnTexts, Typed, put_all, put_some};
use fsrm_model::{FilegroupChange, FilegroupDeed, NewFilegroup};
use record_fields::{Field, FieldFault, Reader, put_u8, read_optional};
use std::alloc::Global;

/// The kinds of commands on file groups.
#[derive(Clone, Copy, Debug, PartialEq, Eq)]
pub enum FilegroupKind {
    Add,
    Modify,
    Delete,
}

impl FilegroupKind {
    /// The kind that a byte means, if it is one of these.
    pub fn of(byte: u8) -> Option<FilegroupKind>
        ensures { result ≡ filegroup_kind byte }
    {
        match byte {
            40 => Some(FilegroupKind::Add),
            41 => Some(FilegroupKind::Modify),
            42 => Some(FilegroupKind::Delete),
            _ => None,
        }
    }
}

/// Reads the values of a command on file groups of this kind.
#[tactic(auto, unfolding(record_fields::specs::Formats::known_at))]
pub fn read_filegroup_deed(
    alloc: Global,
    reader: &mut Reader<'_>,
    kind: FilegroupKind,
) -> Result<FilegroupDeed, FieldFault>
    ensures { Gives result reader.new ((filegroup_deed kind).read reader.old) }
{
    Ok(match kind {
        FilegroupKind::Add => FilegroupDeed::Add(read_new_filegroup(alloc, reader)?),
        FilegroupKind::Modify => FilegroupDeed::Modify(read_filegroup_change(alloc, reader)?),
        FilegroupKind::Delete => FilegroupDeed::Delete {
            name: ObjectNameField::read(alloc, reader)?,
        },
    })
}

#[tactic(auto, unfolding(record_fields::specs::Formats::known_at))]
fn read_new_filegroup(alloc: Global, reader: &mut Reader<'_>) -> Result<NewFilegroup, FieldFault>
    ensures { Gives result reader.new (new_filegroup.read reader.old) }
{
    let name = ObjectNameField::read(alloc, reader)?;
    let members = MembersField::read(alloc, reader)?;
    let non_members = NonMembersField::read(alloc, reader)?;
    Ok(NewFilegroup {
        name,
        members,
        non_members,
    })
}

#[tactic(auto, unfolding(record_fields::specs::Formats::known_at))]
fn read_filegroup_change(
    alloc: Global,
    reader: &mut Reader<'_>,
) -> Result<FilegroupChange, FieldFault>
    ensures { Gives result reader.new (filegroup_change.read reader.old) }
{
    let name = ObjectNameField::read(alloc, reader)?;
    let members = read_optional::<MembersField>(alloc, reader, false)?;
    let non_members = read_optional::<NonMembersField>(alloc, reader, false)?;
    Ok(FilegroupChange {
        name,
        members,
        non_members,
    })
}

/// Writes a command on file groups, if its entry has a kind: the kind, and its values.
pub fn put_filegroup_deed(deed: &FilegroupDeed, into: &mut [u8], at: usize) -> usize
    requires { at ≤ length into.old }
    ensures written { Writes into.old at into.new result (filegroup_spelled deed.now) }
    ensures typed { filegroup_typed deed.now ≡ true }
{
    match deed {
        FilegroupDeed::Add(new) => {
            let after = put_u8(into, at, 40);
            put_new_filegroup(new, into, after)
        }
        FilegroupDeed::Modify(change) => {
            let after = put_u8(into, at, 41);
            put_filegroup_change(change, into, after)
        }
        FilegroupDeed::Delete { name } => {
            let after = put_u8(into, at, 42);
            OwnText::put(name, into, after)
        }
        // No journal keeps another.
        _ => at,
    }
}

fn put_new_filegroup(new: &NewFilegroup, into: &mut [u8], at: usize) -> usize
    requires { at ≤ length into.old }
    ensures written { Writes into.old at into.new result (new_filegroup.spell new.now) }
    ensures typed { new_filegroup_typed new.now ≡ true }
{
    let name_end = OwnText::put(&new.name, into, at);
    let members_end = put_all::<OwnText>(&new.members, into, name_end);
    put_all::<OwnText>(&new.non_members, into, members_end)
}

fn put_filegroup_change(change: &FilegroupChange, into: &mut [u8], at: usize) -> usize
    requires { at ≤ length into.old }
    ensures written { Writes into.old at into.new result (filegroup_change.spell change.now) }
    ensures typed { filegroup_change_typed change.now ≡ true }
{
    let name_end = OwnText::put(&change.name, into, at);
    let members_end = put_some::<OwnTexts>(&change.members, into, name_end);
    put_some::<OwnTexts>(&change.non_members, into, members_end)
}
