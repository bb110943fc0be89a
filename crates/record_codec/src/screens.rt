//! Commands on screens.

ghost use Rattle.std.specs.Prelude.{◌≡◌, ◌≤◌, true, length};
ghost use Rattle.record_fields.specs.Readers.{Gives};
ghost use Rattle.record_fields.specs.Writers.{Writes};
ghost use Rattle.record_codec.specs.Screens.{screen_kind, screen_deed, screen_spelled, screen_typed, new_screen, new_screen_typed, screen_change, screen_change_typed};

use crate::fields::ObjectNameField;
use crate::notices::ActionField;
use crate::paths::{PathField, put_on_path, put_path};
use crate::typed::{OwnText, put_all};
use fsrm_model::{NewScreen, ScreenChange, ScreenDeed};
use record_fields::{
    Field, FieldFault, Reader, TruthField, put_optional, put_truth, put_u8, read_optional,
    read_short_list,
};
use std::alloc::Global;

/// The kinds of commands on screens.
#[derive(Clone, Copy, Debug, PartialEq, Eq)]
pub enum ScreenKind {
    Add,
    Modify,
    Delete,
}

impl ScreenKind {
    /// The kind that a byte means, if it is one of these.
    pub fn of(byte: u8) -> Option<ScreenKind>
        ensures { result ≡ screen_kind byte }
    {
        match byte {
            50 => Some(ScreenKind::Add),
            51 => Some(ScreenKind::Modify),
            52 => Some(ScreenKind::Delete),
            _ => None,
        }
    }
}

/// Reads the values of a command on screens of this kind.
#[tactic(auto, unfolding(record_fields::specs::Formats::known_at))]
pub fn read_screen_deed(
    alloc: Global,
    reader: &mut Reader<'_>,
    kind: ScreenKind,
) -> Result<ScreenDeed, FieldFault>
    ensures { Gives result reader.new ((screen_deed kind).read reader.old) }
{
    Ok(match kind {
        ScreenKind::Add => ScreenDeed::Add(read_new_screen(alloc, reader)?),
        ScreenKind::Modify => ScreenDeed::Modify(read_screen_change(alloc, reader)?),
        ScreenKind::Delete => ScreenDeed::Delete {
            path: PathField::read(alloc, reader)?,
        },
    })
}

#[tactic(auto, unfolding(record_fields::specs::Formats::known_at))]
fn read_new_screen(alloc: Global, reader: &mut Reader<'_>) -> Result<NewScreen, FieldFault>
    ensures { Gives result reader.new (new_screen.read reader.old) }
{
    let path = PathField::read(alloc, reader)?;
    let active = reader.read_truth()?;
    let groups = read_short_list::<ObjectNameField>(alloc, reader, 1, u16::MAX)?;
    let actions = read_short_list::<ActionField>(alloc, reader, 0, u16::MAX)?;
    Ok(NewScreen {
        path,
        active,
        groups,
        actions,
    })
}

#[tactic(auto, unfolding(record_fields::specs::Formats::known_at))]
fn read_screen_change(alloc: Global, reader: &mut Reader<'_>) -> Result<ScreenChange, FieldFault>
    ensures { Gives result reader.new (screen_change.read reader.old) }
{
    let path = PathField::read(alloc, reader)?;
    let active = read_optional::<TruthField>(alloc, reader, false)?;
    let removed = read_short_list::<ObjectNameField>(alloc, reader, 0, u16::MAX)?;
    let groups = read_short_list::<ObjectNameField>(alloc, reader, 0, u16::MAX)?;
    Ok(ScreenChange {
        path,
        active,
        removed,
        groups,
    })
}

/// Writes a command on screens, if its entry has a kind: the kind, and its values.
pub fn put_screen_deed(deed: &ScreenDeed, into: &mut [u8], at: usize) -> usize
    requires { at ≤ length into.old }
    ensures written { Writes into.old at into.new result (screen_spelled deed.now) }
    ensures typed { screen_typed deed.now ≡ true }
{
    match deed {
        ScreenDeed::Add(new) => {
            let after = put_u8(into, at, 50);
            put_new_screen(new, into, after)
        }
        ScreenDeed::Modify(change) => {
            let after = put_u8(into, at, 51);
            put_screen_change(change, into, after)
        }
        ScreenDeed::Delete { path } => put_on_path(52, path, into, at),
        // No journal keeps another.
        _ => at,
    }
}

fn put_new_screen(new: &NewScreen, into: &mut [u8], at: usize) -> usize
    requires { at ≤ length into.old }
    ensures written { Writes into.old at into.new result (new_screen.spell new.now) }
    ensures typed { new_screen_typed new.now ≡ true }
{
    let path_end = put_path(&new.path, into, at);
    let active_end = put_truth(into, path_end, new.active);
    let groups_end = put_all::<OwnText>(&new.groups, into, active_end);
    put_all::<ActionField>(&new.actions, into, groups_end)
}

fn put_screen_change(change: &ScreenChange, into: &mut [u8], at: usize) -> usize
    requires { at ≤ length into.old }
    ensures written { Writes into.old at into.new result (screen_change.spell change.now) }
    ensures typed { screen_change_typed change.now ≡ true }
{
    let path_end = put_path(&change.path, into, at);
    let active_end = put_optional::<TruthField>(&change.active, into, path_end);
    let removed_end = put_all::<OwnText>(&change.removed, into, active_end);
    put_all::<OwnText>(&change.groups, into, removed_end)
}
