//! Thresholds, and actions, as commands give them.

ghost use Rattle.std.specs.Prelude.{◌≡◌, ◌≤◌, true, length};
ghost use Rattle.record_fields.specs.Readers.{Gives, Shows};
ghost use Rattle.record_fields.specs.Writers.{Writes};
ghost use Rattle.record_codec.specs.Fields.{action_kind, minutes as minutes_format, action as action_format, notice as notice_format};
ghost use Rattle.record_codec.specs.Notices.{new_thresholds};
ghost use Rattle.record_codec.specs.Typed.{all_typed, action_typed, notice_typed};

use crate::fields::ActionTextField;
use crate::numbers::PercentField;
use crate::typed::{OwnText, Typed, put_all};
use fsrm_model::limits::MOST_MINUTES;
use fsrm_model::{Action, ActionKind, Added, NewThresholds};
use record_fields::{
    Field, FieldFault, Flaw, Reader, put_short_list, put_u8, put_u64, read_short_list,
};
use std::alloc::Global;

/// An action that never ran.
pub struct ActionField;

impl Field for ActionField {
    type Value = Action;

    ghost format = { action_format };

    #[tactic(auto, unfolding(record_fields::specs::Formats::known_at))]
    fn read(alloc: Global, reader: &mut Reader<'_>) -> Result<Action, FieldFault> {
        let kind = ActionKindField::read(alloc, reader)?;
        let minutes = read_minutes(reader)?;
        let text = ActionTextField::read(alloc, reader)?;
        Ok(Action {
            kind,
            minutes,
            text,
            last_run: None,
        })
    }

    fn write(value: &Action, into: &mut [u8], at: usize) -> usize {
        ActionField::put(value, into, at)
    }
}

impl Typed for ActionField {
    type Value = Action;

    ghost spell = { action_format.spell };

    ghost typed = { action_typed };

    fn put(value: &Action, into: &mut [u8], at: usize) -> usize {
        let kind_end = ActionKindField::write(&value.kind, into, at);
        let minutes_end = put_minutes(&value.minutes, into, kind_end);
        OwnText::put(&value.text, into, minutes_end)
    }
}

/// An action that a threshold gets.
pub struct NoticeField;

impl Field for NoticeField {
    type Value = Added;

    ghost format = { notice_format };

    #[tactic(auto, unfolding(record_fields::specs::Formats::known_at))]
    fn read(alloc: Global, reader: &mut Reader<'_>) -> Result<Added, FieldFault> {
        let percent = PercentField::read(alloc, reader)?;
        let action = ActionField::read(alloc, reader)?;
        Ok(Added { percent, action })
    }

    fn write(value: &Added, into: &mut [u8], at: usize) -> usize {
        NoticeField::put(value, into, at)
    }
}

impl Typed for NoticeField {
    type Value = Added;

    ghost spell = { notice_format.spell };

    ghost typed = { notice_typed };

    fn put(value: &Added, into: &mut [u8], at: usize) -> usize {
        let percent_end = PercentField::write(&value.percent, into, at);
        ActionField::put(&value.action, into, percent_end)
    }
}

/// Reads the thresholds that a quota or a template gets.
#[tactic(auto, unfolding(record_fields::specs::Formats::known_at))]
pub fn read_new_thresholds(
    alloc: Global,
    reader: &mut Reader<'_>,
) -> Result<NewThresholds, FieldFault>
    ensures { Gives result reader.new (new_thresholds.read reader.old) }
{
    let percents = read_short_list::<PercentField>(alloc, reader, 0, u16::MAX)?;
    let notices = read_short_list::<NoticeField>(alloc, reader, 0, u16::MAX)?;
    Ok(NewThresholds { percents, notices })
}

/// Writes the thresholds that a quota or a template gets.
pub fn put_new_thresholds(new: &NewThresholds, into: &mut [u8], at: usize) -> usize
    requires { at ≤ length into.old }
    ensures written { Writes into.old at into.new result (new_thresholds.spell new.now) }
    ensures typed { all_typed notice_typed new.now.notices ≡ true }
{
    let after = put_short_list::<PercentField>(&new.percents, into, at);
    put_all::<NoticeField>(&new.notices, into, after)
}

/// What an action does.
pub struct ActionKindField;

impl Field for ActionKindField {
    type Value = ActionKind;

    ghost format = { action_kind };

    #[tactic(auto, unfolding(record_fields::specs::Formats::known_at))]
    fn read(_alloc: Global, reader: &mut Reader<'_>) -> Result<ActionKind, FieldFault> {
        let left = reader.left();
        match reader.read_u8()? {
            1 => Ok(ActionKind::Event),
            2 => Ok(ActionKind::Mail),
            3 => Ok(ActionKind::Program),
            4 => Ok(ActionKind::Report),
            _ => Err(FieldFault::Flawed(Flaw::Illegal { left })),
        }
    }

    fn write(value: &ActionKind, into: &mut [u8], at: usize) -> usize {
        let code = match *value {
            ActionKind::Event => 1,
            ActionKind::Mail => 2,
            ActionKind::Program => 3,
            ActionKind::Report => 4,
        };
        put_u8(into, at, code)
    }
}

// -1 minute.
const NO_MINUTES: u64 = 18_446_744_073_709_551_615;

#[tactic(auto, unfolding(record_fields::specs::Formats::known_at))]
fn read_minutes(reader: &mut Reader<'_>) -> Result<i32, Flaw>
    ensures { Shows result reader.new (minutes_format.read reader.old) }
{
    let left = reader.left();
    let number = reader.read_u64()?;
    if number <= MOST_MINUTES as u64 {
        return Ok(number as i32);
    }
    if number == NO_MINUTES {
        return Ok(-1);
    }
    Err(Flaw::Illegal { left })
}

fn put_minutes(minutes: &i32, into: &mut [u8], at: usize) -> usize
    requires { at ≤ length into.old }
    ensures { Writes into.old at into.new result (minutes_format.spell minutes.now) }
{
    let code = if *minutes < 0 {
        NO_MINUTES
    } else {
        *minutes as u64
    };
    put_u64(into, at, code)
}
