//! Actions and thresholds.

ghost use Rattle.image_codec.specs.Parts.{action_meets, threshold_meets};
ghost use Rattle.image_codec.specs.Rows.{action as action_format, threshold as threshold_format};

use crate::choices::{put_minutes, read_minutes};
use crate::parts::{Part, put_maybe, put_rows};
use fsrm_base::Text;
use fsrm_model::{Action, Threshold};
use record_codec::ActionKindField;
use record_fields::{
    Field, FieldFault, Reader, TextField, U16Field, U64Field, read_long_list, read_optional,
};
use std::alloc::Global;

/// An action, with the moment of its last run.
pub struct ActionField;

impl Field for ActionField {
    type Value = Action;

    ghost format = { action_format };

    #[tactic(auto, unfolding(record_fields::specs::Formats::known_at))]
    fn read(alloc: Global, reader: &mut Reader<'_>) -> Result<Action, FieldFault> {
        let kind = ActionKindField::read(alloc, reader)?;
        let minutes = read_minutes(reader)?;
        let text = TextField::read(alloc, reader)?;
        let last_run = read_optional::<U64Field>(alloc, reader, false)?;
        Ok(Action {
            kind,
            minutes,
            text,
            last_run,
        })
    }

    fn write(value: &Action, into: &mut [u8], at: usize) -> usize {
        ActionField::put(value, into, at)
    }
}

impl Part for ActionField {
    type Value = Action;

    ghost format = { action_format };

    ghost meets = { action_meets };

    fn put(value: &Action, into: &mut [u8], at: usize) -> usize {
        let kind_end = ActionKindField::put(&value.kind, into, at);
        let minutes_end = put_minutes(&value.minutes, into, kind_end);
        let text_end = TextField::put(&value.text, into, minutes_end);
        put_maybe::<U64Field>(&value.last_run, into, text_end)
    }
}

/// A percentage, and its actions.
pub struct ThresholdField;

impl Field for ThresholdField {
    type Value = Threshold;

    ghost format = { threshold_format };

    #[tactic(auto, unfolding(record_fields::specs::Formats::known_at))]
    fn read(alloc: Global, reader: &mut Reader<'_>) -> Result<Threshold, FieldFault> {
        let percent = reader.read_u16()?;
        let actions = read_long_list::<ActionField>(alloc, reader)?;
        Ok(Threshold { percent, actions })
    }

    fn write(value: &Threshold, into: &mut [u8], at: usize) -> usize {
        ThresholdField::put(value, into, at)
    }
}

impl Part for ThresholdField {
    type Value = Threshold;

    ghost format = { threshold_format };

    ghost meets = { threshold_meets };

    fn put(value: &Threshold, into: &mut [u8], at: usize) -> usize {
        let percent_end = U16Field::put(&value.percent, into, at);
        put_rows::<ActionField>(&value.actions, into, percent_end)
    }
}
