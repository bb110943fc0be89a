//! Rows of objects: quotas, templates, auto-apply quotas, file groups, screens and exceptions.

ghost use Rattle.std.specs.Prelude.{◌≡◌, ◌≤◌, true, length};
ghost use Rattle.fsrm_model.specs.store.Lasting.{flagged_quota};
ghost use Rattle.record_fields.specs.Writers.{Writes};
ghost use Rattle.image_codec.specs.Parts.{quota_meets, template_meets, auto_meets, group_meets, screen_meets, except_meets};
ghost use Rattle.image_codec.specs.Rows.{quota as quota_format, template as template_format, auto as auto_format, group as group_format, screen as screen_format, except as except_format};

use crate::actions::{ActionField, ThresholdField};
use crate::choices::{put_state, read_state};
use crate::parts::{Part, put_maybe, put_rows};
use fsrm_model::{AutoRow, ExceptRow, GroupRow, QuotaRow, ScreenRow, TemplateRow};
use record_fields::{
    Field, FieldFault, Reader, TextField, TruthField, U32Field, U64Field, read_long_list,
    read_optional,
};
use std::alloc::Global;

/// A quota.
pub struct QuotaField;

impl Field for QuotaField {
    type Value = QuotaRow;

    ghost format = { quota_format };

    #[tactic(auto, unfolding(record_fields::specs::Formats::known_at))]
    fn read(alloc: Global, reader: &mut Reader<'_>) -> Result<QuotaRow, FieldFault> {
        let folder = reader.read_u32()?;
        let limit = reader.read_u64()?;
        let enforce = reader.read_truth()?;
        let state = read_state(reader)?;
        let thresholds = read_long_list::<ThresholdField>(alloc, reader)?;
        let template = read_optional::<U32Field>(alloc, reader, false)?;
        let peak = reader.read_u64()?;
        let peak_at = reader.read_u64()?;
        Ok(QuotaRow {
            folder,
            limit,
            enforce,
            state,
            thresholds,
            template,
            peak,
            peak_at,
        })
    }

    fn write(value: &QuotaRow, into: &mut [u8], at: usize) -> usize {
        put_quota(value, into, at)
    }
}

/// A quota that is rebuilt is written as incomplete.
pub fn put_quota(value: &QuotaRow, into: &mut [u8], at: usize) -> usize
    requires { at ≤ length into.old }
    ensures written { Writes into.old at into.new result (quota_format.spell (flagged_quota value.now)) }
    ensures legal { quota_meets value.now ≡ true → quota_format.legal (flagged_quota value.now) ≡ true }
{
    let folder_end = U32Field::put(&value.folder, into, at);
    let limit_end = U64Field::put(&value.limit, into, folder_end);
    let enforce_end = TruthField::put(&value.enforce, into, limit_end);
    let state_end = put_state(value.state, into, enforce_end);
    let thresholds_end = put_rows::<ThresholdField>(&value.thresholds, into, state_end);
    let template_end = put_maybe::<U32Field>(&value.template, into, thresholds_end);
    let peak_end = U64Field::put(&value.peak, into, template_end);
    U64Field::put(&value.peak_at, into, peak_end)
}

/// A quota template.
pub struct TemplateField;

impl Field for TemplateField {
    type Value = TemplateRow;

    ghost format = { template_format };

    #[tactic(auto, unfolding(record_fields::specs::Formats::known_at))]
    fn read(alloc: Global, reader: &mut Reader<'_>) -> Result<TemplateRow, FieldFault> {
        let number = reader.read_u32()?;
        let name = TextField::read(alloc, reader)?;
        let limit = reader.read_u64()?;
        let enforce = reader.read_truth()?;
        let thresholds = read_long_list::<ThresholdField>(alloc, reader)?;
        Ok(TemplateRow {
            number,
            name,
            limit,
            enforce,
            thresholds,
        })
    }

    fn write(value: &TemplateRow, into: &mut [u8], at: usize) -> usize {
        put_template(value, into, at)
    }
}

pub fn put_template(value: &TemplateRow, into: &mut [u8], at: usize) -> usize
    requires { at ≤ length into.old }
    ensures written { Writes into.old at into.new result (template_format.spell value.now) }
    ensures legal { template_meets value.now ≡ true → template_format.legal value.now ≡ true }
{
    let number_end = U32Field::put(&value.number, into, at);
    let name_end = TextField::put(&value.name, into, number_end);
    let limit_end = U64Field::put(&value.limit, into, name_end);
    let enforce_end = TruthField::put(&value.enforce, into, limit_end);
    put_rows::<ThresholdField>(&value.thresholds, into, enforce_end)
}

/// An auto-apply quota.
pub struct AutoField;

impl Field for AutoField {
    type Value = AutoRow;

    ghost format = { auto_format };

    #[tactic(auto, unfolding(record_fields::specs::Formats::known_at))]
    fn read(alloc: Global, reader: &mut Reader<'_>) -> Result<AutoRow, FieldFault> {
        let folder = reader.read_u32()?;
        let template = reader.read_u32()?;
        let excluded = read_long_list::<TextField>(alloc, reader)?;
        Ok(AutoRow {
            folder,
            template,
            excluded,
        })
    }

    fn write(value: &AutoRow, into: &mut [u8], at: usize) -> usize {
        put_auto(value, into, at)
    }
}

pub fn put_auto(value: &AutoRow, into: &mut [u8], at: usize) -> usize
    requires { at ≤ length into.old }
    ensures written { Writes into.old at into.new result (auto_format.spell value.now) }
    ensures legal { auto_meets value.now ≡ true → auto_format.legal value.now ≡ true }
{
    let folder_end = U32Field::put(&value.folder, into, at);
    let template_end = U32Field::put(&value.template, into, folder_end);
    put_rows::<TextField>(&value.excluded, into, template_end)
}

/// A file group.
pub struct GroupField;

impl Field for GroupField {
    type Value = GroupRow;

    ghost format = { group_format };

    #[tactic(auto, unfolding(record_fields::specs::Formats::known_at))]
    fn read(alloc: Global, reader: &mut Reader<'_>) -> Result<GroupRow, FieldFault> {
        let number = reader.read_u32()?;
        let name = TextField::read(alloc, reader)?;
        let members = read_long_list::<TextField>(alloc, reader)?;
        let non_members = read_long_list::<TextField>(alloc, reader)?;
        Ok(GroupRow {
            number,
            name,
            members,
            non_members,
        })
    }

    fn write(value: &GroupRow, into: &mut [u8], at: usize) -> usize {
        put_group(value, into, at)
    }
}

pub fn put_group(value: &GroupRow, into: &mut [u8], at: usize) -> usize
    requires { at ≤ length into.old }
    ensures written { Writes into.old at into.new result (group_format.spell value.now) }
    ensures legal { group_meets value.now ≡ true → group_format.legal value.now ≡ true }
{
    let number_end = U32Field::put(&value.number, into, at);
    let name_end = TextField::put(&value.name, into, number_end);
    let members_end = put_rows::<TextField>(&value.members, into, name_end);
    put_rows::<TextField>(&value.non_members, into, members_end)
}

/// A file screen.
pub struct ScreenField;

impl Field for ScreenField {
    type Value = ScreenRow;

    ghost format = { screen_format };

    #[tactic(auto, unfolding(record_fields::specs::Formats::known_at))]
    fn read(alloc: Global, reader: &mut Reader<'_>) -> Result<ScreenRow, FieldFault> {
        let folder = reader.read_u32()?;
        let active = reader.read_truth()?;
        let groups = read_long_list::<U32Field>(alloc, reader)?;
        let actions = read_long_list::<ActionField>(alloc, reader)?;
        Ok(ScreenRow {
            folder,
            active,
            groups,
            actions,
        })
    }

    fn write(value: &ScreenRow, into: &mut [u8], at: usize) -> usize {
        put_screen(value, into, at)
    }
}

pub fn put_screen(value: &ScreenRow, into: &mut [u8], at: usize) -> usize
    requires { at ≤ length into.old }
    ensures written { Writes into.old at into.new result (screen_format.spell value.now) }
    ensures legal { screen_meets value.now ≡ true → screen_format.legal value.now ≡ true }
{
    let folder_end = U32Field::put(&value.folder, into, at);
    let active_end = TruthField::put(&value.active, into, folder_end);
    let groups_end = put_rows::<U32Field>(&value.groups, into, active_end);
    put_rows::<ActionField>(&value.actions, into, groups_end)
}

/// A file screen exception.
pub struct ExceptField;

impl Field for ExceptField {
    type Value = ExceptRow;

    ghost format = { except_format };

    #[tactic(auto, unfolding(record_fields::specs::Formats::known_at))]
    fn read(alloc: Global, reader: &mut Reader<'_>) -> Result<ExceptRow, FieldFault> {
        let folder = reader.read_u32()?;
        let groups = read_long_list::<U32Field>(alloc, reader)?;
        Ok(ExceptRow { folder, groups })
    }

    fn write(value: &ExceptRow, into: &mut [u8], at: usize) -> usize {
        put_except(value, into, at)
    }
}

pub fn put_except(value: &ExceptRow, into: &mut [u8], at: usize) -> usize
    requires { at ≤ length into.old }
    ensures written { Writes into.old at into.new result (except_format.spell value.now) }
    ensures legal { except_meets value.now ≡ true → except_format.legal value.now ≡ true }
{
    let folder_end = U32Field::put(&value.folder, into, at);
    put_rows::<U32Field>(&value.groups, into, folder_end)
}
