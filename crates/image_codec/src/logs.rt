//! Entries of the logs.

ghost use Rattle.std.specs.Prelude.{◌≡◌, ◌≤◌, true, length};
ghost use Rattle.record_fields.specs.Writers.{Writes};
ghost use Rattle.image_codec.specs.Nodes.{audit_lent};
ghost use Rattle.image_codec.specs.Parts.{is_short};
ghost use Rattle.image_codec.specs.Rows.{act as act_format, audit as audit_format};

use crate::parts::{Part, put_name};
use fsrm_model::{ActRow, AuditRow};
use record_codec::ActionKindField;
use record_fields::{
    Field, FieldFault, Reader, TextField, TruthField, U16Field, U32Field, U64Field,
};
use std::alloc::Global;

/// An entry of the log of actions.
pub struct ActField;

impl Field for ActField {
    type Value = ActRow;

    ghost format = { act_format };

    #[tactic(auto, unfolding(record_fields::specs::Formats::known_at))]
    fn read(alloc: Global, reader: &mut Reader<'_>) -> Result<ActRow, FieldFault> {
        let moment = reader.read_u64()?;
        let folder = reader.read_u32()?;
        let percent = reader.read_u16()?;
        let kind = ActionKindField::read(alloc, reader)?;
        Ok(ActRow {
            moment,
            folder,
            percent,
            kind,
        })
    }

    fn write(value: &ActRow, into: &mut [u8], at: usize) -> usize {
        put_act(value, into, at)
    }
}

pub fn put_act(entry: &ActRow, into: &mut [u8], at: usize) -> usize
    requires { at ≤ length into.old }
    ensures written { Writes into.old at into.new result (act_format.spell entry.now) }
    ensures legal { act_format.legal entry.now ≡ true }
{
    let moment_end = U64Field::put(&entry.moment, into, at);
    let folder_end = U32Field::put(&entry.folder, into, moment_end);
    let percent_end = U16Field::put(&entry.percent, into, folder_end);
    ActionKindField::put(&entry.kind, into, percent_end)
}

/// An entry of the log of audits.
pub struct AuditField;

impl Field for AuditField {
    type Value = AuditRow;

    ghost format = { audit_format };

    #[tactic(auto, unfolding(record_fields::specs::Formats::known_at))]
    fn read(alloc: Global, reader: &mut Reader<'_>) -> Result<AuditRow, FieldFault> {
        let moment = reader.read_u64()?;
        let active = reader.read_truth()?;
        let owner = reader.read_u32()?;
        let folder = reader.read_u32()?;
        let screen = reader.read_u32()?;
        let name = TextField::read(alloc, reader)?;
        Ok(AuditRow {
            moment,
            active,
            owner,
            folder,
            screen,
            name,
        })
    }

    fn write(value: &AuditRow, into: &mut [u8], at: usize) -> usize {
        put_audit(&lend_audit(value), into, at)
    }
}

/// An entry of the log of audits whose name is lent.
#[derive(Clone, Copy)]
pub struct AuditRef<'a> {
    pub moment: u64,
    pub active: bool,
    pub owner: u32,
    pub folder: u32,
    pub screen: u32,
    pub name: &'a str,
}

fn lend_audit(entry: &AuditRow) -> AuditRef<'_>
    ensures { audit_lent result ≡ entry.now }
{
    AuditRef {
        moment: entry.moment,
        active: entry.active,
        owner: entry.owner,
        folder: entry.folder,
        screen: entry.screen,
        name: entry.name.as_str(),
    }
}

pub fn put_audit(entry: &AuditRef<'_>, into: &mut [u8], at: usize) -> usize
    requires { at ≤ length into.old }
    ensures written { Writes into.old at into.new result (audit_format.spell (audit_lent entry.now)) }
    ensures legal { is_short (audit_lent entry.now).name ≡ true → audit_format.legal (audit_lent entry.now) ≡ true }
{
    let moment_end = U64Field::put(&entry.moment, into, at);
    let active_end = TruthField::put(&entry.active, into, moment_end);
    let owner_end = U32Field::put(&entry.owner, into, active_end);
    let folder_end = U32Field::put(&entry.folder, into, owner_end);
    let screen_end = U32Field::put(&entry.screen, into, folder_end);
    put_name(entry.name, into, screen_end)
}
