//! Commands on templates of quotas.

ghost use Rattle.std.specs.Prelude.{◌≡◌, ◌≤◌, true, length};
ghost use Rattle.record_fields.specs.Readers.{Gives, Shows};
ghost use Rattle.record_fields.specs.Writers.{Writes};
ghost use Rattle.record_codec.specs.Templates.{template_kind, template_deed, template_spelled, template_typed, new_template, new_template_typed, template_change, template_change_typed, update as update_format};

use crate::fields::ObjectNameField;
use crate::notices::{put_new_thresholds, read_new_thresholds};
use crate::numbers::{LimitField, PercentField};
use crate::typed::{OwnText, Typed};
use fsrm_model::{NewTemplate, TemplateChange, TemplateDeed, Update};
use record_fields::{
    Field, FieldFault, Flaw, Reader, TruthField, put_optional, put_short_list, put_truth, put_u8,
    put_u64, read_optional, read_short_list,
};
use std::alloc::Global;

/// The kinds of commands on templates.
#[derive(Clone, Copy, Debug, PartialEq, Eq)]
pub enum TemplateKind {
    Add,
    Modify,
    Delete,
}

impl TemplateKind {
    /// The kind that a byte means, if it is one of these.
    pub fn of(byte: u8) -> Option<TemplateKind>
        ensures { result ≡ template_kind byte }
    {
        match byte {
            20 => Some(TemplateKind::Add),
            21 => Some(TemplateKind::Modify),
            22 => Some(TemplateKind::Delete),
            _ => None,
        }
    }
}

/// Reads the values of a command on templates of this kind.
#[tactic(auto, unfolding(record_fields::specs::Formats::known_at))]
pub fn read_template_deed(
    alloc: Global,
    reader: &mut Reader<'_>,
    kind: TemplateKind,
) -> Result<TemplateDeed, FieldFault>
    ensures { Gives result reader.new ((template_deed kind).read reader.old) }
{
    Ok(match kind {
        TemplateKind::Add => TemplateDeed::Add(read_new_template(alloc, reader)?),
        TemplateKind::Modify => TemplateDeed::Modify(read_template_change(alloc, reader)?),
        TemplateKind::Delete => TemplateDeed::Delete {
            name: ObjectNameField::read(alloc, reader)?,
        },
    })
}

#[tactic(auto, unfolding(record_fields::specs::Formats::known_at))]
fn read_new_template(alloc: Global, reader: &mut Reader<'_>) -> Result<NewTemplate, FieldFault>
    ensures { Gives result reader.new (new_template.read reader.old) }
{
    let name = ObjectNameField::read(alloc, reader)?;
    let limit = LimitField::read(alloc, reader)?;
    let enforce = reader.read_truth()?;
    let thresholds = read_new_thresholds(alloc, reader)?;
    Ok(NewTemplate {
        name,
        limit,
        enforce,
        thresholds,
    })
}

#[tactic(auto, unfolding(record_fields::specs::Formats::known_at))]
fn read_template_change(
    alloc: Global,
    reader: &mut Reader<'_>,
) -> Result<TemplateChange, FieldFault>
    ensures { Gives result reader.new (template_change.read reader.old) }
{
    let name = ObjectNameField::read(alloc, reader)?;
    let limit = read_optional::<LimitField>(alloc, reader, false)?;
    let enforce = read_optional::<TruthField>(alloc, reader, false)?;
    let removed = read_short_list::<PercentField>(alloc, reader, 0, u16::MAX)?;
    let thresholds = read_new_thresholds(alloc, reader)?;
    let update = read_update(reader)?;
    Ok(TemplateChange {
        name,
        limit,
        enforce,
        removed,
        thresholds,
        update,
    })
}

#[tactic(auto, unfolding(record_fields::specs::Formats::known_at))]
fn read_update(reader: &mut Reader<'_>) -> Result<Update, Flaw>
    ensures { Shows result reader.new (update_format.read reader.old) }
{
    let left = reader.left();
    match reader.read_u8()? {
        0 => Ok(Update::Keep),
        1 => Ok(Update::Matching),
        2 => Ok(Update::All),
        _ => Err(Flaw::Illegal { left }),
    }
}

/// Writes a command on templates, if its entry has a kind: the kind, and its values.
pub fn put_template_deed(deed: &TemplateDeed, into: &mut [u8], at: usize) -> usize
    requires { at ≤ length into.old }
    ensures written { Writes into.old at into.new result (template_spelled deed.now) }
    ensures typed { template_typed deed.now ≡ true }
{
    match deed {
        TemplateDeed::Add(new) => {
            let after = put_u8(into, at, 20);
            put_new_template(new, into, after)
        }
        TemplateDeed::Modify(change) => {
            let after = put_u8(into, at, 21);
            put_template_change(change, into, after)
        }
        TemplateDeed::Delete { name } => {
            let after = put_u8(into, at, 22);
            OwnText::put(name, into, after)
        }
        // No journal keeps another.
        _ => at,
    }
}

fn put_new_template(new: &NewTemplate, into: &mut [u8], at: usize) -> usize
    requires { at ≤ length into.old }
    ensures written { Writes into.old at into.new result (new_template.spell new.now) }
    ensures typed { new_template_typed new.now ≡ true }
{
    let name_end = OwnText::put(&new.name, into, at);
    let limit_end = put_u64(into, name_end, new.limit);
    let enforce_end = put_truth(into, limit_end, new.enforce);
    put_new_thresholds(&new.thresholds, into, enforce_end)
}

fn put_template_change(change: &TemplateChange, into: &mut [u8], at: usize) -> usize
    requires { at ≤ length into.old }
    ensures written { Writes into.old at into.new result (template_change.spell change.now) }
    ensures typed { template_change_typed change.now ≡ true }
{
    let name_end = OwnText::put(&change.name, into, at);
    let limit_end = put_optional::<LimitField>(&change.limit, into, name_end);
    let enforce_end = put_optional::<TruthField>(&change.enforce, into, limit_end);
    let removed_end = put_short_list::<PercentField>(&change.removed, into, enforce_end);
    let thresholds_end = put_new_thresholds(&change.thresholds, into, removed_end);
    put_update(change.update, into, thresholds_end)
}

fn put_update(update: Update, into: &mut [u8], at: usize) -> usize
    requires { at ≤ length into.old }
    ensures { Writes into.old at into.new result (update_format.spell update) }
{
    let code = match update {
        Update::Keep => 0,
        Update::Matching => 1,
        Update::All => 2,
    };
    put_u8(into, at, code)
}
