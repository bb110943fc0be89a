//! Commands on quotas.

ghost use Rattle.std.specs.Prelude.{◌≡◌, ◌≤◌, true, length};
ghost use Rattle.record_fields.specs.Readers.{Gives};
ghost use Rattle.record_fields.specs.Writers.{Writes};
ghost use Rattle.record_codec.specs.Quotas.{quota_kind, quota_deed, quota_spelled, quota_typed, new_quota, new_quota_typed, quota_change, quota_change_typed};

use crate::fields::ObjectNameField;
use crate::notices::{put_new_thresholds, read_new_thresholds};
use crate::numbers::{LimitField, PercentField};
use crate::paths::{PathField, put_on_path, put_path};
use crate::typed::{OwnText, put_some};
use fsrm_model::{NewQuota, QuotaChange, QuotaDeed};
use record_fields::{
    Field, FieldFault, Reader, TruthField, put_optional, put_short_list, put_truth, put_u8,
    read_optional, read_short_list,
};
use std::alloc::Global;

/// The kinds of commands on quotas.
#[derive(Clone, Copy, Debug, PartialEq, Eq)]
pub enum QuotaKind {
    Add,
    Modify,
    Delete,
    Scan,
    Resetpeak,
}

impl QuotaKind {
    /// The kind that a byte means, if it is one of these.
    pub fn of(byte: u8) -> Option<QuotaKind>
        ensures { result ≡ quota_kind byte }
    {
        match byte {
            10 => Some(QuotaKind::Add),
            11 => Some(QuotaKind::Modify),
            12 => Some(QuotaKind::Delete),
            13 => Some(QuotaKind::Scan),
            14 => Some(QuotaKind::Resetpeak),
            _ => None,
        }
    }
}

/// Reads the values of a command on quotas of this kind.
#[tactic(auto, unfolding(record_fields::specs::Formats::known_at))]
pub fn read_quota_deed(
    alloc: Global,
    reader: &mut Reader<'_>,
    kind: QuotaKind,
) -> Result<QuotaDeed, FieldFault>
    ensures { Gives result reader.new ((quota_deed kind).read reader.old) }
{
    Ok(match kind {
        QuotaKind::Add => QuotaDeed::Add(read_new_quota(alloc, reader)?),
        QuotaKind::Modify => QuotaDeed::Modify(read_change(alloc, reader)?),
        QuotaKind::Delete => QuotaDeed::Delete {
            path: PathField::read(alloc, reader)?,
        },
        QuotaKind::Scan => QuotaDeed::Scan {
            path: PathField::read(alloc, reader)?,
        },
        QuotaKind::Resetpeak => QuotaDeed::Resetpeak {
            path: PathField::read(alloc, reader)?,
        },
    })
}

#[tactic(auto, unfolding(record_fields::specs::Formats::known_at))]
fn read_new_quota(alloc: Global, reader: &mut Reader<'_>) -> Result<NewQuota, FieldFault>
    ensures { Gives result reader.new (new_quota.read reader.old) }
{
    let path = PathField::read(alloc, reader)?;
    let limit = read_optional::<LimitField>(alloc, reader, false)?;
    let enforce = read_optional::<TruthField>(alloc, reader, false)?;
    let enabled = reader.read_truth()?;
    let template = read_optional::<ObjectNameField>(alloc, reader, limit.is_none())?;
    let thresholds = read_new_thresholds(alloc, reader)?;
    Ok(NewQuota {
        path,
        limit,
        enforce,
        enabled,
        template,
        thresholds,
    })
}

#[tactic(auto, unfolding(record_fields::specs::Formats::known_at))]
fn read_change(alloc: Global, reader: &mut Reader<'_>) -> Result<QuotaChange, FieldFault>
    ensures { Gives result reader.new (quota_change.read reader.old) }
{
    let path = PathField::read(alloc, reader)?;
    let limit = read_optional::<LimitField>(alloc, reader, false)?;
    let enforce = read_optional::<TruthField>(alloc, reader, false)?;
    let enabled = read_optional::<TruthField>(alloc, reader, false)?;
    let removed = read_short_list::<PercentField>(alloc, reader, 0, u16::MAX)?;
    let thresholds = read_new_thresholds(alloc, reader)?;
    Ok(QuotaChange {
        path,
        limit,
        enforce,
        enabled,
        removed,
        thresholds,
    })
}

/// Writes a command on quotas, if its entry has a kind: the kind, and its values.
pub fn put_quota_deed(deed: &QuotaDeed, into: &mut [u8], at: usize) -> usize
    requires { at ≤ length into.old }
    ensures written { Writes into.old at into.new result (quota_spelled deed.now) }
    ensures typed { quota_typed deed.now ≡ true }
{
    match deed {
        QuotaDeed::Add(new) => {
            let after = put_u8(into, at, 10);
            put_new_quota(new, into, after)
        }
        QuotaDeed::Modify(change) => {
            let after = put_u8(into, at, 11);
            put_change(change, into, after)
        }
        QuotaDeed::Delete { path } => put_on_path(12, path, into, at),
        QuotaDeed::Scan { path } => put_on_path(13, path, into, at),
        QuotaDeed::Resetpeak { path } => put_on_path(14, path, into, at),
        // No journal keeps another.
        _ => at,
    }
}

fn put_new_quota(new: &NewQuota, into: &mut [u8], at: usize) -> usize
    requires { at ≤ length into.old }
    ensures written { Writes into.old at into.new result (new_quota.spell new.now) }
    ensures typed { new_quota_typed new.now ≡ true }
{
    let path_end = put_path(&new.path, into, at);
    let limit_end = put_optional::<LimitField>(&new.limit, into, path_end);
    let enforce_end = put_optional::<TruthField>(&new.enforce, into, limit_end);
    let enabled_end = put_truth(into, enforce_end, new.enabled);
    let template_end = put_some::<OwnText>(&new.template, into, enabled_end);
    put_new_thresholds(&new.thresholds, into, template_end)
}

fn put_change(change: &QuotaChange, into: &mut [u8], at: usize) -> usize
    requires { at ≤ length into.old }
    ensures written { Writes into.old at into.new result (quota_change.spell change.now) }
    ensures typed { quota_change_typed change.now ≡ true }
{
    let path_end = put_path(&change.path, into, at);
    let limit_end = put_optional::<LimitField>(&change.limit, into, path_end);
    let enforce_end = put_optional::<TruthField>(&change.enforce, into, limit_end);
    let enabled_end = put_optional::<TruthField>(&change.enabled, into, enforce_end);
    let removed_end = put_short_list::<PercentField>(&change.removed, into, enabled_end);
    put_new_thresholds(&change.thresholds, into, removed_end)
}
