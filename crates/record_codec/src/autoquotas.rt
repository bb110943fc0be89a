//! Commands on auto-apply quotas.

ghost use Rattle.std.specs.Prelude.{◌≡◌, ◌≤◌, true, length};
ghost use Rattle.record_fields.specs.Readers.{Gives};
ghost use Rattle.record_fields.specs.Writers.{Writes};
ghost use Rattle.record_codec.specs.Autoquotas.{autoquota_kind, autoquota_deed, autoquota_spelled, autoquota_typed, new_autoquota, new_autoquota_typed};

use crate::fields::{ExcludedField, ObjectNameField};
use crate::paths::{PathField, put_on_path, put_path};
use crate::typed::{OwnText, Typed, put_all};
use fsrm_model::{AutoquotaDeed, NewAutoquota};
use record_fields::{Field, FieldFault, Reader, put_u8};
use std::alloc::Global;

/// The kinds of commands on auto-apply quotas.
#[derive(Clone, Copy, Debug, PartialEq, Eq)]
pub enum AutoquotaKind {
    Add,
    Delete,
}

impl AutoquotaKind {
    /// The kind that a byte means, if it is one of these.
    pub fn of(byte: u8) -> Option<AutoquotaKind>
        ensures { result ≡ autoquota_kind byte }
    {
        match byte {
            30 => Some(AutoquotaKind::Add),
            31 => Some(AutoquotaKind::Delete),
            _ => None,
        }
    }
}

/// Reads the values of a command on auto-apply quotas of this kind.
#[tactic(auto, unfolding(record_fields::specs::Formats::known_at))]
pub fn read_autoquota_deed(
    alloc: Global,
    reader: &mut Reader<'_>,
    kind: AutoquotaKind,
) -> Result<AutoquotaDeed, FieldFault>
    ensures { Gives result reader.new ((autoquota_deed kind).read reader.old) }
{
    Ok(match kind {
        AutoquotaKind::Add => AutoquotaDeed::Add(read_new_autoquota(alloc, reader)?),
        AutoquotaKind::Delete => AutoquotaDeed::Delete {
            path: PathField::read(alloc, reader)?,
        },
    })
}

#[tactic(auto, unfolding(record_fields::specs::Formats::known_at))]
fn read_new_autoquota(alloc: Global, reader: &mut Reader<'_>) -> Result<NewAutoquota, FieldFault>
    ensures { Gives result reader.new (new_autoquota.read reader.old) }
{
    let path = PathField::read(alloc, reader)?;
    let template = ObjectNameField::read(alloc, reader)?;
    let excluded = ExcludedField::read(alloc, reader)?;
    Ok(NewAutoquota {
        path,
        template,
        excluded,
    })
}

/// Writes a command on auto-apply quotas, if its entry has a kind: the kind, and its values.
pub fn put_autoquota_deed(deed: &AutoquotaDeed, into: &mut [u8], at: usize) -> usize
    requires { at ≤ length into.old }
    ensures written { Writes into.old at into.new result (autoquota_spelled deed.now) }
    ensures typed { autoquota_typed deed.now ≡ true }
{
    match deed {
        AutoquotaDeed::Add(new) => {
            let after = put_u8(into, at, 30);
            put_new_autoquota(new, into, after)
        }
        AutoquotaDeed::Delete { path } => put_on_path(31, path, into, at),
        // No journal keeps another.
        _ => at,
    }
}

fn put_new_autoquota(new: &NewAutoquota, into: &mut [u8], at: usize) -> usize
    requires { at ≤ length into.old }
    ensures written { Writes into.old at into.new result (new_autoquota.spell new.now) }
    ensures typed { new_autoquota_typed new.now ≡ true }
{
    let path_end = put_path(&new.path, into, at);
    let template_end = OwnText::put(&new.template, into, path_end);
    put_all::<OwnText>(&new.excluded, into, template_end)
}
