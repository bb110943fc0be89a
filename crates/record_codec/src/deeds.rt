//! What commands do, by the families that they belong to.

ghost use Rattle.std.specs.Prelude.{◌≡◌, ◌≤◌, true, length};
ghost use Rattle.record_fields.specs.Readers.{Gives};
ghost use Rattle.record_fields.specs.Writers.{Writes};
ghost use Rattle.record_codec.specs.Deeds.{deed_kind_of, deed_values, deed_spelled};
ghost use Rattle.record_codec.specs.Writing.{deed_typed};

use crate::autoquotas::{AutoquotaKind, put_autoquota_deed, read_autoquota_deed};
use crate::exceptions::{ExceptionKind, put_exception_deed, read_exception_deed};
use crate::filegroups::{FilegroupKind, put_filegroup_deed, read_filegroup_deed};
use crate::files::{FileKind, put_op, read_op};
use crate::quotas::{QuotaKind, put_quota_deed, read_quota_deed};
use crate::reports::{JobKind, put_job_deed, read_job_deed};
use crate::screens::{ScreenKind, put_screen_deed, read_screen_deed};
use crate::settings::{SettingKind, put_setting, read_setting};
use crate::templates::{TemplateKind, put_template_deed, read_template_deed};
use fsrm_model::{Boxed, Deed};
use record_fields::{FieldFault, Reader};
use std::alloc::Global;

/// The kinds of commands that an entry keeps.
#[derive(Clone, Copy, Debug, PartialEq, Eq)]
pub enum DeedKind {
    File(FileKind),
    Quota(QuotaKind),
    Template(TemplateKind),
    Autoquota(AutoquotaKind),
    Setting(SettingKind),
    Filegroup(FilegroupKind),
    Screen(ScreenKind),
    Exception(ExceptionKind),
    Job(JobKind),
}

impl DeedKind {
    /// The kind that a byte means, if it is one of a command.
    pub fn of(byte: u8) -> Option<DeedKind>
        ensures { result ≡ deed_kind_of byte }
    {
        if let Some(kind) = FileKind::of(byte) {
            return Some(DeedKind::File(kind));
        }
        if let Some(kind) = QuotaKind::of(byte) {
            return Some(DeedKind::Quota(kind));
        }
        if let Some(kind) = TemplateKind::of(byte) {
            return Some(DeedKind::Template(kind));
        }
        if let Some(kind) = AutoquotaKind::of(byte) {
            return Some(DeedKind::Autoquota(kind));
        }
        if let Some(kind) = SettingKind::of(byte) {
            return Some(DeedKind::Setting(kind));
        }
        if let Some(kind) = FilegroupKind::of(byte) {
            return Some(DeedKind::Filegroup(kind));
        }
        if let Some(kind) = ScreenKind::of(byte) {
            return Some(DeedKind::Screen(kind));
        }
        if let Some(kind) = ExceptionKind::of(byte) {
            return Some(DeedKind::Exception(kind));
        }
        if let Some(kind) = JobKind::of(byte) {
            return Some(DeedKind::Job(kind));
        }
        None
    }
}

/// Reads the values of a command of this kind.
#[tactic(auto, unfolding(record_fields::specs::Formats::known_at))]
pub fn read_deed(alloc: Global, reader: &mut Reader<'_>, kind: DeedKind) -> Result<Deed, FieldFault>
    ensures { Gives result reader.new ((deed_values kind).read reader.old) }
{
    Ok(match kind {
        DeedKind::File(kind) => Deed::File(read_op(alloc, reader, kind)?),
        DeedKind::Quota(kind) => {
            let deed = read_quota_deed(alloc, reader, kind)?;
            Deed::Quota(Boxed::new(alloc, deed)?)
        }
        DeedKind::Template(kind) => {
            let deed = read_template_deed(alloc, reader, kind)?;
            Deed::Template(Boxed::new(alloc, deed)?)
        }
        DeedKind::Autoquota(kind) => {
            let deed = read_autoquota_deed(alloc, reader, kind)?;
            Deed::Autoquota(Boxed::new(alloc, deed)?)
        }
        DeedKind::Setting(kind) => Deed::Admin(read_setting(reader, kind)?),
        DeedKind::Filegroup(kind) => {
            let deed = read_filegroup_deed(alloc, reader, kind)?;
            Deed::Filegroup(Boxed::new(alloc, deed)?)
        }
        DeedKind::Screen(kind) => {
            let deed = read_screen_deed(alloc, reader, kind)?;
            Deed::Screen(Boxed::new(alloc, deed)?)
        }
        DeedKind::Exception(kind) => {
            let deed = read_exception_deed(alloc, reader, kind)?;
            Deed::Exception(Boxed::new(alloc, deed)?)
        }
        DeedKind::Job(kind) => {
            let deed = read_job_deed(alloc, reader, kind)?;
            Deed::Reports(Boxed::new(alloc, deed)?)
        }
    })
}

/// Writes a deed, if its entry has a kind: the kind, and its values.
pub fn put_deed(deed: &Deed, into: &mut [u8], at: usize) -> usize
    requires { at ≤ length into.old }
    ensures written { Writes into.old at into.new result (deed_spelled deed.now) }
    ensures typed { deed_typed deed.now ≡ true }
{
    match deed {
        Deed::File(op) => put_op(op, into, at),
        Deed::Quota(deed) => put_quota_deed(deed.as_ref(), into, at),
        Deed::Template(deed) => put_template_deed(deed.as_ref(), into, at),
        Deed::Autoquota(deed) => put_autoquota_deed(deed.as_ref(), into, at),
        Deed::Admin(deed) => put_setting(deed, into, at),
        Deed::Filegroup(deed) => put_filegroup_deed(deed.as_ref(), into, at),
        Deed::Screen(deed) => put_screen_deed(deed.as_ref(), into, at),
        Deed::Exception(deed) => put_exception_deed(deed.as_ref(), into, at),
        Deed::Reports(deed) => put_job_deed(deed.as_ref(), into, at),
        // No journal keeps another.
        _ => at,
    }
}
