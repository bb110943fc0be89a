//! Commands on the service as a whole.

ghost use Rattle.std.specs.Prelude.{◌≡◌, ◌≤◌, length};
ghost use Rattle.record_fields.specs.Readers.{Shows};
ghost use Rattle.record_fields.specs.Writers.{Writes};
ghost use Rattle.record_codec.specs.Settings.{setting_kind, setting_deed, setting_spelled};

use fsrm_model::AdminDeed;
use fsrm_model::limits::MOST_MINUTES;
use record_fields::{Flaw, Reader, put_u8, put_u64};

/// The kinds of commands on the service as a whole.
#[derive(Clone, Copy, Debug, PartialEq, Eq)]
pub enum SettingKind {
    Options,
}

impl SettingKind {
    /// The kind that a byte means, if it is one of these.
    pub fn of(byte: u8) -> Option<SettingKind>
        ensures { result ≡ setting_kind byte }
    {
        match byte {
            35 => Some(SettingKind::Options),
            _ => None,
        }
    }
}

/// Reads the values of a command of this kind.
#[tactic(auto, unfolding(record_fields::specs::Formats::known_at))]
pub fn read_setting(reader: &mut Reader<'_>, kind: SettingKind) -> Result<AdminDeed, Flaw>
    ensures { Shows result reader.new ((setting_deed kind).read reader.old) }
{
    match kind {
        SettingKind::Options => {
            let run_limit = reader.read_u64_within(0, MOST_MINUTES as u64)?;
            Ok(AdminDeed::Options {
                run_limit: run_limit as u32,
            })
        }
    }
}

/// Writes a command, if its entry has a kind: the kind, and its values.
pub fn put_setting(deed: &AdminDeed, into: &mut [u8], at: usize) -> usize
    requires { at ≤ length into.old }
    ensures { Writes into.old at into.new result (setting_spelled deed.now) }
{
    match deed {
        AdminDeed::Options { run_limit } => {
            let after = put_u8(into, at, 35);
            put_u64(into, after, *run_limit as u64)
        }
        // No journal keeps another.
        _ => at,
    }
}
