//! The audit log.

ghost use Rattle.std.specs.Prelude.{◌≡◌, ◌<◌, ◌≤◌, IfOk, Some, [], true, length, slice_get};
ghost use Rattle.fsrm_model.specs.objects.Audits.{with_audit};
ghost use Rattle.fsrm_model.specs.values.Limits.{longest_name, most_entries};
ghost use Rattle.fsrm_model.specs.values.Name.{is_name};
ghost use Rattle.file_screens.specs.Blocked.{shown};

use arrayvec::ArrayString;
use circular_buffer::HeapCircularBuffer;
use fsrm_model::NoMemory;
use fsrm_model::limits::{LONGEST_NAME, MOST_ENTRIES};
use std::alloc::Global;
use std::marker::Model;

/// An entry of the audit log, lent. Its numbers are as they were then.
#[derive(Clone, Copy)]
pub struct AuditView<'a> {
    /// In seconds since 1970-01-01 00:00:00 UTC.
    pub moment: u64,
    /// Whether the screen refused the name.
    pub active: bool,
    /// Whose the file is.
    pub owner: u32,
    /// The folder in which it was to get the name.
    pub folder: u32,
    /// The screen's folder.
    pub screen: u32,
    /// The name, as it was spelled.
    pub name: &'a str,
}

// An entry, whose name lies in it. So the log takes no memory for names. Contracts see it as its row.
#[derive(Drop)]
struct Entry {
    moment: u64,
    active: bool,
    owner: u32,
    folder: u32,
    screen: u32,
    name: ArrayString<LONGEST_NAME>,
}

impl Model for Entry {
    ghost use Rattle.fsrm_model.specs.declared.row.AuditRow.{AuditRow};

    ghost Value = { AuditRow };

    ghost view = { λ e. record { moment = e.moment; active = e.active; owner = e.owner; folder = e.folder; screen = e.screen; name = e.name.bytes } };
}

impl Entry {
    fn new(moment: u64, active: bool, owner: u32, folder: u32, screen: u32, name: &str) -> Entry
        requires { length name.now ≤ longest_name }
        ensures { result ≡ record { moment = moment; active = active; owner = owner; folder = folder; screen = screen; name = name.now } }
    {
        let mut text = ArrayString::new();
        text.push_str(name);
        Entry {
            moment,
            active,
            owner,
            folder,
            screen,
            name: text,
        }
    }

    fn lent(&self) -> AuditView<'_>
        ensures { shown result ≡ self.now }
    {
        AuditView {
            moment: self.moment,
            active: self.active,
            owner: self.owner,
            folder: self.folder,
            screen: self.screen,
            name: self.name.as_str(),
        }
    }
}

/// The audit log: its last 1,024 entries, in memory that is reserved once. Contracts see the list of its entries, the
/// oldest first.
#[derive(Drop)]
pub struct Audit {
    log: HeapCircularBuffer<Entry>,
}

impl Model for Audit {
    ghost use Rattle.std.specs.Prelude.{List as Items};
    ghost use Rattle.fsrm_model.specs.declared.row.AuditRow.{AuditRow};
    ghost use Rattle.file_screens.specs.Kept.{IsKept};

    ghost Value = { Items AuditRow };

    ghost view = { λ a. a.log.items };

    ghost invariant = { λ a. IsKept a.log };
}

impl Audit {
    /// An empty log, with room for all entries.
    pub fn new(alloc: Global) -> Result<Audit, NoMemory>
        ensures { IfOk result (λ audit. audit ≡ []) }
    {
        let log = HeapCircularBuffer::with_capacity(alloc, MOST_ENTRIES)?;
        Ok(Audit { log })
    }

    /// Adds an entry of a moment, in seconds since 1970-01-01 00:00:00 UTC, and a name of at most 255 bytes. Into a
    /// full log it comes in place of the oldest one. It takes no memory.
    pub fn push(
        &mut self,
        moment: u64,
        active: bool,
        owner: u32,
        folder: u32,
        screen: u32,
        name: &str,
    )
        requires { is_name name.now ≡ true }
        ensures { self.new ≡ with_audit (record { moment = moment; active = active; owner = owner; folder = folder; screen = screen; name = name.now }) self.old }
    {
        let entry = Entry::new(moment, active, owner, folder, screen, name);
        self.log.push_back(entry);
    }

    /// How many entries the log has, at most 1,024.
    pub fn len(&self) -> u32
        ensures length { result ≡ length self.now }
        ensures few { result ≤ most_entries }
    {
        self.log.len() as u32
    }

    /// The entry at a place, from 0, the oldest first, lent.
    pub fn at(&self, place: u32) -> AuditView<'_>
        requires { place < length self.now }
        ensures { slice_get self.now place ≡ Some (shown result) }
    {
        self.log.get(place as usize).unwrap().lent()
    }
}
