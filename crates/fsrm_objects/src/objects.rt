//! The tables of objects.

ghost use Rattle.std.specs.Prelude.{◌≡◌, ◌<◌, ◌≤◌, IfErr, IsErrOf, MatchOption, OnOk, OnErr, [], None, Some, true, false, length, map, slice_get};
ghost use Rattle.std.specs.Option.{option_copied};
ghost use Rattle.fsrm_base.specs.Keyed.{row_of, has_row};
ghost use Rattle.fsrm_model.specs.values.Limits.{most_quotas};
ghost use Rattle.fsrm_model.specs.objects.Quota.{folder_of};
ghost use Rattle.fsrm_model.specs.objects.Templates.{without_source};
ghost use Rattle.fsrm_model.specs.objects.Thresholds.{are_too_many};
ghost use Rattle.fsrm_base.specs.Places.{IsAt};
ghost use Rattle.fsrm_objects.specs.Kept.{AreSmallQuotas};
ghost use Rattle.fsrm_objects.specs.Tables.{IsFault, has_short_texts, HasAction, other_fault, quota_fault, texts_in, with_quota, with_other, with_peak, with_run, with_state, without_quota};

use crate::answer::ObjectFault;
use crate::edits::{Peak, QuotaRun, Source, State};
use crate::kinds::{Excepts, Jobs, Quotas, Screens};
use crate::texts::{are_too_many, left_of_thresholds, threshold_texts};
use fsrm_model::{NoMemory, QuotaRow, QuotaState};
use row_table::{Kind, Table};
use std::alloc::Global;
use std::marker::Model;

/// The objects of a store. Contracts see the rows of each table, ascending by folder, each folder at most once, or jobs by
/// number, and for how many quotas there is memory in any case: none, or after `make_room` all.
#[derive(Drop)]
pub struct Objects {
    quotas: Table<Quotas>,
    // For so many quotas there is memory in any case: none, or after `make_room` all. The table's own room grows with
    // each quota.
    room: u32,
    pub(crate) screens: Table<Screens>,
    pub(crate) excepts: Table<Excepts>,
    pub(crate) jobs: Table<Jobs>,
}

impl Model for Objects {
    ghost use Rattle.std.specs.Prelude.{◌≤◌};
    ghost use Rattle.fsrm_objects.specs.Tables.{Tables};

    ghost Value = { Tables };

    ghost view = { λ o. record { quotas = o.quotas.rows; screens = o.screens.rows; excepts = o.excepts.rows; jobs = o.jobs.rows; room = o.room } };

    ghost invariant = { λ o. o.room ≤ o.quotas.room };
}

impl Objects {
    /// Tables without rows. It takes no memory.
    pub fn new(alloc: Global) -> Objects
        ensures { result ≡ record { quotas = []; screens = []; excepts = []; jobs = []; room = 0 } }
    {
        Objects {
            quotas: Table::new(alloc),
            room: 0,
            screens: Table::new(alloc),
            excepts: Table::new(alloc),
            jobs: Table::new(alloc),
        }
    }

    /// Makes sure of memory for the 4,096 quotas that there may be. An `Err` changes nothing.
    pub fn make_room(&mut self) -> Result<(), NoMemory>
        ensures ok { OnOk result (self.new ≡ record self.old { room = most_quotas }) }
        ensures err { OnErr result (self.new ≡ self.old) }
    {
        self.quotas.reserve(Quotas::MOST)?;
        self.room = Quotas::MOST;
        Ok(())
    }

    /// Adds a quota, whose actions have texts of at most 1,024 bytes each.
    ///
    /// `room` is how many bytes of texts may still come. The quota is refused if its folder has one, else if
    /// it has more than 16 thresholds or one of these more than 8 actions, else if there are 4,096 quotas,
    /// else if its texts are longer than `room`. An `Err` changes nothing, and the row is dropped. After
    /// `make_room` it never fails for want of memory.
    pub fn add_quota(&mut self, row: QuotaRow, room: u32) -> Result<(), ObjectFault>
        requires { has_short_texts row ≡ true }
        ensures ok { OnOk result (self.new ≡ with_quota self.old row) }
        ensures may { OnOk result (quota_fault self.old row room ≡ None) }
        ensures refused { IfErr result (λ fault. IsFault fault (quota_fault self.old row room)) }
        ensures full { IsErrOf result ObjectFault.NoMemory → self.old.room ≤ length self.old.quotas }
        ensures err { OnErr result (self.new ≡ self.old) }
    {
        self.admit(&row, room)?;
        self.quotas.reserve(self.quotas.len() + 1)?;
        self.quotas.insert(row);
        Ok(())
    }

    // Whether a new quota may be added.
    fn admit(&self, row: &QuotaRow, room: u32) -> Result<(), ObjectFault>
        ensures may { OnOk result (quota_fault self.now row.now room ≡ None) }
        ensures refused { IfErr result (λ fault. quota_fault self.now row.now room ≡ Some fault) }
    {
        if self.quotas.has(row.folder) {
            return Err(ObjectFault::AlreadyExists);
        }
        if are_too_many(&row.thresholds) {
            return Err(ObjectFault::OutOfRange);
        }
        if self.quotas.is_full() {
            return Err(ObjectFault::TableFull);
        }
        if left_of_thresholds(&row.thresholds, room.into()).is_none() {
            return Err(ObjectFault::TextsFull);
        }
        Ok(())
    }

    /// Gives a folder that has a quota this one in its place. The texts of its actions have at most 1,024
    /// bytes each.
    ///
    /// It is refused if it has more than 16 thresholds or one of these more than 8 actions, else if its
    /// texts, less those of the quota that it replaces, are longer than `room`. It takes no memory. An `Err`
    /// changes nothing, and the row is dropped.
    pub fn set_quota(&mut self, mut row: QuotaRow, room: u32) -> Result<(), ObjectFault>
        requires there { has_row folder_of row.folder self.old.quotas ≡ true }
        requires texts { has_short_texts row ≡ true }
        ensures ok { OnOk result (self.new ≡ with_other self.old row) }
        ensures may { OnOk result (other_fault self.old row room ≡ None) }
        ensures refused { IfErr result (λ fault. other_fault self.old row room ≡ Some fault) }
        ensures err { OnErr result (self.new ≡ self.old) }
    {
        self.swap_quota(&mut row, room)
    }

    /// Gives a folder that has a quota this one in its place, as `set_quota` does. The row is lent: it becomes the quota
    /// that it replaces, or stays as it is at an `Err`.
    pub fn swap_quota(&mut self, row: &mut QuotaRow, room: u32) -> Result<(), ObjectFault>
        requires there { has_row folder_of row.old.folder self.old.quotas ≡ true }
        requires texts { has_short_texts row.old ≡ true }
        ensures ok { OnOk result (self.new ≡ with_other self.old row.old) }
        ensures replaced { OnOk result (row_of folder_of row.old.folder self.old.quotas ≡ Some row.new) }
        ensures may { OnOk result (other_fault self.old row.old room ≡ None) }
        ensures refused { IfErr result (λ fault. other_fault self.old row.old room ≡ Some fault) }
        ensures err { OnErr result (self.new ≡ self.old) }
        ensures stays { OnErr result (row.new ≡ row.old) }
    {
        self.may_set(row, room)?;
        self.put_quota(row);
        Ok(())
    }

    /// Has this quota and that of its folder change places. This one has at most 16 thresholds, each of them at most 8
    /// actions, and these texts of at most 1,024 bytes each. How much room the texts leave isn't asked: whoever puts
    /// several quotas has judged that of all. It takes no memory.
    pub fn put_quota(&mut self, row: &mut QuotaRow)
        requires there { has_row folder_of row.old.folder self.old.quotas ≡ true }
        requires short { are_too_many row.old.thresholds ≡ false }
        requires texts { has_short_texts row.old ≡ true }
        ensures put { self.new ≡ with_other self.old row.old }
        ensures replaced { row_of folder_of row.old.folder self.old.quotas ≡ Some row.new }
    {
        self.quotas.swap(row);
    }

    /// Whether a folder's quota may get this one in its place, as `set_quota` judges it.
    pub fn may_set(&self, row: &QuotaRow, room: u32) -> Result<(), ObjectFault>
        requires there { has_row folder_of row.now.folder self.now.quotas ≡ true }
        requires texts { has_short_texts row.now ≡ true }
        ensures may { OnOk result (other_fault self.now row.now room ≡ None) }
        ensures refused { IfErr result (λ fault. other_fault self.now row.now room ≡ Some fault) }
    {
        if are_too_many(&row.thresholds) {
            return Err(ObjectFault::OutOfRange);
        }
        let old = self.quotas.get(row.folder).unwrap();
        let replaced = threshold_texts(&old.thresholds);
        let bytes = threshold_texts(&row.thresholds);
        if bytes.saturating_sub(replaced) > room {
            return Err(ObjectFault::TextsFull);
        }
        Ok(())
    }

    /// Takes a folder's quota away.
    pub fn drop_quota(&mut self, folder: u32)
        requires { has_row folder_of folder self.old.quotas ≡ true }
        ensures { self.new ≡ without_quota self.old folder }
    {
        self.quotas.remove(folder);
    }

    /// Takes a template, by its number, from each quota that was derived from it. The quotas stay, and all else of
    /// them. It takes no memory.
    pub fn clear_template(&mut self, template: u32)
        ensures { self.new ≡ record self.old { quotas = map (without_source template) self.old.quotas } }
    {
        self.quotas.change_each(&Source { template });
    }

    /// Sets the peak of a folder's quota, in bytes, and its moment.
    pub fn set_peak(&mut self, folder: u32, peak: u64, moment: u64)
        requires { has_row folder_of folder self.old.quotas ≡ true }
        ensures { self.new ≡ with_peak self.old folder peak moment }
    {
        self.quotas.change(
            folder,
            &Peak {
                bytes: peak,
                moment,
            },
        );
    }

    /// Sets the state of a folder's quota. All else of the quota stays.
    pub fn set_state(&mut self, folder: u32, state: QuotaState)
        requires { has_row folder_of folder self.old.quotas ≡ true }
        ensures { self.new ≡ with_state self.old folder state }
    {
        self.quotas.change(folder, &State { state });
    }

    /// Notes that an action of a folder's quota ran at a moment: the one at a place, from 0, of the
    /// threshold of a percentage.
    pub fn set_run(&mut self, folder: u32, percent: u16, place: u16, moment: u64)
        requires { HasAction self.old folder percent place }
        ensures { self.new ≡ with_run self.old folder percent place moment }
    {
        let run = QuotaRun {
            percent,
            place,
            moment,
        };
        self.quotas.change(folder, &run);
    }

    /// A folder's quota.
    pub fn quota(&self, folder: u32) -> Option<&QuotaRow>
        ensures { option_copied result ≡ row_of folder_of folder self.now.quotas }
    {
        self.quotas.get(folder)
    }

    /// The bytes of all texts that the rows hold.
    pub fn texts(&self) -> u32
        ensures { result ≡ texts_in self.now }
    {
        self.quotas.texts() + self.screens.texts() + self.jobs.texts()
    }

    /// How many quotas there are, at most 4,096. `kept` says that they ascend by folder, and how long the texts of each
    /// may be.
    pub fn quota_count(&self) -> u32
        ensures count { result ≡ length self.now.quotas }
        ensures kept { AreSmallQuotas self.now.quotas }
    {
        self.quotas.len()
    }

    /// The place of a folder's quota, from 0, in the order of the folders' numbers: below 4,096.
    pub fn quota_place(&self, folder: u32) -> Option<u32>
        ensures place { MatchOption result (has_row folder_of folder self.now.quotas ≡ false) (IsAt folder_of folder self.now.quotas) }
        ensures few { length self.now.quotas ≤ most_quotas }
    {
        self.quotas.place(folder)
    }

    /// The quota at a place, from 0, in the order of the folders' numbers.
    pub fn quota_at(&self, place: u32) -> &QuotaRow
        requires { place < length self.now.quotas }
        ensures { slice_get self.now.quotas place ≡ Some result.now }
    {
        self.quotas.at(place)
    }
}
