//! The table of the screens' exceptions.

ghost use Rattle.std.specs.Prelude.{◌≡◌, ◌<◌, IfErr, OnOk, OnErr, None, Some, true, false, length, slice_get};
ghost use Rattle.std.specs.Option.{option_copied};
ghost use Rattle.fsrm_base.specs.Keyed.{row_of, has_row};
ghost use Rattle.fsrm_model.specs.objects.Screens.{except_folder};
ghost use Rattle.fsrm_objects.specs.Tables.{IsFault, except_fault, with_except, without_except};

use crate::answer::ObjectFault;
use crate::objects::Objects;
use fsrm_model::ExceptRow;
use fsrm_model::limits::MOST_SCREEN_GROUPS;

impl Objects {
    /// Adds an exception.
    ///
    /// It is refused if its folder has one, else if its folder has a screen or the exception no file group,
    /// else if it has more than 16, else if there are 4,096 exceptions. An `Err` changes nothing, and the row
    /// is dropped.
    pub fn add_except(&mut self, row: ExceptRow) -> Result<(), ObjectFault>
        ensures ok { OnOk result (self.new ≡ with_except self.old row) }
        ensures may { OnOk result (except_fault self.old row ≡ None) }
        ensures refused { IfErr result (λ fault. IsFault fault (except_fault self.old row)) }
        ensures err { OnErr result (self.new ≡ self.old) }
    {
        self.admit_except(&row)?;
        self.excepts.reserve(self.excepts.len() + 1)?;
        self.excepts.insert(row);
        Ok(())
    }

    /// Whether a folder has an exception.
    pub(crate) fn has_except(&self, folder: u32) -> bool
        ensures { result ≡ has_row except_folder folder self.now.excepts }
    {
        self.excepts.has(folder)
    }

    // Whether a new exception may be added.
    fn admit_except(&self, row: &ExceptRow) -> Result<(), ObjectFault>
        ensures may { OnOk result (except_fault self.now row.now ≡ None) }
        ensures refused { IfErr result (λ fault. except_fault self.now row.now ≡ Some fault) }
    {
        if self.has_except(row.folder) {
            return Err(ObjectFault::AlreadyExists);
        }
        if self.has_screen(row.folder) || row.groups.is_empty() {
            return Err(ObjectFault::InvalidCombination);
        }
        if row.groups.len() > MOST_SCREEN_GROUPS {
            return Err(ObjectFault::OutOfRange);
        }
        if self.excepts.is_full() {
            return Err(ObjectFault::TableFull);
        }
        Ok(())
    }

    /// Takes a folder's exception away.
    pub fn drop_except(&mut self, folder: u32)
        requires { has_row except_folder folder self.old.excepts ≡ true }
        ensures { self.new ≡ without_except self.old folder }
    {
        self.excepts.remove(folder);
    }

    /// A folder's exception.
    pub fn except(&self, folder: u32) -> Option<&ExceptRow>
        ensures { option_copied result ≡ row_of except_folder folder self.now.excepts }
    {
        self.excepts.get(folder)
    }

    /// How many exceptions there are, at most 4,096.
    pub fn except_count(&self) -> u32
        ensures { result ≡ length self.now.excepts }
    {
        self.excepts.len()
    }

    /// The exception at a place, from 0, in the order of the folders' numbers.
    pub fn except_at(&self, place: u32) -> &ExceptRow
        requires { place < length self.now.excepts }
        ensures { slice_get self.now.excepts place ≡ Some result.now }
    {
        self.excepts.at(place)
    }
}
