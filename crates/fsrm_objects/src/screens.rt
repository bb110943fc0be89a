//! The table of screens.

ghost use Rattle.std.specs.Prelude.{◌≡◌, ◌<◌, IfErr, OnOk, OnErr, None, Some, true, false, length, slice_get};
ghost use Rattle.std.specs.Option.{option_copied};
ghost use Rattle.fsrm_base.specs.Keyed.{row_of, has_row};
ghost use Rattle.fsrm_model.specs.objects.Screens.{screen_folder};
ghost use Rattle.fsrm_objects.specs.Tables.{IsFault, HasScreenAction, has_short_actions, other_screen_fault, screen_fault, with_other_screen, with_screen, with_screen_run, without_screen};

use crate::answer::ObjectFault;
use crate::edits::ScreenRun;
use crate::objects::Objects;
use crate::texts::{is_long_screen, left_of_actions, texts_of_actions};
use fsrm_model::ScreenRow;

impl Objects {
    /// Adds a screen, whose actions have texts of at most 1,024 bytes each.
    ///
    /// `room` is as at `add_quota`. The screen is refused if its folder has one, else if its folder has an
    /// exception or the screen no file group, else if it has more than 16 file groups or 8 actions, else if
    /// there are 4,096 screens, else if its texts are longer than `room`. An `Err` changes nothing, and the
    /// row is dropped.
    pub fn add_screen(&mut self, row: ScreenRow, room: u32) -> Result<(), ObjectFault>
        requires { has_short_actions row ≡ true }
        ensures ok { OnOk result (self.new ≡ with_screen self.old row) }
        ensures may { OnOk result (screen_fault self.old row room ≡ None) }
        ensures refused { IfErr result (λ fault. IsFault fault (screen_fault self.old row room)) }
        ensures err { OnErr result (self.new ≡ self.old) }
    {
        self.admit_screen(&row, room)?;
        self.screens.reserve(self.screens.len() + 1)?;
        self.screens.insert(row);
        Ok(())
    }

    /// Whether a folder has a screen.
    pub(crate) fn has_screen(&self, folder: u32) -> bool
        ensures { result ≡ has_row screen_folder folder self.now.screens }
    {
        self.screens.has(folder)
    }

    // Whether a new screen may be added.
    fn admit_screen(&self, row: &ScreenRow, room: u32) -> Result<(), ObjectFault>
        ensures may { OnOk result (screen_fault self.now row.now room ≡ None) }
        ensures refused { IfErr result (λ fault. screen_fault self.now row.now room ≡ Some fault) }
    {
        if self.has_screen(row.folder) {
            return Err(ObjectFault::AlreadyExists);
        }
        if self.has_except(row.folder) || row.groups.is_empty() {
            return Err(ObjectFault::InvalidCombination);
        }
        if is_long_screen(row) {
            return Err(ObjectFault::OutOfRange);
        }
        if self.screens.is_full() {
            return Err(ObjectFault::TableFull);
        }
        if left_of_actions(&row.actions, room.into()).is_none() {
            return Err(ObjectFault::TextsFull);
        }
        Ok(())
    }

    /// Gives a folder that has a screen this one in its place. The texts of its actions have at most 1,024
    /// bytes each.
    ///
    /// It is refused if it has no file group, else if it has more than 16 file groups or 8 actions, else if
    /// its texts, less those of the screen that it replaces, are longer than `room`. It takes no memory. An
    /// `Err` changes nothing, and the row is dropped.
    pub fn set_screen(&mut self, mut row: ScreenRow, room: u32) -> Result<(), ObjectFault>
        requires there { has_row screen_folder row.folder self.old.screens ≡ true }
        requires texts { has_short_actions row ≡ true }
        ensures ok { OnOk result (self.new ≡ with_other_screen self.old row) }
        ensures may { OnOk result (other_screen_fault self.old row room ≡ None) }
        ensures refused { IfErr result (λ fault. other_screen_fault self.old row room ≡ Some fault) }
        ensures err { OnErr result (self.new ≡ self.old) }
    {
        self.may_set_screen(&row, room)?;
        self.screens.swap(&mut row);
        Ok(())
    }

    // Whether a folder's screen may get this one in its place.
    fn may_set_screen(&self, row: &ScreenRow, room: u32) -> Result<(), ObjectFault>
        requires there { has_row screen_folder row.now.folder self.now.screens ≡ true }
        requires texts { has_short_actions row.now ≡ true }
        ensures may { OnOk result (other_screen_fault self.now row.now room ≡ None) }
        ensures refused { IfErr result (λ fault. other_screen_fault self.now row.now room ≡ Some fault) }
    {
        if row.groups.is_empty() {
            return Err(ObjectFault::InvalidCombination);
        }
        if is_long_screen(row) {
            return Err(ObjectFault::OutOfRange);
        }
        let old = self.screens.get(row.folder).unwrap();
        let replaced = texts_of_actions(&old.actions);
        let bytes = texts_of_actions(&row.actions);
        if bytes.saturating_sub(replaced) > room {
            return Err(ObjectFault::TextsFull);
        }
        Ok(())
    }

    /// Takes a folder's screen away.
    pub fn drop_screen(&mut self, folder: u32)
        requires { has_row screen_folder folder self.old.screens ≡ true }
        ensures { self.new ≡ without_screen self.old folder }
    {
        self.screens.remove(folder);
    }

    /// Notes that an action of a folder's screen ran at a moment, in seconds since 1970-01-01 00:00:00 UTC: the one at
    /// a place, from 0, which is there.
    pub fn set_screen_run(&mut self, folder: u32, place: u16, moment: u64)
        requires { HasScreenAction self.old folder place }
        ensures { self.new ≡ with_screen_run self.old folder place moment }
    {
        self.screens.change(folder, &ScreenRun { place, moment });
    }

    /// A folder's screen.
    pub fn screen(&self, folder: u32) -> Option<&ScreenRow>
        ensures { option_copied result ≡ row_of screen_folder folder self.now.screens }
    {
        self.screens.get(folder)
    }

    /// How many screens there are, at most 4,096.
    pub fn screen_count(&self) -> u32
        ensures { result ≡ length self.now.screens }
    {
        self.screens.len()
    }

    /// The screen at a place, from 0, in the order of the folders' numbers.
    pub fn screen_at(&self, place: u32) -> &ScreenRow
        requires { place < length self.now.screens }
        ensures { slice_get self.now.screens place ≡ Some result.now }
    {
        self.screens.at(place)
    }
}
