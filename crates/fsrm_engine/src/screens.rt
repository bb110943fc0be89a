//! The commands on screens and exceptions.

ghost use Rattle.std.specs.Prelude.{◌≡◌, ◌+◌, ◌≤◌, true, IfOk, OnErr, Some};
ghost use Rattle.fsrm_model.specs.declared.command.Deed.TheVariants.{Screen, Exception};
ghost use Rattle.fsrm_model.specs.declared.command.ExceptionDeed.TheVariants.{Add as ExceptionAdd, Delete as ExceptionDelete, List as ExceptionList};
ghost use Rattle.fsrm_model.specs.declared.command.ScreenDeed.TheVariants.{Add as ScreenAdd, Modify as ScreenModify, Delete as ScreenDelete, List as ScreenList};
ghost use Rattle.fsrm_model.specs.commands.Commands.{is_new_screen, is_new_exception};
ghost use Rattle.fsrm_model.specs.commands.Cost.{deed_cost};
ghost use Rattle.fsrm_model.specs.commands.ScreenWork.{new_screen, rescreened};
ghost use Rattle.fsrm_model.specs.store.Valued.{is_deed};
ghost use Rattle.fsrm_engine.specs.Machine.{Does, IsReady, IsSound, rows_of};
ghost use Rattle.fsrm_engine.specs.Memory.{may_want_memory};

use crate::parts::Parts;
use fsrm_model::{
    Answer, Ask, ExceptRow, ExceptionDeed, Ledger, List, NewException, NewScreen, NoMemory, Path,
    Refusal, ScreenChange, ScreenDeed, Steps,
};
use fsrm_parts::{
    changed_groups, folder_at, groups_with, listing, new_screen, refused, refused_for, rescreened,
    screen_at,
};
use std::alloc::Global;

impl Parts {
    // Puts a screen on a folder.
    fn screen_add<L: Ledger>(
        &mut self,
        alloc: Global,
        screen: &NewScreen,
        moment: u64,
        steps: &mut Steps<L>,
    ) -> Result<Answer, NoMemory>
        requires ready { IsReady self.old moment }
        requires valid { is_new_screen screen.now ≡ true }
        ensures ok { IfOk result (λ answer. Does self.old self.new moment (Screen (ScreenAdd screen.now)) answer) }
        ensures memory { OnErr result (may_want_memory (rows_of self.old) (Screen (ScreenAdd screen.now)) ≡ true) }
        ensures err { OnErr result (self.new ≡ self.old) }
        ensures sound { IsSound self.new }
        ensures looks { steps.new ≤ steps.old + deed_cost (rows_of self.old) (Screen (ScreenAdd screen.now)) }
    {
        let Some(folder) = folder_at(&self.tree, &screen.path, steps) else {
            return Ok(refused(Refusal::PathNotFound));
        };
        if self.objects.screen(folder).is_some() {
            return Ok(refused(Refusal::AlreadyExists));
        }
        if self.objects.except(folder).is_some() {
            return Ok(refused(Refusal::InvalidCombination));
        }
        let Some(groups) = groups_with(alloc, &self.groups, List::new(alloc), &screen.groups)?
        else {
            return Ok(refused(Refusal::NotFound));
        };
        let row = new_screen(alloc, folder, screen.active, groups, &screen.actions)?;
        let room = self.room();
        match self.objects.add_screen(row, room) {
            Ok(()) => Ok(self.done(moment)),
            Err(fault) => refused_for(fault),
        }
    }

    // Changes what is given of a screen: whether it is active, and its groups. Its actions stay.
    fn screen_modify<L: Ledger>(
        &mut self,
        alloc: Global,
        change: &ScreenChange,
        moment: u64,
        steps: &mut Steps<L>,
    ) -> Result<Answer, NoMemory>
        requires ready { IsReady self.old moment }
        ensures ok { IfOk result (λ answer. Does self.old self.new moment (Screen (ScreenModify change.now)) answer) }
        ensures memory { OnErr result (may_want_memory (rows_of self.old) (Screen (ScreenModify change.now)) ≡ true) }
        ensures err { OnErr result (self.new ≡ self.old) }
        ensures sound { IsSound self.new }
        ensures looks { steps.new ≤ steps.old + deed_cost (rows_of self.old) (Screen (ScreenModify change.now)) }
    {
        let screen = match screen_at(&self.tree, &self.objects, &change.path, steps) {
            Ok(screen) => screen,
            Err(refusal) => return Ok(refused(refusal)),
        };
        let Some(groups) = changed_groups(
            alloc,
            &self.groups,
            &screen.groups,
            &change.removed,
            &change.groups,
        )?
        else {
            return Ok(refused(Refusal::NotFound));
        };
        let row = rescreened(alloc, screen, change.active, groups)?;
        let room = self.room();
        match self.objects.set_screen(row, room) {
            Ok(()) => Ok(self.done(moment)),
            Err(fault) => refused_for(fault),
        }
    }

    // Takes a screen away.
    fn screen_delete<L: Ledger>(&mut self, path: &Path, moment: u64, steps: &mut Steps<L>) -> Answer
        requires ready { IsReady self.old moment }
        ensures ok { Does self.old self.new moment (Screen (ScreenDelete path.now)) result }
        ensures sound { IsSound self.new }
        ensures looks { steps.new ≤ steps.old + deed_cost (rows_of self.old) (Screen (ScreenDelete path.now)) }
    {
        let folder = match screen_at(&self.tree, &self.objects, path, steps) {
            Ok(screen) => screen.folder,
            Err(refusal) => return refused(refusal),
        };
        self.objects.drop_screen(folder);
        self.done(moment)
    }

    // Lists all screens.
    fn list_screens(&self, moment: u64) -> Answer
        requires ready { IsReady self.now moment }
        ensures { Does self.now self.now moment (Screen ScreenList) result }
    {
        listing(Ask::Screens)
    }

    // Puts an exception on a folder.
    fn except_add<L: Ledger>(
        &mut self,
        alloc: Global,
        except: &NewException,
        moment: u64,
        steps: &mut Steps<L>,
    ) -> Result<Answer, NoMemory>
        requires ready { IsReady self.old moment }
        requires valid { is_new_exception except.now ≡ true }
        ensures ok { IfOk result (λ answer. Does self.old self.new moment (Exception (ExceptionAdd except.now)) answer) }
        ensures memory { OnErr result (may_want_memory (rows_of self.old) (Exception (ExceptionAdd except.now)) ≡ true) }
        ensures err { OnErr result (self.new ≡ self.old) }
        ensures sound { IsSound self.new }
        ensures looks { steps.new ≤ steps.old + deed_cost (rows_of self.old) (Exception (ExceptionAdd except.now)) }
    {
        let Some(folder) = folder_at(&self.tree, &except.path, steps) else {
            return Ok(refused(Refusal::PathNotFound));
        };
        if self.objects.except(folder).is_some() {
            return Ok(refused(Refusal::AlreadyExists));
        }
        if self.objects.screen(folder).is_some() {
            return Ok(refused(Refusal::InvalidCombination));
        }
        let Some(groups) = groups_with(alloc, &self.groups, List::new(alloc), &except.groups)?
        else {
            return Ok(refused(Refusal::NotFound));
        };
        match self.objects.add_except(ExceptRow { folder, groups }) {
            Ok(()) => Ok(self.done(moment)),
            Err(fault) => refused_for(fault),
        }
    }

    // Takes an exception away.
    fn except_delete<L: Ledger>(&mut self, path: &Path, moment: u64, steps: &mut Steps<L>) -> Answer
        requires ready { IsReady self.old moment }
        ensures ok { Does self.old self.new moment (Exception (ExceptionDelete path.now)) result }
        ensures sound { IsSound self.new }
        ensures looks { steps.new ≤ steps.old + deed_cost (rows_of self.old) (Exception (ExceptionDelete path.now)) }
    {
        let Some(folder) = folder_at(&self.tree, path, steps) else {
            return refused(Refusal::PathNotFound);
        };
        if self.objects.except(folder).is_none() {
            return refused(Refusal::NotFound);
        }
        self.objects.drop_except(folder);
        self.done(moment)
    }

    // Lists all exceptions.
    fn list_excepts(&self, moment: u64) -> Answer
        requires ready { IsReady self.now moment }
        ensures { Does self.now self.now moment (Exception ExceptionList) result }
    {
        listing(Ask::Excepts)
    }

    // Does a command on screens.
    pub(crate) fn on_screens<L: Ledger>(
        &mut self,
        alloc: Global,
        deed: &ScreenDeed,
        moment: u64,
        steps: &mut Steps<L>,
    ) -> Result<Answer, NoMemory>
        requires ready { IsReady self.old moment }
        requires valid { is_deed (Screen deed.now) ≡ true }
        ensures ok { IfOk result (λ answer. Does self.old self.new moment (Screen deed.now) answer) }
        ensures memory { OnErr result (may_want_memory (rows_of self.old) (Screen deed.now) ≡ true) }
        ensures err { OnErr result (self.new ≡ self.old) }
        ensures sound { IsSound self.new }
        ensures looks { steps.new ≤ steps.old + deed_cost (rows_of self.old) (Screen deed.now) }
    {
        match deed {
            ScreenDeed::Add(screen) => self.screen_add(alloc, screen, moment, steps),
            ScreenDeed::Modify(change) => self.screen_modify(alloc, change, moment, steps),
            ScreenDeed::Delete { path } => Ok(self.screen_delete(path, moment, steps)),
            ScreenDeed::List => Ok(self.list_screens(moment)),
        }
    }

    /// Does a command on exceptions.
    pub(crate) fn on_exceptions<L: Ledger>(
        &mut self,
        alloc: Global,
        deed: &ExceptionDeed,
        moment: u64,
        steps: &mut Steps<L>,
    ) -> Result<Answer, NoMemory>
        requires ready { IsReady self.old moment }
        requires valid { is_deed (Exception deed.now) ≡ true }
        ensures ok { IfOk result (λ answer. Does self.old self.new moment (Exception deed.now) answer) }
        ensures memory { OnErr result (may_want_memory (rows_of self.old) (Exception deed.now) ≡ true) }
        ensures err { OnErr result (self.new ≡ self.old) }
        ensures sound { IsSound self.new }
        ensures looks { steps.new ≤ steps.old + deed_cost (rows_of self.old) (Exception deed.now) }
    {
        match deed {
            ExceptionDeed::Add(except) => self.except_add(alloc, except, moment, steps),
            ExceptionDeed::Delete { path } => Ok(self.except_delete(path, moment, steps)),
            ExceptionDeed::List => Ok(self.list_excepts(moment)),
        }
    }
}
