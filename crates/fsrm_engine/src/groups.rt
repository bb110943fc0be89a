//! The commands on file groups.

ghost use Rattle.std.specs.Prelude.{◌≡◌, true, IfOk, OnErr};
ghost use Rattle.fsrm_model.specs.declared.command.Deed.TheVariants.{Filegroup};
ghost use Rattle.fsrm_model.specs.declared.command.FilegroupDeed.TheVariants.{Add as FilegroupAdd, Modify as FilegroupModify, Delete as FilegroupDelete, List as FilegroupList};
ghost use Rattle.fsrm_model.specs.commands.Commands.{is_new_filegroup, is_filegroup_change};
ghost use Rattle.fsrm_model.specs.commands.GroupWork.{is_used};
ghost use Rattle.fsrm_model.specs.store.Valued.{is_deed};
ghost use Rattle.fsrm_engine.specs.Machine.{Does, IsReady, IsSound, rows_of};
ghost use Rattle.fsrm_engine.specs.Memory.{may_want_memory};

use crate::parts::Parts;
use fsrm_model::{
    Answer, Ask, FilegroupChange, FilegroupDeed, List, NewFilegroup, NoMemory, Refusal, Text,
};
use fsrm_parts::{given_patterns, is_used, listing, patterns_of, refused, refused_by_groups};
use std::alloc::Global;

impl Parts {
    // Makes a file group.
    fn group_add(
        &mut self,
        alloc: Global,
        group: &NewFilegroup,
        moment: u64,
    ) -> Result<Answer, NoMemory>
        requires ready { IsReady self.old moment }
        requires valid { is_new_filegroup group.now ≡ true }
        ensures ok { IfOk result (λ answer. Does self.old self.new moment (Filegroup (FilegroupAdd group.now)) answer) }
        ensures err { OnErr result (self.new ≡ self.old) }
        ensures sound { IsSound self.new }
    {
        let members = patterns_of(alloc, &group.members)?;
        let non_members = patterns_of(alloc, &group.non_members)?;
        let room = self.room();
        match self
            .groups
            .add(group.name.as_str(), members, non_members, room)
        {
            Ok(_) => Ok(self.done(moment)),
            Err(fault) => refused_by_groups(fault),
        }
    }

    // Gives a file group other members, other non-members, or both.
    fn group_modify(
        &mut self,
        alloc: Global,
        change: &FilegroupChange,
        moment: u64,
    ) -> Result<Answer, NoMemory>
        requires ready { IsReady self.old moment }
        requires valid { is_filegroup_change change.now ≡ true }
        ensures ok { IfOk result (λ answer. Does self.old self.new moment (Filegroup (FilegroupModify change.now)) answer) }
        ensures err { OnErr result (self.new ≡ self.old) }
        ensures sound { IsSound self.new }
    {
        let Some(group) = self.groups.find(change.name.as_str()) else {
            return Ok(refused(Refusal::NotFound));
        };
        let members = given_patterns(alloc, &change.members)?;
        let non_members = given_patterns(alloc, &change.non_members)?;
        let room = self.room();
        match self
            .groups
            .modify(group, members.as_ref(), non_members.as_ref(), room)
        {
            Ok(()) => Ok(self.done(moment)),
            Err(fault) => refused_by_groups(fault),
        }
    }

    // Takes a file group away, if no screen and no exception names it.
    fn group_delete(&mut self, name: &Text, moment: u64) -> Answer
        requires ready { IsReady self.old moment }
        ensures ok { Does self.old self.new moment (Filegroup (FilegroupDelete name.now)) result }
        ensures sound { IsSound self.new }
    {
        let Some(group) = self.groups.find(name.as_str()) else {
            return refused(Refusal::NotFound);
        };
        if is_used(&self.objects, group) {
            return refused(Refusal::InUse);
        }
        self.groups.delete(group);
        self.done(moment)
    }

    // Lists all file groups.
    fn list_groups(&self, moment: u64) -> Answer
        requires ready { IsReady self.now moment }
        ensures { Does self.now self.now moment (Filegroup FilegroupList) result }
    {
        listing(Ask::Groups)
    }

    /// Does a command on file groups.
    pub(crate) fn on_groups(
        &mut self,
        alloc: Global,
        deed: &FilegroupDeed,
        moment: u64,
    ) -> Result<Answer, NoMemory>
        requires ready { IsReady self.old moment }
        requires valid { is_deed (Filegroup deed.now) ≡ true }
        ensures ok { IfOk result (λ answer. Does self.old self.new moment (Filegroup deed.now) answer) }
        ensures memory { OnErr result (may_want_memory (rows_of self.old) (Filegroup deed.now) ≡ true) }
        ensures err { OnErr result (self.new ≡ self.old) }
        ensures sound { IsSound self.new }
    {
        match deed {
            FilegroupDeed::Add(group) => self.group_add(alloc, group, moment),
            FilegroupDeed::Modify(change) => self.group_modify(alloc, change, moment),
            FilegroupDeed::Delete { name } => Ok(self.group_delete(name, moment)),
            FilegroupDeed::List => Ok(self.list_groups(moment)),
        }
    }
}
