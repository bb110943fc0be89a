//! The commands on auto-apply quotas.

ghost use Rattle.std.specs.Prelude.{◌≡◌, ◌+◌, ◌*◌, ◌≤◌, true, false, length, fold, IfErr, IfOk, MatchResult, OnOk, OnErr, Some, None};
ghost use Rattle.fsrm_base.specs.Keyed.{has_row};
ghost use Rattle.fsrm_model.specs.declared.command.AutoquotaDeed.TheVariants.{Add as AutoquotaAdd, Delete as AutoquotaDelete, List as AutoquotaList};
ghost use Rattle.fsrm_model.specs.declared.command.Deed.TheVariants.{Autoquota};
ghost use Rattle.fsrm_model.specs.objects.AutoApply.{auto_folder, is_auto, queue_with, quotas_with};
ghost use Rattle.fsrm_model.specs.commands.AutoWork.{new_auto};
ghost use Rattle.fsrm_model.specs.commands.Commands.{is_new_autoquota};
ghost use Rattle.fsrm_model.specs.commands.Cost.{deed_cost};
ghost use Rattle.fsrm_model.specs.objects.Templates.{template_number};
ghost use Rattle.fsrm_model.specs.nodes.Tree.{children};
ghost use Rattle.fsrm_model.specs.store.Valid.{IsValid};
ghost use Rattle.fsrm_model.specs.store.ValidScans.{IsQueue};
ghost use Rattle.fsrm_model.specs.store.Valued.{is_deed};
ghost use Rattle.templates.specs.Held.{with_auto};
ghost use Rattle.fsrm_engine.specs.Applying.{AreComing, IsGiven, apply_refusal};
ghost use Rattle.fsrm_parts.specs.Applying.{given_folders};
ghost use Rattle.fsrm_engine.specs.Machine.{Does, IsReady, IsSound, Turned, rows_of};
ghost use Rattle.fsrm_engine.specs.Memory.{may_want_memory};

use crate::parts::Parts;
use fsrm_base::room::left_of_texts;
use fsrm_model::limits::MOST_AUTOS;
use fsrm_model::{
    Answer, Ask, AutoRow, AutoquotaDeed, Ledger, List, NewAutoquota, NoMemory, Path, QuotaRow,
    Refusal, Steps,
};
use fsrm_parts::{derived_rows, folder_at, given_folders, listing, new_auto, refused};
use std::alloc::Global;

impl Parts {
    // Refuses an auto-apply quota that gives so many quotas, if there would be too many of either or their texts too
    // long.
    fn may_apply(&self, row: &AutoRow, count: usize) -> Result<(), Refusal>
        requires store { IsValid self.now.tree.size (rows_of self.now) }
        requires there { has_row template_number row.now.template self.now.templates.templates ≡ true }
        ensures may { OnOk result (apply_refusal self.now row.now count ≡ None) }
        ensures refused { IfErr result (λ refusal. apply_refusal self.now row.now count ≡ Some refusal) }
    {
        if self.templates.auto_count() as usize >= MOST_AUTOS {
            return Err(Refusal::TableFull);
        }
        match left_of_texts(&row.excluded, self.room().into()) {
            Some(left) => self.may_derive(row.template, count, left as u32),
            None => {
                // Too many quotas come before texts that are too long.
                self.may_derive(row.template, count, 0)?;
                Err(Refusal::TextsFull)
            }
        }
    }

    // The quotas that a new auto-apply quota gives, or why it can't come.
    fn given_rows<L: Ledger>(
        &self,
        alloc: Global,
        row: &AutoRow,
        moment: u64,
        steps: &mut Steps<L>,
    ) -> Result<Result<Vec<QuotaRow>, Refusal>, NoMemory>
        requires ready { IsReady self.now moment }
        requires there { has_row template_number row.now.template self.now.templates.templates ≡ true }
        ensures given { IfOk result (λ given. MatchResult given (λ rows. IsGiven self.now row.now moment rows.items) (λ refusal. apply_refusal self.now row.now (length (given_folders self.now.tree.nodes self.now.objects.quotas row.now)) ≡ Some refusal)) }
        ensures looks { steps.new ≤ steps.old + (1 + 3 * length (children self.now.tree.nodes row.now.folder)) }
    {
        let folders = given_folders(&self.tree, &self.objects, alloc, row, steps)?;
        if let Err(refusal) = self.may_apply(row, folders.len()) {
            return Ok(Err(refusal));
        }
        let rows = derived_rows(
            &self.tree,
            &self.templates,
            alloc,
            row.template,
            &folders,
            moment,
            steps,
        )?;
        Ok(Ok(rows))
    }

    // Puts an auto-apply quota on a folder that has none, and the quotas that it gives on their folders. An `Err`
    // changes nothing.
    fn apply_auto(&mut self, row: AutoRow, rows: Vec<QuotaRow>) -> Result<(), NoMemory>
        requires sound { IsSound self.old }
        requires queue { IsQueue self.old.objects.quotas self.old.scans.queue }
        requires absent { has_row auto_folder row.folder self.old.templates.autos ≡ false }
        requires there { has_row template_number row.template self.old.templates.templates ≡ true }
        requires valid { is_auto row ≡ true }
        requires coming { AreComing (record self.old { templates = with_auto self.old.templates row }) rows.items }
        ensures applied { OnOk result (Turned (record self.old { templates = with_auto self.old.templates row; objects = record self.old.objects { room = self.new.objects.room } }) self.new (fold quotas_with self.old.objects.quotas rows.items) (fold queue_with self.old.scans.queue rows.items)) }
        ensures err { OnErr result (self.new ≡ self.old) }
        ensures sound { IsSound self.new }
    {
        let folder = row.folder;
        let room = self.room();
        // Nothing refuses it (`may_apply`), so only memory can be wanting.
        let Ok(()) = self.templates.add_auto(row, room) else {
            return Err(NoMemory);
        };
        let Ok(()) = self.receive(rows) else {
            self.templates.drop_auto(folder);
            return Err(NoMemory);
        };
        Ok(())
    }

    // Gives a folder an auto-apply quota, and quotas of its template to the folders in it, but for those whose names
    // it excludes and those that have one.
    fn auto_add<L: Ledger>(
        &mut self,
        alloc: Global,
        auto: &NewAutoquota,
        moment: u64,
        steps: &mut Steps<L>,
    ) -> Result<Answer, NoMemory>
        requires ready { IsReady self.old moment }
        requires valid { is_new_autoquota auto.now ≡ true }
        ensures ok { IfOk result (λ answer. Does self.old self.new moment (Autoquota (AutoquotaAdd auto.now)) answer) }
        ensures memory { OnErr result (may_want_memory (rows_of self.old) (Autoquota (AutoquotaAdd auto.now)) ≡ true) }
        ensures err { OnErr result (self.new ≡ self.old) }
        ensures sound { IsSound self.new }
        ensures looks { steps.new ≤ steps.old + deed_cost (rows_of self.old) (Autoquota (AutoquotaAdd auto.now)) }
    {
        let Some(folder) = folder_at(&self.tree, &auto.path, steps) else {
            return Ok(refused(Refusal::PathNotFound));
        };
        if self.templates.auto(folder).is_some() {
            return Ok(refused(Refusal::AlreadyExists));
        }
        let Some(template) = self.templates.find(auto.template.as_str()) else {
            return Ok(refused(Refusal::NotFound));
        };
        let row = new_auto(alloc, folder, template, &auto.excluded)?;
        match self.given_rows(alloc, &row, moment, steps)? {
            Ok(rows) => {
                self.apply_auto(row, rows)?;
                Ok(self.done(moment))
            }
            Err(refusal) => Ok(refused(refusal)),
        }
    }

    // Takes an auto-apply quota away. The quotas that it gave stay.
    fn auto_delete<L: Ledger>(&mut self, path: &Path, moment: u64, steps: &mut Steps<L>) -> Answer
        requires ready { IsReady self.old moment }
        ensures ok { Does self.old self.new moment (Autoquota (AutoquotaDelete path.now)) result }
        ensures sound { IsSound self.new }
        ensures looks { steps.new ≤ steps.old + deed_cost (rows_of self.old) (Autoquota (AutoquotaDelete path.now)) }
    {
        let Some(folder) = folder_at(&self.tree, path, steps) else {
            return refused(Refusal::PathNotFound);
        };
        if self.templates.auto(folder).is_none() {
            return refused(Refusal::NotFound);
        }
        self.templates.drop_auto(folder);
        self.done(moment)
    }

    // Lists all auto-apply quotas.
    fn list_autos(&self, moment: u64) -> Answer
        requires ready { IsReady self.now moment }
        ensures { Does self.now self.now moment (Autoquota AutoquotaList) result }
    {
        listing(Ask::Autos)
    }

    /// Does a command on auto-apply quotas.
    pub(crate) fn on_autos<L: Ledger>(
        &mut self,
        alloc: Global,
        deed: &AutoquotaDeed,
        moment: u64,
        steps: &mut Steps<L>,
    ) -> Result<Answer, NoMemory>
        requires ready { IsReady self.old moment }
        requires valid { is_deed (Autoquota deed.now) ≡ true }
        ensures ok { IfOk result (λ answer. Does self.old self.new moment (Autoquota deed.now) answer) }
        ensures memory { OnErr result (may_want_memory (rows_of self.old) (Autoquota deed.now) ≡ true) }
        ensures err { OnErr result (self.new ≡ self.old) }
        ensures sound { IsSound self.new }
        ensures looks { steps.new ≤ steps.old + deed_cost (rows_of self.old) (Autoquota deed.now) }
    {
        match deed {
            AutoquotaDeed::Add(auto) => self.auto_add(alloc, auto, moment, steps),
            AutoquotaDeed::Delete { path } => Ok(self.auto_delete(path, moment, steps)),
            AutoquotaDeed::List => Ok(self.list_autos(moment)),
        }
    }
}
