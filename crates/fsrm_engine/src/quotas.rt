//! The commands on quotas.

ghost use Rattle.std.specs.Prelude.{◌≡◌, ◌+◌, ◌*◌, ◌≤◌, true, length, IfOk, OnErr, Some, None};
ghost use Rattle.fsrm_model.specs.declared.command.Deed.TheVariants.{Quota};
ghost use Rattle.fsrm_model.specs.declared.command.QuotaDeed.TheVariants.{Add as QuotaAdd, Modify as QuotaModify, Delete as QuotaDelete, Scan as QuotaScan, Resetpeak as QuotaResetpeak, List as QuotaList};
ghost use Rattle.fsrm_model.specs.commands.Commands.{is_new_quota, is_quota_change};
ghost use Rattle.fsrm_model.specs.commands.Cost.{deed_cost};
ghost use Rattle.fsrm_model.specs.objects.QuotaStates.{is_disabled};
ghost use Rattle.fsrm_model.specs.commands.QuotaWork.{new_quota, modified};
ghost use Rattle.fsrm_model.specs.store.Valued.{is_deed};
ghost use Rattle.fsrm_engine.specs.Machine.{Does, IsReady, IsSound, rows_of};
ghost use Rattle.fsrm_engine.specs.Memory.{may_want_memory};
ghost use Rattle.fsrm_engine.specs.Sources.{IsFirst};

use crate::parts::Parts;
use fsrm_model::{
    Answer, Ask, Duplicate, Ledger, List, NewQuota, NoMemory, Outcome, Path, QuotaChange,
    QuotaDeed, QuotaRow, QuotaState, Refusal, Steps, Text,
};
use fsrm_parts::{
    first_state, folder_at, is_disabled, listing, may_be_removed, modified, new_quota, passing,
    quota_at, refused, refused_for, state_after,
};
use std::alloc::Global;

impl Parts {
    // A folder's quota before the options of a command change it: that of a template, if one is named, else a hard one
    // without thresholds. None if no template has the name.
    fn first_quota(
        &self,
        alloc: Global,
        source: &Option<Text>,
        folder: u32,
        state: QuotaState,
        moment: u64,
    ) -> Result<Option<QuotaRow>, NoMemory>
        requires ready { IsReady self.now moment }
        ensures { IfOk result (λ first. IsFirst (rows_of self.now) source.now folder state moment first) }
    {
        let Some(name) = source else {
            return Ok(Some(new_quota(alloc, folder, state, moment)));
        };
        let Some(template) = self.template_named(name) else {
            return Ok(None);
        };
        let number = template.number;
        let row = self.templates.derive(alloc, number, folder, state, moment)?;
        Ok(Some(row))
    }

    // Makes a quota, of a template if one is named. It crosses no threshold: if it counts nothing is used.
    fn quota_add<L: Ledger>(
        &mut self,
        alloc: Global,
        quota: &NewQuota,
        moment: u64,
        steps: &mut Steps<L>,
    ) -> Result<Answer, NoMemory>
        requires ready { IsReady self.old moment }
        requires valid { is_new_quota quota.now ≡ true }
        ensures ok { IfOk result (λ answer. Does self.old self.new moment (Quota (QuotaAdd quota.now)) answer) }
        ensures memory { OnErr result (may_want_memory (rows_of self.old) (Quota (QuotaAdd quota.now)) ≡ true) }
        ensures err { OnErr result (self.new ≡ self.old) }
        ensures sound { IsSound self.new }
        ensures looks { steps.new ≤ steps.old + deed_cost (rows_of self.old) (Quota (QuotaAdd quota.now)) }
    {
        let Some(folder) = folder_at(&self.tree, &quota.path, steps) else {
            return Ok(refused(Refusal::PathNotFound));
        };
        if self.objects.quota(folder).is_some() {
            return Ok(refused(Refusal::AlreadyExists));
        }
        let state = first_state(&self.tree, folder, quota.enabled, steps);
        let Some(first) = self.first_quota(alloc, &quota.template, folder, state, moment)? else {
            return Ok(refused(Refusal::NotFound));
        };
        let none = List::new(alloc);
        let row = modified(
            alloc,
            &first,
            quota.limit,
            quota.enforce,
            &none,
            &quota.thresholds,
        )?;
        match self.enlist(row) {
            Ok(()) => Ok(self.done(moment)),
            Err(fault) => refused_for(fault),
        }
    }

    // Changes what is given of a quota: its limit, its type, its thresholds, its status.
    fn quota_modify<L: Ledger>(
        &mut self,
        alloc: Global,
        change: &QuotaChange,
        moment: u64,
        steps: &mut Steps<L>,
    ) -> Result<Answer, NoMemory>
        requires ready { IsReady self.old moment }
        requires valid { is_quota_change change.now ≡ true }
        ensures ok { IfOk result (λ answer. Does self.old self.new moment (Quota (QuotaModify change.now)) answer) }
        ensures memory { OnErr result (may_want_memory (rows_of self.old) (Quota (QuotaModify change.now)) ≡ true) }
        ensures err { OnErr result (self.new ≡ self.old) }
        ensures sound { IsSound self.new }
        ensures looks { steps.new ≤ steps.old + deed_cost (rows_of self.old) (Quota (QuotaModify change.now)) }
    {
        let quota = match quota_at(&self.tree, &self.objects, &change.path, steps) {
            Ok(quota) => quota,
            Err(refusal) => return Ok(refused(refusal)),
        };
        if !may_be_removed(change.removed.as_slice(), quota.thresholds.as_slice()) {
            return Ok(refused(Refusal::NotFound));
        }
        let before = quota.copy(alloc)?;
        let mut row = modified(
            alloc,
            &before,
            change.limit,
            change.enforce,
            &change.removed,
            &change.thresholds,
        )?;
        row.state = state_after(
            &self.tree,
            before.folder,
            before.state,
            change.enabled,
            steps,
        );
        if let Err(fault) = self.may_put(&row) {
            return refused_for(fault);
        }
        let used = self.usage.used(before.folder);
        self.replace(row);
        self.settle_quota(before.folder, Some(&before), used, moment);
        Ok(self.done(moment))
    }

    // Takes a quota away, with its scan.
    fn quota_delete<L: Ledger>(&mut self, path: &Path, moment: u64, steps: &mut Steps<L>) -> Answer
        requires ready { IsReady self.old moment }
        ensures ok { Does self.old self.new moment (Quota (QuotaDelete path.now)) result }
        ensures sound { IsSound self.new }
        ensures looks { steps.new ≤ steps.old + deed_cost (rows_of self.old) (Quota (QuotaDelete path.now)) }
    {
        let folder = match quota_at(&self.tree, &self.objects, path, steps) {
            Ok(quota) => quota.folder,
            Err(refusal) => return refused(refusal),
        };
        self.scans.leave(folder);
        self.take_away(folder);
        self.done(moment)
    }

    // Has a quota wait for a scan.
    fn quota_scan<L: Ledger>(&mut self, path: &Path, moment: u64, steps: &mut Steps<L>) -> Answer
        requires ready { IsReady self.old moment }
        ensures ok { Does self.old self.new moment (Quota (QuotaScan path.now)) result }
        ensures sound { IsSound self.new }
        ensures looks { steps.new ≤ steps.old + deed_cost (rows_of self.old) (Quota (QuotaScan path.now)) }
    {
        let quota = match quota_at(&self.tree, &self.objects, path, steps) {
            Ok(quota) => quota,
            Err(refusal) => return refused(refusal),
        };
        let folder = quota.folder;
        let state = quota.state;
        if is_disabled(state) {
            return refused(Refusal::InvalidCombination);
        }
        self.rebuild(folder);
        if state.counts() {
            return self.done(moment);
        }
        passing(Outcome::Done { passive: None })
    }

    // Sets a quota's peak to what is used.
    fn quota_resetpeak<L: Ledger>(
        &mut self,
        path: &Path,
        moment: u64,
        steps: &mut Steps<L>,
    ) -> Answer
        requires ready { IsReady self.old moment }
        ensures ok { Does self.old self.new moment (Quota (QuotaResetpeak path.now)) result }
        ensures sound { IsSound self.new }
        ensures looks { steps.new ≤ steps.old + deed_cost (rows_of self.old) (Quota (QuotaResetpeak path.now)) }
    {
        let folder = match quota_at(&self.tree, &self.objects, path, steps) {
            Ok(quota) => quota.folder,
            Err(refusal) => return refused(refusal),
        };
        let used = self.usage.used(folder).unwrap_or(0);
        self.objects.set_peak(folder, used, moment);
        self.done(moment)
    }

    // Lists a folder's quota.
    fn list_one<L: Ledger>(&self, path: &Path, moment: u64, steps: &mut Steps<L>) -> Answer
        requires ready { IsReady self.now moment }
        ensures ok { Does self.now self.now moment (Quota (QuotaList (Some path.now))) result }
        ensures looks { steps.new ≤ steps.old + (22 * length path.now + 2) }
    {
        let folder = match quota_at(&self.tree, &self.objects, path, steps) {
            Ok(quota) => quota.folder,
            Err(refusal) => return refused(refusal),
        };
        listing(Ask::Quotas(Some(folder)))
    }

    // Lists one quota, or all of them.
    fn quota_list<L: Ledger>(
        &self,
        path: &Option<Path>,
        moment: u64,
        steps: &mut Steps<L>,
    ) -> Answer
        requires ready { IsReady self.now moment }
        ensures ok { Does self.now self.now moment (Quota (QuotaList path.now)) result }
        ensures looks { steps.new ≤ steps.old + deed_cost (rows_of self.now) (Quota (QuotaList path.now)) }
    {
        match path {
            Some(path) => self.list_one(path, moment, steps),
            None => listing(Ask::Quotas(None)),
        }
    }

    /// Does a command on quotas.
    pub(crate) fn on_quotas<L: Ledger>(
        &mut self,
        alloc: Global,
        deed: &QuotaDeed,
        moment: u64,
        steps: &mut Steps<L>,
    ) -> Result<Answer, NoMemory>
        requires ready { IsReady self.old moment }
        requires valid { is_deed (Quota deed.now) ≡ true }
        ensures ok { IfOk result (λ answer. Does self.old self.new moment (Quota deed.now) answer) }
        ensures memory { OnErr result (may_want_memory (rows_of self.old) (Quota deed.now) ≡ true) }
        ensures err { OnErr result (self.new ≡ self.old) }
        ensures sound { IsSound self.new }
        ensures looks { steps.new ≤ steps.old + deed_cost (rows_of self.old) (Quota deed.now) }
    {
        match deed {
            QuotaDeed::Add(quota) => self.quota_add(alloc, quota, moment, steps),
            QuotaDeed::Modify(change) => self.quota_modify(alloc, change, moment, steps),
            QuotaDeed::Delete { path } => Ok(self.quota_delete(path, moment, steps)),
            QuotaDeed::Scan { path } => Ok(self.quota_scan(path, moment, steps)),
            QuotaDeed::Resetpeak { path } => Ok(self.quota_resetpeak(path, moment, steps)),
            QuotaDeed::List { path } => Ok(self.quota_list(path, moment, steps)),
        }
    }
}
