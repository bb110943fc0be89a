//! Folders and files that are made.

ghost use Rattle.std.specs.Prelude.{◌≡◌, ◌+◌, ◌≤◌, true, IfOk, OnErr};
ghost use Rattle.fsrm_model.specs.declared.command.Deed.TheVariants.{File};
ghost use Rattle.fsrm_model.specs.declared.command.FileOp.TheVariants.{Mkdir, Create};
ghost use Rattle.fsrm_model.specs.commands.Cost.{deed_cost};
ghost use Rattle.fsrm_model.specs.values.Limits.{longest_file};
ghost use Rattle.fsrm_engine.specs.Machine.{Does, IsReady, IsSound, rows_of};
ghost use Rattle.fsrm_engine.specs.Memory.{may_want_memory};

use crate::parts::Parts;
use fsrm_model::{Answer, Ledger, NoMemory, Path, Steps};
use fsrm_parts::{blocking, refused, vacancy_at};
use quota_usage::Change;
use std::alloc::Global;

impl Parts {
    /// Makes a folder. If the folder that it stands in has an auto-apply quota that doesn't leave it out, it gets a
    /// quota: only then can memory run out.
    pub(crate) fn mkdir<L: Ledger>(
        &mut self,
        alloc: Global,
        path: &Path,
        owner: u32,
        moment: u64,
        steps: &mut Steps<L>,
    ) -> Result<Answer, NoMemory>
        requires ready { IsReady self.old moment }
        requires owner { 1 ≤ owner }
        ensures ok { IfOk result (λ answer. Does self.old self.new moment (File (Mkdir path.now owner)) answer) }
        ensures memory { OnErr result (may_want_memory (rows_of self.old) (File (Mkdir path.now owner)) ≡ true) }
        ensures err { OnErr result (self.new ≡ self.old) }
        ensures sound { IsSound self.new }
        ensures looks { steps.new ≤ steps.old + deed_cost (rows_of self.old) (File (Mkdir path.now owner)) }
    {
        let (place, vacancy) = match vacancy_at(&self.tree, path, steps) {
            Ok(found) => found,
            Err(refusal) => return Ok(refused(refusal)),
        };
        let source = self.templates.template_for(place.folder, place.name);
        if let Err(refusal) = self.may_come(source) {
            return Ok(refused(refusal));
        }
        let node = self.make_folder(alloc, place, vacancy, source, owner, moment, steps)?;
        self.scans.follow_mkdir(&self.tree, node);
        Ok(self.done(moment))
    }

    /// Makes a file, if no screen blocks its name and no quota refuses it.
    pub(crate) fn create<L: Ledger>(
        &mut self,
        path: &Path,
        length: u64,
        owner: u32,
        moment: u64,
        steps: &mut Steps<L>,
    ) -> Answer
        requires ready { IsReady self.old moment }
        requires length { length ≤ longest_file }
        requires owner { 1 ≤ owner }
        ensures ok { Does self.old self.new moment (File (Create path.now length owner)) result }
        ensures sound { IsSound self.new }
        ensures looks { steps.new ≤ steps.old + deed_cost (rows_of self.old) (File (Create path.now length owner)) }
    {
        let (place, vacancy) = match vacancy_at(&self.tree, path, steps) {
            Ok(found) => found,
            Err(refusal) => return refused(refusal),
        };
        let judged = self.judge(place.folder, place.name, steps);
        if let Some(active) = blocking(judged) {
            return self.block(active, owner, place.folder, place.name, moment);
        }
        let change = Change {
            from: None,
            to: Some(place.folder),
            minus: 0,
            plus: self.tree.allocated(length),
        };
        if let Err(exceeded) = self.admit(&change, steps) {
            return self.refuse(exceeded, moment);
        }
        let node = self.tree.make_file(
            place.folder,
            place.name,
            vacancy,
            length,
            owner,
            moment,
            steps,
        );
        self.scans.follow_create(&self.tree, node, length, steps);
        self.end_named(judged, owner, place, &change, moment, steps)
    }
}
