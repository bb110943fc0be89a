//! The quota that a folder gets when it is made or moved, if the folder that it then stands in has an auto-apply quota:
//! one of that one's template.

ghost use Rattle.std.specs.Prelude.{◌≡◌, ◌+◌, ◌≤◌, true, false, is_some, IfErr, IfOk, IfSome, OnErr, OnOk, Some, None};
ghost use Rattle.fsrm_base.specs.Keyed.{has_row};
ghost use Rattle.fsrm_model.specs.declared.row.QuotaState.TheVariants.{Complete};
ghost use Rattle.fsrm_model.specs.values.Name.{is_name};
ghost use Rattle.fsrm_model.specs.objects.Quota.{folder_of};
ghost use Rattle.fsrm_model.specs.objects.QuotaStates.{start};
ghost use Rattle.fsrm_model.specs.objects.Templates.{template_number};
ghost use Rattle.fsrm_model.specs.nodes.Tree.{fresh, is_folder};
ghost use Rattle.fsrm_model.specs.store.Valid.{IsValid};
ghost use Rattle.volume_tree.specs.Volume.{new_fault};
ghost use Rattle.fsrm_engine.specs.Machine.{AreCounted, IsReady, IsSound, rows_of};
ghost use Rattle.fsrm_engine.specs.Arrivals.{Receives, from_source, source_fault, with_folder};

use crate::parts::Parts;
use fsrm_model::{Ledger, NoMemory, QuotaState, Refusal, Steps};
use fsrm_parts::{Place, derived_row};
use std::alloc::Global;
use volume_tree::Finger;

impl Parts {
    /// Refuses a quota that is to come of a template, if one is named and there is no room: there would be too many
    /// quotas, or too long texts.
    pub(crate) fn may_come(&self, source: Option<u32>) -> Result<(), Refusal>
        requires store { IsValid self.now.tree.size (rows_of self.now) }
        requires there { IfSome source (λ template. has_row template_number template self.now.templates.templates ≡ true) }
        ensures may { OnOk result (source_fault self.now source ≡ None) }
        ensures refused { IfErr result (λ refusal. source_fault self.now source ≡ Some refusal) }
    {
        match source {
            Some(template) => self.may_derive(template, 1, self.room()),
            None => Ok(()),
        }
    }

    /// Makes a folder, with its quota if it gets one: only then can memory run out. An `Err` changes nothing.
    pub(crate) fn make_folder<L: Ledger>(
        &mut self,
        alloc: Global,
        place: Place<'_>,
        vacancy: Finger,
        source: Option<u32>,
        owner: u32,
        moment: u64,
        steps: &mut Steps<L>,
    ) -> Result<u32, NoMemory>
        requires ready { IsReady self.old moment }
        requires folder { is_folder self.old.tree.nodes place.folder ≡ true }
        requires name { is_name place.name.now ≡ true }
        requires owner { 1 ≤ owner }
        requires may { new_fault self.old.tree place.folder place.name.now ≡ None }
        requires there { IfSome source (λ template. has_row template_number template self.old.templates.templates ≡ true) }
        ensures number { IfOk result (λ number. number ≡ fresh self.old.tree.nodes) }
        ensures made { OnOk result (self.new ≡ with_folder self.old place.entry.folder place.entry.name.now owner moment (from_source self.old.templates.templates (fresh self.old.tree.nodes) Complete moment source)) }
        ensures memory { OnErr result (is_some source ≡ true) }
        ensures err { OnErr result (self.new ≡ self.old) }
        ensures counted { AreCounted self.new }
        ensures looks { steps.new ≤ steps.old + 67 }
    {
        match source {
            Some(template) => {
                self.make_with_quota(alloc, place, vacancy, template, owner, moment, steps)
            }
            None => Ok(
                self.tree
                    .make_folder(place.folder, place.name, vacancy, owner, moment, steps),
            ),
        }
    }

    // Makes a folder with a quota of a template. Nothing is in it, so the quota counts from the first.
    fn make_with_quota<L: Ledger>(
        &mut self,
        alloc: Global,
        place: Place<'_>,
        vacancy: Finger,
        template: u32,
        owner: u32,
        moment: u64,
        steps: &mut Steps<L>,
    ) -> Result<u32, NoMemory>
        requires ready { IsReady self.old moment }
        requires folder { is_folder self.old.tree.nodes place.folder ≡ true }
        requires name { is_name place.name.now ≡ true }
        requires owner { 1 ≤ owner }
        requires may { new_fault self.old.tree place.folder place.name.now ≡ None }
        requires there { has_row template_number template self.old.templates.templates ≡ true }
        ensures number { IfOk result (λ number. number ≡ fresh self.old.tree.nodes) }
        ensures made { OnOk result (self.new ≡ with_folder self.old place.entry.folder place.entry.name.now owner moment (from_source self.old.templates.templates (fresh self.old.tree.nodes) Complete moment (Some template))) }
        ensures err { OnErr result (self.new ≡ self.old) }
        ensures counted { AreCounted self.new }
        ensures looks { steps.new ≤ steps.old + 67 }
    {
        // 0 stands for the folder, whose number is known once it is made.
        let mut row = self
            .templates
            .derive(alloc, template, 0, QuotaState::Complete, moment)?;
        let node = self
            .tree
            .make_folder(place.folder, place.name, vacancy, owner, moment, steps);
        row.folder = node;
        // `may_come` was asked, so only memory can be wanting.
        let Ok(()) = self.add(row) else {
            self.tree.remove(node, steps).unwrap();
            return Err(NoMemory);
        };
        Ok(node)
    }

    /// Gives a folder that is about to move the quota of its new place, if it gets one. What stands in the folder moves
    /// with it, so the quota is the same as if it were given after the move. Memory can run out only if it gets one. An
    /// `Err` changes nothing.
    pub(crate) fn receive_moved<L: Ledger>(
        &mut self,
        alloc: Global,
        source: Option<u32>,
        node: u32,
        moment: u64,
        steps: &mut Steps<L>,
    ) -> Result<(), NoMemory>
        requires ready { IsReady self.old moment }
        requires there { IfSome source (λ template. has_row template_number template self.old.templates.templates ≡ true) }
        requires kind { is_some source ≡ true → is_folder self.old.tree.nodes node ≡ true }
        requires absent { is_some source ≡ true → has_row folder_of node self.old.objects.quotas ≡ false }
        requires may { source_fault self.old source ≡ None }
        ensures received { OnOk result (Receives self.old self.new (from_source self.old.templates.templates node (start self.old.tree.nodes node) moment source)) }
        ensures memory { OnErr result (is_some source ≡ true) }
        ensures err { OnErr result (self.new ≡ self.old) }
        ensures sound { IsSound self.new }
        ensures looks { steps.new ≤ steps.old + 1 }
    {
        let Some(template) = source else {
            return Ok(());
        };
        let row = derived_row(
            &self.tree,
            &self.templates,
            alloc,
            template,
            node,
            moment,
            steps,
        )?;
        // `may_come` was asked, so only memory can be wanting.
        let Ok(()) = self.enlist(row) else {
            return Err(NoMemory);
        };
        Ok(())
    }
}
