//! Copies of an engine's rows.

ghost use Rattle.std.specs.Prelude.{◌≡◌, ◌+◌, ◌*◌, ◌≤◌, length, is_some, IfOk, if◌then◌else◌};
ghost use Rattle.fsrm_model.specs.objects.QuotaStates.{head};
ghost use Rattle.fsrm_engine.specs.Machine.{IsWhole, rows_of};

use crate::parts::Parts;
use fsrm_model::{Ledger, NoMemory, Rows, Steps};
use std::alloc::Global;
use stored_rows::{
    acts_in, audits_in, autos_in, excepts_in, groups_in, jobs_in, quotas_in, screens_in,
    templates_in,
};

impl Parts {
    /// Copies of all rows. It takes a look for each node, and no more than 4 others for each if a scan is active.
    pub(crate) fn to_rows<L: Ledger>(
        &self,
        alloc: Global,
        steps: &mut Steps<L>,
    ) -> Result<Rows, NoMemory>
        requires { IsWhole self.now }
        ensures rows { IfOk result (λ rows. rows ≡ rows_of self.now) }
        ensures looks { steps.new ≤ steps.old + (if is_some (head self.now.scans.queue) then 5 * length self.now.tree.nodes else length self.now.tree.nodes) }
    {
        Ok(Rows {
            nodes: self.tree.to_rows(alloc, steps)?,
            quotas: quotas_in(alloc, &self.objects)?,
            templates: templates_in(alloc, &self.templates)?,
            autos: autos_in(alloc, &self.templates)?,
            groups: groups_in(alloc, &self.groups)?,
            screens: screens_in(alloc, &self.objects)?,
            excepts: excepts_in(alloc, &self.objects)?,
            jobs: jobs_in(alloc, &self.objects)?,
            acts: acts_in(alloc, &self.marks)?,
            audits: audits_in(alloc, &self.audit)?,
            queue: self.scans.waiting(alloc)?,
            unvisited: self.scans.unvisited(alloc, &self.tree, steps)?,
            run_limit: self.run_limit,
            last_moment: self.last_moment,
        })
    }
}
