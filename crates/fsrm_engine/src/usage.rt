//! What the files at and below a node take.

ghost use Rattle.std.specs.Prelude.{◌≡◌, ◌+◌, ◌<◌, ◌≤◌, true, IfOk, OnErr};
ghost use Rattle.fsrm_model.specs.declared.command.Deed.TheVariants.{Usage};
ghost use Rattle.fsrm_model.specs.commands.Cost.{deed_cost};
ghost use Rattle.fsrm_engine.specs.Machine.{Does, IsReady, rows_of};
ghost use Rattle.fsrm_engine.specs.Memory.{may_want_memory};

use crate::parts::Parts;
use fsrm_model::{Answer, Ledger, NoMemory, Outcome, Path, Refusal, Steps};
use fsrm_parts::{passing, refused, usage_of};
use std::alloc::Global;

impl Parts {
    /// Sums up what the files at and below a node take.
    pub(crate) fn sum<L: Ledger>(
        &self,
        alloc: Global,
        path: &Path,
        moment: u64,
        steps: &mut Steps<L>,
    ) -> Result<Answer, NoMemory>
        requires ready { IsReady self.now moment }
        ensures ok { IfOk result (λ answer. Does self.now self.now moment (Usage path.now) answer) }
        ensures memory { OnErr result (may_want_memory (rows_of self.now) (Usage path.now) ≡ true) }
        ensures looks { steps.new ≤ steps.old + deed_cost (rows_of self.now) (Usage path.now) }
    {
        let Some(node) = self.tree.resolve(path, steps) else {
            return Ok(refused(Refusal::PathNotFound));
        };
        let bytes = usage_of(&self.tree, alloc, node, steps)?;
        Ok(passing(Outcome::Sum { node, bytes }))
    }
}
