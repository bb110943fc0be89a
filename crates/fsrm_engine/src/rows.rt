//! An engine from rows and back.

ghost use Rattle.std.specs.Prelude.{◌≡◌, ◌+◌, ◌*◌, ◌≤◌, [], true, false, length, is_some, IfOk, OnOk, IsErrOf, if◌then◌else◌};
ghost use Rattle.fsrm_model.specs.objects.QuotaStates.{head};
ghost use Rattle.fsrm_model.specs.store.Capacities.{is_capacity};
ghost use Rattle.fsrm_engine.specs.Restored.{is_restorable};

use crate::engine::Engine;
use crate::parts::Parts;
use fsrm_model::{Capacity, Ledger, NoMemory, Rows, Steps};
use std::alloc::Global;
use volume_tree::RowsFault;

impl Engine {
    /// An engine of this size with copies of these rows, in which no act waits. The rows are bad exactly if they aren't
    /// those of a store of this size, or a scan waits in them. It takes no more than 3 looks for each node: what is used
    /// below each quota is counted afresh, in one walk.
    pub fn from_rows<L: Ledger>(
        alloc: Global,
        rows: &Rows,
        size: Capacity,
        steps: &mut Steps<L>,
    ) -> Result<Engine, RowsFault>
        requires { is_capacity size ≡ true }
        ensures ok { IfOk result (λ engine. engine ≡ record { size = size; rows = rows.now; waiting = [] }) }
        ensures may { OnOk result (is_restorable size rows.now ≡ true) }
        ensures bad { IsErrOf result RowsFault.BadRows → is_restorable size rows.now ≡ false }
        ensures looks { steps.new ≤ steps.old + 3 * length rows.now.nodes }
    {
        let parts = Parts::from_rows(alloc, rows, size, steps)?;
        Ok(Engine { parts })
    }

    /// Copies of the rows. It takes a look for each node, and no more than 4 others for each if a scan is active.
    pub fn to_rows<L: Ledger>(&self, alloc: Global, steps: &mut Steps<L>) -> Result<Rows, NoMemory>
        ensures rows { IfOk result (λ rows. rows ≡ self.now.rows) }
        ensures looks { steps.new ≤ steps.old + (if is_some (head self.now.rows.queue) then 5 * length self.now.rows.nodes else length self.now.rows.nodes) }
    {
        self.parts.to_rows(alloc, steps)
    }
}
