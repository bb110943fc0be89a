//! What a run takes over the store that is there.

ghost use Rattle.std.specs.Prelude.{◌≡◌, ◌≤◌, ◌+◌, [], ℕ, List, true};
ghost use Rattle.fsrm_model.specs.declared.row.Capacity.{Capacity};
ghost use Rattle.fsrm_model.specs.declared.row.Rows.{Rows};
ghost use Rattle.fsrm_session.specs.Members.{members};
ghost use Rattle.fsrm_session.specs.Spending.{renewing, Spends};
ghost use Rattle.fsrm_session.specs.Turns.{bytes_of, looks_of, IsWithin};
ghost use Rattle.fsrm_session.specs.Underway.{CanTake, Underway};
ghost use Rattle.fsrm_store.specs.Amortized.{bytes_since, Amortized};
ghost use Rattle.fsrm_store.specs.Standing.{IsReady};
ghost use Rattle.fsrm_modes.specs.Looks.{left_after};
ghost use Rattle.fsrm_modes.specs.Tasks.{task_cost, task_group, task_turns, IsFit, IsGiven, Performs, ServesTask};

use crate::ending::{conclude, told};
use crate::expiring::{ExpireAsk, move_expired};
use crate::script::read_script;
use crate::status::Status;
use crate::ticking::tell_and_run;
use crate::work::sum_up;
use fsrm_model::{Ledger, Steps};
use fsrm_outside::Outside;
use fsrm_session::Session;
use fsrm_store::Store;
use std::alloc::Global;

/// What a run takes over a store.
#[derive(Clone, Copy)]
pub enum Task<'a> {
    /// The script that the source has left. Up to `group` records, 1 to 1,024, are made stable at once.
    Script { group: u32 },
    /// So many lines of the script that is made of this seed, and the line that sums their replies up.
    Made { seed: u64, count: u32 },
    /// The moves of old files.
    Moves(&'a ExpireAsk),
    /// The report jobs that are due at a moment.
    Jobs { moment: u64 },
}

// So many records of a task are made stable at once. The replies to a made script aren't shown, so nobody waits for
// them.
fn group_of(task: Task) -> u32
    requires fit { IsFit task }
    ensures group { result ≡ task_group task.entry }
    ensures few { 1 ≤ result }
    ensures most { result ≤ 1024 }
{
    match task {
        Task::Script { group } => group,
        Task::Made { .. } => 1024,
        Task::Moves(_) | Task::Jobs { .. } => 1,
    }
}

/// Takes a task over the store that the disk holds.
pub fn serve<O: Outside, L: Ledger>(
    alloc: Global,
    outside: &mut O,
    task: Task,
    steps: &mut Steps<L>,
) -> Status
    requires fit { IsFit task }
    ensures serves { ServesTask (members O.Source O.Sink O.Disk) task.entry result outside.old outside.new steps.old steps.new }
{
    let store = match Store::recover(alloc, outside, steps) {
        Ok(opened) => opened,
        Err(fault) => return Status::from(fault),
    };
    let mut session = Session::new(alloc, store);
    let ended = take(&mut session, outside, alloc, task, steps);
    conclude(&mut session, outside, ended, steps)
}

// Takes a task, once the store may be written to.
fn take<O: Outside, L: Ledger>(
    session: &mut Session,
    outside: &mut O,
    alloc: Global,
    task: Task,
    steps: &mut Steps<L>,
) -> Result<(), Status>
    requires fit { IsFit task }
    requires sound { session.old.store.sound ≡ true }
    requires idle { session.old.store.engine.waiting ≡ [] }
    requires none { session.old.store.journal.held ≡ 0 }
    requires ready { IsReady O.reads session.old.store.journal outside.old }
    ensures performs { Performs (members O.Source O.Sink O.Disk) task.entry result session.old session.new outside.old outside.new }
    ensures looks { (K : Capacity) (R : Rows) (script before : List ℕ) → IsGiven task.entry (O.left outside.old) script → Underway (members O.Source O.Sink O.Disk) K R [] [] before session.old outside.old → (most : ℕ) → IsWithin most R (task_turns task.entry script K R)
        → Amortized most (((steps.old + renewing session.old.store) + task_cost task.entry K R) + looks_of R (task_turns task.entry script K R)) steps.new (bytes_since session.old.store.journal + bytes_of R (task_turns task.entry script K R)) (left_after result session.new) }
{
    match session.begin(outside, group_of(task), steps) {
        Ok(()) => perform(session, outside, alloc, task, steps),
        Err(stop) => Err(Status::from(stop)),
    }
}

// Has a session take the turns of a task.
fn perform<O: Outside, L: Ledger>(
    session: &mut Session,
    outside: &mut O,
    alloc: Global,
    task: Task,
    steps: &mut Steps<L>,
) -> Result<(), Status>
    requires fit { IsFit task }
    requires group { session.old.store.group ≡ task_group task }
    requires ready { CanTake O.reads session.old outside.old }
    ensures performs { Performs (members O.Source O.Sink O.Disk) task.entry result session.old session.new outside.old outside.new }
    ensures looks { (script : List ℕ) → IsGiven task.entry (O.left outside.old) script
        → Spends (members O.Source O.Sink O.Disk) (task_turns task.entry script session.old.store.engine.size session.old.store.engine.rows) session.old outside.old (steps.old + task_cost task.entry session.old.store.engine.size session.old.store.engine.rows) steps.new (left_after result session.new) }
{
    match task {
        Task::Script { .. } => read_script(session, outside, alloc, steps),
        Task::Made { seed, count } => told(sum_up(session, outside, alloc, seed, count, steps)),
        Task::Moves(ask) => {
            // Old files are found by a walk.
            session.arrange();
            told(move_expired(session, outside, alloc, ask, steps))
        }
        Task::Jobs { moment } => told(tell_and_run(session, outside, alloc, moment, steps)),
    }
}
