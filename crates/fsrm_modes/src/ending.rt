//! How a run comes to its end.

ghost use Rattle.std.specs.Prelude.{◌≡◌, ◌≤◌, ◌++◌, length, ℕ, List, Some, IfErr, MatchResult};
ghost use Rattle.fsrm_model.specs.declared.row.Capacity.{Capacity};
ghost use Rattle.fsrm_model.specs.declared.row.Rows.{Rows};
ghost use Rattle.fsrm_outside.specs.Causes.{Rose};
ghost use Rattle.fsrm_session.specs.Members.{members};
ghost use Rattle.fsrm_session.specs.Turns.{text_of, IsWithin, Turn};
ghost use Rattle.fsrm_session.specs.Underway.{CanFlush, Safe, ShowsSome, Underway};
ghost use Rattle.fsrm_store.specs.Amortized.{bytes_since, Amortized};
ghost use Rattle.fsrm_modes.specs.Ends.{Outcome, Took};
ghost use Rattle.fsrm_modes.specs.Looks.{left_after};
ghost use Rattle.fsrm_modes.specs.OwnTurns.{ended_by};
ghost use Rattle.fsrm_modes.specs.Statuses.{CloseCounts, IsReadEnd, IsSettled, SettleCounts};

use crate::status::Status;
use fsrm_model::{Ledger, Steps};
use fsrm_outside::Outside;
use fsrm_session::{Session, Stop};

// The status of a session that stopped.
pub(crate) fn told(taken: Result<(), Stop>) -> Result<(), Status>
    ensures { result ≡ ended_by taken }
{
    match taken {
        Ok(()) => Ok(()),
        Err(stop) => Err(Status::from(stop)),
    }
}

// Ends a run: what is held is made stable and what waits is shown, unless the disk or a write failed.
pub(crate) fn conclude<O: Outside, L: Ledger>(
    session: &mut Session,
    outside: &mut O,
    ended: Result<(), Status>,
    steps: &mut Steps<L>,
) -> Status
    requires ready { MatchResult ended (λ _. CanFlush O.reads session.old outside.old) (λ status. IsSettled status → CanFlush O.reads session.old outside.old) }
    requires only { IfErr ended IsReadEnd }
    ensures concludes { (K : Capacity) (R : Rows) (turns : List Turn) (before : List ℕ) (start : O) → Took (members O.Source O.Sink O.Disk) ended K R turns before session.old start outside.old
        → Outcome (members O.Source O.Sink O.Disk) result K R turns before start outside.new }
    ensures whole { (K : Capacity) (R : Rows) (turns : List Turn) (words before : List ℕ) → Underway (members O.Source O.Sink O.Disk) K R turns words before session.old outside.old
        → IfErr ended (λ status. IsSettled status → (Rose (O.write_faults outside.old) (O.write_faults outside.new) → ⊥) → (Rose (O.disk_faults outside.old) (O.disk_faults outside.new) → ⊥) → O.shown outside.new ≡ Some (before ++ words)) }
    ensures status { IfErr ended (λ status. result ≡ status) }
    ensures counts { MatchResult ended (λ _. SettleCounts result (O.write_faults outside.old) (O.write_faults outside.new) (O.disk_faults outside.old) (O.disk_faults outside.new)) (λ status. CloseCounts status (O.write_faults outside.old) (O.write_faults outside.new) (O.disk_faults outside.old) (O.disk_faults outside.new)) }
    ensures reads { O.read_faults outside.new ≡ O.read_faults outside.old }
    ensures left { O.left outside.new ≡ O.left outside.old }
    ensures looks { (K : Capacity) (R : Rows) (turns : List Turn) (before : List ℕ) (start : O) → Took (members O.Source O.Sink O.Disk) ended K R turns before session.old start outside.old → (most looks bytes : ℕ) → IsWithin most R turns
        → Amortized most looks steps.old bytes (left_after ended session.old) → Amortized most looks steps.new bytes 0 }
{
    match ended {
        Ok(()) => match session.settle(outside, steps) {
            Ok(()) => Status::Done,
            Err(stop) => Status::from(stop),
        },
        Err(status) => {
            close(session, outside, status, steps);
            status
        }
    }
}

// After a read that failed, or a script that was too long, and if memory ran out, what was taken is still told.
fn close<O: Outside, L: Ledger>(
    session: &mut Session,
    outside: &mut O,
    status: Status,
    steps: &mut Steps<L>,
)
    requires ready { IsSettled status → CanFlush O.reads session.old outside.old }
    ensures settled { IsSettled status → (K : Capacity) (R : Rows) (turns : List Turn) (words before : List ℕ) → Underway (members O.Source O.Sink O.Disk) K R turns words before session.old outside.old
        → ShowsSome (members O.Source O.Sink O.Disk) (text_of R turns) before outside.new × Safe (members O.Source O.Sink O.Disk) K R turns before outside.old outside.new }
    ensures whole { IsSettled status → (K : Capacity) (R : Rows) (turns : List Turn) (words before : List ℕ) → Underway (members O.Source O.Sink O.Disk) K R turns words before session.old outside.old
        → (Rose (O.write_faults outside.old) (O.write_faults outside.new) → ⊥) → (Rose (O.disk_faults outside.old) (O.disk_faults outside.new) → ⊥) → O.shown outside.new ≡ Some (before ++ words) }
    ensures same { (IsSettled status → ⊥) → outside.new ≡ outside.old }
    ensures write_later { O.write_faults outside.old ≤ O.write_faults outside.new }
    ensures disk_later { O.disk_faults outside.old ≤ O.disk_faults outside.new }
    ensures reads { O.read_faults outside.new ≡ O.read_faults outside.old }
    ensures left { O.left outside.new ≡ O.left outside.old }
    ensures looks { IsSettled status → (K : Capacity) (R : Rows) (turns : List Turn) (words before : List ℕ) → Underway (members O.Source O.Sink O.Disk) K R turns words before session.old outside.old
        → Amortized (length session.old.store.engine.rows.nodes) steps.old steps.new (bytes_since session.old.store.journal) 0 }
    ensures none { (IsSettled status → ⊥) → steps.new ≡ steps.old }
{
    match status {
        Status::ReadFault | Status::TooLong | Status::NoMemory => {
            // The status that came first stays.
            let _settled = session.settle(outside, steps);
        }
        _ => {}
    }
}
