//! Text that waits is shown, once all that it tells of is kept.

ghost use Rattle.std.specs.Prelude.{◌≡◌, ◌<◌, [], length, OnOk, OnErr, MatchResult, IsErrOf, Err};
ghost use Rattle.fsrm_session.specs.Counts.{Counts};
ghost use Rattle.fsrm_session.specs.Members.{members};
ghost use Rattle.fsrm_session.specs.Spending.{bytes_after, Eases};
ghost use Rattle.fsrm_session.specs.Underway.{Breaks, Calms, CanFlush};

use crate::session::Session;
use crate::stop::Stop;
use crate::writing::flush;
use fsrm_model::{Ledger, Steps};
use fsrm_outside::{Failed, Outside};

// So much text waits at most.
const MOST_KEPT: usize = 1_048_576;

impl Session {
    // Shows the text that waits. No entry is held.
    fn show<O: Outside>(&mut self, outside: &mut O) -> Result<(), Stop>
        requires ready { CanFlush O.reads self.old outside.old }
        requires none { self.old.store.journal.held ≡ 0 }
        ensures runs { MatchResult result (λ _. Calms (members O.Source O.Sink O.Disk) self.old self.new outside.old outside.new) (λ stop. Breaks (members O.Source O.Sink O.Disk) stop self.old self.new outside.old outside.new) }
        ensures ready { OnOk result (CanFlush O.reads self.new outside.new) }
        ensures store { self.new.store ≡ self.old.store }
        ensures empty { OnOk result (self.new.kept.items ≡ []) }
        ensures only { OnErr result (result ≡ Err Stop.WriteFault) }
        ensures counts { Counts result (O.write_faults outside.old) (O.write_faults outside.new) (O.disk_faults outside.old) (O.disk_faults outside.new) }
        ensures reads { O.read_faults outside.new ≡ O.read_faults outside.old }
        ensures left { O.left outside.new ≡ O.left outside.old }
    {
        match flush(outside, &mut self.kept) {
            Ok(()) => Ok(()),
            Err(Failed) => Err(Stop::WriteFault),
        }
    }

    /// Makes all that was taken stable, and then shows the text that waits.
    pub fn settle<O: Outside, L: Ledger>(
        &mut self,
        outside: &mut O,
        steps: &mut Steps<L>,
    ) -> Result<(), Stop>
        requires ready { CanFlush O.reads self.old outside.old }
        ensures runs { MatchResult result (λ _. Calms (members O.Source O.Sink O.Disk) self.old self.new outside.old outside.new) (λ stop. Breaks (members O.Source O.Sink O.Disk) stop self.old self.new outside.old outside.new) }
        ensures ready { OnOk result (CanFlush O.reads self.new outside.new) }
        ensures engine { self.new.store.engine ≡ self.old.store.engine }
        ensures none { OnOk result (self.new.store.journal.held ≡ 0) }
        ensures empty { OnOk result (self.new.kept.items ≡ []) }
        ensures memory { IsErrOf result Stop.NoMemory → ⊥ }
        ensures counts { Counts result (O.write_faults outside.old) (O.write_faults outside.new) (O.disk_faults outside.old) (O.disk_faults outside.new) }
        ensures reads { O.read_faults outside.new ≡ O.read_faults outside.old }
        ensures left { O.left outside.new ≡ O.left outside.old }
        ensures looks { Eases (members O.Source O.Sink O.Disk) self.old outside.old steps.old steps.new (bytes_after result self.new) }
    {
        match self.store.flush(outside, steps) {
            Ok(()) => self.show(outside),
            Err(_fault) => Err(Stop::DiskFault),
        }
    }

    /// Shows the text that waits, if no entry is held. So a reader sees the reply to each command before the next one
    /// comes, unless commands are kept in groups.
    pub fn pause<O: Outside>(&mut self, outside: &mut O) -> Result<(), Stop>
        requires ready { CanFlush O.reads self.old outside.old }
        ensures runs { MatchResult result (λ _. Calms (members O.Source O.Sink O.Disk) self.old self.new outside.old outside.new) (λ stop. Breaks (members O.Source O.Sink O.Disk) stop self.old self.new outside.old outside.new) }
        ensures ready { OnOk result (CanFlush O.reads self.new outside.new) }
        ensures store { self.new.store ≡ self.old.store }
        ensures empty { self.old.store.journal.held ≡ 0 → OnOk result (self.new.kept.items ≡ []) }
        ensures memory { IsErrOf result Stop.NoMemory → ⊥ }
        ensures counts { Counts result (O.write_faults outside.old) (O.write_faults outside.new) (O.disk_faults outside.old) (O.disk_faults outside.new) }
        ensures reads { O.read_faults outside.new ≡ O.read_faults outside.old }
        ensures left { O.left outside.new ≡ O.left outside.old }
    {
        if self.store.held() > 0 {
            return Ok(());
        }
        self.show(outside)
    }

    // Settles if much text waits.
    pub(crate) fn ease<O: Outside, L: Ledger>(
        &mut self,
        outside: &mut O,
        steps: &mut Steps<L>,
    ) -> Result<(), Stop>
        requires ready { CanFlush O.reads self.old outside.old }
        ensures runs { MatchResult result (λ _. Calms (members O.Source O.Sink O.Disk) self.old self.new outside.old outside.new) (λ stop. Breaks (members O.Source O.Sink O.Disk) stop self.old self.new outside.old outside.new) }
        ensures ready { OnOk result (CanFlush O.reads self.new outside.new) }
        ensures engine { self.new.store.engine ≡ self.old.store.engine }
        ensures few { OnOk result (length self.new.kept.items < 1048576) }
        ensures idle { length self.old.kept.items < 1048576 → outside.new ≡ outside.old }
        ensures memory { IsErrOf result Stop.NoMemory → ⊥ }
        ensures counts { Counts result (O.write_faults outside.old) (O.write_faults outside.new) (O.disk_faults outside.old) (O.disk_faults outside.new) }
        ensures reads { O.read_faults outside.new ≡ O.read_faults outside.old }
        ensures left { O.left outside.new ≡ O.left outside.old }
        ensures looks { Eases (members O.Source O.Sink O.Disk) self.old outside.old steps.old steps.new (bytes_after result self.new) }
    {
        if self.kept.len() < MOST_KEPT {
            return Ok(());
        }
        self.settle(outside, steps)
    }
}
