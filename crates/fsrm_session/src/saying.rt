//! Text that tells of no command is said.

ghost use Rattle.std.specs.Prelude.{◌≡◌, ◌≢◌, ◌<◌, ◌≤◌, ◌∷◌, [], flat_map, length, OnOk, OnErr, MatchResult, IsErrOf, Err};
ghost use Rattle.line_parts.specs.Parts.{part_text};
ghost use Rattle.fsrm_session.specs.Batch.{most_waiting};
ghost use Rattle.fsrm_session.specs.Counts.{Counts};
ghost use Rattle.fsrm_session.specs.Members.{members};
ghost use Rattle.fsrm_session.specs.Spending.{bytes_after, Spends};
ghost use Rattle.fsrm_session.specs.Turns.{said_turn};
ghost use Rattle.fsrm_session.specs.Underway.{CanFlush, CanTake, Goes, Stops, StopsTelling, Tells};

use crate::batch::Batch;
use crate::kept::Kept;
use crate::session::Session;
use crate::stop::Stop;
use fsrm_model::{Ledger, Steps};
use fsrm_outside::Outside;
use line_parts::{Part, TextFault, send};

impl Session {
    // Writes a text while no entry is held: up to 65,536 bytes wait, and what waited longer is written.
    fn write_parts<O: Outside>(&mut self, outside: &mut O, parts: &[Part]) -> Result<(), Stop>
        requires ready { CanTake O.reads self.old outside.old }
        requires none { self.old.store.journal.held ≡ 0 }
        ensures runs { MatchResult result (λ _. Tells (members O.Source O.Sink O.Disk) (flat_map part_text parts.now) self.old self.new outside.old outside.new) (λ stop. StopsTelling (members O.Source O.Sink O.Disk) stop (flat_map part_text parts.now) self.old self.new outside.old outside.new) }
        ensures ready { OnOk result (CanTake O.reads self.new outside.new) }
        ensures memory { IsErrOf result Stop.NoMemory → CanFlush O.reads self.new outside.new }
        ensures counts { Counts result (O.write_faults outside.old) (O.write_faults outside.new) (O.disk_faults outside.old) (O.disk_faults outside.new) }
        ensures reads { O.read_faults outside.new ≡ O.read_faults outside.old }
        ensures left { O.left outside.new ≡ O.left outside.old }
        ensures store { self.new.store ≡ self.old.store }
        ensures few { length self.old.kept.items ≤ most_waiting → length self.new.kept.items ≤ most_waiting }
    {
        let mut batch = Batch {
            waiting: &mut self.kept,
            device: outside,
        };
        match send(&mut batch, parts) {
            Ok(()) => Ok(()),
            Err(TextFault::WriteFault) => Err(Stop::WriteFault),
            Err(TextFault::NoMemory) => Err(Stop::NoMemory),
        }
    }

    // Puts a text to what waits. If there is no memory for it, nothing of it waits.
    fn keep_parts<O: Outside>(&mut self, outside: &mut O, parts: &[Part]) -> Result<(), Stop>
        requires ready { CanTake O.reads self.old outside.old }
        ensures runs { MatchResult result (λ _. Tells (members O.Source O.Sink O.Disk) (flat_map part_text parts.now) self.old self.new outside.old outside.new) (λ stop. StopsTelling (members O.Source O.Sink O.Disk) stop (flat_map part_text parts.now) self.old self.new outside.old outside.new) }
        ensures same { outside.new ≡ outside.old }
        ensures only { OnErr result (result ≡ Err Stop.NoMemory) }
        ensures ready { OnOk result (CanTake O.reads self.new outside.new) }
        ensures memory { IsErrOf result Stop.NoMemory → CanFlush O.reads self.new outside.new }
        ensures store { self.new.store ≡ self.old.store }
        ensures err { OnErr result (self.new.kept.items ≡ self.old.kept.items) }
    {
        let mark = self.kept.len();
        let mut text = Kept {
            bytes: &mut self.kept,
            faults: 0,
        };
        if send(&mut text, parts).is_err() {
            self.kept.truncate(mark);
            return Err(Stop::NoMemory);
        }
        Ok(())
    }

    // Says a text, which then may wait.
    fn say_parts<O: Outside>(&mut self, outside: &mut O, parts: &[Part]) -> Result<(), Stop>
        requires ready { CanTake O.reads self.old outside.old }
        ensures runs { MatchResult result (λ _. Tells (members O.Source O.Sink O.Disk) (flat_map part_text parts.now) self.old self.new outside.old outside.new) (λ stop. StopsTelling (members O.Source O.Sink O.Disk) stop (flat_map part_text parts.now) self.old self.new outside.old outside.new) }
        ensures ready { OnOk result (CanTake O.reads self.new outside.new) }
        ensures memory { IsErrOf result Stop.NoMemory → CanFlush O.reads self.new outside.new }
        ensures counts { Counts result (O.write_faults outside.old) (O.write_faults outside.new) (O.disk_faults outside.old) (O.disk_faults outside.new) }
        ensures reads { O.read_faults outside.new ≡ O.read_faults outside.old }
        ensures left { O.left outside.new ≡ O.left outside.old }
        ensures store { self.new.store ≡ self.old.store }
        ensures few { self.old.store.journal.held ≡ 0 → length self.old.kept.items ≤ most_waiting → length self.new.kept.items ≤ most_waiting }
        ensures err { self.old.store.journal.held ≢ 0 → OnErr result (self.new.kept.items ≡ self.old.kept.items) }
    {
        if self.store.held() == 0 {
            self.write_parts(outside, parts)
        } else {
            self.keep_parts(outside, parts)
        }
    }

    /// Says a text that acknowledges nothing: it tells of no command, and is shown when that is convenient, but after
    /// all that was told before it.
    pub fn say<O: Outside, L: Ledger>(
        &mut self,
        outside: &mut O,
        parts: &[Part],
        steps: &mut Steps<L>,
    ) -> Result<(), Stop>
        requires ready { CanTake O.reads self.old outside.old }
        ensures runs { MatchResult result (λ _. Goes (members O.Source O.Sink O.Disk) (said_turn (flat_map part_text parts.now) ∷ []) self.old self.new outside.old outside.new) (λ stop. Stops (members O.Source O.Sink O.Disk) stop (said_turn (flat_map part_text parts.now) ∷ []) self.old self.new outside.old outside.new) }
        ensures ready { OnOk result (CanTake O.reads self.new outside.new) }
        ensures memory { IsErrOf result Stop.NoMemory → CanFlush O.reads self.new outside.new }
        ensures counts { Counts result (O.write_faults outside.old) (O.write_faults outside.new) (O.disk_faults outside.old) (O.disk_faults outside.new) }
        ensures reads { O.read_faults outside.new ≡ O.read_faults outside.old }
        ensures left { O.left outside.new ≡ O.left outside.old }
        ensures engine { self.new.store.engine ≡ self.old.store.engine }
        ensures few { OnOk result (length self.new.kept.items < 1048576) }
        ensures looks { Spends (members O.Source O.Sink O.Disk) (said_turn (flat_map part_text parts.now) ∷ []) self.old outside.old steps.old steps.new (bytes_after result self.new) }
    {
        self.say_parts(outside, parts)?;
        self.ease(outside, steps)
    }
}
