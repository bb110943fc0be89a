//! Replies are told: to the device if all is kept that they tell of, and else to the text that waits.

ghost use Rattle.std.specs.Prelude.{◌≡◌, ◌≢◌, ◌≤◌, ◌+◌, [], false, length, OnOk, OnErr, MatchResult, IsErrOf, Err};
ghost use Rattle.fsrm_model.specs.meaning.Named.{IsNamed};
ghost use Rattle.fsrm_store.specs.Standing.{KeepsJournal};
ghost use Rattle.fsrm_session.specs.Batch.{most_waiting};
ghost use Rattle.fsrm_session.specs.Counts.{Counts};
ghost use Rattle.fsrm_session.specs.Members.{members};
ghost use Rattle.fsrm_session.specs.Turns.{telling_cost, told};
ghost use Rattle.fsrm_session.specs.Underway.{CanFlush, CanTake, StopsTelling, Tells};

use crate::batch::Batch;
use crate::kept::Kept;
use crate::replies::write_reply;
use crate::session::Session;
use crate::stop::Stop;
use fsrm_model::{Answer, Ledger, Steps};
use fsrm_outside::Outside;
use line_parts::TextFault;
use reply_text::Line;

impl Session {
    // Tells a reply while no entry is held: up to 65,536 bytes wait, and what waited longer is written.
    fn write<O: Outside, L: Ledger>(
        &mut self,
        outside: &mut O,
        line: Line,
        answer: &Answer,
        steps: &mut Steps<L>,
    ) -> Result<(), Stop>
        requires ready { CanFlush O.reads self.old outside.old }
        requires none { self.old.store.journal.held ≡ 0 }
        requires named { IsNamed self.old.store.engine.rows answer.now.outcome }
        requires calm { answer.now.lasting ≡ false → self.old.store.engine.waiting ≡ [] }
        ensures runs { MatchResult result (λ _. Tells (members O.Source O.Sink O.Disk) (told self.old.store.engine.size self.old.store.engine.rows self.old.store.engine.waiting line answer.now.outcome) self.old self.new outside.old outside.new) (λ stop. StopsTelling (members O.Source O.Sink O.Disk) stop (told self.old.store.engine.size self.old.store.engine.rows self.old.store.engine.waiting line answer.now.outcome) self.old self.new outside.old outside.new) }
        ensures ready { OnOk result (CanTake O.reads self.new outside.new) }
        ensures memory { IsErrOf result Stop.NoMemory → CanFlush O.reads self.new outside.new }
        ensures counts { Counts result (O.write_faults outside.old) (O.write_faults outside.new) (O.disk_faults outside.old) (O.disk_faults outside.new) }
        ensures reads { O.read_faults outside.new ≡ O.read_faults outside.old }
        ensures left { O.left outside.new ≡ O.left outside.old }
        ensures size { self.new.store.engine.size ≡ self.old.store.engine.size }
        ensures rows { self.new.store.engine.rows ≡ self.old.store.engine.rows }
        ensures journal { KeepsJournal self.old.store self.new.store }
        ensures few { length self.old.kept.items ≤ most_waiting → length self.new.kept.items ≤ most_waiting }
        ensures looks { steps.new ≤ steps.old + telling_cost self.old.store.engine.size self.old.store.engine.rows self.old.store.engine.waiting line.moment answer.now.outcome }
    {
        let mut batch = Batch {
            waiting: &mut self.kept,
            device: outside,
        };
        match write_reply(&mut self.store, self.alloc, &mut batch, line, answer, steps) {
            Ok(_acts) => Ok(()),
            Err(TextFault::WriteFault) => Err(Stop::WriteFault),
            Err(TextFault::NoMemory) => Err(Stop::NoMemory),
        }
    }

    // Tells a reply in memory alone. If there is no memory for it, nothing of it waits.
    fn keep<O: Outside, L: Ledger>(
        &mut self,
        outside: &mut O,
        line: Line,
        answer: &Answer,
        steps: &mut Steps<L>,
    ) -> Result<(), Stop>
        requires ready { CanFlush O.reads self.old outside.old }
        requires named { IsNamed self.old.store.engine.rows answer.now.outcome }
        requires calm { answer.now.lasting ≡ false → self.old.store.engine.waiting ≡ [] }
        ensures runs { MatchResult result (λ _. Tells (members O.Source O.Sink O.Disk) (told self.old.store.engine.size self.old.store.engine.rows self.old.store.engine.waiting line answer.now.outcome) self.old self.new outside.old outside.new) (λ stop. StopsTelling (members O.Source O.Sink O.Disk) stop (told self.old.store.engine.size self.old.store.engine.rows self.old.store.engine.waiting line answer.now.outcome) self.old self.new outside.old outside.new) }
        ensures same { outside.new ≡ outside.old }
        ensures only { OnErr result (result ≡ Err Stop.NoMemory) }
        ensures ready { OnOk result (CanTake O.reads self.new outside.new) }
        ensures memory { IsErrOf result Stop.NoMemory → CanFlush O.reads self.new outside.new }
        ensures size { self.new.store.engine.size ≡ self.old.store.engine.size }
        ensures rows { self.new.store.engine.rows ≡ self.old.store.engine.rows }
        ensures journal { KeepsJournal self.old.store self.new.store }
        ensures err { OnErr result (self.new.kept.items ≡ self.old.kept.items) }
        ensures looks { steps.new ≤ steps.old + telling_cost self.old.store.engine.size self.old.store.engine.rows self.old.store.engine.waiting line.moment answer.now.outcome }
    {
        let mark = self.kept.len();
        let mut text = Kept {
            bytes: &mut self.kept,
            faults: 0,
        };
        if write_reply(&mut self.store, self.alloc, &mut text, line, answer, steps).is_err() {
            self.kept.truncate(mark);
            return Err(Stop::NoMemory);
        }
        Ok(())
    }

    // Tells the reply to a command that was taken, and its acts.
    pub(crate) fn tell<O: Outside, L: Ledger>(
        &mut self,
        outside: &mut O,
        line: Line,
        answer: &Answer,
        steps: &mut Steps<L>,
    ) -> Result<(), Stop>
        requires ready { CanFlush O.reads self.old outside.old }
        requires named { IsNamed self.old.store.engine.rows answer.now.outcome }
        requires calm { answer.now.lasting ≡ false → self.old.store.engine.waiting ≡ [] }
        ensures runs { MatchResult result (λ _. Tells (members O.Source O.Sink O.Disk) (told self.old.store.engine.size self.old.store.engine.rows self.old.store.engine.waiting line answer.now.outcome) self.old self.new outside.old outside.new) (λ stop. StopsTelling (members O.Source O.Sink O.Disk) stop (told self.old.store.engine.size self.old.store.engine.rows self.old.store.engine.waiting line answer.now.outcome) self.old self.new outside.old outside.new) }
        ensures ready { OnOk result (CanTake O.reads self.new outside.new) }
        ensures memory { IsErrOf result Stop.NoMemory → CanFlush O.reads self.new outside.new }
        ensures counts { Counts result (O.write_faults outside.old) (O.write_faults outside.new) (O.disk_faults outside.old) (O.disk_faults outside.new) }
        ensures reads { O.read_faults outside.new ≡ O.read_faults outside.old }
        ensures left { O.left outside.new ≡ O.left outside.old }
        ensures size { self.new.store.engine.size ≡ self.old.store.engine.size }
        ensures rows { self.new.store.engine.rows ≡ self.old.store.engine.rows }
        ensures journal { KeepsJournal self.old.store self.new.store }
        ensures few { self.old.store.journal.held ≡ 0 → length self.old.kept.items ≤ most_waiting → length self.new.kept.items ≤ most_waiting }
        ensures err { self.old.store.journal.held ≢ 0 → OnErr result (self.new.kept.items ≡ self.old.kept.items) }
        ensures looks { steps.new ≤ steps.old + telling_cost self.old.store.engine.size self.old.store.engine.rows self.old.store.engine.waiting line.moment answer.now.outcome }
    {
        if self.store.held() == 0 {
            self.write(outside, line, answer, steps)
        } else {
            self.keep(outside, line, answer, steps)
        }
    }
}
