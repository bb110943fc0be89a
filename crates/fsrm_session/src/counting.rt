//! Commands are taken, and their replies counted and not shown.

ghost use Rattle.std.specs.Prelude.{◌≡◌, ◌≤◌, ◌+◌, ◌∷◌, [], false, true, length, Err, Ok, Some, IfOk, OnOk, OnErr, MatchResult, IsErrOf};
ghost use Rattle.fsrm_model.specs.lines.Script.{replied_to};
ghost use Rattle.fsrm_model.specs.meaning.Named.{IsNamed};
ghost use Rattle.fsrm_model.specs.store.Valued.{is_command};
ghost use Rattle.fsrm_model.specs.texts.Text.{is_bare};
ghost use Rattle.fsrm_store.specs.Standing.{KeepsJournal, StandsAlike};
ghost use Rattle.made_script.specs.Tally.{accepts, one_reply, tally_of};
ghost use Rattle.fsrm_session.specs.Counts.{Counts};
ghost use Rattle.fsrm_session.specs.Members.{members};
ghost use Rattle.fsrm_session.specs.Spending.{bytes_after, Spends};
ghost use Rattle.fsrm_session.specs.Turns.{command_turn, telling_cost, told, unshown};
ghost use Rattle.fsrm_session.specs.Underway.{CanFlush, CanTake, Goes, Stops};

use crate::kept::Kept;
use crate::replies::write_reply;
use crate::session::Session;
use crate::stop::Stop;
use fsrm_model::{Answer, Command, Ledger, Outcome, Refusal, Steps};
use fsrm_outside::Outside;
use fsrm_store::StoreFault;
use made_script::Tally;
use reply_text::Line;

fn accepts(outcome: &Outcome) -> bool
    ensures { result ≡ accepts outcome.now }
{
    !matches!(outcome, Outcome::Refused(_))
}

impl Session {
    // Counts the reply to a command that was taken, and its acts. They are written to memory, where the next reply will
    // be written over them.
    fn tally<L: Ledger>(
        &mut self,
        line: Line,
        answer: &Answer,
        steps: &mut Steps<L>,
    ) -> Result<Tally, Stop>
        requires named { IsNamed self.old.store.engine.rows answer.now.outcome }
        requires calm { answer.now.lasting ≡ false → self.old.store.engine.waiting ≡ [] }
        ensures tally { IfOk result (λ tally. tally ≡ one_reply (accepts answer.now.outcome) (length self.old.store.engine.waiting) (length (told self.old.store.engine.size self.old.store.engine.rows self.old.store.engine.waiting line answer.now.outcome))) }
        ensures only { OnErr result (result ≡ Err Stop.NoMemory) }
        ensures idle { OnOk result (self.new.store.engine.waiting ≡ []) }
        ensures kept { self.new.kept ≡ self.old.kept }
        ensures stands { StandsAlike self.old.store self.new.store }
        ensures journal { KeepsJournal self.old.store self.new.store }
        ensures looks { steps.new ≤ steps.old + telling_cost self.old.store.engine.size self.old.store.engine.rows self.old.store.engine.waiting line.moment answer.now.outcome }
    {
        self.scratch.clear();
        let mut text = Kept {
            bytes: &mut self.scratch,
            faults: 0,
        };
        match write_reply(&mut self.store, self.alloc, &mut text, line, answer, steps) {
            Ok(acts) => {
                let bytes = text.bytes.len() as u64;
                Ok(Tally::one(accepts(&answer.outcome), acts, bytes))
            }
            Err(_) => Err(Stop::NoMemory),
        }
    }

    /// Takes a command, keeps it if it lasts, and answers what its reply comes to, if its line had this number. Nothing
    /// of it is shown.
    pub fn count<O: Outside, L: Ledger>(
        &mut self,
        outside: &mut O,
        number: u64,
        command: &Command,
        steps: &mut Steps<L>,
    ) -> Result<Tally, Stop>
        requires ready { CanTake O.reads self.old outside.old }
        requires valid { is_command command.now ≡ true }
        ensures runs { MatchResult result (λ _. Goes (members O.Source O.Sink O.Disk) (unshown (command_turn self.old.store.engine.size number command.now) ∷ []) self.old self.new outside.old outside.new) (λ stop. Stops (members O.Source O.Sink O.Disk) stop (unshown (command_turn self.old.store.engine.size number command.now) ∷ []) self.old self.new outside.old outside.new) }
        ensures tally { IfOk result (λ tally. tally ≡ tally_of self.old.store.engine.size self.old.store.engine.rows number (Some (Ok command.now))) }
        ensures rows { OnOk result (self.new.store.engine.rows ≡ (replied_to self.old.store.engine.size self.old.store.engine.rows number (Some (Ok command.now))).rows) }
        ensures ready { OnOk result (CanTake O.reads self.new outside.new) }
        ensures memory { IsErrOf result Stop.NoMemory → CanFlush O.reads self.new outside.new }
        ensures counts { Counts result (O.write_faults outside.old) (O.write_faults outside.new) (O.disk_faults outside.old) (O.disk_faults outside.new) }
        ensures reads { O.read_faults outside.new ≡ O.read_faults outside.old }
        ensures left { O.left outside.new ≡ O.left outside.old }
        ensures size { OnOk result (self.new.store.engine.size ≡ self.old.store.engine.size) }
        ensures looks { Spends (members O.Source O.Sink O.Disk) (unshown (command_turn self.old.store.engine.size number command.now) ∷ []) self.old outside.old steps.old steps.new (bytes_after result self.new) }
    {
        match self.store.apply(self.alloc, outside, command, steps) {
            Ok(answer) => {
                let moment = command.moment;
                self.tally(Line { number, moment }, &answer, steps)
            }
            Err(fault) => match fault {
                StoreFault::NoMemory => Err(Stop::NoMemory),
                // `apply` gives no fault but this one.
                _ => Err(Stop::DiskFault),
            },
        }
    }

    /// Answers what the refusal of a line comes to that no command could be read from. Nothing of it is shown, and
    /// nothing outside is asked.
    pub fn count_refusal<L: Ledger>(
        &mut self,
        number: u64,
        refusal: Refusal,
        steps: &mut Steps<L>,
    ) -> Result<Tally, Stop>
        requires idle { self.old.store.engine.waiting ≡ [] }
        requires bare { is_bare refusal ≡ true }
        ensures tally { IfOk result (λ tally. tally ≡ tally_of self.old.store.engine.size self.old.store.engine.rows number (Some (Err refusal))) }
        ensures only { OnErr result (result ≡ Err Stop.NoMemory) }
        ensures idle { OnOk result (self.new.store.engine.waiting ≡ []) }
        ensures kept { self.new.kept ≡ self.old.kept }
        ensures stands { StandsAlike self.old.store self.new.store }
        ensures journal { KeepsJournal self.old.store self.new.store }
        ensures looks { steps.new ≤ steps.old }
    {
        let answer = Answer {
            outcome: Outcome::Refused(refusal),
            lasting: false,
        };
        // The reply doesn't depend on the moment.
        self.tally(Line { number, moment: 0 }, &answer, steps)
    }
}
