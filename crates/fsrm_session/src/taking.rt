//! Commands are taken: journaled, if they last, and their replies told.

ghost use Rattle.std.specs.Prelude.{◌≡◌, ◌<◌, ◌∷◌, [], length, true, false, OnOk, MatchResult, IsErrOf};
ghost use Rattle.fsrm_model.specs.store.Valued.{is_command};
ghost use Rattle.fsrm_model.specs.texts.Text.{is_bare};
ghost use Rattle.fsrm_session.specs.Counts.{Counts};
ghost use Rattle.fsrm_session.specs.LongReplies.{is_long};
ghost use Rattle.fsrm_session.specs.Members.{members};
ghost use Rattle.fsrm_session.specs.Spending.{bytes_after, Eases, Spends};
ghost use Rattle.fsrm_session.specs.Turns.{command_turn, refused_turn};
ghost use Rattle.fsrm_session.specs.Underway.{Breaks, Calms, CanFlush, CanTake, Goes, Stops};

use crate::session::Session;
use crate::stop::Stop;
use fsrm_model::{
    AdminDeed, Answer, AutoquotaDeed, Command, Deed, ExceptionDeed, FilegroupDeed, Ledger, Outcome,
    QuotaDeed, Refusal, ReportsDeed, ScreenDeed, Steps, TemplateDeed,
};
use fsrm_outside::Outside;
use fsrm_store::StoreFault;
use reply_text::Line;

// Whether a command's reply may be long: a list, a sum, or a report. All before it is made stable and shown first, so
// it needn't wait in memory.
fn is_long(deed: &Deed) -> bool
    ensures { result ≡ is_long deed.now }
{
    match deed {
        Deed::Usage { .. } => true,
        Deed::Quota(deed) => matches!(deed.as_ref(), QuotaDeed::List { .. }),
        Deed::Template(deed) => matches!(deed.as_ref(), TemplateDeed::List),
        Deed::Autoquota(deed) => matches!(deed.as_ref(), AutoquotaDeed::List),
        Deed::Filegroup(deed) => matches!(deed.as_ref(), FilegroupDeed::List),
        Deed::Screen(deed) => matches!(deed.as_ref(), ScreenDeed::List),
        Deed::Exception(deed) => matches!(deed.as_ref(), ExceptionDeed::List),
        Deed::Reports(deed) => matches!(
            deed.as_ref(),
            ReportsDeed::Generate(_) | ReportsDeed::Run { .. } | ReportsDeed::List
        ),
        Deed::Admin(deed) => matches!(deed, AdminDeed::List | AdminDeed::Log),
        Deed::File(_) | Deed::Step { .. } => false,
    }
}

impl Session {
    // Settles before a command whose reply may be long.
    fn prepare<O: Outside, L: Ledger>(
        &mut self,
        outside: &mut O,
        deed: &Deed,
        steps: &mut Steps<L>,
    ) -> Result<(), Stop>
        requires ready { CanFlush O.reads self.old outside.old }
        ensures idle { is_long deed.now ≡ false → outside.new ≡ outside.old }
        ensures none { is_long deed.now ≡ true → OnOk result (self.new.kept.items ≡ []) }
        ensures runs { MatchResult result (λ _. Calms (members O.Source O.Sink O.Disk) self.old self.new outside.old outside.new) (λ stop. Breaks (members O.Source O.Sink O.Disk) stop self.old self.new outside.old outside.new) }
        ensures ready { OnOk result (CanFlush O.reads self.new outside.new) }
        ensures engine { self.new.store.engine ≡ self.old.store.engine }
        ensures memory { IsErrOf result Stop.NoMemory → ⊥ }
        ensures counts { Counts result (O.write_faults outside.old) (O.write_faults outside.new) (O.disk_faults outside.old) (O.disk_faults outside.new) }
        ensures reads { O.read_faults outside.new ≡ O.read_faults outside.old }
        ensures left { O.left outside.new ≡ O.left outside.old }
        ensures looks { Eases (members O.Source O.Sink O.Disk) self.old outside.old steps.old steps.new (bytes_after result self.new) }
    {
        if !is_long(deed) {
            return Ok(());
        }
        self.settle(outside, steps)
    }

    // Has the store take a command, and tells its reply.
    fn enter<O: Outside, L: Ledger>(
        &mut self,
        outside: &mut O,
        number: u64,
        command: &Command,
        steps: &mut Steps<L>,
    ) -> Result<(), Stop>
        requires ready { CanTake O.reads self.old outside.old }
        requires valid { is_command command.now ≡ true }
        ensures runs { MatchResult result (λ _. Goes (members O.Source O.Sink O.Disk) (command_turn self.old.store.engine.size number command.now ∷ []) self.old self.new outside.old outside.new) (λ stop. Stops (members O.Source O.Sink O.Disk) stop (command_turn self.old.store.engine.size number command.now ∷ []) self.old self.new outside.old outside.new) }
        ensures ready { OnOk result (CanTake O.reads self.new outside.new) }
        ensures memory { IsErrOf result Stop.NoMemory → CanFlush O.reads self.new outside.new }
        ensures counts { Counts result (O.write_faults outside.old) (O.write_faults outside.new) (O.disk_faults outside.old) (O.disk_faults outside.new) }
        ensures reads { O.read_faults outside.new ≡ O.read_faults outside.old }
        ensures left { O.left outside.new ≡ O.left outside.old }
        ensures size { OnOk result (self.new.store.engine.size ≡ self.old.store.engine.size) }
        ensures rows { OnOk result (self.new.store.engine.rows ≡ (command_turn self.old.store.engine.size number command.now).after self.old.store.engine.rows) }
        ensures full_size { IsErrOf result Stop.NoMemory → self.new.store.engine.size ≡ self.old.store.engine.size }
        ensures looks { Spends (members O.Source O.Sink O.Disk) (command_turn self.old.store.engine.size number command.now ∷ []) self.old outside.old steps.old steps.new (bytes_after result self.new) }
    {
        match self.store.apply(self.alloc, outside, command, steps) {
            Ok(answer) => {
                let moment = command.moment;
                self.tell(outside, Line { number, moment }, &answer, steps)
            }
            Err(fault) => match fault {
                StoreFault::NoMemory => Err(Stop::NoMemory),
                // `apply` gives no fault but this one.
                _ => Err(Stop::DiskFault),
            },
        }
    }

    /// Takes a command, keeps it if it lasts, and tells its reply and acts. Its line has this number. The reply to a
    /// command that is kept is shown once the command is. After it less than 1 MiB of text waits, as after each call
    /// that tells.
    pub fn take<O: Outside, L: Ledger>(
        &mut self,
        outside: &mut O,
        number: u64,
        command: &Command,
        steps: &mut Steps<L>,
    ) -> Result<(), Stop>
        requires ready { CanTake O.reads self.old outside.old }
        requires valid { is_command command.now ≡ true }
        ensures runs { MatchResult result (λ _. Goes (members O.Source O.Sink O.Disk) (command_turn self.old.store.engine.size number command.now ∷ []) self.old self.new outside.old outside.new) (λ stop. Stops (members O.Source O.Sink O.Disk) stop (command_turn self.old.store.engine.size number command.now ∷ []) self.old self.new outside.old outside.new) }
        ensures ready { OnOk result (CanTake O.reads self.new outside.new) }
        ensures memory { IsErrOf result Stop.NoMemory → CanFlush O.reads self.new outside.new }
        ensures counts { Counts result (O.write_faults outside.old) (O.write_faults outside.new) (O.disk_faults outside.old) (O.disk_faults outside.new) }
        ensures reads { O.read_faults outside.new ≡ O.read_faults outside.old }
        ensures left { O.left outside.new ≡ O.left outside.old }
        ensures size { OnOk result (self.new.store.engine.size ≡ self.old.store.engine.size) }
        ensures rows { OnOk result (self.new.store.engine.rows ≡ (command_turn self.old.store.engine.size number command.now).after self.old.store.engine.rows) }
        ensures full_size { IsErrOf result Stop.NoMemory → self.new.store.engine.size ≡ self.old.store.engine.size }
        ensures few { OnOk result (length self.new.kept.items < 1048576) }
        ensures looks { Spends (members O.Source O.Sink O.Disk) (command_turn self.old.store.engine.size number command.now ∷ []) self.old outside.old steps.old steps.new (bytes_after result self.new) }
    {
        self.prepare(outside, &command.deed, steps)?;
        self.enter(outside, number, command, steps)?;
        self.ease(outside, steps)
    }

    /// Tells the refusal of a line that no command could be read from.
    pub fn refuse<O: Outside, L: Ledger>(
        &mut self,
        outside: &mut O,
        number: u64,
        refusal: Refusal,
        steps: &mut Steps<L>,
    ) -> Result<(), Stop>
        requires ready { CanTake O.reads self.old outside.old }
        requires bare { is_bare refusal ≡ true }
        ensures runs { MatchResult result (λ _. Goes (members O.Source O.Sink O.Disk) (refused_turn self.old.store.engine.size number refusal ∷ []) self.old self.new outside.old outside.new) (λ stop. Stops (members O.Source O.Sink O.Disk) stop (refused_turn self.old.store.engine.size number refusal ∷ []) self.old self.new outside.old outside.new) }
        ensures ready { OnOk result (CanTake O.reads self.new outside.new) }
        ensures memory { IsErrOf result Stop.NoMemory → CanFlush O.reads self.new outside.new }
        ensures counts { Counts result (O.write_faults outside.old) (O.write_faults outside.new) (O.disk_faults outside.old) (O.disk_faults outside.new) }
        ensures reads { O.read_faults outside.new ≡ O.read_faults outside.old }
        ensures left { O.left outside.new ≡ O.left outside.old }
        ensures size { self.new.store.engine.size ≡ self.old.store.engine.size }
        ensures few { OnOk result (length self.new.kept.items < 1048576) }
        ensures looks { Spends (members O.Source O.Sink O.Disk) (refused_turn self.old.store.engine.size number refusal ∷ []) self.old outside.old steps.old steps.new (bytes_after result self.new) }
    {
        let answer = Answer {
            outcome: Outcome::Refused(refusal),
            lasting: false,
        };
        // The reply doesn't depend on the moment.
        self.tell(outside, Line { number, moment: 0 }, &answer, steps)?;
        self.ease(outside, steps)
    }
}
