//! The store.

ghost use Rattle.std.specs.Prelude.{◌≡◌, ◌⊎◌, ◌+◌, ◌*◌, ◌≤◌, ◌<◌, ℕ, [], ◌∷◌, None, true, false, length, Err, Option, IfOk, IfSome, IsErrOf, MatchOption, OnErr, OnOk};
ghost use Rattle.fsrm_model.specs.commands.Cost.{cost};
ghost use Rattle.fsrm_model.specs.commands.Step.{step};
ghost use Rattle.fsrm_model.specs.declared.command.Deed.TheVariants.{File};
ghost use Rattle.fsrm_model.specs.declared.command.Outcome.TheVariants.{Scanned};
ghost use Rattle.fsrm_model.specs.declared.row.Capacity.{Capacity};
ghost use Rattle.fsrm_model.specs.declared.row.Rows.{Rows};
ghost use Rattle.fsrm_model.specs.meaning.Named.{IsNamed};
ghost use Rattle.fsrm_model.specs.objects.Acts.{IsAct};
ghost use Rattle.fsrm_model.specs.store.Lasting.{lasting};
ghost use Rattle.fsrm_model.specs.store.Replays.{command_entries, is_finished_scan, is_scan_step, journal_entry};
ghost use Rattle.fsrm_model.specs.store.Valid.{is_valid, IsValid};
ghost use Rattle.fsrm_model.specs.store.Valued.{is_command};
ghost use Rattle.fsrm_outside.specs.Causes.{Rose};
ghost use Rattle.fsrm_outside.specs.Moments.{EachImage};
ghost use Rattle.fsrm_engine.specs.Machine.{Takes};
ghost use Rattle.fsrm_engine.specs.Memory.{may_want_memory};
ghost use Rattle.record_codec.specs.Writing.{lent};

use crate::fault::StoreFault;
use fsrm_base::NoMemory;
use fsrm_engine::Engine;
use fsrm_journal::Journal;
use fsrm_model::{Act, Answer, Command, Deed, FileOp, Ledger, Outcome, Steps};
use fsrm_outside::Disk;
use record_codec::EntryRef;
use std::alloc::Global;

/// The machine on its journal.
#[derive(Drop)]
pub struct Store {
    pub(crate) engine: Engine,
    pub(crate) journal: Journal,
    // For the bytes of an entry, or of some pieces of an image.
    pub(crate) buffer: Vec<u8>,
    // The bytes of the image of the half that rules.
    pub(crate) image: u64,
    // How many entries are held at most before they are made stable.
    pub(crate) group: u32,
    pub(crate) is_old: bool,
    pub(crate) sound: bool,
    ghost room: { 327680 ≤ length buffer.items },
    ghost grouped: { journal.group ≡ group },
    ghost free: { sound ≡ true → journal.held < group },
    ghost valid: { is_valid engine.size engine.rows ≡ true },
}

impl Store {
    ghost use Rattle.fsrm_store.specs.Amortized.{bytes_left, bytes_since, entries_bytes, Amortized, KeepsHalf};
    ghost use Rattle.fsrm_store.specs.Standing.{now_kept, HoldsEither, IsHeld, IsReady, IsWritten, KeepsJournal, Standing, StandsAlike};
    ghost use Rattle.fsrm_store.specs.declared.fault.StoreFault.TheVariants.{DiskFault, NoMemory as OutOfMemory};

    /// Puts the nodes of the tree into their order that aren't yet (`Engine::arrange`). Nothing else changes.
    pub fn arrange(&mut self)
        ensures { self.new ≡ self.old }
    {
        self.engine.arrange();
    }

    /// The machine, lent.
    pub fn engine(&self) -> &Engine
        ensures lent { result.now ≡ self.now.engine }
        ensures valid { IsValid self.now.engine.size self.now.engine.rows }
    {
        &self.engine
    }

    /// Hands out the first act that waits, as `Engine::next_act` does.
    pub fn next_act(&mut self) -> Option<Act>
        ensures handed_out { MatchOption result (self.old.engine.waiting ≡ []) (λ act. self.old.engine.waiting ≡ act ∷ self.new.engine.waiting) }
        ensures named { IfSome result (λ act. IsAct self.new.engine.rows act) }
        ensures none { result ≡ None → self.new.engine ≡ self.old.engine }
        ensures rows { self.new.engine.rows ≡ self.old.engine.rows }
        ensures size { self.new.engine.size ≡ self.old.engine.size }
        ensures journal { KeepsJournal self.old self.new }
        ensures stands { StandsAlike self.old self.new }
    {
        self.engine.next_act()
    }

    /// Whether every call of the disk succeeded. If not, the store has to be recovered.
    pub fn sound(&self) -> bool
        ensures { result ≡ self.now.sound }
    {
        self.sound
    }

    /// Whether the half that rules has version 1. Then a checkpoint comes first, which makes it version 2.
    pub fn old(&self) -> bool
        ensures { result ≡ self.now.is_old }
    {
        self.is_old
    }

    /// How many entries are held, which a crash would lose. If it is 0, all that was answered lasts.
    pub fn held(&self) -> u32
        ensures count { result ≡ self.now.journal.held }
        ensures few { self.now.sound ≡ true → result < self.now.group }
        ensures group { self.now.group ≤ 1024 }
    {
        self.journal.held()
    }

    /// Has up to `n` entries, 1 to 1,024, be made stable at once. `NoMemory`: there is no memory for them, and the groups
    /// stay as they were.
    pub fn set_group(&mut self, alloc: Global, n: u32) -> Result<(), NoMemory>
        requires few { 1 ≤ n }
        requires most { n ≤ 1024 }
        requires none { self.old.journal.held ≡ 0 }
        ensures ok { OnOk result (self.new.group ≡ n) }
        ensures err { OnErr result (self.new.group ≡ self.old.group) }
        ensures stands { StandsAlike self.old self.new }
        ensures none { self.new.journal.held ≡ 0 }
        ensures engine { self.new.engine ≡ self.old.engine }
        ensures sound { self.new.sound ≡ self.old.sound }
        ensures old { self.new.is_old ≡ self.old.is_old }
    {
        self.journal.set_group(alloc, n)?;
        self.group = n;
        Ok(())
    }

    /// Takes a command, as `Engine::apply` does, and keeps its entry if it lasts: it is held, and the call that fills the
    /// group makes all that is held stable. A command that doesn't last makes no call of the disk. Whatever the answer is, a
    /// crash leaves the rows that were kept, or what is kept of the rows after the command. `NoMemory` changes nothing. After
    /// `DiskFault` the store has to be recovered.
    pub fn apply<D: Disk, L: Ledger>(
        &mut self,
        alloc: Global,
        disk: &mut D,
        command: &Command,
        steps: &mut Steps<L>,
    ) -> Result<Answer, StoreFault>
        requires sound { self.old.sound ≡ true }
        requires young { self.old.is_old ≡ false }
        requires valid { is_command command.now ≡ true }
        requires idle { self.old.engine.waiting ≡ [] }
        requires ready { IsReady D.reads self.old.journal disk.old }
        ensures ok { IfOk result (λ answer. Takes self.old.engine self.new.engine (step self.old.engine.size self.old.engine.rows command.now) answer) }
        ensures named { IfOk result (λ answer. IsNamed self.new.engine.rows answer.outcome) }
        ensures memory { IsErrOf result OutOfMemory → may_want_memory self.old.engine.rows command.now.deed ≡ true }
        ensures only { OnErr result ((result ≡ Err OutOfMemory) ⊎ (result ≡ Err DiskFault)) }
        ensures full { IsErrOf result OutOfMemory → (self.new.engine ≡ self.old.engine) × KeepsJournal self.old self.new × (disk.new ≡ disk.old) }
        ensures passing { IfOk result (λ answer. answer.lasting ≡ false → KeepsJournal self.old self.new × (disk.new ≡ disk.old)) }
        ensures held { self.old.journal.held + 1 < self.old.group → IfOk result (λ answer. answer.lasting ≡ true → IsHeld self.old self.new × (disk.new ≡ disk.old)) }
        ensures written { self.old.journal.held + 1 ≡ self.old.group → IfOk result (λ answer. answer.lasting ≡ true → IsWritten self.new) }
        ensures half { (kept : Rows) → Standing D.reads D.disk_clock D.images kept self.old disk.old
            → OnOk result (KeepsHalf self.old self.new (bytes_since self.old.journal + entries_bytes (command_entries self.old.engine.size self.old.engine.rows command.now))) }
        ensures leaves { (kept : Rows) → Standing D.reads D.disk_clock D.images kept self.old disk.old
            → EachImage D.disk_clock D.images (HoldsEither self.old.engine.size kept (lasting (step self.old.engine.size self.old.engine.rows command.now).rows)) disk.old disk.new }
        ensures store { (kept : Rows) → Standing D.reads D.disk_clock D.images kept self.old disk.old
            → OnOk result (Standing D.reads D.disk_clock D.images (now_kept kept self.new) self.new disk.new) }
        ensures sound { OnOk result (self.new.sound ≡ true) }
        ensures unsound { IsErrOf result DiskFault → self.new.sound ≡ false }
        ensures young { OnOk result (self.new.is_old ≡ false) }
        ensures group { self.new.group ≡ self.old.group }
        ensures ready { OnOk result (IsReady D.reads self.new.journal disk.new) }
        ensures looks { steps.new ≤ steps.old + cost self.old.engine.rows command.now + 2 * length self.new.engine.rows.nodes }
        ensures amortized { (kept : Rows) → Standing D.reads D.disk_clock D.images kept self.old disk.old
            → Amortized (length (step self.old.engine.size self.old.engine.rows command.now).rows.nodes) (steps.old + cost self.old.engine.rows command.now) steps.new (bytes_since self.old.journal + entries_bytes (command_entries self.old.engine.size self.old.engine.rows command.now)) (bytes_left result self.new) }
        ensures by { D.by_disk disk.old disk.new }
        ensures later { D.disk_faults disk.old ≤ D.disk_faults disk.new }
        ensures failed { IsErrOf result DiskFault → Rose (D.disk_faults disk.old) (D.disk_faults disk.new) }
        ensures counted { IsErrOf result DiskFault ⊎ (D.disk_faults disk.new ≡ D.disk_faults disk.old) }
    {
        let answer = self.engine.apply(alloc, command, steps)?;
        if !answer.lasting {
            return Ok(answer);
        }
        self.keep(disk, &entry_of(command, &answer.outcome), steps)?;
        Ok(answer)
    }

    /// Takes a file operation at this moment, as `Engine::file_op` does, under the same clauses as `apply`.
    pub fn file_op<D: Disk, L: Ledger>(
        &mut self,
        alloc: Global,
        disk: &mut D,
        op: &FileOp,
        moment: u64,
        steps: &mut Steps<L>,
    ) -> Result<Answer, StoreFault>
        requires sound { self.old.sound ≡ true }
        requires young { self.old.is_old ≡ false }
        requires valid { is_command (record { moment = moment; deed = File op.now }) ≡ true }
        requires idle { self.old.engine.waiting ≡ [] }
        requires ready { IsReady D.reads self.old.journal disk.old }
        ensures ok { IfOk result (λ answer. Takes self.old.engine self.new.engine (step self.old.engine.size self.old.engine.rows (record { moment = moment; deed = File op.now })) answer) }
        ensures named { IfOk result (λ answer. IsNamed self.new.engine.rows answer.outcome) }
        ensures memory { IsErrOf result OutOfMemory → may_want_memory self.old.engine.rows (File op.now) ≡ true }
        ensures only { OnErr result ((result ≡ Err OutOfMemory) ⊎ (result ≡ Err DiskFault)) }
        ensures full { IsErrOf result OutOfMemory → (self.new.engine ≡ self.old.engine) × KeepsJournal self.old self.new × (disk.new ≡ disk.old) }
        ensures passing { IfOk result (λ answer. answer.lasting ≡ false → KeepsJournal self.old self.new × (disk.new ≡ disk.old)) }
        ensures held { self.old.journal.held + 1 < self.old.group → IfOk result (λ answer. answer.lasting ≡ true → IsHeld self.old self.new × (disk.new ≡ disk.old)) }
        ensures written { self.old.journal.held + 1 ≡ self.old.group → IfOk result (λ answer. answer.lasting ≡ true → IsWritten self.new) }
        ensures half { (kept : Rows) → Standing D.reads D.disk_clock D.images kept self.old disk.old
            → OnOk result (KeepsHalf self.old self.new (bytes_since self.old.journal + entries_bytes (command_entries self.old.engine.size self.old.engine.rows (record { moment = moment; deed = File op.now })))) }
        ensures leaves { (kept : Rows) → Standing D.reads D.disk_clock D.images kept self.old disk.old
            → EachImage D.disk_clock D.images (HoldsEither self.old.engine.size kept (lasting (step self.old.engine.size self.old.engine.rows (record { moment = moment; deed = File op.now })).rows)) disk.old disk.new }
        ensures store { (kept : Rows) → Standing D.reads D.disk_clock D.images kept self.old disk.old
            → OnOk result (Standing D.reads D.disk_clock D.images (now_kept kept self.new) self.new disk.new) }
        ensures sound { OnOk result (self.new.sound ≡ true) }
        ensures unsound { IsErrOf result DiskFault → self.new.sound ≡ false }
        ensures young { OnOk result (self.new.is_old ≡ false) }
        ensures group { self.new.group ≡ self.old.group }
        ensures ready { OnOk result (IsReady D.reads self.new.journal disk.new) }
        ensures looks { steps.new ≤ steps.old + cost self.old.engine.rows (record { moment = moment; deed = File op.now }) + 2 * length self.new.engine.rows.nodes }
        ensures amortized { (kept : Rows) → Standing D.reads D.disk_clock D.images kept self.old disk.old
            → Amortized (length (step self.old.engine.size self.old.engine.rows (record { moment = moment; deed = File op.now })).rows.nodes) (steps.old + cost self.old.engine.rows (record { moment = moment; deed = File op.now })) steps.new (bytes_since self.old.journal + entries_bytes (command_entries self.old.engine.size self.old.engine.rows (record { moment = moment; deed = File op.now }))) (bytes_left result self.new) }
        ensures by { D.by_disk disk.old disk.new }
        ensures later { D.disk_faults disk.old ≤ D.disk_faults disk.new }
        ensures failed { IsErrOf result DiskFault → Rose (D.disk_faults disk.old) (D.disk_faults disk.new) }
        ensures counted { IsErrOf result DiskFault ⊎ (D.disk_faults disk.new ≡ D.disk_faults disk.old) }
    {
        let answer = self.engine.file_op(alloc, op, moment, steps)?;
        if !answer.lasting {
            return Ok(answer);
        }
        self.keep(disk, &EntryRef::Op { moment, op }, steps)?;
        Ok(answer)
    }
}

// What is kept of a command that lasts: of a step, which lasts if it finished a scan, the finish.
fn entry_of<'a>(command: &'a Command, outcome: &Outcome) -> EntryRef<'a>
    requires { is_scan_step command.now.deed ≡ true → is_finished_scan outcome.now ≡ true }
    ensures { (K : Capacity) (R : Rows) → (step K R command.now).outcome ≡ outcome.now → lent result ≡ journal_entry R command.now }
{
    match command.deed {
        Deed::Step { .. } => EntryRef::Finish {
            moment: command.moment,
            folder: finished_in(outcome),
        },
        _ => EntryRef::Order(command),
    }
}

// The folder of the scan that was finished.
fn finished_in(outcome: &Outcome) -> u32
    requires { is_finished_scan outcome.now ≡ true }
    ensures { (visited : ℕ) × (used : Option ℕ) × (outcome.now ≡ Scanned result visited used) }
{
    match *outcome {
        Outcome::Scanned { folder, .. } => folder,
        _ => unreachable!(),
    }
}
