//! A session: a store, and the text that waits.

ghost use Rattle.std.specs.Prelude.{◌≡◌, ◌≤◌, ◌+◌, [], OnOk, MatchResult, IsErrOf, Err, true};
ghost use Rattle.fsrm_session.specs.Counts.{Counts};
ghost use Rattle.fsrm_session.specs.Members.{members};
ghost use Rattle.fsrm_session.specs.Spending.{bytes_after, renewing};
ghost use Rattle.fsrm_session.specs.Underway.{Breaks, Calms, CanFlush, CanTake};
ghost use Rattle.fsrm_store.specs.Amortized.{bytes_since};
ghost use Rattle.fsrm_store.specs.Standing.{IsReady};

use crate::stop::Stop;
use fsrm_base::NoMemory;
use fsrm_engine::Engine;
use fsrm_model::{Ledger, Steps};
use fsrm_outside::Outside;
use fsrm_store::Store;
use std::alloc::Global;

/// A store, and the text of replies that waits to be shown.
#[derive(Drop)]
pub struct Session {
    pub(crate) store: Store,
    pub(crate) kept: Vec<u8>,
    pub(crate) alloc: Global,
    // A reply that is only counted is written here, in place of the one before it.
    pub(crate) scratch: Vec<u8>,
}

impl Session {
    /// Nothing waits to be shown.
    pub fn new(alloc: Global, store: Store) -> Session
        ensures store { result.store ≡ store }
        ensures empty { result.kept.items ≡ [] }
    {
        Session {
            store,
            kept: Vec::new(alloc),
            alloc,
            scratch: Vec::new(alloc),
        }
    }

    /// Puts the nodes of the tree into their order that aren't yet (`Engine::arrange`). Nothing else changes.
    pub fn arrange(&mut self)
        ensures { self.new ≡ self.old }
    {
        self.store.arrange();
    }

    /// The machine, lent.
    pub fn engine(&self) -> &Engine
        ensures lent { result.now ≡ self.now.store.engine }
    {
        self.store.engine()
    }

    // Gives an old store a new image, which makes it version 2. No entry is held.
    fn renew<O: Outside, L: Ledger>(
        &mut self,
        outside: &mut O,
        steps: &mut Steps<L>,
    ) -> Result<(), Stop>
        requires sound { self.old.store.sound ≡ true }
        requires none { self.old.store.journal.held ≡ 0 }
        requires ready { IsReady O.reads self.old.store.journal outside.old }
        ensures runs { MatchResult result (λ _. Calms (members O.Source O.Sink O.Disk) self.old self.new outside.old outside.new) (λ stop. Breaks (members O.Source O.Sink O.Disk) stop self.old self.new outside.old outside.new) }
        ensures ready { OnOk result (CanFlush O.reads self.new outside.new) }
        ensures none { OnOk result (self.new.store.journal.held ≡ 0) }
        ensures engine { self.new.store.engine ≡ self.old.store.engine }
        ensures memory { IsErrOf result Stop.NoMemory → ⊥ }
        ensures counts { Counts result (O.write_faults outside.old) (O.write_faults outside.new) (O.disk_faults outside.old) (O.disk_faults outside.new) }
        ensures reads { O.read_faults outside.new ≡ O.read_faults outside.old }
        ensures left { O.left outside.new ≡ O.left outside.old }
        ensures looks { steps.new ≤ steps.old + renewing self.old.store }
        ensures paid { bytes_after result self.new ≤ bytes_since self.old.store.journal }
    {
        if !self.store.old() {
            return Ok(());
        }
        match self.store.checkpoint(outside, steps) {
            Ok(()) => Ok(()),
            Err(_fault) => Err(Stop::DiskFault),
        }
    }

    /// Before the first command: an old store is given a new image, which makes it version 2, and from now on up to
    /// `group` entries, 1 to 1,024, are made stable at once.
    pub fn begin<O: Outside, L: Ledger>(
        &mut self,
        outside: &mut O,
        group: u32,
        steps: &mut Steps<L>,
    ) -> Result<(), Stop>
        requires few { 1 ≤ group }
        requires most { group ≤ 1024 }
        requires sound { self.old.store.sound ≡ true }
        requires idle { self.old.store.engine.waiting ≡ [] }
        requires none { self.old.store.journal.held ≡ 0 }
        requires ready { IsReady O.reads self.old.store.journal outside.old }
        ensures runs { MatchResult result (λ _. Calms (members O.Source O.Sink O.Disk) self.old self.new outside.old outside.new) (λ stop. Breaks (members O.Source O.Sink O.Disk) stop self.old self.new outside.old outside.new) }
        ensures ready { OnOk result (CanTake O.reads self.new outside.new) }
        ensures group { OnOk result (self.new.store.group ≡ group) }
        ensures memory { IsErrOf result Stop.NoMemory → CanFlush O.reads self.new outside.new }
        ensures counts { Counts result (O.write_faults outside.old) (O.write_faults outside.new) (O.disk_faults outside.old) (O.disk_faults outside.new) }
        ensures reads { O.read_faults outside.new ≡ O.read_faults outside.old }
        ensures left { O.left outside.new ≡ O.left outside.old }
        // The new image of an old store takes looks. No other is written.
        ensures looks { steps.new ≤ steps.old + renewing self.old.store }
        ensures paid { bytes_after result self.new ≤ bytes_since self.old.store.journal }
    {
        self.renew(outside, steps)?;
        match self.store.set_group(self.alloc, group) {
            Ok(()) => Ok(()),
            Err(NoMemory) => Err(Stop::NoMemory),
        }
    }
}
