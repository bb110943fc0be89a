//! Stores that take the commands of lines.

ghost use Rattle.std.specs.Prelude.{◌≡◌, [], true, false, OnOk};
ghost use Rattle.fsrm_store.specs.Standing.{IsReady, StandsAlike};

use fsrm_model::{Ledger, Outcome, Steps};
use fsrm_outside::Disk;
use fsrm_store::{Store, StoreFault};
use std::alloc::Global;
use tool_commands::read_line;

/// Whether a store may take a command: no act is left, and no call of the disk has failed.
pub fn may_take(store: &mut Store) -> bool
    ensures sound { result ≡ true → store.new.sound ≡ true }
    ensures young { result ≡ true → store.new.is_old ≡ false }
    ensures idle { result ≡ true → store.new.engine.waiting ≡ [] }
    ensures journal { store.new.journal ≡ store.old.journal }
{
    store.next_act().is_none() && store.sound() && !store.old()
}

/// Takes the command of a line. `NoMemory` also if the line spells none, or the store may not take it.
pub fn take<D: Disk, L: Ledger>(
    alloc: Global,
    store: &mut Store,
    disk: &mut D,
    line: &[u8],
    steps: &mut Steps<L>,
) -> Result<Outcome, StoreFault>
    requires ready { IsReady D.reads store.old.journal disk.old }
    ensures ready { OnOk result (IsReady D.reads store.new.journal disk.new) }
{
    let Ok(Some(command)) = read_line(alloc, line) else {
        return Err(StoreFault::NoMemory);
    };
    if !may_take(store) {
        return Err(StoreFault::NoMemory);
    }
    let answer = store.apply(alloc, disk, &command, steps)?;
    Ok(answer.outcome)
}

/// Takes the commands of lines, and counts those that were taken.
pub fn take_all<D: Disk, L: Ledger>(
    alloc: Global,
    store: &mut Store,
    disk: &mut D,
    lines: &[&[u8]],
    done: &mut usize,
    steps: &mut Steps<L>,
) -> Result<(), StoreFault>
    requires ready { IsReady D.reads store.old.journal disk.old }
    ensures ready { OnOk result (IsReady D.reads store.new.journal disk.new) }
{
    for line in lines {
        take(alloc, store, disk, line, steps)?;
        *done = done.saturating_add(1);
    }
    Ok(())
}

/// Gives the other half an image, if the store may be written.
pub fn checkpoint<D: Disk, L: Ledger>(
    store: &mut Store,
    disk: &mut D,
    steps: &mut Steps<L>,
) -> Result<(), StoreFault>
    requires ready { IsReady D.reads store.old.journal disk.old }
    ensures ready { OnOk result (IsReady D.reads store.new.journal disk.new) }
{
    if !store.sound() {
        return Err(StoreFault::NoMemory);
    }
    store.checkpoint(disk, steps)
}

/// Has groups of so many commands be made stable at once. `NoMemory` also if that is too few or too many.
pub fn set_group(alloc: Global, store: &mut Store, group: u32) -> Result<(), StoreFault>
    requires none { store.old.journal.held ≡ 0 }
    ensures stands { OnOk result (StandsAlike store.old store.new) }
{
    if group == 0 || group > 1_024 {
        return Err(StoreFault::NoMemory);
    }
    store.set_group(alloc, group)?;
    Ok(())
}
