//! Entries that are done once more.

ghost use Rattle.std.specs.Prelude.{◌≡◌, ◌≢◌, ◌+◌, ◌≤◌, [], length, true, Some, Err, IfErr, OnOk};
ghost use Rattle.fsrm_model.specs.declared.row.Rows.{Rows as RowsValue};
ghost use Rattle.fsrm_model.specs.store.Lasting.{lasting};
ghost use Rattle.fsrm_model.specs.store.Replays.{after_entry, is_valid_entry};
ghost use Rattle.fsrm_model.specs.store.Valid.{IsValid};
ghost use Rattle.fsrm_model.specs.values.Limits.{longest_entry};
ghost use Rattle.fsrm_outside.specs.Parts.{Parts};
ghost use Rattle.fsrm_outside.specs.Settling.{Stable};
ghost use Rattle.fsrm_journal.specs.Opened.{ReadsOn};
ghost use Rattle.fsrm_journal.specs.declared.heads.Head.{Head as HeadValue};
ghost use Rattle.fsrm_store.specs.Recovery.{entry_cost, HasRead, IsRefused, OnlyReads, RedoneAll, RedoneLooks, TellsFaults};
ghost use Rattle.fsrm_store.specs.declared.fault.StoreFault.TheVariants.{AlreadyStore};

use crate::fault::StoreFault;
use crate::reading::next_entry;
use fsrm_base::NoMemory;
use fsrm_engine::Engine;
use fsrm_journal::Journal;
use fsrm_model::{Entry, Ledger, Steps};
use fsrm_outside::Disk;
use std::alloc::Global;

// Lets go of the acts that wait.
fn let_go(engine: &mut Engine)
    ensures size { engine.new.size ≡ engine.old.size }
    ensures rows { engine.new.rows ≡ engine.old.rows }
    ensures idle { engine.new.waiting ≡ [] }
{
    'acts: while let Some(_act) = engine.next_act() {}
}

// Has the machine take a command once more, or finish a scan.
fn take_again<L: Ledger>(
    alloc: Global,
    engine: &mut Engine,
    entry: &Entry,
    steps: &mut Steps<L>,
) -> Result<(), NoMemory>
    requires valid { is_valid_entry entry.now ≡ true }
    requires idle { engine.old.waiting ≡ [] }
    ensures size { OnOk result (engine.new.size ≡ engine.old.size) }
    ensures rows { OnOk result (engine.new.rows ≡ after_entry engine.old.size engine.old.rows entry.now) }
    ensures looks { steps.new ≤ steps.old + entry_cost engine.old.rows entry.now }
{
    match entry {
        Entry::Order(command) => {
            engine.apply(alloc, command, steps)?;
            Ok(())
        }
        Entry::Finish { moment, folder } => {
            engine.finish_fresh(*folder, *moment, steps);
            Ok(())
        }
    }
}

// Does an entry once more. What the machine refuses changes what it changed then, and no act waits afterwards.
fn redo<L: Ledger>(
    alloc: Global,
    engine: &mut Engine,
    entry: Entry,
    steps: &mut Steps<L>,
) -> Result<(), NoMemory>
    requires valid { is_valid_entry entry ≡ true }
    requires idle { engine.old.waiting ≡ [] }
    ensures size { OnOk result (engine.new.size ≡ engine.old.size) }
    ensures rows { OnOk result (engine.new.rows ≡ after_entry engine.old.size engine.old.rows entry) }
    ensures idle { engine.new.waiting ≡ [] }
    ensures looks { steps.new ≤ steps.old + entry_cost engine.old.rows entry }
{
    let done = take_again(alloc, engine, &entry, steps);
    let_go(engine);
    done
}

/// Does all entries once more that the journal still has to read, up to the first closed gate.
pub(crate) fn replay<D: Disk, L: Ledger>(
    alloc: Global,
    disk: &mut D,
    journal: &mut Journal,
    engine: &mut Engine,
    buffer: &mut [u8],
    steps: &mut Steps<L>,
) -> Result<(), StoreFault>
    requires room { longest_entry ≤ length buffer.old }
    requires idle { engine.old.waiting ≡ [] }
    ensures all { (parts : Parts) (head : HeadValue) (base : RowsValue) → D.reads disk.old ≡ Some parts → Stable D.reads D.disk_clock D.images disk.old → HasRead head base [] parts journal.old
        → OnOk result (RedoneAll D.reads D.disk_clock D.images head base journal.new engine.old engine.new disk.new) }
    ensures idle { OnOk result (engine.new.waiting ≡ []) }
    ensures valid { IsValid engine.old.size engine.old.rows → OnOk result (IsValid engine.new.size (lasting engine.new.rows)) }
    ensures refused { (parts : Parts) (head : HeadValue) (base : RowsValue) → D.reads disk.old ≡ Some parts → HasRead head base [] parts journal.old → IfErr result (IsRefused parts) }
    ensures only { result ≢ Err AlreadyStore }
    ensures looks { (parts : Parts) (head : HeadValue) (base : RowsValue) → D.reads disk.old ≡ Some parts → HasRead head base [] parts journal.old → RedoneLooks journal.old.ruling head base parts engine.old steps.old steps.new }
    ensures same { ReadsOn journal.old journal.new }
    ensures quiet { OnlyReads D.reads D.disk_clock D.images D.by_disk disk.old disk.new }
    ensures cause { TellsFaults (D.disk_faults disk.old) (D.disk_faults disk.new) result }
{
    'entries: while let Some(entry) = next_entry(alloc, disk, journal, buffer)? {
        redo(alloc, engine, entry, steps)?;
    }
    Ok(())
}
