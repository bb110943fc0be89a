//! A store that is opened: the image of the half that rules, and the entries after it done once more.

ghost use Rattle.std.specs.Prelude.{◌≡◌, ◌≢◌, ◌⊎◌, ◌+◌, ◌*◌, ◌≤◌, ◌<◌, [], length, true, false, Some, Ok, Err, IfErr, IfOk, IsErrOf};
ghost use Rattle.std.specs.Option.{ForSome};
ghost use Rattle.fsrm_model.specs.store.Capacities.{is_capacity};
ghost use Rattle.fsrm_model.specs.store.Valid.{is_valid, IsValid};
ghost use Rattle.fsrm_model.specs.values.Limits.{longest_entry};
ghost use Rattle.fsrm_outside.specs.Causes.{Rose};
ghost use Rattle.fsrm_outside.specs.Changes.{Same, Through};
ghost use Rattle.fsrm_outside.specs.Parts.{Parts};
ghost use Rattle.fsrm_outside.specs.Settling.{Settles, Stable};
ghost use Rattle.fsrm_engine.specs.Restored.{is_restorable};
ghost use Rattle.fsrm_journal.specs.Opened.{judged_parts, ReadsOn};
ghost use Rattle.fsrm_journal.specs.Stores.{ReadUpTo};
ghost use Rattle.fsrm_store.specs.Amortized.{bytes_since};
ghost use Rattle.fsrm_store.specs.Keeps.{HasTail};
ghost use Rattle.fsrm_store.specs.Recovery.{given_up, is_first_version, FewLooks, HasRead, IsRefused, OnlyReads, Restored, TellsFaults};
ghost use Rattle.fsrm_store.specs.Standing.{IsReady, Standing};
ghost use Rattle.fsrm_store.specs.States.{state_of};
ghost use Rattle.fsrm_store.specs.States.State.{Holds};
ghost use Rattle.fsrm_store.specs.declared.fault.StoreFault.TheVariants.{AlreadyStore, Damaged, DiskFault, NoMemory};

use crate::fault::StoreFault;
use crate::limits::{BUFFER, HEAD};
use crate::reading::read_rows;
use crate::replay::replay;
use crate::store::Store;
use fsrm_engine::{Engine, RowsFault};
use fsrm_journal::{Head, Journal};
use fsrm_model::{Ledger, Rows, Steps};
use fsrm_outside::{Disk, Part};
use std::alloc::Global;

// An engine of the rows that the image told.
fn engine_of<L: Ledger>(
    alloc: Global,
    rows: &Rows,
    head: &Head,
    part: Part,
    steps: &mut Steps<L>,
) -> Result<Engine, StoreFault>
    requires { is_capacity head.now.size ≡ true }
    ensures ok { IfOk result (λ engine. (engine ≡ record { size = head.now.size; rows = rows.now; waiting = [] }) × (is_restorable head.now.size rows.now ≡ true)) }
    ensures refused { IfErr result (λ fault. (fault ≡ NoMemory) ⊎ ((fault ≡ Damaged part 48) × (is_restorable head.now.size rows.now ≡ false))) }
    ensures looks { steps.new ≤ steps.old + 3 * length rows.now.nodes }
{
    match Engine::from_rows(alloc, rows, head.size, steps) {
        Ok(engine) => Ok(engine),
        Err(RowsFault::BadRows) => Err(StoreFault::Damaged { part, place: HEAD }),
        Err(RowsFault::NoMemory) => Err(StoreFault::NoMemory),
    }
}

// The engine of the image alone.
fn first_engine<D: Disk, L: Ledger>(
    alloc: Global,
    disk: &mut D,
    journal: &mut Journal,
    head: &Head,
    buffer: &mut [u8],
    steps: &mut Steps<L>,
) -> Result<Engine, StoreFault>
    requires room { 0 < length buffer.old }
    requires size { is_capacity head.now.size ≡ true }
    ensures read { (parts : Parts) → D.reads disk.old ≡ Some parts → ReadUpTo head.now [] [] parts journal.old → IfOk result (λ engine. HasRead head.now engine.rows [] parts journal.new) }
    ensures size { IfOk result (λ engine. engine.size ≡ head.now.size) }
    ensures idle { IfOk result (λ engine. engine.waiting ≡ []) }
    ensures valid { IfOk result (λ engine. IsValid engine.size engine.rows) }
    ensures refused { (parts : Parts) → D.reads disk.old ≡ Some parts → ReadUpTo head.now [] [] parts journal.old → IfErr result (IsRefused parts) }
    ensures only { result ≢ Err AlreadyStore }
    ensures looks { IfOk result (λ engine. steps.new ≤ steps.old + 3 * length engine.rows.nodes) }
    ensures few { (parts : Parts) → D.reads disk.old ≡ Some parts → ReadUpTo head.now [] [] parts journal.old → IfErr result (λ fault. FewLooks parts steps.old steps.new) }
    ensures same { ReadsOn journal.old journal.new }
    ensures quiet { OnlyReads D.reads D.disk_clock D.images D.by_disk disk.old disk.new }
    ensures cause { TellsFaults (D.disk_faults disk.old) (D.disk_faults disk.new) result }
{
    let rows = read_rows(alloc, disk, journal, head, buffer)?;
    let part = journal.ruling();
    engine_of(alloc, &rows, head, part, steps)
}

// An engine whose entries are all done once more. Scans that hadn't finished are given up.
fn finished(mut engine: Engine, done: Result<(), StoreFault>) -> Result<Engine, StoreFault>
    ensures { result ≡ given_up done engine }
{
    match done {
        Ok(()) => {
            engine.flag_unfinished();
            Ok(engine)
        }
        Err(fault) => Err(fault),
    }
}

// The engine of all that the journal has still to read.
fn restore<D: Disk, L: Ledger>(
    alloc: Global,
    disk: &mut D,
    journal: &mut Journal,
    head: &Head,
    buffer: &mut [u8],
    steps: &mut Steps<L>,
) -> Result<Engine, StoreFault>
    requires room { longest_entry ≤ length buffer.old }
    requires size { is_capacity head.now.size ≡ true }
    ensures restored { (parts : Parts) → D.reads disk.old ≡ Some parts → Stable D.reads D.disk_clock D.images disk.old → ReadUpTo head.now [] [] parts journal.old
        → IfOk result (λ engine. Restored D.reads D.disk_clock D.images head.now engine journal.new disk.new) }
    ensures idle { IfOk result (λ engine. engine.waiting ≡ []) }
    ensures valid { IfOk result (λ engine. is_valid engine.size engine.rows ≡ true) }
    ensures refused { (parts : Parts) → D.reads disk.old ≡ Some parts → ReadUpTo head.now [] [] parts journal.old → IfErr result (IsRefused parts) }
    ensures only { result ≢ Err AlreadyStore }
    ensures looks { (parts : Parts) → D.reads disk.old ≡ Some parts → ReadUpTo head.now [] [] parts journal.old → FewLooks parts steps.old steps.new }
    ensures same { ReadsOn journal.old journal.new }
    ensures quiet { OnlyReads D.reads D.disk_clock D.images D.by_disk disk.old disk.new }
    ensures cause { TellsFaults (D.disk_faults disk.old) (D.disk_faults disk.new) result }
{
    let mut engine = first_engine(alloc, disk, journal, head, buffer, steps)?;
    let done = replay(alloc, disk, journal, &mut engine, buffer, steps);
    finished(engine, done)
}

impl Store {
    /// Opens the store that is there. The first call of the disk makes stable what is read, and nothing is written: from
    /// then on a crash leaves what is read, also if a later call fails. What is kept of the rows is there again; scans
    /// that hadn't finished are given up. No act waits, and nothing is held.
    ///
    /// `NoStore` and `Damaged` exactly as the state of the parts says; `DiskFault` exactly if the disk counted a failed
    /// call, and only where its count stands at `u64::MAX` may it come uncounted.
    pub fn recover<D: Disk, L: Ledger>(
        alloc: Global,
        disk: &mut D,
        steps: &mut Steps<L>,
    ) -> Result<Store, StoreFault>
        ensures state { ForSome (D.reads disk.old) (λ parts. IfOk result (λ store. state_of parts ≡ Holds store.engine.size store.engine.rows)) }
        ensures stands { ForSome (D.reads disk.old) (λ parts. IfOk result (λ store. Standing D.reads D.disk_clock D.images store.engine.rows store disk.new)) }
        ensures ready { IfOk result (λ store. IsReady D.reads store.journal disk.new) }
        ensures idle { IfOk result (λ store. store.engine.waiting ≡ []) }
        ensures none { IfOk result (λ store. store.journal.held ≡ 0) }
        ensures group { IfOk result (λ store. store.group ≡ 1) }
        ensures sound { IfOk result (λ store. store.sound ≡ true) }
        ensures old { ForSome (D.reads disk.old) (λ parts. IfOk result (λ store. (judged_parts parts ≡ Ok store.journal.ruling) × (store.is_old ≡ is_first_version store.journal.ruling parts))) }
        ensures tail { ForSome (D.reads disk.old) (λ parts. IfOk result (λ store. HasTail (bytes_since store.journal) parts)) }
        ensures refused { ForSome (D.reads disk.old) (λ parts. IfErr result (IsRefused parts)) }
        ensures only { result ≢ Err AlreadyStore }
        ensures looks { ForSome (D.reads disk.old) (λ parts. FewLooks parts steps.old steps.new) }
        ensures reads { D.reads disk.new ≡ D.reads disk.old }
        ensures any_moment { Settles D.reads D.disk_clock D.images (IsErrOf result DiskFault) disk.old disk.new }
        ensures crash { Through D.disk_clock D.images Same disk.old disk.new }
        ensures by { D.by_disk disk.old disk.new }
        ensures later { D.disk_faults disk.old ≤ D.disk_faults disk.new }
        ensures failed { IsErrOf result DiskFault → Rose (D.disk_faults disk.old) (D.disk_faults disk.new) }
        ensures counted { IsErrOf result DiskFault ⊎ (D.disk_faults disk.new ≡ D.disk_faults disk.old) }
    {
        let (mut journal, head) = Journal::open_at(alloc, disk)?;
        let Ok(mut buffer) = vec![in alloc; 0; BUFFER] else {
            return Err(StoreFault::NoMemory);
        };
        let engine = restore(alloc, disk, &mut journal, &head, &mut buffer, steps)?;
        Ok(Store {
            engine,
            journal,
            buffer,
            image: head.image,
            group: 1,
            is_old: head.version == 1,
            sound: true,
        })
    }
}
