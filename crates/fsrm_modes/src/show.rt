//! Shows what a store holds, and writes nothing to the disk.

ghost use Rattle.std.specs.Prelude.{◌≡◌, ◌≢◌, ◌≤◌, ◌+◌, ℕ, List, OnErr, OnOk};
ghost use Rattle.std.specs.Io.KnownBytes.{append_known};
ghost use Rattle.std.specs.Option.{ForSome};
ghost use Rattle.fsrm_model.specs.declared.row.Capacity.{Capacity};
ghost use Rattle.fsrm_model.specs.declared.row.Rows.{Rows};
ghost use Rattle.fsrm_outside.specs.Changes.{Same, Through};
ghost use Rattle.fsrm_outside.specs.Causes.{Rose};
ghost use Rattle.fsrm_outside.specs.Shown.{ShowsFront};
ghost use Rattle.line_parts.specs.Writes.{Writes, WritesTo};
ghost use Rattle.fsrm_session.specs.Members.{members};
ghost use Rattle.fsrm_modes.specs.Answers.{HoldsNone, IsQuiet, TellsStore};
ghost use Rattle.fsrm_modes.specs.Looks.{FewToShow};
ghost use Rattle.fsrm_modes.specs.Promises.{Begins, Shows};
ghost use Rattle.fsrm_modes.specs.Statuses.{KeepsDisk, KeepsReads, KeepsWrites};
ghost use Rattle.fsrm_modes.specs.Views.{view_cost, view_text};

use crate::status::Status;
use fsrm_engine::Engine;
use fsrm_model::{Ask, Ledger, Steps};
use fsrm_outside::{Outside, Sink};
use fsrm_session::Batch;
use fsrm_store::Store;
use line_parts::TextFault;
use notice_text::write_outbox;
use reply_text::write_list;
use std::alloc::Global;

/// What is shown of a store.
#[derive(Clone, Copy, Debug, PartialEq, Eq)]
pub enum View {
    /// The list of all quotas.
    Quotas,
    /// The latest notice of each action that ran at a moment or later.
    Outbox { since: u64 },
}

// Writes the text.
fn write_text<S: Sink, L: Ledger>(
    alloc: Global,
    sink: &mut S,
    view: View,
    engine: &Engine,
    steps: &mut Steps<L>,
) -> Result<(), TextFault>
    ensures writes { Writes S.Sink result sink.old sink.new (view_text view engine.now.size engine.now.rows) }
    ensures looks { steps.new ≤ steps.old + view_cost view engine.now.rows }
{
    match view {
        View::Quotas => write_list(alloc, sink, &Ask::Quotas(None), engine, steps),
        View::Outbox { since } => write_outbox(alloc, sink, engine, since, steps),
    }
}

// Writes it through a buffer.
fn write_view<S: Sink, L: Ledger>(
    alloc: Global,
    sink: &mut S,
    view: View,
    engine: &Engine,
    steps: &mut Steps<L>,
) -> Result<(), TextFault>
    ensures whole { OnOk result (S.shown sink.new ≡ append_known (S.shown sink.old) (view_text view engine.now.size engine.now.rows)) }
    ensures front { OnErr result (ShowsFront (S.shown sink.old) (S.shown sink.new) (view_text view engine.now.size engine.now.rows)) }
    ensures device { WritesTo S.Sink result sink.old sink.new }
    ensures looks { steps.new ≤ steps.old + view_cost view engine.now.rows }
{
    let mut waiting = Vec::new(alloc);
    let mut batch = Batch {
        waiting: &mut waiting,
        device: sink,
    };
    write_text(alloc, &mut batch, view, engine, steps)?;
    batch.flush()?;
    Ok(())
}

// Writes it of a store, and drops the store. That is done here, so that `show` has no store to drop.
fn write_store<S: Sink, L: Ledger>(
    alloc: Global,
    sink: &mut S,
    view: View,
    store: Store,
    steps: &mut Steps<L>,
) -> Result<(), TextFault>
    ensures whole { OnOk result (S.shown sink.new ≡ append_known (S.shown sink.old) (view_text view store.engine.size store.engine.rows)) }
    ensures front { OnErr result (ShowsFront (S.shown sink.old) (S.shown sink.new) (view_text view store.engine.size store.engine.rows)) }
    ensures device { WritesTo S.Sink result sink.old sink.new }
    ensures looks { steps.new ≤ steps.old + view_cost view store.engine.rows }
{
    write_view(alloc, sink, view, store.engine(), steps)
}

/// Shows what the store holds that is on the disk, and writes nothing to the disk.
pub fn show<O: Outside, L: Ledger>(
    alloc: Global,
    outside: &mut O,
    view: View,
    steps: &mut Steps<L>,
) -> Status
    ensures shows { (K : Capacity) (R : Rows) (before : List ℕ) → Begins (members O.Source O.Sink O.Disk) K R before outside.old
        → Shows (members O.Source O.Sink O.Disk) (view_text view K R) result before outside.new }
    ensures store { ForSome (O.reads outside.old) (λ parts. TellsStore parts result) }
    ensures quiet { ForSome (O.reads outside.old) (λ parts. HoldsNone parts → IsQuiet (members O.Source O.Sink O.Disk) outside.old outside.new) }
    ensures only { (result ≢ Status.Usage) × (result ≢ Status.AlreadyStore) × (result ≢ Status.TooLong) × (result ≢ Status.ReadFault) }
    ensures reads { O.reads outside.new ≡ O.reads outside.old }
    ensures crash { Through O.disk_clock O.images Same outside.old outside.new }
    ensures left { O.left outside.new ≡ O.left outside.old }
    ensures write_fault { result ≡ Status.WriteFault → Rose (O.write_faults outside.old) (O.write_faults outside.new) }
    ensures disk_fault { result ≡ Status.DiskFault → Rose (O.disk_faults outside.old) (O.disk_faults outside.new) }
    ensures reads_kept { KeepsReads result (O.read_faults outside.old) (O.read_faults outside.new) }
    ensures writes_kept { KeepsWrites result (O.write_faults outside.old) (O.write_faults outside.new) }
    ensures disk_kept { KeepsDisk result (O.disk_faults outside.old) (O.disk_faults outside.new) }
    ensures looks { (K : Capacity) (R : Rows) (before : List ℕ) → (begins : Begins (members O.Source O.Sink O.Disk) K R before outside.old) → FewToShow begins.parts (view_cost view R) steps.old steps.new }
{
    let store = match Store::recover(alloc, outside, steps) {
        Ok(opened) => opened,
        Err(fault) => return Status::from(fault),
    };
    match write_store(alloc, outside, view, store, steps) {
        Ok(()) => Status::Done,
        Err(TextFault::WriteFault) => Status::WriteFault,
        Err(TextFault::NoMemory) => Status::NoMemory,
    }
}
