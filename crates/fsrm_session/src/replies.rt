//! The reply to a command, and its acts, written to a sink.

ghost use Rattle.std.specs.Prelude.{◌≡◌, ◌≤◌, ◌+◌, ◌-◌, ◌^◌, [], false, length, min, IfOk, OnOk};
ghost use Rattle.fsrm_model.specs.commands.Cost.{acts_cost, print_cost, report_cost};
ghost use Rattle.fsrm_model.specs.meaning.Named.{IsNamed};
ghost use Rattle.fsrm_model.specs.texts.ActText.{act_lines};
ghost use Rattle.fsrm_store.specs.Standing.{KeepsJournal, StandsAlike};
ghost use Rattle.line_parts.specs.Writes.{Writes};
ghost use Rattle.fsrm_model.specs.texts.Text.{reply};
ghost use Rattle.fsrm_session.specs.Turns.{telling_cost, told};

use fsrm_engine::Engine;
use fsrm_model::{Answer, Ledger, Outcome, Steps};
use fsrm_outside::Sink;
use fsrm_store::Store;
use line_parts::TextFault;
use reply_text::{Line, write_act, write_answer};
use std::alloc::Global;
use storage_reports::report;

// Writes the line of each act that waits, in their order, and answers how many there were, up to `u64::MAX`.
fn write_acts<S: Sink, L: Ledger>(
    store: &mut Store,
    alloc: Global,
    sink: &mut S,
    steps: &mut Steps<L>,
) -> Result<u64, TextFault>
    ensures rows { store.new.engine.rows ≡ store.old.engine.rows }
    ensures size { store.new.engine.size ≡ store.old.engine.size }
    ensures journal { KeepsJournal store.old store.new }
    ensures stands { StandsAlike store.old store.new }
    ensures idle { OnOk result (store.new.engine.waiting ≡ []) }
    ensures count { IfOk result (λ count. count ≡ min (length store.old.engine.waiting) (2 ^ 64 - 1)) }
    ensures writes { Writes S.Sink result sink.old sink.new (act_lines store.old.engine.rows store.old.engine.waiting) }
    ensures looks { steps.new ≤ steps.old + acts_cost store.old.engine.rows.nodes store.old.engine.waiting }
{
    let mut count = 0u64;
    while let Some(act) = store.next_act() {
        write_act(alloc, sink, &act, store.engine(), steps)?;
        count = count.saturating_add(1);
    }
    Ok(count)
}

// Writes the reply to a command that was taken, without its acts. A report is made first.
fn write_outcome<S: Sink, L: Ledger>(
    alloc: Global,
    sink: &mut S,
    line: Line,
    answer: &Answer,
    engine: &Engine,
    steps: &mut Steps<L>,
) -> Result<(), TextFault>
    requires { IsNamed engine.now.rows answer.now.outcome }
    ensures writes { Writes S.Sink result sink.old sink.new (reply engine.now.size engine.now.rows line.moment line.number answer.now.outcome) }
    ensures looks { steps.new ≤ steps.old + (report_cost engine.now.rows.nodes answer.now.outcome + print_cost engine.now.size engine.now.rows line.moment answer.now.outcome) }
{
    match &answer.outcome {
        Outcome::Report(ask) => {
            let table = report(alloc, engine, ask.as_ref(), line.moment, steps)?;
            write_answer(alloc, sink, line, answer, Some(&table), engine, steps)
        }
        _ => write_answer(alloc, sink, line, answer, None, engine, steps),
    }
}

/// Writes the reply to the command of a line, which was taken, and the acts that it set off. It answers how many acts
/// there were, up to `u64::MAX`.
pub fn write_reply<S: Sink, L: Ledger>(
    store: &mut Store,
    alloc: Global,
    sink: &mut S,
    line: Line,
    answer: &Answer,
    steps: &mut Steps<L>,
) -> Result<u64, TextFault>
    requires named { IsNamed store.old.engine.rows answer.now.outcome }
    requires calm { answer.now.lasting ≡ false → store.old.engine.waiting ≡ [] }
    ensures rows { store.new.engine.rows ≡ store.old.engine.rows }
    ensures size { store.new.engine.size ≡ store.old.engine.size }
    ensures journal { KeepsJournal store.old store.new }
    ensures stands { StandsAlike store.old store.new }
    ensures idle { OnOk result (store.new.engine.waiting ≡ []) }
    ensures count { IfOk result (λ count. count ≡ min (length store.old.engine.waiting) (2 ^ 64 - 1)) }
    ensures writes { Writes S.Sink result sink.old sink.new (told store.old.engine.size store.old.engine.rows store.old.engine.waiting line answer.now.outcome) }
    ensures looks { steps.new ≤ steps.old + telling_cost store.old.engine.size store.old.engine.rows store.old.engine.waiting line.moment answer.now.outcome }
{
    write_outcome(alloc, sink, line, answer, store.engine(), steps)?;
    // A command that doesn't last has no action run.
    if !answer.lasting {
        return Ok(0);
    }
    write_acts(store, alloc, sink, steps)
}
