//! Writes replies.

ghost use Rattle.std.specs.Prelude.{◌≡◌, ◌+◌, ◌≤◌, IfSome, false, is_some};
ghost use Rattle.fsrm_model.specs.declared.command.Outcome.TheVariants.{Refused};
ghost use Rattle.fsrm_model.specs.commands.Cost.{print_cost};
ghost use Rattle.fsrm_model.specs.meaning.Named.{IsNamed};
ghost use Rattle.fsrm_model.specs.texts.Text.{is_report, head_line, reply};
ghost use Rattle.reply_text.specs.Lines.{is_long};
ghost use Rattle.reply_text.specs.ReportLines.{IsMade};
ghost use Rattle.line_parts.specs.Writes.{Writes};

use crate::heads::{
    write_blocked, write_exceeded, write_head, write_ok, write_passive, write_sum, write_visited,
};
use crate::lists::write_list;
use crate::reports::write_rows;
use fsrm_engine::Engine;
use fsrm_model::{Answer, Ledger, Outcome, Refusal, Steps, Table};
use fsrm_outside::Sink;
use line_parts::TextFault;
use std::alloc::Global;

/// A script's line that is answered.
#[derive(Clone, Copy, Debug, PartialEq, Eq)]
pub struct Line {
    /// Its number, from 1.
    pub number: u64,
    /// The moment of its command, in seconds since 1970-01-01 00:00:00 UTC, on which the rows of some reports depend.
    pub moment: u64,
}

// Writes the reply to a line that is refused.
fn write_refusal<S: Sink, L: Ledger>(
    alloc: Global,
    sink: &mut S,
    line: Line,
    refusal: &Refusal,
    engine: &Engine,
    steps: &mut Steps<L>,
) -> Result<(), TextFault>
    requires { IsNamed engine.now.rows (Refused refusal.now) }
    ensures writes { Writes S.Sink result sink.old sink.new (head_line engine.now.rows.nodes line.number (Refused refusal.now)) }
    ensures looks { steps.new ≤ steps.old + print_cost engine.now.size engine.now.rows line.moment (Refused refusal.now) }
{
    match refusal {
        Refusal::ScreenBlocked { screen } => {
            let path = engine.path_text(alloc, *screen, steps)?;
            write_blocked(sink, line.number, path.as_str())
        }
        Refusal::QuotaExceeded {
            folder,
            would,
            limit,
        } => {
            let path = engine.path_text(alloc, *folder, steps)?;
            write_exceeded(sink, line.number, *would, *limit, path.as_str())
        }
        _ => write_head(alloc, sink, line.number, refusal),
    }
}

// Writes the reply to a line that asks for no list and for no report.
fn write_one<S: Sink, L: Ledger>(
    alloc: Global,
    sink: &mut S,
    line: Line,
    outcome: &Outcome,
    engine: &Engine,
    steps: &mut Steps<L>,
) -> Result<(), TextFault>
    requires named { IsNamed engine.now.rows outcome.now }
    requires one { is_long outcome.now ≡ false }
    ensures writes { Writes S.Sink result sink.old sink.new (reply engine.now.size engine.now.rows line.moment line.number outcome.now) }
    ensures looks { steps.new ≤ steps.old + print_cost engine.now.size engine.now.rows line.moment outcome.now }
{
    match outcome {
        Outcome::Done { passive: None } => write_ok(sink, line.number),
        Outcome::Done {
            passive: Some(screen),
        } => {
            let path = engine.path_text(alloc, *screen, steps)?;
            write_passive(sink, line.number, path.as_str())
        }
        Outcome::Sum { node, bytes } => {
            let path = engine.path_text(alloc, *node, steps)?;
            write_sum(sink, line.number, *bytes, path.as_str())
        }
        Outcome::Scanned {
            folder,
            visited,
            done,
        } => {
            let path = engine.path_text(alloc, *folder, steps)?;
            write_visited(sink, line.number, *visited, *done, path.as_str())
        }
        Outcome::Refused(refusal) => write_refusal(alloc, sink, line, refusal, engine, steps),
        Outcome::Listing(_) | Outcome::Report(_) => unreachable!(),
    }
}

/// Writes the reply to a script's line: the line that tells what became of it, and those below. A table is given exactly
/// if the answer is a report, whose rows it has.
pub fn write_answer<S: Sink, L: Ledger>(
    alloc: Global,
    sink: &mut S,
    line: Line,
    answer: &Answer,
    table: Option<&Table>,
    engine: &Engine,
    steps: &mut Steps<L>,
) -> Result<(), TextFault>
    requires named { IsNamed engine.now.rows answer.now.outcome }
    requires table { is_some table ≡ is_report answer.now.outcome }
    requires rows { IfSome table (λ made. IsMade engine.now.size engine.now.rows line.moment answer.now.outcome made.now.rows) }
    ensures writes { Writes S.Sink result sink.old sink.new (reply engine.now.size engine.now.rows line.moment line.number answer.now.outcome) }
    ensures looks { steps.new ≤ steps.old + print_cost engine.now.size engine.now.rows line.moment answer.now.outcome }
{
    match &answer.outcome {
        Outcome::Listing(ask) => {
            write_ok(sink, line.number)?;
            write_list(alloc, sink, ask, engine, steps)
        }
        Outcome::Report(ask) => {
            write_ok(sink, line.number)?;
            // An engine's rows are valid, so what those of a report name is there.
            let _objects = engine.objects();
            let rows = table.unwrap().rows.as_slice();
            write_rows(alloc, sink, ask.as_ref().kind, rows, engine, steps)
        }
        _ => write_one(alloc, sink, line, &answer.outcome, engine, steps),
    }
}
