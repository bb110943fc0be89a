//! Writes the lines of the log of actions, and those of actions that run.

ghost use Rattle.std.specs.Prelude.{◌≡◌, ℕ, ◌+◌, ◌≤◌, ◌++◌, decimal, flat_map, true};
ghost use Rattle.fsrm_model.specs.texts.ActText.{act_line};
ghost use Rattle.fsrm_model.specs.objects.Acts.{IsAct, folder_in};
ghost use Rattle.fsrm_model.specs.commands.Cost.{path_cost};
ghost use Rattle.fsrm_model.specs.values.Limits.{latest_moment};
ghost use Rattle.fsrm_model.specs.store.Valid.{IsValid, are_entries};
ghost use Rattle.line_parts.specs.Moments.{moment_text};
ghost use Rattle.reply_text.specs.Lines.{act_text, entry_text, subject_text};
ghost use Rattle.line_parts.specs.Parts.{part_text};
ghost use Rattle.line_parts.specs.Writes.{Writes};

use fsrm_engine::Engine;
use fsrm_model::{Act, ActRow, Ledger, Steps, Subject};
use fsrm_outside::Sink;
use line_parts::{Part, TextFault, moment_text, send};
use std::alloc::Global;
use thresholds::Marks;

// What an entry of this percentage belongs to, and, of a quota, what stands after its folder: a space and the
// percentage.
fn subject_parts<'a>(percent: u16) -> (Part<'a>, Part<'a>, Part<'a>)
    ensures { (folder : ℕ) → part_text result.0 ++ (decimal folder ++ (part_text result.1 ++ part_text result.2)) ≡ subject_text percent folder }
{
    if percent == 0 {
        (Part::Text(b" screen "), Part::Text(b""), Part::Text(b""))
    } else {
        let percent = Part::Number(u64::from(percent));
        (Part::Text(b" quota "), Part::Text(b" "), percent)
    }
}

// Writes the line of an entry, whose moment has this text.
fn write_dated<S: Sink>(sink: &mut S, entry: &ActRow, moment: &[u8]) -> Result<(), TextFault>
    requires { moment.now ≡ moment_text entry.now.moment }
    ensures writes { Writes S.Sink result sink.old sink.new (entry_text entry.now) }
{
    let kind = entry.kind.letter().as_bytes();
    let (subject, space, percent) = subject_parts(entry.percent);
    send(
        sink,
        &[
            Part::Text(b"  "),
            Part::Text(moment),
            subject,
            Part::Number(u64::from(entry.folder)),
            space,
            percent,
            Part::Text(b" "),
            Part::Text(kind),
            Part::Text(b"\n"),
        ],
    )
}

// Writes the line of an entry of the log.
fn write_entry<S: Sink>(sink: &mut S, entry: &ActRow) -> Result<(), TextFault>
    requires { entry.now.moment ≤ latest_moment }
    ensures writes { Writes S.Sink result sink.old sink.new (entry_text entry.now) }
{
    write_dated(sink, entry, &moment_text(entry.moment))
}

/// Writes the lines of the log of actions, the oldest entry first. The moments of its entries are at most
/// 4,102,444,799.
pub fn write_log<S: Sink>(sink: &mut S, marks: &Marks) -> Result<(), TextFault>
    requires { are_entries marks.now.log ≡ true }
    ensures writes { Writes S.Sink result sink.old sink.new (flat_map entry_text marks.now.log) }
{
    for place in 0..marks.log_len() {
        write_entry(sink, &marks.log_at(place))?;
    }
    Ok(())
}

// Writes the line of an act, with the path of its folder and the text of its action.
fn write_line<'a, S: Sink>(
    sink: &mut S,
    act: &Act,
    path: &'a str,
    text: &'a str,
) -> Result<(), TextFault>
    ensures writes { Writes S.Sink result sink.old sink.new (act_text act.now path.now text.now) }
{
    let kind = act.kind.letter().as_bytes();
    let (path, text) = (path.as_bytes(), text.as_bytes());
    match act.subject {
        Subject::Quota { percent, .. } => send(
            sink,
            &[
                Part::Text(b"  act quota "),
                Part::Number(u64::from(percent)),
                Part::Text(b" "),
                Part::Text(kind),
                Part::Text(b" "),
                Part::Text(path),
                Part::Text(b"|"),
                Part::Text(text),
                Part::Text(b"\n"),
            ],
        ),
        Subject::Screen { .. } => send(
            sink,
            &[
                Part::Text(b"  act screen "),
                Part::Text(kind),
                Part::Text(b" "),
                Part::Text(path),
                Part::Text(b"|"),
                Part::Text(text),
                Part::Text(b"\n"),
            ],
        ),
    }
}

/// Writes the line of an act, whose action is there: what it belongs to, the letter of its kind, the path of its folder
/// and its text.
pub fn write_act<S: Sink, L: Ledger>(
    alloc: Global,
    sink: &mut S,
    act: &Act,
    engine: &Engine,
    steps: &mut Steps<L>,
) -> Result<(), TextFault>
    requires store { IsValid engine.now.size engine.now.rows }
    requires named { IsAct engine.now.rows act.now }
    ensures writes { Writes S.Sink result sink.old sink.new (act_line engine.now.rows act.now) }
    ensures looks { steps.new ≤ steps.old + path_cost engine.now.rows.nodes (folder_in act.now.subject) }
{
    let path = engine.path_text(alloc, act.subject.folder(), steps)?;
    write_line(sink, act, path.as_str(), engine.act_text(act))
}
