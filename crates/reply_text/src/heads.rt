//! Writes the lines that tell what became of a command.

ghost use Rattle.std.specs.Prelude.{◌≡◌, ◌++◌, ◌∷◌, [], ◌≤◌, true, false, IfSome, IfNone, None, List as Items, decimal, codes, length};
ghost use Rattle.fsrm_model.specs.declared.command.Outcome.TheVariants.{Done, Refused};
ghost use Rattle.fsrm_model.specs.declared.row.NodeRow.{NodeRow};
ghost use Rattle.fsrm_model.specs.texts.Text.{body_line, done_words, head_line, is_bare, line_of, refusal_words};
ghost use Rattle.reply_text.specs.Lines.{carries_column};
ghost use Rattle.line_parts.specs.Writes.{Writes};

use fsrm_model::Refusal;
use fsrm_outside::Sink;
use line_parts::{Part, TextFault, send, send_short, send_short_with};
use std::alloc::Global;

/// Writes the first line of a reply to a line that was done.
pub fn write_ok<S: Sink>(sink: &mut S, line: u64) -> Result<(), TextFault>
    ensures writes { (nodes : Items NodeRow) → Writes S.Sink result sink.old sink.new (head_line nodes line (Done None)) }
{
    send_short(sink, line, b" ok\n")
}

/// Writes the reply to a line that was done under a passive screen, with the path of its folder.
pub fn write_passive<S: Sink>(sink: &mut S, line: u64, path: &str) -> Result<(), TextFault>
    ensures writes { (nodes : Items NodeRow) → Writes S.Sink result sink.old sink.new (head_line nodes line (Done None) ++ body_line (codes "passive" ∷ path.now ∷ [])) }
{
    send(
        sink,
        &[
            Part::Number(line),
            Part::Text(b" ok\n  passive "),
            Part::Text(path.as_bytes()),
            Part::Text(b"\n"),
        ],
    )
}

/// Writes the reply that tells what the files at and below a path take, in bytes.
pub fn write_sum<S: Sink>(sink: &mut S, line: u64, bytes: u64, path: &str) -> Result<(), TextFault>
    ensures writes { (nodes : Items NodeRow) → Writes S.Sink result sink.old sink.new (head_line nodes line (Done None) ++ body_line (decimal bytes ∷ path.now ∷ [])) }
{
    send(
        sink,
        &[
            Part::Number(line),
            Part::Text(b" ok\n  "),
            Part::Number(bytes),
            Part::Text(b" "),
            Part::Text(path.as_bytes()),
            Part::Text(b"\n"),
        ],
    )
}

/// Writes the reply to a step of the scan of a folder, by its path: how many folders it visited, and, if the
/// scan is finished, what the files at and below the folder take, in bytes.
pub fn write_visited<S: Sink>(
    sink: &mut S,
    line: u64,
    visited: u32,
    done: Option<u64>,
    path: &str,
) -> Result<(), TextFault>
    ensures writes { Writes S.Sink result sink.old sink.new (line_of (decimal line ∷ codes "ok" ∷ codes "visited" ∷ decimal visited ∷ codes "of" ∷ path.now ∷ done_words done)) }
{
    let (line, visited) = (Part::Number(line), Part::Number(u64::from(visited)));
    let (ok, of, path) = (
        Part::Text(b" ok visited "),
        Part::Text(b" of "),
        Part::Text(path.as_bytes()),
    );
    let end = Part::Text(b"\n");
    match done {
        Some(used) => {
            let (done, used) = (Part::Text(b" done "), Part::Number(used));
            send(sink, &[line, ok, visited, of, path, done, used, end])
        }
        None => send(sink, &[line, ok, visited, of, path, end]),
    }
}

/// Writes the reply to a line whose name a screen blocks, by the path of the screen's folder.
pub fn write_blocked<S: Sink>(sink: &mut S, line: u64, path: &str) -> Result<(), TextFault>
    ensures writes { Writes S.Sink result sink.old sink.new (line_of (decimal line ∷ codes "refused" ∷ codes "ScreenBlocked" ∷ path.now ∷ [])) }
{
    send(
        sink,
        &[
            Part::Number(line),
            Part::Text(b" refused ScreenBlocked "),
            Part::Text(path.as_bytes()),
            Part::Text(b"\n"),
        ],
    )
}

/// Writes the reply to a line that would take a folder, by its path, above its limit, in bytes.
pub fn write_exceeded<S: Sink>(
    sink: &mut S,
    line: u64,
    would: u64,
    limit: u64,
    path: &str,
) -> Result<(), TextFault>
    ensures writes { Writes S.Sink result sink.old sink.new (line_of (decimal line ∷ codes "refused" ∷ codes "QuotaExceeded" ∷ decimal would ∷ decimal limit ∷ path.now ∷ [])) }
{
    send(
        sink,
        &[
            Part::Number(line),
            Part::Text(b" refused QuotaExceeded "),
            Part::Number(would),
            Part::Text(b" "),
            Part::Number(limit),
            Part::Text(b" "),
            Part::Text(path.as_bytes()),
            Part::Text(b"\n"),
        ],
    )
}

// The column that a refusal carries, if it carries one.
fn column_of(refusal: Refusal) -> Option<u32>
    ensures some { (nodes : Items NodeRow) → IfSome result (λ column. refusal_words nodes refusal ≡ codes "BadLine" ∷ decimal column ∷ []) }
    ensures none { IfNone result (carries_column refusal ≡ false) }
{
    match refusal {
        Refusal::BadLine { column } => Some(column),
        _ => None,
    }
}

// The reply to a line that is refused, after the line's number, for refusals that carry nothing.
fn text_of(refusal: Refusal) -> &'static [u8]
    requires bare { is_bare refusal ≡ true }
    requires alone { carries_column refusal ≡ false }
    ensures text { (nodes : Items NodeRow) → 32 ∷ line_of (codes "refused" ∷ refusal_words nodes refusal) ≡ result.now }
    ensures short { length result.now ≤ 44 }
{
    match refusal {
        Refusal::LineTooLong => b" refused LineTooLong\n",
        Refusal::InvalidPath => b" refused InvalidPath\n",
        Refusal::InvalidName => b" refused InvalidName\n",
        Refusal::OutOfRange => b" refused OutOfRange\n",
        Refusal::InvalidLimit => b" refused InvalidLimit\n",
        Refusal::ClockBack => b" refused ClockBack\n",
        Refusal::PathNotFound => b" refused PathNotFound\n",
        Refusal::NotFound => b" refused NotFound\n",
        Refusal::AlreadyExists => b" refused AlreadyExists\n",
        Refusal::DuplicateName => b" refused DuplicateName\n",
        Refusal::InUse => b" refused InUse\n",
        Refusal::InvalidCombination => b" refused InvalidCombination\n",
        Refusal::NotEmpty => b" refused NotEmpty\n",
        Refusal::InvalidMove => b" refused InvalidMove\n",
        Refusal::NothingToScan => b" refused NothingToScan\n",
        Refusal::VolumeFull => b" refused VolumeFull\n",
        Refusal::NamesFull => b" refused NamesFull\n",
        Refusal::TableFull => b" refused TableFull\n",
        Refusal::TextsFull => b" refused TextsFull\n",
        Refusal::BadLine { .. } => unreachable!(),
        Refusal::ScreenBlocked { .. } => unreachable!(),
        Refusal::QuotaExceeded { .. } => unreachable!(),
    }
}

/// Writes the reply to a script's line that is refused, for refusals that carry no path: `LINE refused`
/// and why. Lines are numbered from 1.
pub fn write_head<S: Sink>(
    _alloc: Global,
    sink: &mut S,
    line: u64,
    refusal: &Refusal,
) -> Result<(), TextFault>
    requires { is_bare refusal.now ≡ true }
    ensures writes { (nodes : Items NodeRow) → Writes S.Sink result sink.old sink.new (head_line nodes line (Refused refusal.now)) }
{
    match column_of(*refusal) {
        Some(column) => send_short_with(sink, line, b" refused BadLine ", u64::from(column)),
        None => send_short(sink, line, text_of(*refusal)),
    }
}
