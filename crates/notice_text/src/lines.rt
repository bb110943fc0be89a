//! Writes the lines of a notice.

ghost use Rattle.std.specs.Prelude.{◌≡◌, true};
ghost use Rattle.line_parts.specs.Writes.{Writes};
ghost use Rattle.notice_text.specs.Expand.{is_wide, values_of};
ghost use Rattle.notice_text.specs.NoticeText.{expanded_line, head_line, notice_text};

use crate::expand::write_expanded;
use crate::macros::Facts;
use fsrm_model::{Act, Subject};
use fsrm_outside::Sink;
use line_parts::{Part, TextFault, send, send_part};

// Writes what a notice is of: its date, the letter of its kind, a quota with its percentage or a screen, the place of
// the action, and the path.
fn write_head<S: Sink>(sink: &mut S, act: &Act, facts: &Facts) -> Result<(), TextFault>
    ensures writes { Writes S.Sink result sink.old sink.new (head_line act.now (values_of facts.now)) }
{
    let (kind, path) = (act.kind.letter().as_bytes(), facts.path.as_bytes());
    let place = Part::Number(u64::from(act.place));
    match act.subject {
        Subject::Quota { percent, .. } => send(
            sink,
            &[
                Part::Text(b"  "),
                Part::Text(facts.date),
                Part::Text(b" "),
                Part::Text(kind),
                Part::Text(b" quota "),
                Part::Number(u64::from(percent)),
                Part::Text(b" "),
                place,
                Part::Text(b" "),
                Part::Text(path),
                Part::Text(b"\n"),
            ],
        ),
        Subject::Screen { .. } => send(
            sink,
            &[
                Part::Text(b"  "),
                Part::Text(facts.date),
                Part::Text(b" "),
                Part::Text(kind),
                Part::Text(b" screen "),
                place,
                Part::Text(b" "),
                Part::Text(path),
                Part::Text(b"\n"),
            ],
        ),
    }
}

// Writes the line of a text with its macros expanded.
fn write_text<S: Sink>(sink: &mut S, text: &str, facts: &Facts) -> Result<(), TextFault>
    requires { is_wide facts.now.quota ≡ true }
    ensures writes { Writes S.Sink result sink.old sink.new (expanded_line (values_of facts.now) text.now) }
{
    send_part(sink, &Part::Text(b"    "))?;
    write_expanded(sink, text.as_bytes(), facts)?;
    send_part(sink, &Part::Text(b"\n"))
}

/// Writes the two lines of a notice: what it is of, and its text with the macros expanded. The limit of its quota is
/// 1,024 bytes at least.
pub fn write_lines<S: Sink>(
    sink: &mut S,
    act: &Act,
    facts: &Facts,
    text: &str,
) -> Result<(), TextFault>
    requires { is_wide facts.now.quota ≡ true }
    ensures writes { Writes S.Sink result sink.old sink.new (notice_text act.now (values_of facts.now) text.now) }
{
    write_head(sink, act, facts)?;
    write_text(sink, text, facts)
}
