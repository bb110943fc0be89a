//! Writes the lines of a quota's thresholds, and those of a screen's actions.

ghost use Rattle.std.specs.Prelude.{◌≡◌, ◌++◌, ◌∷◌, [], decimal, flat_map, codes};
ghost use Rattle.fsrm_model.specs.texts.ActionWords.{minutes_word};
ghost use Rattle.fsrm_model.specs.texts.Printed.{deep_line};
ghost use Rattle.reply_text.specs.Lines.{action_line, do_text, threshold_text};
ghost use Rattle.line_parts.specs.Parts.{part_text};
ghost use Rattle.line_parts.specs.Writes.{Writes};

use fsrm_model::{Action, Threshold};
use fsrm_outside::Sink;
use line_parts::{Part, TextFault, send};

// The sign of minutes, and their digits.
fn minutes_parts<'a>(minutes: i32) -> (Part<'a>, Part<'a>)
    ensures { part_text result.0 ++ part_text result.1 ≡ minutes_word minutes }
{
    let digits = Part::Number(u64::from(minutes.unsigned_abs()));
    if minutes < 0 {
        (Part::Text(b"-"), digits)
    } else {
        (Part::Text(b""), digits)
    }
}

// Writes the line of a threshold without actions.
fn write_bare<S: Sink>(sink: &mut S, percent: u16) -> Result<(), TextFault>
    ensures writes { Writes S.Sink result sink.old sink.new (deep_line (codes "at" ∷ decimal percent ∷ [])) }
{
    send(
        sink,
        &[
            Part::Text(b"    at "),
            Part::Number(u64::from(percent)),
            Part::Text(b"\n"),
        ],
    )
}

// Writes the line of an action of a threshold.
fn write_action<S: Sink>(sink: &mut S, percent: u16, action: &Action) -> Result<(), TextFault>
    ensures writes { Writes S.Sink result sink.old sink.new (action_line percent action.now) }
{
    let kind = action.kind.letter().as_bytes();
    let (sign, digits) = minutes_parts(action.minutes);
    send(
        sink,
        &[
            Part::Text(b"    at "),
            Part::Number(u64::from(percent)),
            Part::Text(b" "),
            Part::Text(kind),
            Part::Text(b" "),
            sign,
            digits,
            Part::Text(b" "),
            Part::Text(action.text.as_str().as_bytes()),
            Part::Text(b"\n"),
        ],
    )
}

// Writes the lines of a threshold's actions.
fn write_actions<S: Sink>(sink: &mut S, percent: u16, actions: &[Action]) -> Result<(), TextFault>
    ensures writes { Writes S.Sink result sink.old sink.new (flat_map (action_line percent) actions.now) }
{
    for action in actions {
        write_action(sink, percent, action)?;
    }
    Ok(())
}

// Writes the lines of a threshold: one, or one for each of its actions.
fn write_threshold<S: Sink>(sink: &mut S, threshold: &Threshold) -> Result<(), TextFault>
    ensures writes { Writes S.Sink result sink.old sink.new (threshold_text threshold.now) }
{
    if threshold.actions.is_empty() {
        return write_bare(sink, threshold.percent);
    }
    write_actions(sink, threshold.percent, threshold.actions.as_slice())
}

/// Writes the lines of a quota's thresholds.
pub fn write_thresholds<S: Sink>(sink: &mut S, thresholds: &[Threshold]) -> Result<(), TextFault>
    ensures writes { Writes S.Sink result sink.old sink.new (flat_map threshold_text thresholds.now) }
{
    for threshold in thresholds {
        write_threshold(sink, threshold)?;
    }
    Ok(())
}

// Writes the line of an action of a screen.
fn write_do<S: Sink>(sink: &mut S, action: &Action) -> Result<(), TextFault>
    ensures writes { Writes S.Sink result sink.old sink.new (do_text action.now) }
{
    let kind = action.kind.letter().as_bytes();
    let (sign, digits) = minutes_parts(action.minutes);
    send(
        sink,
        &[
            Part::Text(b"    do "),
            Part::Text(kind),
            Part::Text(b" "),
            sign,
            digits,
            Part::Text(b" "),
            Part::Text(action.text.as_str().as_bytes()),
            Part::Text(b"\n"),
        ],
    )
}

/// Writes the lines of a screen's actions.
pub fn write_dos<S: Sink>(sink: &mut S, actions: &[Action]) -> Result<(), TextFault>
    ensures writes { Writes S.Sink result sink.old sink.new (flat_map do_text actions.now) }
{
    for action in actions {
        write_do(sink, action)?;
    }
    Ok(())
}
