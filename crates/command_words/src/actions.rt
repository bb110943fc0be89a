//! The thresholds of quotas and templates, and the actions of these and of screens, in the values of options.

ghost use Rattle.std.specs.Prelude.{◌≡◌, ◌≤◌, false, IfOk, MatchOption};
ghost use Rattle.std.specs.List.{list_any};
ghost use Rattle.fsrm_model.specs.texts.ActionWords.{action_from, is_comma, kind_named, minutes_from, notice_from, percent_from};
ghost use Rattle.fsrm_model.specs.declared.command.Refusal.TheVariants.{InvalidName};
ghost use Rattle.fsrm_model.specs.values.Limits.{most_minutes};
ghost use Rattle.fsrm_model.specs.lines.Reading.{guarded, number_from};
ghost use Rattle.fsrm_model.specs.objects.Thresholds.{is_action_text};
ghost use Rattle.command_words.specs.ActionParts.{IsParted, AreParts, has_action_commas, action_of, added_from};
ghost use Rattle.command_words.specs.LineFaults.{Reads};

use crate::fault::LineFault;
use crate::values::{is_named, read_number};
use fsrm_model::limits::{GREATEST_PERCENT, MOST_MINUTES};
use fsrm_model::{Action, ActionKind, Added, Refusal, Text};
use std::alloc::Global;
use text_rules::is_action_text;

/// The percentage that a text of a word at this column is: 1 to 250.
pub fn read_percent(text: &str, column: u32) -> Result<u16, LineFault>
    ensures { Reads result (percent_from column text.now) }
{
    let percent = read_number(text, column, 1, GREATEST_PERCENT as u64)?;
    Ok(percent as u16)
}

/// The run limit that a text of a word at this column is, in minutes: 0 to 525,600.
pub fn read_run_limit(text: &str, column: u32) -> Result<u32, LineFault>
    ensures read { Reads result (number_from 0 most_minutes column text.now) }
    ensures within { IfOk result (λ minutes. minutes ≤ most_minutes) }
{
    let minutes = read_number(text, column, 0, MOST_MINUTES as u64)?;
    Ok(minutes as u32)
}

// The minutes of an action: a run limit of its own, or -1.
fn read_minutes(text: &str, column: u32) -> Result<i32, LineFault>
    ensures { Reads result (minutes_from column text.now) }
{
    if text == "-1" {
        return Ok(-1);
    }
    let minutes = read_run_limit(text, column)?;
    Ok(minutes as i32)
}

const KINDS: [ActionKind; 4] = [
    ActionKind::Event,
    ActionKind::Mail,
    ActionKind::Program,
    ActionKind::Report,
];

fn kind_named(word: &str) -> Option<ActionKind>
    ensures { result ≡ kind_named word.now }
{
    KINDS
        .iter()
        .find(|kind| is_named(kind.letter(), word))
        .copied()
}

fn read_text(alloc: Global, text: &str) -> Result<Text, LineFault>
    ensures { Reads result (guarded (is_action_text text.now) InvalidName text.now) }
{
    if !is_action_text(text) {
        return Err(LineFault::Refused(Refusal::InvalidName));
    }
    Ok(Text::from_str(alloc, text)?)
}

// What stands before the first comma of a text, and what stands after it.
fn parted(text: &str) -> Option<(&str, &str)>
    ensures { MatchOption result (list_any is_comma text.now ≡ false) (λ parts. IsParted text.now parts.0.now parts.1.now) }
{
    text.split_once(',')
}

// An action as it is written. The text may have more commas.
#[derive(Clone, Copy)]
struct ActionParts<'a> {
    kind: &'a str,
    minutes: &'a str,
    text: &'a str,
}

// The parts of an action, if its two commas are there.
fn action_parts(text: &str) -> Option<ActionParts<'_>>
    ensures { MatchOption result (has_action_commas text.now ≡ false) (λ parts. AreParts text.now parts.kind.now parts.minutes.now parts.text.now) }
{
    let (kind, rest) = parted(text)?;
    let (minutes, text) = parted(rest)?;
    Some(ActionParts {
        kind,
        minutes,
        text,
    })
}

// The action of these parts, in a word at this column.
fn read_action(alloc: Global, parts: &ActionParts<'_>, column: u32) -> Result<Action, LineFault>
    ensures { Reads result (action_of column parts.now.kind.now parts.now.minutes.now parts.now.text.now) }
{
    let kind = kind_named(parts.kind).ok_or(LineFault::bad_line(column))?;
    let minutes = read_minutes(parts.minutes, column)?;
    let text = read_text(alloc, parts.text)?;
    Ok(Action {
        kind,
        minutes,
        text,
        last_run: None,
    })
}

// The notification of a percentage and of an action's parts, in a word at this column.
fn read_added(
    alloc: Global,
    percent: &str,
    action: &ActionParts<'_>,
    column: u32,
) -> Result<Added, LineFault>
    ensures { Reads result (added_from column percent.now action.now.kind.now action.now.minutes.now action.now.text.now) }
{
    let percent = read_percent(percent, column)?;
    let action = read_action(alloc, action, column)?;
    Ok(Added { percent, action })
}

/// The notification that a text of a word at this column is: a percentage, the letter of a kind, minutes and a text,
/// with commas between them. All three commas are looked for before any part is judged.
pub fn read_notice(alloc: Global, text: &str, column: u32) -> Result<Added, LineFault>
    ensures { Reads result (notice_from column text.now) }
{
    let Some((percent, action)) = parted(text) else {
        return Err(LineFault::bad_line(column));
    };
    let Some(action) = action_parts(action) else {
        return Err(LineFault::bad_line(column));
    };
    read_added(alloc, percent, &action, column)
}

/// The action of a screen that a text of a word at this column is: the letter of a kind, minutes and a text, with
/// commas between them. Both commas are looked for before any part is judged.
pub fn read_screen_action(alloc: Global, text: &str, column: u32) -> Result<Action, LineFault>
    ensures { Reads result (action_from column text.now) }
{
    let Some(parts) = action_parts(text) else {
        return Err(LineFault::bad_line(column));
    };
    read_action(alloc, &parts, column)
}
