//! Reads a line.

ghost use Rattle.std.specs.Prelude.{◌≡◌, ◌≤◌, ◌↔◌, IsTrue, IfOk, IfErr, IfSome, Ok, Some, None, true, length, option_map, if◌then◌else◌};
ghost use Rattle.std.specs.List.{list_any};
ghost use Rattle.fsrm_model.specs.declared.command.Command.{Command};
ghost use Rattle.fsrm_model.specs.lines.Line.{read_line, read_words, is_skipped};
ghost use Rattle.fsrm_model.specs.store.Valued.{is_command};
ghost use Rattle.fsrm_model.specs.values.Limits.{longest_line};
ghost use Rattle.fsrm_model.specs.lines.Words.{is_quote, is_closed, last_quote};
ghost use Rattle.tool_commands.specs.LineFaults.{IsFault, ReadsWords};

use crate::commands::{deed, other_deed};
use command_words::{LineFault, Words, blanks};
use fsrm_model::limits::LONGEST_LINE;
use fsrm_model::{Command, Refusal};
use memchr::{memchr_iter, memrchr};
use std::alloc::Global;
use std::str;

fn is_skipped(line: &[u8]) -> bool
    ensures { result ≡ is_skipped line.now }
{
    let place = blanks(line);
    place == line.len() || line[place] == b'#'
}

// The column of the last quote, if it isn't ended. It counts bytes from 1. It stands apart, since most lines have no
// quotes.
#[inline(never)]
fn odd_quote(line: &[u8]) -> Option<usize>
    ensures column { result ≡ (if is_closed line.now then None else Some (last_quote line.now)) }
    ensures within { IfSome result (λ column. column ≤ length line.now) }
{
    let Some(last) = memrchr(b'"', line) else {
        return None;
    };
    if memchr_iter(b'"', line).count() % 2 == 0 {
        return None;
    }
    Some(last + 1)
}

// Whether a line has a quote. It is asked of each byte without a branch, so that the compiler asks many at once.
fn has_quote(line: &[u8]) -> bool
    ensures { result ≡ list_any is_quote line.now }
{
    let mut found = false;
    for byte in line {
        found = found | (*byte == b'"');
    }
    found
}

// The column of the last quote, if it isn't ended. Most lines have no quote.
fn unclosed_quote(line: &str) -> Option<usize>
    ensures column { result ≡ (if is_closed line.now then None else Some (last_quote line.now)) }
    ensures within { IfSome result (λ column. column ≤ length line.now) }
{
    let bytes = line.as_bytes();
    if has_quote(bytes) {
        return odd_quote(bytes);
    }
    None
}

// The command of a line that isn't skipped: its moment, its name and what follows that. It stands apart, so that a line
// that is skipped needs no room for a command.
#[inline(never)]
fn read_words(alloc: Global, line: &str) -> Result<Option<Command>, LineFault>
    requires { length line.now ≤ longest_line }
    ensures { ReadsWords result (read_words line.now) }
{
    if let Some(column) = unclosed_quote(line) {
        return Err(LineFault::bad_line(column as u32));
    }
    let mut words = Words::new(line);
    let moment = words.moment(alloc)?;
    match words.next_plain() {
        Some(name) => deed(alloc, moment, &name, &mut words),
        None => other_deed(alloc, moment, &mut words),
    }
}

/// Whether a line is skipped, as [`read_line`] says it too. It needs no room for a command.
pub fn is_skipped_line(line: &[u8]) -> bool
    ensures { IsTrue result ↔ (read_line line.now ≡ None) }
{
    if line.len() > LONGEST_LINE {
        return false;
    }
    is_skipped(line) && str::from_utf8(line).is_ok()
}

/// The command that a line spells, without the LF or CR LF that ends it. None exactly if the line is skipped: it has
/// nothing but blanks, or its first byte that is no blank is a `#`.
pub fn read_line(alloc: Global, line: &[u8]) -> Result<Option<Command>, LineFault>
    ensures read { IfOk result (λ read. read_line line.now ≡ option_map (λ command. Ok command) read) }
    ensures valid { IfOk result (λ read. (command : Command) → read ≡ Some command → is_command command ≡ true) }
    ensures fault { IfErr result (λ fault. IsFault fault (read_line line.now)) }
{
    if line.len() > LONGEST_LINE {
        return Err(LineFault::Refused(Refusal::LineTooLong));
    }
    let text = match str::from_utf8(line) {
        Ok(text) => text,
        Err(error) => return Err(LineFault::bad_line(error.valid_up_to() as u32 + 1)),
    };
    if is_skipped(line) {
        return Ok(None);
    }
    read_words(alloc, text)
}
