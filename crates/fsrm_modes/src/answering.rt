//! Does what a line asks for.

ghost use Rattle.std.specs.Prelude.{◌≡◌, ◌∷◌, [], true, OnOk, MatchResult, IsErrOf};
ghost use Rattle.fsrm_model.specs.lines.Script.{without_cr};
ghost use Rattle.fsrm_model.specs.store.Valued.{is_command};
ghost use Rattle.fsrm_session.specs.Counts.{Counts};
ghost use Rattle.fsrm_session.specs.Members.{members};
ghost use Rattle.fsrm_session.specs.Spending.{bytes_after, Spends};
ghost use Rattle.fsrm_session.specs.Turns.{command_turn, line_turn};
ghost use Rattle.fsrm_session.specs.Underway.{CanFlush, CanTake, Goes, Stops};

use fsrm_model::{Command, Ledger, Steps};
use fsrm_outside::Outside;
use fsrm_session::{Session, Stop};
use std::alloc::Global;
use tool_commands::{LineFault, is_skipped_line, read_line};

const CARRIAGE_RETURN: &[u8] = b"\r";

// A line without the CR that may end it.
pub(crate) fn without_cr(line: &[u8]) -> &[u8]
    ensures { result.now ≡ without_cr line.now }
{
    match line.strip_suffix(CARRIAGE_RETURN) {
        Some(text) => text,
        None => line,
    }
}

// Takes a command that a line spells, and drops it. That is done here, so that other lines don't pay for it.
#[inline(always)]
pub(crate) fn take_read<O: Outside, L: Ledger>(
    session: &mut Session,
    outside: &mut O,
    number: u64,
    command: Command,
    steps: &mut Steps<L>,
) -> Result<(), Stop>
    requires ready { CanTake O.reads session.old outside.old }
    requires valid { is_command command ≡ true }
    ensures runs { MatchResult result (λ _. Goes (members O.Source O.Sink O.Disk) (command_turn session.old.store.engine.size number command ∷ []) session.old session.new outside.old outside.new) (λ stop. Stops (members O.Source O.Sink O.Disk) stop (command_turn session.old.store.engine.size number command ∷ []) session.old session.new outside.old outside.new) }
    ensures ready { OnOk result (CanTake O.reads session.new outside.new) }
    ensures memory { IsErrOf result Stop.NoMemory → CanFlush O.reads session.new outside.new }
    ensures counts { Counts result (O.write_faults outside.old) (O.write_faults outside.new) (O.disk_faults outside.old) (O.disk_faults outside.new) }
    ensures reads { O.read_faults outside.new ≡ O.read_faults outside.old }
    ensures left { O.left outside.new ≡ O.left outside.old }
    ensures size { OnOk result (session.new.store.engine.size ≡ session.old.store.engine.size) }
    ensures rows { OnOk result (session.new.store.engine.rows ≡ (command_turn session.old.store.engine.size number command).after session.old.store.engine.rows) }
    ensures looks { Spends (members O.Source O.Sink O.Disk) (command_turn session.old.store.engine.size number command ∷ []) session.old outside.old steps.old steps.new (bytes_after result session.new) }
{
    session.take(outside, number, &command, steps)
}

// Reads a line, and does what it asks for. It stands apart, so that a line that is skipped needs no room for a command.
#[inline(never)]
fn answer_words<O: Outside, L: Ledger>(
    session: &mut Session,
    outside: &mut O,
    alloc: Global,
    number: u64,
    line: &[u8],
    steps: &mut Steps<L>,
) -> Result<(), Stop>
    requires ready { CanTake O.reads session.old outside.old }
    ensures runs { MatchResult result (λ _. Goes (members O.Source O.Sink O.Disk) (line_turn session.old.store.engine.size number line.now ∷ []) session.old session.new outside.old outside.new) (λ stop. Stops (members O.Source O.Sink O.Disk) stop (line_turn session.old.store.engine.size number line.now ∷ []) session.old session.new outside.old outside.new) }
    ensures ready { OnOk result (CanTake O.reads session.new outside.new) }
    ensures memory { IsErrOf result Stop.NoMemory → CanFlush O.reads session.new outside.new }
    ensures counts { Counts result (O.write_faults outside.old) (O.write_faults outside.new) (O.disk_faults outside.old) (O.disk_faults outside.new) }
    ensures reads { O.read_faults outside.new ≡ O.read_faults outside.old }
    ensures left { O.left outside.new ≡ O.left outside.old }
    ensures size { OnOk result (session.new.store.engine.size ≡ session.old.store.engine.size) }
    ensures looks { Spends (members O.Source O.Sink O.Disk) (line_turn session.old.store.engine.size number line.now ∷ []) session.old outside.old steps.old steps.new (bytes_after result session.new) }
{
    match read_line(alloc, without_cr(line)) {
        Ok(Some(command)) => take_read(session, outside, number, command, steps),
        Ok(None) => Ok(()),
        Err(LineFault::Refused(refusal)) => session.refuse(outside, number, refusal, steps),
        Err(LineFault::NoMemory) => Err(Stop::NoMemory),
    }
}

/// Does what a line asks for, and tells the reply and its acts. A line that is skipped has none.
#[inline]
pub fn answer<O: Outside, L: Ledger>(
    session: &mut Session,
    outside: &mut O,
    alloc: Global,
    number: u64,
    line: &[u8],
    steps: &mut Steps<L>,
) -> Result<(), Stop>
    requires ready { CanTake O.reads session.old outside.old }
    ensures runs { MatchResult result (λ _. Goes (members O.Source O.Sink O.Disk) (line_turn session.old.store.engine.size number line.now ∷ []) session.old session.new outside.old outside.new) (λ stop. Stops (members O.Source O.Sink O.Disk) stop (line_turn session.old.store.engine.size number line.now ∷ []) session.old session.new outside.old outside.new) }
    ensures ready { OnOk result (CanTake O.reads session.new outside.new) }
    ensures memory { IsErrOf result Stop.NoMemory → CanFlush O.reads session.new outside.new }
    ensures counts { Counts result (O.write_faults outside.old) (O.write_faults outside.new) (O.disk_faults outside.old) (O.disk_faults outside.new) }
    ensures reads { O.read_faults outside.new ≡ O.read_faults outside.old }
    ensures left { O.left outside.new ≡ O.left outside.old }
    ensures size { OnOk result (session.new.store.engine.size ≡ session.old.store.engine.size) }
    ensures looks { Spends (members O.Source O.Sink O.Disk) (line_turn session.old.store.engine.size number line.now ∷ []) session.old outside.old steps.old steps.new (bytes_after result session.new) }
{
    if is_skipped_line(without_cr(line)) {
        return Ok(());
    }
    answer_words(session, outside, alloc, number, line, steps)
}
