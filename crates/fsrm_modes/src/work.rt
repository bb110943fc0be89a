//! Takes a script of the program's own making, and sums its replies up.

ghost use Rattle.std.specs.Prelude.{◌≡◌, ◌<◌, ◌+◌, ◌∷◌, [], Ok, Err, Some, true, false, IfOk, OnOk, OnErr, MatchResult, IsErrOf};
ghost use Rattle.fsrm_model.specs.lines.Script.{replied, replied_to};
ghost use Rattle.fsrm_model.specs.store.Valued.{is_command};
ghost use Rattle.made_script.specs.Rest.{lines_left};
ghost use Rattle.made_script.specs.Tally.{line_tally, plus, tally_from, tally_of};
ghost use Rattle.fsrm_session.specs.Counts.{Counts};
ghost use Rattle.fsrm_session.specs.Members.{members};
ghost use Rattle.fsrm_session.specs.Spending.{bytes_after, Spends};
ghost use Rattle.fsrm_session.specs.Turns.{command_turn, line_turn, said_turn, unshown};
ghost use Rattle.fsrm_session.specs.Underway.{CanFlush, CanTake, Goes, Stops};
ghost use Rattle.fsrm_modes.specs.Working.{unshown_lines, work_turns};

use crate::answering::without_cr;
use fsrm_model::{Command, Ledger, Steps};
use fsrm_outside::Outside;
use fsrm_session::{Session, Stop};
use line_parts::Part;
use made_script::{Tally, Work};
use std::alloc::Global;
use tool_commands::{LineFault, read_line};

// Takes a command that a line spells, and drops it.
#[inline(always)]
fn count_read<O: Outside, L: Ledger>(
    session: &mut Session,
    outside: &mut O,
    number: u64,
    command: Command,
    steps: &mut Steps<L>,
) -> Result<Tally, Stop>
    requires ready { CanTake O.reads session.old outside.old }
    requires valid { is_command command ≡ true }
    ensures runs { MatchResult result (λ _. Goes (members O.Source O.Sink O.Disk) (unshown (command_turn session.old.store.engine.size number command) ∷ []) session.old session.new outside.old outside.new) (λ stop. Stops (members O.Source O.Sink O.Disk) stop (unshown (command_turn session.old.store.engine.size number command) ∷ []) session.old session.new outside.old outside.new) }
    ensures tally { IfOk result (λ tally. tally ≡ tally_of session.old.store.engine.size session.old.store.engine.rows number (Some (Ok command))) }
    ensures rows { OnOk result (session.new.store.engine.rows ≡ (replied_to session.old.store.engine.size session.old.store.engine.rows number (Some (Ok command))).rows) }
    ensures ready { OnOk result (CanTake O.reads session.new outside.new) }
    ensures memory { IsErrOf result Stop.NoMemory → CanFlush O.reads session.new outside.new }
    ensures counts { Counts result (O.write_faults outside.old) (O.write_faults outside.new) (O.disk_faults outside.old) (O.disk_faults outside.new) }
    ensures reads { O.read_faults outside.new ≡ O.read_faults outside.old }
    ensures left { O.left outside.new ≡ O.left outside.old }
    ensures size { OnOk result (session.new.store.engine.size ≡ session.old.store.engine.size) }
    ensures looks { Spends (members O.Source O.Sink O.Disk) (unshown (command_turn session.old.store.engine.size number command) ∷ []) session.old outside.old steps.old steps.new (bytes_after result session.new) }
{
    session.count(outside, number, &command, steps)
}

// Takes the command of a line, if it has one, and answers what its reply comes to.
fn count_line<O: Outside, L: Ledger>(
    session: &mut Session,
    outside: &mut O,
    alloc: Global,
    number: u64,
    line: &[u8],
    steps: &mut Steps<L>,
) -> Result<Tally, Stop>
    requires ready { CanTake O.reads session.old outside.old }
    ensures runs { MatchResult result (λ _. Goes (members O.Source O.Sink O.Disk) (unshown (line_turn session.old.store.engine.size number line.now) ∷ []) session.old session.new outside.old outside.new) (λ stop. Stops (members O.Source O.Sink O.Disk) stop (unshown (line_turn session.old.store.engine.size number line.now) ∷ []) session.old session.new outside.old outside.new) }
    ensures tally { IfOk result (λ tally. tally ≡ line_tally session.old.store.engine.size session.old.store.engine.rows number line.now) }
    ensures rows { OnOk result (session.new.store.engine.rows ≡ (replied session.old.store.engine.size session.old.store.engine.rows number line.now).rows) }
    ensures ready { OnOk result (CanTake O.reads session.new outside.new) }
    ensures memory { IsErrOf result Stop.NoMemory → CanFlush O.reads session.new outside.new }
    ensures counts { Counts result (O.write_faults outside.old) (O.write_faults outside.new) (O.disk_faults outside.old) (O.disk_faults outside.new) }
    ensures reads { O.read_faults outside.new ≡ O.read_faults outside.old }
    ensures left { O.left outside.new ≡ O.left outside.old }
    ensures size { OnOk result (session.new.store.engine.size ≡ session.old.store.engine.size) }
    ensures looks { Spends (members O.Source O.Sink O.Disk) (unshown (line_turn session.old.store.engine.size number line.now) ∷ []) session.old outside.old steps.old steps.new (bytes_after result session.new) }
{
    match read_line(alloc, without_cr(line)) {
        Ok(Some(command)) => count_read(session, outside, number, command, steps),
        Ok(None) => Ok(Tally::none()),
        Err(LineFault::Refused(refusal)) => session.count_refusal(number, refusal, steps),
        Err(LineFault::NoMemory) => Err(Stop::NoMemory),
    }
}

// Makes the next line. False: there is none.
fn next_line(work: &mut Work) -> Result<bool, Stop>
    ensures made { IfOk result (λ more. more ≡ true → lines_left work.old ≡ work.new.line.items ∷ lines_left work.new) }
    ensures number { IfOk result (λ more. more ≡ true → work.new.number ≡ work.old.number + 1) }
    ensures fewer { IfOk result (λ more. more ≡ true → work.new.left < work.old.left) }
    ensures ended { IfOk result (λ more. more ≡ false → lines_left work.old ≡ []) }
    ensures only { OnErr result (result ≡ Err Stop.NoMemory) }
{
    match work.advance() {
        Ok(more) => Ok(more),
        Err(_) => Err(Stop::NoMemory),
    }
}

// Both, one after the other. Counts that don't fit 64 bits are told as want of memory.
fn both(tally: Tally, more: Tally) -> Result<Tally, Stop>
    ensures sum { IfOk result (λ sum. sum ≡ plus tally more) }
    ensures only { OnErr result (result ≡ Err Stop.NoMemory) }
{
    match tally.plus(more) {
        Some(sum) => Ok(sum),
        None => Err(Stop::NoMemory),
    }
}

// Makes the lines that are left and takes them, and answers what their replies come to.
fn count_lines<O: Outside, L: Ledger>(
    session: &mut Session,
    outside: &mut O,
    alloc: Global,
    work: &mut Work,
    steps: &mut Steps<L>,
) -> Result<Tally, Stop>
    requires ready { CanTake O.reads session.old outside.old }
    ensures runs { MatchResult result (λ _. Goes (members O.Source O.Sink O.Disk) (unshown_lines session.old.store.engine.size (work.old.number + 1) (lines_left work.old)) session.old session.new outside.old outside.new) (λ stop. Stops (members O.Source O.Sink O.Disk) stop (unshown_lines session.old.store.engine.size (work.old.number + 1) (lines_left work.old)) session.old session.new outside.old outside.new) }
    ensures tally { IfOk result (λ tally. tally ≡ tally_from session.old.store.engine.size session.old.store.engine.rows (work.old.number + 1) (lines_left work.old)) }
    ensures ready { OnOk result (CanTake O.reads session.new outside.new) }
    ensures memory { IsErrOf result Stop.NoMemory → CanFlush O.reads session.new outside.new }
    ensures counts { Counts result (O.write_faults outside.old) (O.write_faults outside.new) (O.disk_faults outside.old) (O.disk_faults outside.new) }
    ensures reads { O.read_faults outside.new ≡ O.read_faults outside.old }
    ensures left { O.left outside.new ≡ O.left outside.old }
    ensures looks { Spends (members O.Source O.Sink O.Disk) (unshown_lines session.old.store.engine.size (work.old.number + 1) (lines_left work.old)) session.old outside.old steps.old steps.new (bytes_after result session.new) }
{
    let mut tally = Tally::none();
    'lines: while next_line(work)? {
        let counted = count_line(session, outside, alloc, work.number(), work.line(), steps)?;
        tally = both(tally, counted)?;
    }
    Ok(tally)
}

// Tells the line that sums all up.
fn say_summary<O: Outside, L: Ledger>(
    session: &mut Session,
    outside: &mut O,
    text: &[u8],
    steps: &mut Steps<L>,
) -> Result<(), Stop>
    requires ready { CanTake O.reads session.old outside.old }
    ensures runs { MatchResult result (λ _. Goes (members O.Source O.Sink O.Disk) (said_turn text.now ∷ []) session.old session.new outside.old outside.new) (λ stop. Stops (members O.Source O.Sink O.Disk) stop (said_turn text.now ∷ []) session.old session.new outside.old outside.new) }
    ensures ready { OnOk result (CanTake O.reads session.new outside.new) }
    ensures memory { IsErrOf result Stop.NoMemory → CanFlush O.reads session.new outside.new }
    ensures counts { Counts result (O.write_faults outside.old) (O.write_faults outside.new) (O.disk_faults outside.old) (O.disk_faults outside.new) }
    ensures reads { O.read_faults outside.new ≡ O.read_faults outside.old }
    ensures left { O.left outside.new ≡ O.left outside.old }
    ensures looks { Spends (members O.Source O.Sink O.Disk) (said_turn text.now ∷ []) session.old outside.old steps.old steps.new (bytes_after result session.new) }
{
    let line = [Part::Text(text)];
    session.say(outside, &line, steps)
}

/// Takes the lines of the made script of a seed, so many, and then tells the line that sums their replies up. Nothing
/// of these is shown.
pub fn sum_up<O: Outside, L: Ledger>(
    session: &mut Session,
    outside: &mut O,
    alloc: Global,
    seed: u64,
    count: u32,
    steps: &mut Steps<L>,
) -> Result<(), Stop>
    requires ready { CanTake O.reads session.old outside.old }
    ensures runs { MatchResult result (λ _. Goes (members O.Source O.Sink O.Disk) (work_turns session.old.store.engine.size session.old.store.engine.rows seed count) session.old session.new outside.old outside.new) (λ stop. Stops (members O.Source O.Sink O.Disk) stop (work_turns session.old.store.engine.size session.old.store.engine.rows seed count) session.old session.new outside.old outside.new) }
    ensures ready { OnOk result (CanFlush O.reads session.new outside.new) }
    ensures memory { IsErrOf result Stop.NoMemory → CanFlush O.reads session.new outside.new }
    ensures counts { Counts result (O.write_faults outside.old) (O.write_faults outside.new) (O.disk_faults outside.old) (O.disk_faults outside.new) }
    ensures reads { O.read_faults outside.new ≡ O.read_faults outside.old }
    ensures left { O.left outside.new ≡ O.left outside.old }
    ensures looks { Spends (members O.Source O.Sink O.Disk) (work_turns session.old.store.engine.size session.old.store.engine.rows seed count) session.old outside.old steps.old steps.new (bytes_after result session.new) }
{
    let mut work = Work::new(alloc, seed, count);
    let tally = count_lines(session, outside, alloc, &mut work, steps)?;
    match tally.summary(alloc, count) {
        Ok(text) => say_summary(session, outside, &text, steps),
        Err(_) => Err(Stop::NoMemory),
    }
}
