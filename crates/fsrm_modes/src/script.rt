//! Reads a script to its end, and has a session take each of its lines.

ghost use Rattle.std.specs.Prelude.{◌≡◌, ◌≢◌, ◌≤◌, ◌<◌, ◌+◌, ◌-◌, [], List, ℕ, Err, Some, length, take, IfOk, IfErr, OnOk, OnErr, IsErrOf, MatchResult};
ghost use Rattle.fsrm_model.specs.values.Limits.{longest_script};
ghost use Rattle.fsrm_session.specs.Counts.{Counts};
ghost use Rattle.fsrm_session.specs.Members.{members};
ghost use Rattle.fsrm_session.specs.Spending.{Spends};
ghost use Rattle.fsrm_session.specs.Turns.{line_turns, script_turns};
ghost use Rattle.fsrm_session.specs.Underway.{CanFlush, CanTake};
ghost use Rattle.fsrm_modes.specs.Bytes.{IsAtEnd, Taken, TakenMost};
ghost use Rattle.fsrm_modes.specs.Answers.{most_taken};
ghost use Rattle.fsrm_modes.specs.Looks.{ended_lines, left_after, piece_of, SpendsLines};
ghost use Rattle.fsrm_modes.specs.Pieces.{ReadsAll, StopsAt, StopsReading, Takes};
ghost use Rattle.fsrm_modes.specs.Places.{place_of};
ghost use Rattle.fsrm_modes.specs.Reading.{ReadTo, start};
ghost use Rattle.fsrm_modes.specs.Statuses.{IsReadEnd, ReadCounts};

use crate::lines::{Lines, end, feed};
use crate::pieces::next_piece;
use crate::status::Status;
use fsrm_model::{Ledger, Steps};
use fsrm_outside::Outside;
use fsrm_session::Session;
use std::alloc::Global;

const PIECE: usize = 65_536;

/// Reads the script that the source has left to its end, and has its lines taken, from the first one on. At each
/// piece's end what may be shown is shown.
pub fn read_script<O: Outside, L: Ledger>(
    session: &mut Session,
    outside: &mut O,
    alloc: Global,
    steps: &mut Steps<L>,
) -> Result<(), Status>
    requires ready { CanTake O.reads session.old outside.old }
    ensures read { (script : List ℕ) → O.left outside.old ≡ Some script → ReadTo (members O.Source O.Sink O.Disk) session.old.store.engine.size result script session.old session.new outside.old outside.new }
    ensures taken { MatchResult result (λ _. TakenMost (O.left outside.old) (O.left outside.new) longest_script) (λ status. TakenMost (O.left outside.old) (O.left outside.new) (most_taken status)) }
    ensures ready { OnOk result (CanFlush O.reads session.new outside.new) }
    ensures stopped { IfErr result (λ status. (status ≢ Status.WriteFault) → (status ≢ Status.DiskFault) → CanFlush O.reads session.new outside.new) }
    ensures only { IfErr result IsReadEnd }
    ensures counts { ReadCounts result (O.read_faults outside.old) (O.read_faults outside.new) (O.write_faults outside.old) (O.write_faults outside.new) (O.disk_faults outside.old) (O.disk_faults outside.new) }
    ensures looks { (script : List ℕ) → O.left outside.old ≡ Some script → Spends (members O.Source O.Sink O.Disk) (script_turns session.old.store.engine.size script) session.old outside.old steps.old steps.new (left_after result session.new) }
{
    let mut lines = Lines {
        alloc,
        number: 1,
        held: Vec::new(alloc),
    };
    read_lines(&mut lines, session, outside, steps)?;
    end(&lines, session, outside, steps)?;
    Ok(())
}

// Reads the script to its end, and has each line taken that has an LF.
fn read_lines<O: Outside, L: Ledger>(
    lines: &mut Lines,
    session: &mut Session,
    outside: &mut O,
    steps: &mut Steps<L>,
) -> Result<(), Status>
    requires ready { CanTake O.reads session.old outside.old }
    requires first { lines.old.number ≡ 1 }
    requires empty { lines.old.held.items ≡ [] }
    ensures reads { OnOk result (ReadsAll (members O.Source O.Sink O.Disk) session.old.store.engine.size start (place_of lines.new) session.old session.new outside.old outside.new) }
    ensures stops { IfErr result (λ status. StopsAt (members O.Source O.Sink O.Disk) session.old.store.engine.size status start session.old session.new outside.old outside.new) }
    ensures taken { IfErr result (λ status. TakenMost (O.left outside.old) (O.left outside.new) (most_taken status)) }
    ensures ready { OnOk result (CanTake O.reads session.new outside.new) }
    ensures stopped { IfErr result (λ status. (status ≢ Status.WriteFault) → (status ≢ Status.DiskFault) → CanFlush O.reads session.new outside.new) }
    ensures counts { ReadCounts result (O.read_faults outside.old) (O.read_faults outside.new) (O.write_faults outside.old) (O.write_faults outside.new) (O.disk_faults outside.old) (O.disk_faults outside.new) }
    ensures looks { (script : List ℕ) → O.left outside.old ≡ Some script → Spends (members O.Source O.Sink O.Disk) (line_turns session.old.store.engine.size 1 (ended_lines script)) session.old outside.old steps.old steps.new (left_after result session.new) }
    ensures size { OnOk result (session.new.store.engine.size ≡ session.old.store.engine.size) }
{
    let mut buffer = [0u8; PIECE];
    let mut taken = 0u64;
    'pieces: loop {
        match pass(lines, session, outside, &mut buffer, taken, steps) {
            Ok(0) => return Ok(()),
            Ok(count) => taken += count as u64,
            Err(status) => return Err(status),
        }
    }
}

// Reads a piece, has the lines taken that end in it, and shows what may be shown. It answers the piece's length: 0 at
// the script's end.
fn pass<O: Outside, L: Ledger>(
    lines: &mut Lines,
    session: &mut Session,
    outside: &mut O,
    buffer: &mut [u8],
    taken: u64,
    steps: &mut Steps<L>,
) -> Result<usize, Status>
    requires taken { taken ≤ longest_script }
    requires buffer { 0 < length buffer.old }
    requires number { lines.old.number ≤ taken + 1 }
    requires ready { CanTake O.reads session.old outside.old }
    ensures takes { IfOk result (λ count. Takes (members O.Source O.Sink O.Disk) session.old.store.engine.size (place_of lines.old) (place_of lines.new) count session.old session.new outside.old outside.new) }
    ensures within { IfOk result (λ count. taken + count ≤ longest_script) }
    ensures end { IfOk result (λ count. count ≡ 0 → IsAtEnd (O.left outside.new)) }
    ensures number { IfOk result (λ count. lines.new.number ≤ lines.old.number + count) }
    ensures stops { IfErr result (λ status. StopsReading (members O.Source O.Sink O.Disk) session.old.store.engine.size status (place_of lines.old) 0 session.old session.new outside.old outside.new) }
    ensures taken { IfErr result (λ status. TakenMost (O.left outside.old) (O.left outside.new) (most_taken status - taken)) }
    ensures full { IsErrOf result Status.TooLong → taken ≡ longest_script }
    ensures ready { OnOk result (CanTake O.reads session.new outside.new) }
    ensures stopped { IfErr result (λ status. (status ≢ Status.WriteFault) → (status ≢ Status.DiskFault) → CanFlush O.reads session.new outside.new) }
    ensures counts { ReadCounts result (O.read_faults outside.old) (O.read_faults outside.new) (O.write_faults outside.old) (O.write_faults outside.new) (O.disk_faults outside.old) (O.disk_faults outside.new) }
    ensures looks { (script : List ℕ) → O.left outside.old ≡ Some script → SpendsLines (members O.Source O.Sink O.Disk) session.old.store.engine.size (place_of lines.old) (piece_of result script) session.old outside.old steps.old steps.new (left_after result session.new) }
    ensures size { OnOk result (session.new.store.engine.size ≡ session.old.store.engine.size) }
    ensures shown { OnOk result (session.new.store.journal.held ≡ 0 → session.new.kept.items ≡ []) }
{
    let count = next_piece(outside, buffer, taken)?;
    feed(lines, session, outside, &buffer[..count], steps)?;
    session.pause(outside)?;
    Ok(count)
}
