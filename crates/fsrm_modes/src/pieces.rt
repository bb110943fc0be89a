//! Reads a script in pieces, up to the longest script.

ghost use Rattle.std.specs.Prelude.{◌≡◌, ◌≤◌, ◌<◌, ◌+◌, length, take, IfOk, IfErr, OnErr, IsErrOf, MatchResult};
ghost use Rattle.fsrm_model.specs.values.Limits.{longest_script};
ghost use Rattle.fsrm_outside.specs.Causes.{HasCause, Rose};
ghost use Rattle.fsrm_modes.specs.Statuses.{KeepsReads};
ghost use Rattle.fsrm_modes.specs.Bytes.{Taken, IsAtEnd};
ghost use Rattle.fsrm_modes.specs.Bytes.{Loses};

use crate::status::Status;
use fsrm_model::limits::LONGEST_SCRIPT;
use fsrm_outside::{Failed, Outside, Source};

// Reads a piece of at most so many bytes to the front of the buffer. It is empty only at the script's end.
fn read_piece<S: Source>(source: &mut S, buffer: &mut [u8], room: usize) -> Result<usize, Failed>
    requires fits { room ≤ length buffer.old }
    requires some { 0 < room }
    ensures bound { IfOk result (λ count. count ≤ room) }
    ensures taken { IfOk result (λ count. Taken (S.left source.old) (S.left source.new) (take count buffer.new)) }
    ensures end { IfOk result (λ count. count ≡ 0 → IsAtEnd (S.left source.new)) }
    ensures failed { OnErr result (S.left source.new ≡ S.left source.old) }
    ensures cause { HasCause (S.read_faults source.old) (S.read_faults source.new) result }
    ensures by { S.by_read source.old source.new }
{
    source.read(&mut buffer[..room])
}

// How much may be read: never past the longest script; but if that was read, one byte, to see whether more comes.
fn room_for(taken: u64, size: usize) -> usize
    requires taken { taken ≤ longest_script }
    requires some { 0 < size }
    ensures some { 0 < result }
    ensures fits { result ≤ size }
    ensures within { taken < longest_script → taken + result ≤ longest_script }
    ensures whole { taken + size ≤ longest_script → result ≡ size }
    ensures last { taken ≡ longest_script → result ≡ 1 }
{
    if taken == LONGEST_SCRIPT {
        return 1;
    }
    (LONGEST_SCRIPT - taken).min(size as u64) as usize
}

/// Reads the next piece to the front of the buffer, and answers its length: 0 at the script's end.
pub fn next_piece<O: Outside>(
    outside: &mut O,
    buffer: &mut [u8],
    taken: u64,
) -> Result<usize, Status>
    requires taken { taken ≤ longest_script }
    requires buffer { 0 < length buffer.old }
    ensures bound { IfOk result (λ count. count ≤ length buffer.new) }
    ensures bytes { IfOk result (λ count. Taken (O.left outside.old) (O.left outside.new) (take count buffer.new)) }
    ensures within { IfOk result (λ count. taken + count ≤ longest_script) }
    ensures end { IfOk result (λ count. count ≡ 0 → IsAtEnd (O.left outside.new)) }
    ensures lost { IfErr result (λ status. Loses status (O.left outside.old) (O.left outside.new)) }
    ensures full { IsErrOf result Status.TooLong → taken ≡ longest_script }
    ensures later { O.read_faults outside.old ≤ O.read_faults outside.new }
    ensures cause { IsErrOf result Status.ReadFault → Rose (O.read_faults outside.old) (O.read_faults outside.new) }
    ensures kept { MatchResult result (λ _. O.read_faults outside.new ≡ O.read_faults outside.old) (λ status. KeepsReads status (O.read_faults outside.old) (O.read_faults outside.new)) }
    ensures by { O.by_read outside.old outside.new }
{
    let room = room_for(taken, buffer.len());
    match read_piece(outside, buffer, room) {
        Err(Failed) => Err(Status::ReadFault),
        Ok(count) if count > 0 && taken == LONGEST_SCRIPT => Err(Status::TooLong),
        Ok(count) => Ok(count),
    }
}
