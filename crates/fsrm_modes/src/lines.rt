//! Cuts a script that comes in pieces into its lines, and has a session take each.

ghost use Rattle.std.specs.Prelude.{◌≡◌, ℕ, ◌≤◌, ◌<◌, ◌+◌, ◌^◌, ◌++◌, ◌∷◌, [], length, take, false, OnOk, OnErr, MatchOption, MatchResult, IsErrOf};
ghost use Rattle.std.specs.List.{list_any};
ghost use Rattle.fsrm_model.specs.values.Limits.{longest_line};
ghost use Rattle.fsrm_model.specs.lines.Script.{is_end};
ghost use Rattle.fsrm_session.specs.Counts.{Counts};
ghost use Rattle.fsrm_session.specs.Members.{members};
ghost use Rattle.fsrm_session.specs.Spending.{bytes_after};
ghost use Rattle.fsrm_session.specs.Underway.{CanFlush, CanTake};
ghost use Rattle.fsrm_modes.specs.Bytes.{CutsLine};
ghost use Rattle.fsrm_modes.specs.Looks.{SpendsLast, SpendsLines};
ghost use Rattle.fsrm_modes.specs.Places.{place_of};
ghost use Rattle.fsrm_modes.specs.Reading.{Broken, EndBroken, Ends, Fed};

use crate::answering::answer;
use fsrm_model::limits::LONGEST_LINE;
use fsrm_model::{Ledger, NoMemory, Steps};
use fsrm_outside::Outside;
use fsrm_session::{Session, Stop};
use memchr::memchr;
use std::alloc::Global;

const LINE_FEED: u8 = b'\n';

// So many bytes of a line are held: those of the longest line, its CR, and one more. A line that has more than the
// longest one is known by that.
const MOST_HELD: usize = LONGEST_LINE + 2;

/// A script between two of its pieces.
#[derive(Drop)]
pub struct Lines {
    pub alloc: Global,
    /// The number of the line that is being read.
    pub number: u64,
    /// The beginning of that line.
    pub held: Vec<u8>,
}

// The first line, and what comes after its LF.
fn next_line(bytes: &[u8]) -> Option<(&[u8], &[u8])>
    ensures { MatchOption result (list_any is_end bytes.now ≡ false) (λ parts. CutsLine bytes.now parts.0.now parts.1.now) }
{
    match memchr(LINE_FEED, bytes) {
        Some(end) => Some((&bytes[..end], &bytes[end + 1..])),
        None => None,
    }
}

// Keeps more of a line, up to so many bytes of it as are held at most.
fn hold(held: &mut Vec<u8>, bytes: &[u8]) -> Result<(), NoMemory>
    ensures ok { OnOk result (length held.old.items ≤ longest_line + 2 → held.new.items ≡ take (longest_line + 2) (held.old.items ++ bytes.now)) }
{
    let room = MOST_HELD.saturating_sub(held.len());
    held.extend_from_slice(&bytes[..room.min(bytes.len())])?;
    Ok(())
}

// Keeps the end of a line whose beginning is held. Of a line that is whole in its piece nothing is kept.
fn hold_end(held: &mut Vec<u8>, rest: &[u8]) -> Result<(), NoMemory>
    ensures none { held.old.items ≡ [] → held.new.items ≡ [] }
    ensures some { OnOk result ((held.old.items ≡ [] → ⊥) → length held.old.items ≤ longest_line + 2 → held.new.items ≡ take (longest_line + 2) (held.old.items ++ rest.now)) }
{
    if held.is_empty() {
        return Ok(());
    }
    hold(held, rest)
}

// The line: what is held of it, or these bytes if nothing is.
fn line_of<'a>(held: &'a [u8], rest: &'a [u8]) -> &'a [u8]
    ensures none { held.now ≡ [] → result.now ≡ rest.now }
    ensures some { (held.now ≡ [] → ⊥) → result.now ≡ held.now }
{
    if held.is_empty() { rest } else { held }
}

// Takes the line that ends with these bytes, and counts it.
fn answer_line<O: Outside, L: Ledger>(
    lines: &mut Lines,
    session: &mut Session,
    outside: &mut O,
    rest: &[u8],
    steps: &mut Steps<L>,
) -> Result<(), Stop>
    requires number { lines.old.number + 1 < 2 ^ 64 }
    requires one_line { list_any is_end rest.now ≡ false }
    requires ready { CanTake O.reads session.old outside.old }
    ensures runs { MatchResult result (λ _. Fed (members O.Source O.Sink O.Disk) session.old.store.engine.size (place_of lines.old) (place_of lines.new) (rest.now ++ 10 ∷ []) session.old session.new outside.old outside.new) (λ stop. Broken (members O.Source O.Sink O.Disk) session.old.store.engine.size stop (place_of lines.old) (rest.now ++ 10 ∷ []) session.old session.new outside.old outside.new) }
    ensures number { OnOk result (lines.new.number ≡ lines.old.number + 1) }
    ensures ready { OnOk result (CanTake O.reads session.new outside.new) }
    ensures memory { IsErrOf result Stop.NoMemory → CanFlush O.reads session.new outside.new }
    ensures counts { Counts result (O.write_faults outside.old) (O.write_faults outside.new) (O.disk_faults outside.old) (O.disk_faults outside.new) }
    ensures reads { O.read_faults outside.new ≡ O.read_faults outside.old }
    ensures left { O.left outside.new ≡ O.left outside.old }
    ensures size { OnOk result (session.new.store.engine.size ≡ session.old.store.engine.size) }
    ensures looks { SpendsLines (members O.Source O.Sink O.Disk) session.old.store.engine.size (place_of lines.old) (rest.now ++ 10 ∷ []) session.old outside.old steps.old steps.new (bytes_after result session.new) }
{
    if hold_end(&mut lines.held, rest).is_err() {
        return Err(Stop::NoMemory);
    }
    let line = line_of(&lines.held, rest);
    answer(session, outside, lines.alloc, lines.number, line, steps)?;
    lines.number += 1;
    lines.held.clear();
    Ok(())
}

/// Takes the next piece of the script: each line that ends in it. The beginning of the one that doesn't is held.
pub fn feed<O: Outside, L: Ledger>(
    lines: &mut Lines,
    session: &mut Session,
    outside: &mut O,
    piece: &[u8],
    steps: &mut Steps<L>,
) -> Result<(), Stop>
    requires number { lines.old.number + length piece.now < 2 ^ 64 }
    requires ready { CanTake O.reads session.old outside.old }
    ensures runs { MatchResult result (λ _. Fed (members O.Source O.Sink O.Disk) session.old.store.engine.size (place_of lines.old) (place_of lines.new) piece.now session.old session.new outside.old outside.new) (λ stop. Broken (members O.Source O.Sink O.Disk) session.old.store.engine.size stop (place_of lines.old) piece.now session.old session.new outside.old outside.new) }
    ensures number { OnOk result (lines.new.number ≤ lines.old.number + length piece.now) }
    ensures ready { OnOk result (CanTake O.reads session.new outside.new) }
    ensures memory { IsErrOf result Stop.NoMemory → CanFlush O.reads session.new outside.new }
    ensures counts { Counts result (O.write_faults outside.old) (O.write_faults outside.new) (O.disk_faults outside.old) (O.disk_faults outside.new) }
    ensures reads { O.read_faults outside.new ≡ O.read_faults outside.old }
    ensures left { O.left outside.new ≡ O.left outside.old }
    ensures size { OnOk result (session.new.store.engine.size ≡ session.old.store.engine.size) }
    ensures looks { SpendsLines (members O.Source O.Sink O.Disk) session.old.store.engine.size (place_of lines.old) piece.now session.old outside.old steps.old steps.new (bytes_after result session.new) }
{
    let mut rest = piece;
    'lines: while let Some((line, after)) = next_line(rest) {
        answer_line(lines, session, outside, line, steps)?;
        rest = after;
    }
    if hold(&mut lines.held, rest).is_err() {
        return Err(Stop::NoMemory);
    }
    Ok(())
}

/// Takes the last line, if it has no LF.
pub fn end<O: Outside, L: Ledger>(
    lines: &Lines,
    session: &mut Session,
    outside: &mut O,
    steps: &mut Steps<L>,
) -> Result<(), Stop>
    requires ready { CanTake O.reads session.old outside.old }
    ensures runs { MatchResult result (λ _. Ends (members O.Source O.Sink O.Disk) session.old.store.engine.size (place_of lines.now) session.old session.new outside.old outside.new) (λ stop. EndBroken (members O.Source O.Sink O.Disk) session.old.store.engine.size stop (place_of lines.now) session.old session.new outside.old outside.new) }
    ensures ready { OnOk result (CanTake O.reads session.new outside.new) }
    ensures memory { IsErrOf result Stop.NoMemory → CanFlush O.reads session.new outside.new }
    ensures counts { Counts result (O.write_faults outside.old) (O.write_faults outside.new) (O.disk_faults outside.old) (O.disk_faults outside.new) }
    ensures reads { O.read_faults outside.new ≡ O.read_faults outside.old }
    ensures left { O.left outside.new ≡ O.left outside.old }
    ensures size { OnOk result (session.new.store.engine.size ≡ session.old.store.engine.size) }
    ensures looks { SpendsLast (members O.Source O.Sink O.Disk) session.old.store.engine.size (place_of lines.now) session.old outside.old steps.old steps.new (bytes_after result session.new) }
{
    if lines.held.is_empty() {
        return Ok(());
    }
    answer(
        session,
        outside,
        lines.alloc,
        lines.number,
        &lines.held,
        steps,
    )
}
