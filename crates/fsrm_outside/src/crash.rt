//! Crashes of a disk in memory.

ghost use Rattle.std.specs.Prelude.{◌≡◌, ◌≤◌, ℕ, [], ◌∷◌, true, false, length, drop, reverse, take};
ghost use Rattle.fsrm_outside.specs.Contents.{parts_in, HasRoom};
ghost use Rattle.fsrm_outside.specs.Crash.{synced, unsynced, AreFilled};
ghost use Rattle.fsrm_outside.specs.DiskModel.{IsImage};
ghost use Rattle.fsrm_outside.specs.Record.{now_of, valid};
ghost use Rattle.fsrm_outside.specs.declared.crash.Pick.TheVariants.{Lost, Taken, Fill};
ghost use Rattle.fsrm_outside.specs.declared.calls.Call.TheVariants.{Sync};

use crate::calls::Call;
use crate::contents::Contents;

/// Which of the images of its moment a crash leaves.
#[derive(Clone, Copy, Debug, PartialEq, Eq)]
pub enum Pick {
    /// All that was written since the last sync is lost.
    Lost,
    /// All of it was taken, as what a read gave.
    Taken,
    /// Each byte of it is this one. If a write past the end failed, the part doesn't grow.
    Fill(u8),
}

fn is_synced(call: &Call) -> bool
    ensures yes { result ≡ true → call.now ≡ Sync true }
    ensures no { result ≡ false → call.now ≡ Sync true → ⊥ }
{
    match call {
        Call::Sync(done) => *done,
        _ => false,
    }
}

/// How many calls there are up to the last sync that did its work, and with it.
pub fn count_synced(calls: &[Call]) -> usize
    ensures within { result ≤ length calls.now }
    ensures synced { reverse (take result calls.now) ≡ synced (reverse calls.now) }
    ensures unsynced { reverse (drop result calls.now) ≡ unsynced (reverse calls.now) }
{
    let mut count = 0;
    for (place, call) in calls.iter().enumerate() {
        if is_synced(call) {
            count = place + 1;
        }
    }
    count
}

/// Makes the writes of the calls again, on what was there before them.
pub fn replay(contents: &mut Contents, calls: &[Call])
    requires valid { valid (parts_in contents.old) (reverse calls.now) ≡ true }
    requires room { HasRoom contents.old (now_of (parts_in contents.old) (reverse calls.now)) }
    ensures { parts_in contents.new ≡ now_of (parts_in contents.old) (reverse calls.now) }
{
    for call in calls {
        if let Call::WriteAt(part, place, bytes) = call {
            if contents.write_at(*part, *place as usize, bytes).is_err() {
                unreachable!()
            }
        }
    }
}

fn fill_one(contents: &mut Contents, call: &Call, byte: u8)
    ensures { AreFilled byte (call.now ∷ []) (parts_in contents.old) (parts_in contents.new) }
{
    match call {
        Call::WriteAt(part, place, bytes) => contents.fill(*part, *place, bytes.len(), byte),
        Call::FailedAt(part, place, count) => contents.fill(*part, *place, *count, byte),
        _ => {}
    }
}

/// Fills what the calls wrote with one byte.
pub fn fill(contents: &mut Contents, calls: &[Call], byte: u8)
    ensures { AreFilled byte (reverse calls.now) (parts_in contents.old) (parts_in contents.new) }
{
    for call in calls {
        fill_one(contents, call, byte);
    }
}

/// Makes of what a read gives after the calls the image of this pick. `start` is what was there before them.
pub fn pick_image(parts: &mut Contents, start: &Contents, calls: &[Call], pick: Pick)
    requires parts { parts_in parts.old ≡ now_of (parts_in start.now) (reverse calls.now) }
    requires valid { valid (parts_in start.now) (reverse calls.now) ≡ true }
    ensures image { IsImage (parts_in start.now) (reverse calls.now) (parts_in parts.new) }
    ensures lost { pick ≡ Lost → parts_in parts.new ≡ now_of (parts_in start.now) (synced (reverse calls.now)) }
    ensures taken { pick ≡ Taken → parts_in parts.new ≡ parts_in parts.old }
    ensures filled { (byte : ℕ) → pick ≡ Fill byte → AreFilled byte (unsynced (reverse calls.now)) (parts_in parts.old) (parts_in parts.new) }
    ensures zero { length (parts_in parts.new).zero ≤ length (parts_in parts.old).zero }
    ensures one { length (parts_in parts.new).one ≤ length (parts_in parts.old).one }
{
    let count = count_synced(calls);
    match pick {
        Pick::Lost => {
            parts.become_copy(start);
            replay(parts, &calls[..count]);
        }
        Pick::Taken => {}
        Pick::Fill(byte) => fill(parts, &calls[count..], byte),
    }
}
