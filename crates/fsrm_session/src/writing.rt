//! Writes to a sink.

ghost use Rattle.std.specs.Prelude.{◌≡◌, ◌≤◌, [], length, OnOk};
ghost use Rattle.std.specs.Io.KnownBytes.{append_known};
ghost use Rattle.fsrm_outside.specs.Causes.{HasCause};
ghost use Rattle.fsrm_session.specs.Grows.{Grows};

use fsrm_outside::{Failed, Sink, write_front};

/// Writes all that waits. If the sink fails, what it didn't take still waits.
pub fn flush<S: Sink>(sink: &mut S, waiting: &mut Vec<u8>) -> Result<(), Failed>
    ensures shown { append_known (S.shown sink.new) waiting.new.items ≡ append_known (S.shown sink.old) waiting.old.items }
    ensures few { length waiting.new.items ≤ length waiting.old.items }
    ensures grows { Grows (S.shown sink.old) (S.shown sink.new) }
    ensures empty { OnOk result (waiting.new.items ≡ []) }
    ensures cause { HasCause (S.write_faults sink.old) (S.write_faults sink.new) result }
    ensures by { S.by_write sink.old sink.new }
{
    // `write_all` doesn't tell how many bytes the sink took.
    let count = write_front(sink, waiting.as_slice());
    if count < waiting.len() {
        let left = waiting.len() - count;
        waiting.rotate_left(count);
        waiting.truncate(left);
        return Err(Failed);
    }
    waiting.clear();
    Ok(())
}
