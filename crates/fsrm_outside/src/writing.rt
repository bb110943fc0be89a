//! Writes whole pieces to a sink.

ghost use Rattle.std.specs.Prelude.{◌≡◌, ◌≤◌, ◌<◌, length, take, OnOk, OnErr};
ghost use Rattle.std.specs.Io.KnownBytes.{append_known};
ghost use Rattle.fsrm_outside.specs.Causes.{HasCause, Rose};
ghost use Rattle.fsrm_outside.specs.Shown.{ShowsFront};

use crate::traits::{Failed, Sink};

/// Writes bytes until the sink fails, and answers how many it took: all, unless it failed.
pub fn write_front<S: Sink>(sink: &mut S, bytes: &[u8]) -> usize
    ensures count { result ≤ length bytes.now }
    ensures shown { S.shown sink.new ≡ append_known (S.shown sink.old) (take result bytes.now) }
    ensures failed { result < length bytes.now → Rose (S.write_faults sink.old) (S.write_faults sink.new) }
    ensures later { S.write_faults sink.old ≤ S.write_faults sink.new }
    ensures kept { result ≡ length bytes.now → S.write_faults sink.new ≡ S.write_faults sink.old }
    ensures by { S.by_write sink.old sink.new }
{
    let mut done = 0;
    'pieces: while done < bytes.len() {
        match sink.write(&bytes[done..]) {
            Ok(count) => done += count,
            Err(Failed) => return done,
        }
    }
    done
}

/// Writes the whole piece, or a front of it if the sink fails.
pub fn write_all<S: Sink>(sink: &mut S, bytes: &[u8]) -> Result<(), Failed>
    ensures ok { OnOk result (S.shown sink.new ≡ append_known (S.shown sink.old) bytes.now) }
    ensures err { OnErr result (ShowsFront (S.shown sink.old) (S.shown sink.new) bytes.now) }
    ensures cause { HasCause (S.write_faults sink.old) (S.write_faults sink.new) result }
    ensures by { S.by_write sink.old sink.new }
{
    let count = write_front(sink, bytes);
    if count < bytes.len() {
        return Err(Failed);
    }
    Ok(())
}
