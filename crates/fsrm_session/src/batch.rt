//! Replies that wait to be written.

ghost use Rattle.std.specs.Prelude.{◌≡◌, ◌≤◌, ◌<◌, ◌++◌, [], length, take, if◌then◌else◌, IfOk, OnOk, OnErr, None, refl};
ghost use Rattle.std.specs.Io.KnownBytes.{append_known};
ghost use Rattle.std.proofs.Common.{◌∙◌, sym};
ghost use Rattle.fsrm_outside.specs.Causes.{HasCause};
ghost use Rattle.fsrm_outside.proofs.Shown.{append_known-nil, shows_then};
ghost use Rattle.fsrm_session.specs.Batch.{ByBatch, most_waiting};

use crate::writing::flush;
use fsrm_outside::{Failed, Sink};

// So many bytes wait at most.
const MOST_WAITING: usize = 65_536;

/// Replies that wait, over the device that takes them. It shows what the device shows, and then what waits.
///
/// A write lets its bytes wait. If too many would wait, those that do are written first; so no more than 65,536 bytes
/// wait, however long a reply is. (The text of a path that is written comes on top of them, and is the writer's.) A
/// write fails only if the device does.
#[derive(Drop)]
pub struct Batch<'a, S> {
    pub waiting: &'a mut Vec<u8>,
    pub device: &'a mut S,
}

// Lets bytes wait, if there is room and memory for them.
#[inline]
fn wait(waiting: &mut Vec<u8>, bytes: &[u8]) -> bool
    ensures waits { waiting.new.items ≡ (if result then waiting.old.items ++ bytes.now else waiting.old.items) }
    ensures few { length waiting.old.items ≤ most_waiting → length waiting.new.items ≤ most_waiting }
{
    if bytes.len() > MOST_WAITING.saturating_sub(waiting.len()) {
        return false;
    }
    waiting.extend_from_slice(bytes).is_ok()
}

impl<'a, S: Sink> Batch<'a, S> {
    /// Writes all that waits. If the device fails, what it didn't take still waits.
    pub fn flush(&mut self) -> Result<(), Failed>
        ensures shown { append_known (S.shown self.new.device.now) self.new.waiting.now.items ≡ append_known (S.shown self.old.device.now) self.old.waiting.now.items }
        ensures empty { OnOk result (self.new.waiting.now.items ≡ []) }
        ensures cause { HasCause (S.write_faults self.old.device.now) (S.write_faults self.new.device.now) result }
        ensures by { ByBatch S.shown S.by_write self.old self.new }
    {
        flush(self.device, self.waiting)
    }
}

impl<'a, S: Sink> Sink for Batch<'a, S> {
    ghost shown = { λ batch. append_known (S.shown batch.device.now) batch.waiting.now.items };

    // It keeps no record of earlier moments.
    ghost sink_clock = { λ _. None };

    ghost shown_at = { λ _ _. [] };

    ghost write_faults = { λ batch. S.write_faults batch.device.now };

    ghost by_write = { ByBatch S.shown S.by_write };

    /// Takes the bytes whole, unless they are too many to wait, or there is no memory for them. Then the device is
    /// given them at once, and may take a front of them. So they are never cut because of what waits.
    fn write(&mut self, bytes: &[u8]) -> Result<usize, Failed>
        ensures count { IfOk result (λ n. n ≤ length bytes.now) }
        ensures some { IfOk result (λ n. 0 < length bytes.now → 0 < n) }
        ensures shown { IfOk result (λ n. append_known (S.shown self.new.device.now) self.new.waiting.now.items ≡ append_known (append_known (S.shown self.old.device.now) self.old.waiting.now.items) (take n bytes.now)) }
        ensures failed { OnErr result (append_known (S.shown self.new.device.now) self.new.waiting.now.items ≡ append_known (S.shown self.old.device.now) self.old.waiting.now.items) }
        ensures by { ByBatch S.shown S.by_write self.old self.new }
        ensures cause { HasCause (S.write_faults self.old.device.now) (S.write_faults self.new.device.now) result }
        // If only a front was taken, the device has all that waited.
        ensures whole { IfOk result (λ n. n < length bytes.now → self.new.waiting.now.items ≡ []) }
    {
        if wait(self.waiting, bytes) {
            return Ok(bytes.len());
        }
        self.flush()?;
        if wait(self.waiting, bytes) {
            return Ok(bytes.len());
        }
        self.device.write(bytes)
    }

    ghost write_same = { λ a. record {
      device_by = S.write_same a.device.now;
      grows = record { more = []; shown = sym (append_known-nil (S.shown a.device.now)) };
      few = λ before. before;
      same_device = refl;
      same_text = refl;
    } };

    ghost write_then = { λ a b c p q. record {
      device_by = S.write_then a.device.now b.device.now c.device.now p.device_by q.device_by;
      grows = record {
        more = p.grows.more ++ q.grows.more;
        shown = shows_then (S.shown a.device.now) (S.shown b.device.now) (S.shown c.device.now) p.grows.more q.grows.more p.grows.shown q.grows.shown;
      };
      few = λ before. q.few (p.few before);
      same_device = q.same_device ∙ p.same_device;
      same_text = q.same_text ∙ p.same_text;
    } };

    ghost write_later = { λ a b by. tt };

    ghost write_past = { λ a b t m by told few. refl };

    ghost shown_now = { λ a t told. absurd (Prim.cc) };

    ghost shown_grows = { λ a t m n told first second. absurd (Prim.cc) };
}
