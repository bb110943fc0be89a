//! A sink in memory.

ghost use Rattle.std.specs.Prelude.{◌≡◌, ◌++◌, ◌≤◌, ◌<◌, [], length, take, IfOk, OnErr, Some, None, refl};
ghost use Rattle.std.specs.Io.KnownBytes.{append_known};
ghost use Rattle.std.proofs.Common.{◌∙◌, sym};
ghost use Rattle.std.proofs.lemmas.List.{append-nil};
ghost use Rattle.fsrm_outside.specs.Causes.{HasCause};
ghost use Rattle.fsrm_session.specs.Kept.{ByKept, more_then};

use fsrm_outside::{Failed, Sink};

/// Text that is kept until it may be shown. A write fails where there is no memory for its bytes.
#[derive(Drop)]
pub struct Kept<'a> {
    pub bytes: &'a mut Vec<u8>,
    pub faults: u64,
}

impl<'a> Sink for Kept<'a> {
    ghost shown = { λ kept. Some kept.bytes.now.items };

    ghost sink_clock = { λ _. None };

    ghost shown_at = { λ _ _. [] };

    ghost write_faults = { λ kept. kept.faults };

    ghost by_write = { ByKept };

    fn write(&mut self, bytes: &[u8]) -> Result<usize, Failed>
        ensures count { IfOk result (λ n. n ≤ length bytes.now) }
        ensures some { IfOk result (λ n. 0 < length bytes.now → 0 < n) }
        ensures shown { IfOk result (λ n. Some self.new.bytes.now.items ≡ append_known (Some self.old.bytes.now.items) (take n bytes.now)) }
        ensures failed { OnErr result (Some self.new.bytes.now.items ≡ Some self.old.bytes.now.items) }
        ensures by { ByKept self.old self.new }
        ensures cause { HasCause self.old.faults self.new.faults result }
    {
        match self.bytes.extend_from_slice(bytes) {
            Ok(()) => Ok(bytes.len()),
            Err(_) => Err(Failed::counted(&mut self.faults)),
        }
    }

    ghost write_same = { λ a. record { more = []; is = sym (append-nil a.bytes.now.items); same = refl } };

    ghost write_then = { λ a b c p q. record { more = p.more ++ q.more; is = more_then a.bytes.now.items b.bytes.now.items c.bytes.now.items p.more q.more p.is q.is; same = q.same ∙ p.same } };

    ghost write_later = { λ a b by. tt };

    ghost write_past = { λ a b t m by told few. refl };

    ghost shown_now = { λ a t told. absurd (Prim.cc) };

    ghost shown_grows = { λ a t m n told first second. absurd (Prim.cc) };
}
