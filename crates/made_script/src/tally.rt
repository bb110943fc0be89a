//! What replies come to.

ghost use Rattle.std.specs.Prelude.{◌≡◌, ◌+◌, ◌^◌, ◌<◌, IfNone, IfOk, IfSome, if◌then◌else◌};
ghost use Rattle.made_script.specs.Tally.{Fits, no_replies, one_reply, plus, summary_line};

use crate::writing::put;
use fsrm_base::NoMemory;
use line_parts::Part::{Number, Text};
use std::alloc::Global;

/// How many replies accept, and how many refuse; how many lines tell of an action that ran; and how many bytes there
/// are in all.
#[derive(Clone, Copy, Debug, PartialEq, Eq)]
pub struct Tally {
    pub accepted: u64,
    pub refused: u64,
    pub acts: u64,
    pub bytes: u64,
}

impl Tally {
    /// Nothing was replied.
    pub fn none() -> Tally
        ensures { result ≡ no_replies }
    {
        Tally {
            accepted: 0,
            refused: 0,
            acts: 0,
            bytes: 0,
        }
    }

    /// One reply, which accepts or refuses, with so many acts and bytes.
    pub fn one(accepts: bool, acts: u64, bytes: u64) -> Tally
        ensures { result ≡ one_reply accepts acts bytes }
    {
        Tally {
            accepted: u64::from(accepts),
            refused: u64::from(!accepts),
            acts,
            bytes,
        }
    }

    /// Both, one after the other. None exactly if a number isn't below 2^64.
    pub fn plus(self, more: Tally) -> Option<Tally>
        ensures both { IfSome result (λ both. both ≡ plus self more) }
        ensures none { IfNone result (Fits (plus self more) → ⊥) }
    {
        Some(Tally {
            accepted: self.accepted.checked_add(more.accepted)?,
            refused: self.refused.checked_add(more.refused)?,
            acts: self.acts.checked_add(more.acts)?,
            bytes: self.bytes.checked_add(more.bytes)?,
        })
    }

    /// The line that sums up a made script of so many lines, with its LF.
    pub fn summary(&self, alloc: Global, count: u32) -> Result<Vec<u8>, NoMemory>
        ensures { IfOk result (λ text. text.items ≡ summary_line count self.now) }
    {
        let mut text = Vec::new(alloc);
        put(
            &mut text,
            &[
                Text(b"work "),
                Number(u64::from(count)),
                Text(b" ok "),
                Number(self.accepted),
                Text(b" refused "),
                Number(self.refused),
                Text(b" acts "),
                Number(self.acts),
                Text(b" bytes "),
                Number(self.bytes),
                Text(b"\n"),
            ],
        )?;
        Ok(text)
    }
}
