//! A script that is stopped at each call of the disk, and what is found after the crash.

ghost use Rattle.std.specs.Prelude.{◌≡◌};

use crate::halves::small_half;
use crate::scan::{calls, is_kept, run, run_whole};
use fsrm_model::{Ledger, Steps, Weightless};
use fsrm_outside::{MemoryOutside, Pick};
use fsrm_store::StoreFault;
use std::alloc::Global;
use std::marker::Brand;
use std::process::Abort;
use std::sync::ledger::{Blank, Ledger as Named};
use std::test::Fail;

// Whether a store is kept that is stopped at a call of the disk.
fn is_kept_after<L: Ledger>(
    alloc: Global,
    half: &[u8],
    stop: u64,
    pick: Pick,
    states: &[Vec<u8>],
    steps: &mut Steps<L>,
) -> bool {
    let Ok(mut disk) = MemoryOutside::with_parts(alloc, half, &[0], &[], [].as_slice()) else {
        return false;
    };
    disk.stop_at(stop);
    let (ended, done) = run(alloc, &mut disk, steps);
    disk.crash(pick);
    ended == Err(StoreFault::DiskFault) && is_kept(alloc, &mut disk, states, done, steps)
}

fn is_kept_by_each<L: Ledger>(
    alloc: Global,
    half: &[u8],
    stop: u64,
    states: &[Vec<u8>],
    steps: &mut Steps<L>,
) -> bool {
    for pick in [Pick::Lost, Pick::Taken, Pick::Fill(1), Pick::Fill(255)] {
        if !is_kept_after(alloc, half, stop, pick, states, steps) {
            return false;
        }
    }
    true
}

fn stop_at_each<L: Ledger>(
    alloc: Global,
    end: &impl Abort,
    half: &[u8],
    states: &[Vec<u8>],
    steps: &mut Steps<L>,
) {
    let calls = calls(alloc, half, steps);
    assert!(end; calls > 0);
    for call in 0..calls {
        assert!(end; is_kept_by_each(alloc, half, call + 1, states, steps));
    }
}

fn run_script<L: Ledger>(
    alloc: Global,
    end: &impl Abort,
    steps: &mut Steps<L>,
) -> Result<(), Fail> {
    let half = small_half(alloc)?;
    let mut states = Vec::new(alloc);
    run_whole(alloc, &half, &mut states, steps)?;
    stop_at_each(alloc, end, &half, &states, steps);
    Ok(())
}

fn stops<N: Named>(rt: &HostRuntime, end: &impl Abort, blank: Blank) -> Result<(), Fail>
    requires name { blank.name ≡ N.name }
    requires parts { blank.parts ≡ N.parts }
    requires one { blank.parts ≡ 1 }
{
    let mut steps = Steps::new(rt, Weightless::<N>::of(blank));
    run_script(rt.alloc(), end, &mut steps)
}

#[test]
fn a_crash_keeps_all_that_was_acknowledged(rt: HostRuntime) -> Result<(), Fail> {
    stops::<Brand>(&rt, &rt, Blank::new(1))
}
