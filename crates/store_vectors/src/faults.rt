//! A script over a disk of which one call fails, and what is found when the store is opened again.

ghost use Rattle.std.specs.Prelude.{◌≡◌};

use crate::halves::small_half;
use crate::scan::{calls, is_kept, run, run_whole};
use fsrm_model::{Ledger, Steps, Weightless};
use fsrm_outside::MemoryOutside;
use fsrm_store::StoreFault;
use std::alloc::Global;
use std::marker::Brand;
use std::process::Abort;
use std::sync::ledger::{Blank, Ledger as Named};
use std::test::Fail;

// Whether a run tells of the call that fails, and its store is kept.
fn is_kept_after<L: Ledger>(
    alloc: Global,
    half: &[u8],
    call: u64,
    states: &[Vec<u8>],
    steps: &mut Steps<L>,
) -> bool {
    let Ok(mut disk) = MemoryOutside::with_parts(alloc, half, &[0], &[], [call].as_slice()) else {
        return false;
    };
    let (ended, done) = run(alloc, &mut disk, steps);
    ended == Err(StoreFault::DiskFault) && is_kept(alloc, &mut disk, states, done, steps)
}

fn fail_each<L: Ledger>(
    alloc: Global,
    end: &impl Abort,
    half: &[u8],
    states: &[Vec<u8>],
    steps: &mut Steps<L>,
) {
    let calls = calls(alloc, half, steps);
    assert!(end; calls > 0);
    for call in 0..calls {
        assert!(end; is_kept_after(alloc, half, call + 1, states, steps));
    }
}

fn run_script<L: Ledger>(
    alloc: Global,
    end: &impl Abort,
    steps: &mut Steps<L>,
) -> Result<(), Fail> {
    let half = small_half(alloc)?;
    let mut states = Vec::new(alloc);
    run_whole(alloc, &half, &mut states, steps)?;
    fail_each(alloc, end, &half, &states, steps);
    Ok(())
}

fn faults<N: Named>(rt: &HostRuntime, end: &impl Abort, blank: Blank) -> Result<(), Fail>
    requires name { blank.name ≡ N.name }
    requires parts { blank.parts ≡ N.parts }
    requires one { blank.parts ≡ 1 }
{
    let mut steps = Steps::new(rt, Weightless::<N>::of(blank));
    run_script(rt.alloc(), end, &mut steps)
}

#[test]
fn a_call_that_fails_is_told_and_loses_nothing(rt: HostRuntime) -> Result<(), Fail> {
    faults::<Brand>(&rt, &rt, Blank::new(1))
}
