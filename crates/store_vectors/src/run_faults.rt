//! Runs of which one call fails: how they end, and what a later run finds.

ghost use Rattle.std.specs.Prelude.{◌≡◌, ◌≤◌};

use crate::run_stops::{SCRIPT, kept};
use crate::runs::{self, new_store, over, replay};
use fsrm_modes::Status;
use fsrm_outside::{CallKind, MemoryOutside};
use std::test::Fail;

const REPLIES: &[u8] = b"1 ok\n2 ok\n3 ok\n4 ok\n5 ok\n  0 D:\\\n";

// Whether a run of which this call fails ends so, and shows this. The script comes in pieces of 32 bytes.
fn ends(
    rt: &HostRuntime,
    store: &MemoryOutside,
    call: u64,
    ended: Status,
    shown: &[u8],
) -> Result<bool, Fail> {
    let mut outside = over(rt, store, runs::SCRIPT, [call].as_slice())?;
    outside.set_piece(32);
    let status = replay(rt, &mut outside, "1")?;
    Ok(status == ended && outside.shown() == shown)
}

// The store is opened by 7 calls. The first line is in the first of three pieces, and kept by 4 calls. Before the sum what
// waits is shown.
const CALLS: [(u64, Status, &[u8]); 11] = [
    (1, Status::DiskFault, b""),
    (7, Status::DiskFault, b""),
    (8, Status::ReadFault, b""),
    (12, Status::DiskFault, b""),
    (13, Status::WriteFault, b""),
    (14, Status::ReadFault, b"1 ok\n"),
    (15, Status::WriteFault, b"1 ok\n"),
    (16, Status::WriteFault, b"1 ok\n2 refused AlreadyExists\n"),
    (
        17,
        Status::ReadFault,
        b"1 ok\n2 refused AlreadyExists\n3 ok\n  8192 D:\\\n",
    ),
    (
        18,
        Status::WriteFault,
        b"1 ok\n2 refused AlreadyExists\n3 ok\n  8192 D:\\\n",
    ),
    (
        19,
        Status::Done,
        b"1 ok\n2 refused AlreadyExists\n3 ok\n  8192 D:\\\n4 refused BadLine 1\n",
    ),
];

#[test]
fn a_call_that_fails_ends_the_run(rt: HostRuntime) -> Result<(), Fail> {
    let store = new_store(&rt)?;
    for (call, ended, shown) in CALLS {
        assert!(rt; ends(&rt, &store, call, ended, shown)?);
    }
    Ok(())
}

// How a run ends if its only call that fails is one of these.
fn status_of(kind: CallKind) -> Status {
    match kind {
        CallKind::Read => Status::ReadFault,
        CallKind::Write => Status::WriteFault,
        _ => Status::DiskFault,
    }
}

// Whether the run ended as the kind of the call that failed says. Without that call all was done.
fn is_told(outside: &MemoryOutside, call: u64, status: Status) -> bool {
    if 1 <= call && call <= outside.calls() {
        status == status_of(outside.kind(call))
    } else {
        status == Status::Done && outside.shown() == REPLIES
    }
}

// Whether a run of which this call fails says so, shows a beginning of the replies, and leaves the effect of some first
// lines, which hold all whose replies it showed.
fn is_safe(rt: &HostRuntime, store: &MemoryOutside, call: u64, group: &str) -> Result<bool, Fail> {
    let mut outside = over(rt, store, SCRIPT, [call].as_slice())?;
    outside.set_piece(40);
    let status = replay(rt, &mut outside, group)?;
    let is_begun = REPLIES.starts_with(outside.shown());
    Ok(is_told(&outside, call, status) && is_begun && kept(rt, &outside)?)
}

// A run in groups of one makes 32 calls, and one in groups of three 23.
#[test]
fn a_call_that_fails_is_told(rt: HostRuntime) -> Result<(), Fail> {
    let store = new_store(&rt)?;
    for call in 1..34 {
        assert!(rt; is_safe(&rt, &store, call, "1")?);
    }
    Ok(())
}

#[test]
fn a_call_that_fails_is_told_of_a_group(rt: HostRuntime) -> Result<(), Fail> {
    let store = new_store(&rt)?;
    for call in 1..25 {
        assert!(rt; is_safe(&rt, &store, call, "3")?);
    }
    Ok(())
}
