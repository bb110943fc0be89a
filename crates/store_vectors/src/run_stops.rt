//! Runs that are stopped at each call, and what a later run finds after the crash.

ghost use Rattle.std.specs.Prelude.{◌≡◌, ◌≤◌};

use crate::runs::{new_store, over, replay};
use fsrm_modes::Status;
use fsrm_outside::{MemoryOutside, Pick};
use std::test::Fail;

/// Four commands that a store keeps, and a sum.
pub const SCRIPT: &[u8] = b"100 mkdir D:\\a 1
100 dirquota quota add /Path:D:\\a /Limit:1kb
100 mkdir D:\\b 1
100 dirquota quota add /Path:D:\\b /Limit:1kb
100 usage D:\\
";

// The replies to the four commands over a store that keeps none of them, the first, the first two and so on; and how many
// bytes of replies a run may have shown of which so many commands are kept.
const AGAIN: [(&[u8], usize); 5] = [
    (b"1 ok\n2 ok\n3 ok\n4 ok\n", 0),
    (b"1 refused AlreadyExists\n2 ok\n3 ok\n4 ok\n", 5),
    (
        b"1 refused AlreadyExists\n2 refused AlreadyExists\n3 ok\n4 ok\n",
        10,
    ),
    (
        b"1 refused AlreadyExists\n2 refused AlreadyExists\n3 refused AlreadyExists\n4 ok\n",
        15,
    ),
    (
        b"1 refused AlreadyExists\n2 refused AlreadyExists\n3 refused AlreadyExists\n4 refused AlreadyExists\n",
        usize::MAX,
    ),
];

/// Whether what is left of a run is the effect of some first commands, which hold all of whose replies it showed a byte.
pub fn kept(rt: &HostRuntime, left: &MemoryOutside) -> Result<bool, Fail> {
    let mut later = over(rt, left, SCRIPT, [].as_slice())?;
    let status = replay(rt, &mut later, "2")?;
    for (again, most) in AGAIN {
        if later.shown().starts_with(again) {
            return Ok(status == Status::Done && left.shown().len() <= most);
        }
    }
    Ok(false)
}

// Whether a crash at this call leaves what it has to.
fn is_safe(
    rt: &HostRuntime,
    store: &MemoryOutside,
    stop: u64,
    pick: Pick,
    group: &str,
) -> Result<bool, Fail> {
    let mut outside = over(rt, store, SCRIPT, [].as_slice())?;
    outside.set_piece(40);
    outside.stop_at(stop);
    let status = replay(rt, &mut outside, group)?;
    let is_over = (status == Status::Done) == (outside.calls() < stop);
    outside.crash(pick);
    Ok(is_over && kept(rt, &outside)?)
}

// Whether that holds of each image that a test may pick.
fn are_safe(rt: &HostRuntime, store: &MemoryOutside, stop: u64, group: &str) -> Result<bool, Fail> {
    for pick in [Pick::Lost, Pick::Taken, Pick::Fill(1), Pick::Fill(255)] {
        if !is_safe(rt, store, stop, pick, group)? {
            return Ok(false);
        }
    }
    Ok(true)
}

// A run in groups of one makes 32 calls, and one in groups of three 23.
#[test]
fn a_crash_leaves_what_was_acknowledged(rt: HostRuntime) -> Result<(), Fail> {
    let store = new_store(&rt)?;
    for stop in 1..34 {
        assert!(rt; are_safe(&rt, &store, stop, "1")?);
    }
    Ok(())
}

#[test]
fn a_crash_leaves_what_a_group_acknowledged(rt: HostRuntime) -> Result<(), Fail> {
    let store = new_store(&rt)?;
    for stop in 1..25 {
        assert!(rt; are_safe(&rt, &store, stop, "3")?);
    }
    Ok(())
}
