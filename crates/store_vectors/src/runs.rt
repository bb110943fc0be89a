//! Whole runs over a store in memory: what each mode answers, and how often it syncs. More scripts are replayed by the
//! built program.

ghost use Rattle.std.specs.Prelude.{◌≡◌, ◌<◌, ◌≤◌};

use fsrm_model::{Steps, Weightless};
use fsrm_modes::{Status, run};
use fsrm_outside::{CallKind, MemoryOutside, Part, Pick};
use std::marker::Brand;
use std::sync::ledger::{Blank, Ledger};
use std::test::Fail;

/// The sessions of the built program replay the same script (`.ci/scripts/in-memory-too.fsrm`).
pub const SCRIPT: &[u8] = b"0 create D:\\a 5000 1\n0 create D:\\a 1 1\n0 usage D:\\\nx";

const REPLIES: &[u8] = b"1 ok\n2 refused AlreadyExists\n3 ok\n  8192 D:\\\n4 refused BadLine 1\n";

// Runs the words, and counts the looks in a ledger that takes no bytes.
fn run_counted<B: Ledger>(
    rt: &HostRuntime,
    words: &[String],
    outside: &mut MemoryOutside,
    blank: Blank,
) -> Status
    requires name { blank.name ≡ B.name }
    requires parts { blank.parts ≡ B.parts }
    requires some { 0 < B.parts }
{
    let mut steps = Steps::new(rt, Weightless::<B>::of(blank));
    run(rt.alloc(), words, outside, &mut steps)
}

/// Runs these words.
pub fn run_words(rt: &HostRuntime, words: &[String], outside: &mut MemoryOutside) -> Status {
    run_counted::<Brand>(rt, words, outside, Blank::new(1))
}

/// Runs a mode that has no options.
pub fn ask(rt: &HostRuntime, outside: &mut MemoryOutside, mode: &str) -> Result<Status, Fail> {
    let words = [String::from_str(rt.alloc(), mode)?];
    Ok(run_words(rt, words.as_slice(), outside))
}

/// Runs the script that is left, with so many records in a group.
pub fn replay(rt: &HostRuntime, outside: &mut MemoryOutside, group: &str) -> Result<Status, Fail> {
    let mode = String::from_str(rt.alloc(), "replay")?;
    let option = String::from_str(rt.alloc(), "--group")?;
    let words = [mode, option, String::from_str(rt.alloc(), group)?];
    Ok(run_words(rt, words.as_slice(), outside))
}

/// A small new store.
pub fn new_store(rt: &HostRuntime) -> Result<MemoryOutside, Fail> {
    let mut outside = MemoryOutside::new(rt.alloc(), &[], [].as_slice())?;
    let mode = String::from_str(rt.alloc(), "init")?;
    let nodes = String::from_str(rt.alloc(), "--nodes=99")?;
    let words = [mode, nodes, String::from_str(rt.alloc(), "--names=999")?];
    let _made = run_words(rt, words.as_slice(), &mut outside);
    Ok(outside)
}

/// A device over what another one's disk holds, with this script to read. Its calls of these numbers fail.
pub fn over(
    rt: &HostRuntime,
    disk: &MemoryOutside,
    script: &[u8],
    fail: &[u64],
) -> Result<MemoryOutside, Fail> {
    let (zero, one) = (disk.part(Part::Zero), disk.part(Part::One));
    Ok(MemoryOutside::with_parts(rt.alloc(), zero, one, script, fail)?)
}

#[test]
fn modes_tell_whether_there_is_a_store(rt: HostRuntime) -> Result<(), Fail> {
    let mut outside = MemoryOutside::new(rt.alloc(), &[], [].as_slice())?;
    assert!(rt; ask(&rt, &mut outside, "replay")? == Status::NoStore);
    assert!(rt; ask(&rt, &mut outside, "show")? == Status::NoStore);
    assert!(rt; ask(&rt, &mut outside, "init")? == Status::Done);
    assert!(rt; ask(&rt, &mut outside, "init")? == Status::AlreadyStore);
    assert!(rt; ask(&rt, &mut outside, "show")? == Status::Done);
    assert!(rt; ask(&rt, &mut outside, "replay")? == Status::Done);
    assert!(rt; outside.shown().is_empty());
    Ok(())
}

#[test]
fn other_words_ask_for_nothing(rt: HostRuntime) -> Result<(), Fail> {
    let mut outside = MemoryOutside::new(rt.alloc(), SCRIPT, [].as_slice())?;
    assert!(rt; ask(&rt, &mut outside, "Init")? == Status::Usage);
    assert!(rt; ask(&rt, &mut outside, "")? == Status::Usage);
    assert!(rt; ask(&rt, &mut outside, "outbox")? == Status::Usage);
    assert!(rt; replay(&rt, &mut outside, "0")? == Status::Usage);
    assert!(rt; replay(&rt, &mut outside, "1025")? == Status::Usage);
    assert!(rt; outside.calls() == 0);
    Ok(())
}

#[test]
fn a_damaged_store_is_told(rt: HostRuntime) -> Result<(), Fail> {
    let (part, place) = (Part::Zero, 1);
    let mut outside = MemoryOutside::with_parts(
        rt.alloc(),
        [1].as_slice(),
        &[],
        SCRIPT,
        [].as_slice(),
    )?;
    assert!(rt; ask(&rt, &mut outside, "show")? == Status::Damaged { part, place });
    assert!(rt; ask(&rt, &mut outside, "replay")? == Status::Damaged { part, place });
    assert!(rt; ask(&rt, &mut outside, "init")? == Status::AlreadyStore);
    Ok(())
}

// Whether the script's text is shown if it comes in pieces of so many bytes.
fn is_shown(rt: &HostRuntime, piece: usize, group: &str) -> Result<bool, Fail>
    requires { 1 ≤ piece }
{
    let mut outside = over(rt, &new_store(rt)?, SCRIPT, [].as_slice())?;
    outside.set_piece(piece);
    let status = replay(rt, &mut outside, group)?;
    Ok(status == Status::Done && outside.shown() == REPLIES)
}

#[test]
fn pieces_and_groups_make_no_difference(rt: HostRuntime) -> Result<(), Fail> {
    for group in ["1", "7", "1024"] {
        assert!(rt; is_shown(&rt, 1, group)?);
        assert!(rt; is_shown(&rt, 7, group)?);
    }
    Ok(())
}

// The quota's mail runs as the file is made.
const ACTING: &[u8] =
    b"1000000000 dirquota quota add /Path:D:\\ /Limit:2mb /Type:soft \"/Add-Notification:85,m,60,[Quota Path] has [Quota Used] of [quota limit mb] MB [x]\"
1000000000 create D:\\a 1800000 1
";

const NOTICE: &[u8] =
    b"  2001-09-09 01:46:40 m quota 85 0 D:\\\n    D:\\ has 1802240 of 2 MB [x]\n";

// Whether the outbox of a store since a moment is this text, and writes nothing to the disk.
fn has_outbox(
    rt: &HostRuntime,
    store: &MemoryOutside,
    since: &str,
    text: &[u8],
) -> Result<bool, Fail> {
    let mut outside = over(rt, store, &[], [].as_slice())?;
    let mode = String::from_str(rt.alloc(), "outbox")?;
    let words = [mode, String::from_str(rt.alloc(), since)?];
    let status = run_words(rt, words.as_slice(), &mut outside);
    let is_same = outside.part(Part::Zero) == store.part(Part::Zero)
        && outside.part(Part::One) == store.part(Part::One);
    Ok(status == Status::Done && outside.shown() == text && is_same)
}

#[test]
fn an_outbox_has_the_actions_that_ran_since(rt: HostRuntime) -> Result<(), Fail> {
    let mut outside = over(&rt, &new_store(&rt)?, ACTING, [].as_slice())?;
    assert!(rt; has_outbox(&rt, &outside, "0", &[])?);
    assert!(rt; replay(&rt, &mut outside, "1")? == Status::Done);
    assert!(rt; has_outbox(&rt, &outside, "0", NOTICE)?);
    assert!(rt; has_outbox(&rt, &outside, "1000000001", &[])?);
    Ok(())
}

// Whether a crash after the replies leaves the same outbox.
fn keeps_outbox(rt: &HostRuntime, pick: Pick) -> Result<bool, Fail> {
    let mut outside = over(rt, &new_store(rt)?, ACTING, [].as_slice())?;
    let status = replay(rt, &mut outside, "1")?;
    outside.crash(pick);
    Ok(status == Status::Done && has_outbox(rt, &outside, "0", NOTICE)?)
}

#[test]
fn a_crash_leaves_the_outbox(rt: HostRuntime) -> Result<(), Fail> {
    for pick in [Pick::Lost, Pick::Taken, Pick::Fill(1), Pick::Fill(255)] {
        assert!(rt; keeps_outbox(&rt, pick)?);
    }
    Ok(())
}

// The lines that make so many folders.
fn folders(rt: &HostRuntime, count: u32) -> Result<Vec<u8>, Fail> {
    let mut lines = Vec::new(rt.alloc());
    for folder in 0..count {
        let line = format!(in rt.alloc(); "100 mkdir D:\\f{folder} 1\n")?;
        lines.extend_from_slice(line.as_bytes())?;
    }
    Ok(lines)
}

fn is_sync(outside: &MemoryOutside, call: u64) -> bool {
    1 <= call && call <= outside.calls() && outside.kind(call) == CallKind::Sync
}

fn syncs(outside: &MemoryOutside) -> u64 {
    let mut count = 0u64;
    for before in 0..outside.calls() {
        if is_sync(outside, before.saturating_add(1)) {
            count = count.saturating_add(1);
        }
    }
    count
}

// How often a run syncs that makes 64 folders, and how many bytes it shows.
fn synced(rt: &HostRuntime, group: &str) -> Result<(u64, usize), Fail> {
    let script = folders(rt, 64)?;
    let mut outside = over(rt, &new_store(rt)?, &script, [].as_slice())?;
    let status = replay(rt, &mut outside, group)?;
    if status != Status::Done {
        return Ok((0, 0));
    }
    Ok((syncs(&outside), outside.shown().len()))
}

// One sync as the store is opened, and two for each batch. The replies to lines 1 to 9 have 5 bytes, and the others 6.
#[test]
fn a_batch_takes_two_syncs(rt: HostRuntime) -> Result<(), Fail> {
    assert!(rt; synced(&rt, "1")? == (129, 375));
    assert!(rt; synced(&rt, "32")? == (5, 375));
    Ok(())
}
