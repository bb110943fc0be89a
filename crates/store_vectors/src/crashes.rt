//! Journals that are stopped at each call, and what is read after the crash.

ghost use Rattle.std.specs.Prelude.{◌≡◌, ◌≤◌, ◌<◌, length, IfOk, IfSome, OnOk};
ghost use Rattle.std.specs.Option.{ForSome};
ghost use Rattle.fsrm_outside.specs.Parts.{part_of, other};

use fsrm_journal::{Head, Journal, JournalFault};
use fsrm_model::Capacity;
use fsrm_outside::{Disk, MemoryOutside, Pick};
use std::alloc::Global;
use std::test::Fail;

const SIZE: Capacity = Capacity {
    nodes: 2,
    names: 256,
    cluster: 4_096,
};

// Opens a store without records.
fn opened<D: Disk>(
    alloc: Global,
    disk: &mut D,
    body: &mut [u8],
) -> Result<Option<Journal>, JournalFault>
    requires { 131072 ≤ length body.old }
    ensures place { IfOk result (λ found. IfSome found (λ journal. ForSome (D.reads disk.new) (λ parts. journal.end < length (part_of journal.ruling parts)))) }
    ensures beside { IfOk result (λ found. IfSome found (λ journal. ForSome (D.reads disk.new) (λ parts. 1 ≤ length (part_of (other journal.ruling) parts)))) }
    ensures none { IfOk result (λ found. IfSome found (λ journal. journal.held ≡ 0)) }
    ensures group { IfOk result (λ found. IfSome found (λ journal. journal.group ≡ 1)) }
{
    let mut image = [0u8; 8];
    let (mut journal, _head) = Journal::open_at(alloc, disk)?;
    journal.read_image(disk, &mut image)?;
    let None = journal.next(disk, body)? else {
        return Ok(None);
    };
    Ok(Some(journal))
}

// Adds one record, and two at once. `done` counts the steps that succeeded.
fn add<D: Disk>(
    alloc: Global,
    journal: &mut Journal,
    disk: &mut D,
    done: &mut u32,
) -> Result<(), JournalFault>
    requires place { ForSome (D.reads disk.old) (λ parts. journal.old.end < length (part_of journal.old.ruling parts)) }
    requires beside { ForSome (D.reads disk.old) (λ parts. 1 ≤ length (part_of (other journal.old.ruling) parts)) }
    requires none { journal.old.held ≡ 0 }
    requires group { journal.old.group ≡ 1 }
    requires done { done.old ≡ 0 }
    ensures beside { OnOk result (ForSome (D.reads disk.new) (λ parts. 1 ≤ length (part_of (other journal.new.ruling) parts))) }
    ensures none { OnOk result (journal.new.held ≡ 0) }
    ensures group { OnOk result (journal.new.group ≡ 2) }
    ensures done { OnOk result (done.new ≡ 2) }
{
    journal.append(disk, b"one".as_slice())?;
    *done = 1;
    if journal.set_group(alloc, 2).is_err() {
        return Err(JournalFault::NoMemory);
    }
    journal.hold(b"two".as_slice());
    journal.hold(b"three".as_slice());
    let held = journal.held();
    journal.flush(disk)?;
    *done = held;
    Ok(())
}

// Changes to the other half, and adds a record there.
fn change<D: Disk>(journal: &mut Journal, disk: &mut D, done: &mut u32) -> Result<(), JournalFault>
    requires beside { ForSome (D.reads disk.old) (λ parts. 1 ≤ length (part_of (other journal.old.ruling) parts)) }
    requires none { journal.old.held ≡ 0 }
    requires group { journal.old.group ≡ 2 }
    requires done { done.old ≡ 2 }
{
    let head = Head {
        generation: journal.next_generation(),
        version: 2,
        size: SIZE,
        image: 2,
    };
    journal.begin_half(disk, &head)?;
    journal.put_image(disk, &[8])?;
    journal.put_image(disk, &[9])?;
    journal.switch(disk)?;
    *done = 3;
    journal.append(disk, b"four".as_slice())?;
    *done = 4;
    Ok(())
}

// Goes on from a store without records, until a call of the disk fails.
fn run<D: Disk>(
    alloc: Global,
    disk: &mut D,
    body: &mut [u8],
    done: &mut u32,
) -> Result<(), JournalFault>
    requires body { 131072 ≤ length body.old }
    requires done { done.old ≡ 0 }
{
    let Some(mut journal) = opened(alloc, disk, body)? else {
        return Ok(());
    };
    add(alloc, &mut journal, disk, done)?;
    change(&mut journal, disk, done)?;
    Ok(())
}

// Which of the steps was the last whose effect is there: 9 if it is none of them.
fn last_step(is_changed: bool, sizes: u32) -> u32 {
    match (is_changed, sizes) {
        (false, 0) => 0,
        (false, 3) => 1,
        (false, 335) => 2,
        (true, 0) => 3,
        (true, 4) => 4,
        _ => 9,
    }
}

// The sizes of the records, as the digits of a number.
fn sizes<D: Disk>(journal: &mut Journal, disk: &mut D, body: &mut [u8]) -> Result<u32, JournalFault>
    requires { 131072 ≤ length body.old }
{
    let mut sizes = 0u32;
    for _ in 0..5 {
        let Some((_, size)) = journal.next(disk, body)? else {
            return Ok(sizes);
        };
        sizes = sizes.wrapping_mul(10).wrapping_add(size as u32);
    }
    Ok(9)
}

// The last step whose effect is read.
fn found<D: Disk>(alloc: Global, disk: &mut D, body: &mut [u8]) -> Result<u32, JournalFault>
    requires { 131072 ≤ length body.old }
{
    let (mut journal, head) = Journal::open_at(alloc, disk)?;
    let mut image = [0u8; 8];
    let count = journal.read_image(disk, &mut image)?;
    let is_changed = count == 2 && image[0] == 8 && image[1] == 9;
    let is_whole = count as u64 == head.image && (is_changed || image[0] == 7);
    if !is_whole {
        return Ok(9);
    }
    Ok(last_step(is_changed, sizes(&mut journal, disk, body)?))
}

// Makes a store of this generation, with one byte as its image.
fn make<D: Disk>(disk: &mut D, generation: u64) -> Result<(), JournalFault>
    requires { 1 ≤ generation }
{
    let head = Head {
        generation,
        version: 2,
        size: SIZE,
        image: 1,
    };
    Journal::format(disk, &head, &[7])
}

// Stops a run over a new store at a call of the disk, and answers how many steps succeeded, and what is found.
fn stopped(alloc: Global, generation: u64, stop: u64, pick: Pick) -> Result<(u32, u32), Fail>
    requires { 1 ≤ generation }
{
    let mut body = vec![in alloc; 0u8; 131_072]?;
    let mut disk = MemoryOutside::new(alloc, &[], [].as_slice())?;
    make(&mut disk, generation)?;
    disk.stop_at(stop);
    let mut done = 0;
    let ended = run(alloc, &mut disk, &mut body, &mut done);
    disk.crash(pick);
    let found = found(alloc, &mut disk, &mut body)?;
    if ended.is_ok() && done < 4 {
        return Ok((0, 9));
    }
    Ok((done, found))
}

// Whether all that succeeded is found, and at most one step more.
fn is_kept(alloc: Global, generation: u64, stop: u64) -> Result<bool, Fail>
    requires { 1 ≤ generation }
{
    for pick in [Pick::Lost, Pick::Taken, Pick::Fill(1), Pick::Fill(255)] {
        let (done, found) = stopped(alloc, generation, stop, pick)?;
        if found < done || done.saturating_add(1) < found {
            return Ok(false);
        }
    }
    Ok(true)
}

// A new store is made by 12 calls of the disk, and the run makes 27 at most.
#[test]
fn a_crash_leaves_each_step_whole_or_not_at_all(rt: HostRuntime) -> Result<(), Fail> {
    for stop in 13..41 {
        assert!(rt; is_kept(rt.alloc(), 1, stop)?);
        assert!(rt; is_kept(rt.alloc(), u64::MAX, stop)?);
    }
    Ok(())
}

#[test]
fn a_run_that_is_not_stopped_succeeds(rt: HostRuntime) -> Result<(), Fail> {
    assert!(rt; stopped(rt.alloc(), 1, 100, Pick::Lost)? == (4, 4));
    assert!(rt; stopped(rt.alloc(), u64::MAX, 100, Pick::Lost)? == (4, 4));
    Ok(())
}

// Whether there is no store or the new one, after the machine stopped while it was made.
fn is_none_or_new(alloc: Global, stop: u64, pick: Pick) -> Result<bool, Fail> {
    let mut body = vec![in alloc; 0u8; 131_072]?;
    let mut disk = MemoryOutside::new(alloc, &[], [].as_slice())?;
    disk.stop_at(stop);
    let made = make(&mut disk, 1);
    disk.crash(pick);
    match found(alloc, &mut disk, &mut body) {
        Ok(found) => Ok(found == 0),
        Err(fault) => Ok(made.is_err() && fault == JournalFault::NoStore),
    }
}

// The sixth call makes the closed gates stable.
#[test]
fn a_crash_leaves_no_store_or_a_new_one(rt: HostRuntime) -> Result<(), Fail> {
    for stop in 7..14 {
        assert!(rt; is_none_or_new(rt.alloc(), stop, Pick::Lost)?);
        assert!(rt; is_none_or_new(rt.alloc(), stop, Pick::Taken)?);
        assert!(rt; is_none_or_new(rt.alloc(), stop, Pick::Fill(1))?);
    }
    Ok(())
}

#[test]
fn no_store_is_made_over_another(rt: HostRuntime) -> Result<(), Fail> {
    let mut disk = MemoryOutside::new(rt.alloc(), &[], [].as_slice())?;
    make(&mut disk, 1)?;
    assert!(rt; make(&mut disk, 1) == Err(JournalFault::AlreadyStore));
    Ok(())
}
