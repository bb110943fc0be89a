//! Disks in memory that crash, one with room for so much, and the files of the current folder.

use fsrm_outside::{
    CallKind, Disk, Failed, MemoryOutside, Part, Pick, QuietOutside, RealOutside, Sink,
};
use std::fs;
use std::test::Fail;

// Whether a crash leaves these bytes of a part that held `ab`, after `xyz` was written over it and before a sync.
fn leaves(rt: &HostRuntime, pick: Pick, left: &[u8]) -> Result<bool, Fail> {
    let mut disk = MemoryOutside::with_parts(
        rt.alloc(),
        b"ab".as_slice(),
        &[],
        &[],
        [].as_slice(),
    )?;
    disk.stop_at(2);
    let written = disk.write_at(Part::Zero, 0, b"xyz".as_slice()) == Ok(());
    let failed = disk.sync() == Err(Failed);
    disk.crash(pick);
    Ok(written && failed && disk.part(Part::Zero) == left)
}

#[test]
fn a_crash_leaves_what_was_picked(rt: HostRuntime) -> Result<(), Fail> {
    assert!(rt; leaves(&rt, Pick::Lost, b"ab")?);
    assert!(rt; leaves(&rt, Pick::Taken, b"xyz")?);
    assert!(rt; leaves(&rt, Pick::Fill(1), &[1, 1, 1])?);
    Ok(())
}

#[test]
fn a_failed_write_may_have_torn_its_range(rt: HostRuntime) -> Result<(), Fail> {
    let mut disk = MemoryOutside::with_parts(
        rt.alloc(),
        b"abcd".as_slice(),
        &[],
        &[],
        [1].as_slice(),
    )?;
    assert!(rt; disk.write_at(Part::Zero, 0, b"xy".as_slice()) == Err(Failed));
    assert!(rt; disk.part(Part::Zero) == b"abcd".as_slice());
    disk.crash(Pick::Fill(255));
    assert!(rt; disk.part(Part::Zero) == [255, 255, b'c', b'd'].as_slice());
    Ok(())
}

#[test]
fn calls_are_told_by_their_numbers(rt: HostRuntime) -> Result<(), Fail> {
    let mut disk = MemoryOutside::new(rt.alloc(), &[], [].as_slice())?;
    assert!(rt; disk.len(Part::One) == Ok(0));
    assert!(rt; disk.calls() == 1);
    assert!(rt; disk.kind(1) == CallKind::Len);
    Ok(())
}

#[test]
fn a_quiet_stream_has_its_room(rt: HostRuntime) -> Result<(), Fail> {
    let mut outside = QuietOutside::new(rt.alloc(), &[], 2)?;
    assert!(rt; outside.write(b"abc".as_slice()) == Err(Failed));
    assert!(rt; outside.write(b"ab".as_slice()) == Ok(2));
    Ok(())
}

#[test]
fn a_quiet_disk_has_its_room(rt: HostRuntime) -> Result<(), Fail> {
    let mut disk = QuietOutside::new(rt.alloc(), &[], 2)?;
    assert!(rt; disk.write_at(Part::One, 0, b"abc".as_slice()) == Err(Failed));
    assert!(rt; disk.write_at(Part::One, 0, b"ab".as_slice()) == Ok(()));
    assert!(rt; disk.len(Part::One) == Ok(2));
    Ok(())
}

// Whether the disk fails while one of its files can't be opened, as a folder has its name, and from then on.
fn stays_refused(rt: &HostRuntime) -> Result<bool, Fail> {
    let _ = fs::remove_file(rt, "fsrm.store.1");
    let made = fs::create_dir(rt, "fsrm.store.1").is_ok();
    let mut disk = RealOutside::new(rt, rt.alloc())?;
    let failed = disk.len(Part::Zero) == Err(Failed);
    let removed = fs::remove_dir(rt, "fsrm.store.1").is_ok();
    Ok(made && failed && removed && disk.len(Part::Zero) == Err(Failed))
}

#[test]
fn files_keep_what_is_written(rt: HostRuntime) -> Result<(), Fail> {
    assert!(rt; stays_refused(&rt)?);
    let mut disk = RealOutside::new(&rt, rt.alloc())?;
    assert!(rt; disk.write_at(Part::One, 0, b"abc".as_slice()) == Ok(()));
    assert!(rt; disk.sync() == Ok(()));
    let mut again = RealOutside::new(&rt, rt.alloc())?;
    let mut buffer = [0u8; 4];
    assert!(rt; again.len(Part::One) == Ok(3));
    assert!(rt; again.read_at(Part::One, 1, &mut buffer) == Ok(2));
    assert!(rt; buffer == [b'b', b'c', 0, 0]);
    Ok(())
}
