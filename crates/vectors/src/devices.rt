//! Devices in memory that give a script in pieces and fail as told, and the streams of the process.

use fsrm_outside::{Failed, MemoryOutside, RealOutside, Sink, Source, write_all};
use std::test::Fail;

#[test]
fn a_script_comes_in_pieces(rt: HostRuntime) -> Result<(), Fail> {
    let mut outside = MemoryOutside::new(rt.alloc(), b"abc".as_slice(), [].as_slice())?;
    outside.set_piece(2);
    let mut buffer = [0u8; 16];
    assert!(rt; outside.read(&mut buffer) == Ok(2));
    assert!(rt; outside.read(&mut buffer) == Ok(1));
    assert!(rt; outside.read(&mut buffer) == Ok(0));
    Ok(())
}

#[test]
fn reads_that_are_told_to_fail_do(rt: HostRuntime) -> Result<(), Fail> {
    let mut outside = MemoryOutside::new(rt.alloc(), b"abc".as_slice(), [2].as_slice())?;
    let mut buffer = [0u8; 2];
    assert!(rt; outside.read(&mut buffer) == Ok(2));
    assert!(rt; outside.read(&mut buffer) == Err(Failed));
    assert!(rt; outside.read(&mut buffer) == Ok(1));
    assert!(rt; buffer[0] == b'c');
    Ok(())
}

#[test]
fn writes_that_are_told_to_fail_do(rt: HostRuntime) -> Result<(), Fail> {
    let mut outside = MemoryOutside::new(rt.alloc(), &[], [2].as_slice())?;
    assert!(rt; write_all(&mut outside, b"de".as_slice()) == Ok(()));
    assert!(rt; write_all(&mut outside, b"fg".as_slice()) == Err(Failed));
    assert!(rt; outside.lacked() == 0);
    assert!(rt; outside.shown() == b"de".as_slice());
    Ok(())
}

#[test]
fn the_standard_output_takes_an_empty_piece(rt: HostRuntime) -> Result<(), Fail> {
    let mut outside = RealOutside::new(&rt, rt.alloc())?;
    assert!(rt; outside.write([].as_slice()) == Ok(0));
    Ok(())
}
