//! Stores, as bytes that were written by hand (`docs/FORMATS.md` has them too).

use fsrm_base::NoMemory;
use std::alloc::Global;

/// The head of a half: generation 1, version 2, 65,536 nodes, 4,194,304 bytes of names, clusters of 4,096 bytes, and an
/// image of 99 bytes.
pub const HEAD: &[u8] =
    b"\x01\0\0\0\0\0\0\0FSRMHALF\x01\0\0\0\0\0\0\0\x02\0\0\0\0\0\x01\0\0\0\x40\0\0\x10\0\0\x63\0\0\0\0\0\0\0";

// The same with 9 nodes and 256 bytes of names.
const SMALL_HEAD: &[u8] =
    b"\x01\0\0\0\0\0\0\0FSRMHALF\x01\0\0\0\0\0\0\0\x02\0\0\0\x09\0\0\0\0\x01\0\0\0\x10\0\0\x63\0\0\0\0\0\0\0";

// The image of a new store: the last moment, the run limit and how many nodes there are, the root, and nine lists that
// are empty.
const START: &[u8] = b"\0\0\0\0\0\0\0\0\x3c\0\0\0\x01\0\0\0";

const ROOT: &[u8] =
    b"\0\0\0\0\0\0\0\0\0\0\x01\0\0\0\0\0\0\0\0\x01\0\0\0\0\0\0\0\0\0\0\0\0\0\0\0\0\0\0\0\0\0\0\0\0\0\0\0";

const LISTS: &[u8] = &[0; 36];

// The record of `100 mkdir D:\x 1`, with its open gate.
const RECORD: &[u8] = b"\x01\x17\0\0\0\x64\0\0\0\0\0\0\0\x01\x04\0D:\\x\x01\0\0\0\0\0\0\0";

fn joined(alloc: Global, pieces: &[&[u8]]) -> Result<Vec<u8>, NoMemory> {
    let mut bytes = Vec::new(alloc);
    for piece in pieces {
        bytes.extend_from_slice(piece)?;
    }
    Ok(bytes)
}

/// Part 0 of a new store of the default size. Part 1 is the one byte 0.
pub fn new_half(alloc: Global) -> Result<Vec<u8>, NoMemory> {
    joined(alloc, &[HEAD, START, ROOT, LISTS, &[0]])
}

/// The same with the record of `100 mkdir D:\x 1`.
pub fn half_with_folder(alloc: Global) -> Result<Vec<u8>, NoMemory> {
    joined(alloc, &[HEAD, START, ROOT, LISTS, RECORD, &[0]])
}

/// Part 0 of a new store with room for 9 nodes.
pub fn small_half(alloc: Global) -> Result<Vec<u8>, NoMemory> {
    joined(alloc, &[SMALL_HEAD, START, ROOT, LISTS, &[0]])
}

/// The same with the record of `100 mkdir D:\x 1`.
pub fn small_half_with_folder(alloc: Global) -> Result<Vec<u8>, NoMemory> {
    joined(alloc, &[SMALL_HEAD, START, ROOT, LISTS, RECORD, &[0]])
}

/// The image of a new store.
pub fn new_image(alloc: Global) -> Result<Vec<u8>, NoMemory> {
    joined(alloc, &[START, ROOT, LISTS])
}

/// A copy of a half, all of whose bytes from one place to before another are this one.
pub fn changed(
    alloc: Global,
    half: &[u8],
    from: usize,
    to: usize,
    byte: u8,
) -> Result<Vec<u8>, NoMemory> {
    let mut bytes = Vec::from_slice(alloc, half)?;
    for place in from..to {
        if let Some(slot) = bytes.get_mut(place) {
            *slot = byte;
        }
    }
    Ok(bytes)
}

/// Whether the gate at a place of a part is there, and closed.
pub fn is_closed(part: &[u8], place: usize) -> bool {
    match part.get(place) {
        Some(gate) => *gate != 1,
        None => false,
    }
}
