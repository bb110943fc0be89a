//! A journal that is read from bytes that were written by hand (`docs/FORMATS.md` has them too).

use fsrm_journal::{Journal, JournalFault};
use fsrm_outside::{MemoryOutside, Part};
use std::alloc::Global;
use std::test::Fail;

// Generation 1, version 2, 65,536 nodes, 4,194,304 bytes of names, clusters of 4,096 bytes, an image of three bytes,
// and one record with the body `hi`.
const HALF: [u8; 59] = [
    1, 0, 0, 0, 0, 0, 0, 0, b'F', b'S', b'R', b'M', b'H', b'A', b'L', b'F', // gate, zeros, name
    1, 0, 0, 0, 0, 0, 0, 0, 2, 0, 0, 0, 0, 0, 1, 0, // generation, version, nodes
    0, 0, 64, 0, 0, 16, 0, 0, 3, 0, 0, 0, 0, 0, 0, 0, // names, cluster, length of the image
    1, 2, 3, 1, 2, 0, 0, 0, b'h', b'i', 0, // image, record, closed gate
];

fn image(journal: &mut Journal, disk: &mut MemoryOutside) -> Result<usize, JournalFault> {
    let mut image = [0u8; 8];
    journal.read_image(disk, &mut image)
}

// Whether the next record is found at byte 56, has two bytes, and begins with `h`.
fn record_is_read(
    alloc: Global,
    journal: &mut Journal,
    disk: &mut MemoryOutside,
) -> Result<bool, Fail> {
    let mut body = vec![in alloc; 0u8; 131_072]?;
    let found = journal.next(disk, &mut body)?;
    Ok(found == Some((56, 2)) && body[0] == b'h')
}

fn is_at_its_end(
    alloc: Global,
    journal: &mut Journal,
    disk: &mut MemoryOutside,
) -> Result<bool, Fail> {
    let mut body = vec![in alloc; 0u8; 131_072]?;
    Ok(journal.next(disk, &mut body)?.is_none())
}

fn is_read(alloc: Global, journal: &mut Journal, disk: &mut MemoryOutside) -> Result<bool, Fail> {
    Ok(
        image(journal, disk)? == 3
            && image(journal, disk)? == 0
            && record_is_read(alloc, journal, disk)?
            && is_at_its_end(alloc, journal, disk)?
            && journal.tail() == 7,
    )
}

fn half_is_read(alloc: Global, version: u8) -> Result<bool, Fail> {
    let mut half = HALF;
    half[24] = version;
    let mut disk = MemoryOutside::with_parts(alloc, &half, &[0], &[], [].as_slice())?;
    let (mut journal, head) = Journal::open_at(alloc, &mut disk)?;
    let is_head = head.version == version as u32 && head.size.cluster == 4_096;
    Ok(is_head && is_read(alloc, &mut journal, &mut disk)?)
}

#[test]
fn a_half_is_read(rt: HostRuntime) -> Result<(), Fail> {
    assert!(rt; half_is_read(rt.alloc(), 1)?);
    assert!(rt; half_is_read(rt.alloc(), 2)?);
    Ok(())
}

// What is made of the half's byte at a place, and what opening then says.
const DAMAGED: [(usize, u8, JournalFault); 6] = [
    (0, 0, JournalFault::NoStore),
    (
        7,
        1,
        JournalFault::Damaged {
            part: Part::Zero,
            place: 1,
        },
    ),
    (
        8,
        0,
        JournalFault::Damaged {
            part: Part::Zero,
            place: 8,
        },
    ),
    (
        16,
        0,
        JournalFault::Damaged {
            part: Part::Zero,
            place: 16,
        },
    ),
    (
        24,
        9,
        JournalFault::Damaged {
            part: Part::Zero,
            place: 24,
        },
    ),
    (
        36,
        1,
        JournalFault::Damaged {
            part: Part::Zero,
            place: 36,
        },
    ),
];

fn refusal(alloc: Global, half: &[u8; 59]) -> Result<Option<JournalFault>, Fail> {
    let mut disk = MemoryOutside::with_parts(alloc, half, &[0], &[], [].as_slice())?;
    Ok(Journal::open_at(alloc, &mut disk).err())
}

#[test]
fn a_wrong_head_is_told(rt: HostRuntime) -> Result<(), Fail> {
    for (place, byte, fault) in DAMAGED {
        let mut half = HALF;
        half[place % 59] = byte;
        assert!(rt; refusal(rt.alloc(), &half)? == Some(fault));
    }
    Ok(())
}
