//! Entries of a journal: their bytes, and where damage is told, both worked out by hand.

use fsrm_model::limits::LONGEST_ENTRY;
use fsrm_model::{Command, Deed, Entry, FileOp};
use record_codec::laws::spelled;
use record_codec::{CodecFault, EntryRef, decode, encode};
use std::alloc::Global;
use std::test::Fail;

// An entry of each kind, after its moment, which is 100; of a new job one more, with nothing that may be left out.
const KINDS: [&[u8]; 30] = [
    b"\x01\x04\0D:\\x\x01\0\0\0\0\0\0\0",
    b"\x02\x04\0D:\\x\x05\0\0\0\0\0\0\0\x01\0\0\0\0\0\0\0",
    b"\x03\x04\0D:\\x\x05\0\0\0\0\0\0\0",
    b"\x04\x04\0D:\\x",
    b"\x05\x04\0D:\\x\x04\0D:\\y",
    b"\x06\x04\0D:\\x",
    b"\x0a\x04\0D:\\x\x01\0\x04\0\0\0\0\0\0\0\x01\x01\x01\0t\x01\0\x55\0\0\0\0\0\0\0\x01\0\x55\0\0\0\0\0\0\0\x02\xff\xff\xff\xff\xff\xff\xff\xff\x02\0hi",
    b"\x0b\x04\0D:\\x\x01\0\x04\0\0\0\0\0\0\x01\x01\x01\0\x01\0\x55\0\0\0\0\0\0\0\0\0\0\0",
    b"\x0c\x04\0D:\\x",
    b"\x0d\x04\0D:\\x",
    b"\x0e\x04\0D:\\x",
    b"\x14\x01\0t\0\x04\0\0\0\0\0\0\0\0\0\0\0",
    b"\x15\x01\0t\0\0\0\0\x01\0\x55\0\0\0\0\0\0\0\0\0\x02",
    b"\x16\x01\0t",
    b"\x1e\x04\0D:\\x\x01\0t\x01\0\x01\0a",
    b"\x1f\x04\0D:\\x",
    b"\x23\x3c\0\0\0\0\0\0\0",
    b"\x28\x01\0g\x02\0\x03\0*.a\x01\0b\0\0",
    b"\x29\x01\0g\0\x01\x01\0\x01\0b",
    b"\x2a\x01\0g",
    b"\x32\x04\0D:\\x\x01\x01\0\x01\0g\x01\0\x01\0\0\0\0\0\0\0\0\0\0",
    b"\x33\x04\0D:\\x\x01\0\0\0\x01\0\x01\0g",
    b"\x34\x04\0D:\\x",
    b"\x3c\x04\0D:\\x\x01\0\x01\0g",
    b"\x3d\x04\0D:\\x",
    b"\x46\x01\0j\x02\x04\0D:\\x\x01\x05\0daily\x01\x01\0\0\0\0\0\0\0\x01\x03\0*.a\x01\0\x04\0\0\0\0\0\0\x01\x07\0\0\0\0\0\0\0\x01\x50\0\0\0\0\0\0\0\x0a\0\0\0\0\0\0\0",
    b"\x46\x01\0j\x08\x03\0D:\\\0\0\0\0\0\0\xe8\x03\0\0\0\0\0\0",
    b"\x47\x01\0j",
    b"\x48\x01\0j",
    b"\x63\x03\0\0\0\0\0\0\0",
];

// `mkdir D:\x 1` at 100.
const MKDIR: &[u8] = b"\x64\0\0\0\0\0\0\0\x01\x04\0D:\\x\x01\0\0\0\0\0\0\0";

fn at_100(alloc: Global, rest: &[u8]) -> Result<Vec<u8>, Fail> {
    let mut bytes = vec![in alloc; 100, 0, 0, 0, 0, 0, 0, 0]?;
    bytes.extend_from_slice(rest)?;
    Ok(bytes)
}

// Whether bytes spell an entry, which is written as these bytes again.
fn both_ways(alloc: Global, bytes: &[u8], into: &mut [u8]) -> bool {
    spelled();
    if bytes.len() > LONGEST_ENTRY || into.len() < LONGEST_ENTRY {
        return false;
    }
    match decode(alloc, bytes) {
        Ok(Entry::Order(command)) => {
            let end = encode(&EntryRef::Order(&command), into);
            &into[..end] == bytes
        }
        Ok(Entry::Finish { moment, folder }) => {
            let end = encode(&EntryRef::Finish { moment, folder }, into);
            &into[..end] == bytes
        }
        Err(_) => false,
    }
}

fn is_mkdir(entry: &Entry) -> bool {
    match entry {
        Entry::Order(
            Command {
                moment: 100,
                deed: Deed::File(FileOp::Mkdir { path, owner: 1 }),
            },
        ) => path.depth() == 1,
        _ => false,
    }
}

#[test]
fn worked_entry(rt: HostRuntime) -> Result<(), Fail> {
    match decode(rt.alloc(), MKDIR) {
        Ok(entry) => assert!(rt; is_mkdir(&entry)),
        Err(_) => assert!(rt; false),
    }
    Ok(())
}

#[test]
fn kinds_both_ways(rt: HostRuntime) -> Result<(), Fail> {
    let mut into = vec![in rt.alloc(); 0; LONGEST_ENTRY]?;
    for rest in KINDS {
        let bytes = at_100(rt.alloc(), rest)?;
        assert!(rt; both_ways(rt.alloc(), &bytes, &mut into));
    }
    Ok(())
}

// Bytes after the moment, and the place that is told.
const DAMAGED: [(&[u8], u64); 15] = [
    (b"", 8),
    (b"\x07", 8),
    (b"\x01\x04\0D:\\x\x01\0\0\0\0\0\0", 15),
    (b"\x01\x04\0D:\\x\0\0\0\0\0\0\0\0", 15),
    (b"\x04\x04\0d:\\x", 9),
    (b"\x04\x05\0D:\\x\\", 9),
    (b"\x04\x04\0D:\\\xff", 9),
    (b"\x04\x04\0D:\\x!", 15),
    (b"\x0a\x04\0D:\\x\0\0\x01\0\0\0\0\0", 18),
    (b"\x28\x01\0g\0\0\0\0", 12),
    (b"\x33\x04\0D:\\x\x02\0\0\0\0", 15),
    (b"\x46\x01\0j\x09\x03\0D:\\", 12),
    (b"\x46\x01\0j\x08\x03\0D:\\\x02", 18),
    (
        b"\x46\x01\0j\x08\x03\0D:\\\0\0\0\0\x01\x95\x8e\0\0\0\0\0\0",
        23,
    ),
    (b"\x46\x01\0j\x08\x03\0D:\\\0\0\0\0\0\0\0\0\0\0\0\0\0\0", 24),
];

#[test]
fn damaged_entries(rt: HostRuntime) -> Result<(), Fail> {
    for (rest, place) in DAMAGED {
        let bytes = at_100(rt.alloc(), rest)?;
        let fault = decode(rt.alloc(), &bytes).err();
        assert!(rt; fault == Some(CodecFault::BadRecord { place }));
    }
    Ok(())
}
