//! Images of a store: their bytes, and where damage is told, both worked out by hand.

ghost use Rattle.std.specs.Prelude.{◌≡◌, true, IfOk};
ghost use Rattle.std.specs.List.{list_all};
ghost use Rattle.image_codec.specs.Pieces.{pieces};
ghost use Rattle.image_codec.specs.PiecesLeft.{piece_fits};

use fsrm_base::NoMemory;
use fsrm_engine::Engine;
use fsrm_model::{Capacity, Ledger, ReportKind, Rows, Steps, Weightless};
use image_codec::{CodecFault, ImageIn, ImageOut, image_len};
use std::alloc::Global;
use std::marker::Brand;
use std::process::Abort;
use std::sync::ledger::{Blank, Ledger as Named};
use std::test::Fail;

const SIZE: Capacity = Capacity {
    nodes: 2,
    names: 256,
    cluster: 4_096,
};

// The image of a new store: the last moment, the run limit, the root, and nine lists that are empty.
const NEW: [u8; 99] = [
    0, 0, 0, 0, 0, 0, 0, 0, 60, 0, 0, 0, 1, 0, 0, 0, 0, 0, 0, 0, 0, 0, 0, 0, 0, 0, 1, 0, 0, 0, 0,
    0, 0, 0, 0, 1, 0, 0, 0, 0, 0, 0, 0, 0, 0, 0, 0, 0, 0, 0, 0, 0, 0, 0, 0, 0, 0, 0, 0, 0, 0, 0, 0,
    0, 0, 0, 0, 0, 0, 0, 0, 0, 0, 0, 0, 0, 0, 0, 0, 0, 0, 0, 0, 0, 0, 0, 0, 0, 0, 0, 0, 0, 0, 0, 0,
    0, 0, 0, 0,
];

// What is written into buffers of one length, at most a hundred of them.
fn written(alloc: Global, rows: &Rows, size: usize) -> Result<Vec<u8>, NoMemory>
    requires { list_all piece_fits (pieces rows.now) ≡ true }
{
    let mut buffer = vec![in alloc; 0; size]?;
    let mut out = ImageOut::new(alloc, rows)?;
    let mut bytes = Vec::new(alloc);
    for _ in 0..100 {
        let count = out.next(&mut buffer);
        bytes.extend_from_slice(&buffer[..count])?;
    }
    Ok(bytes)
}

// The rows of an engine.
fn rows_of<L: Ledger>(
    alloc: Global,
    engine: &Engine,
    steps: &mut Steps<L>,
) -> Result<Rows, NoMemory>
    ensures { IfOk result (λ R. list_all piece_fits (pieces R) ≡ true) }
{
    // These are called for their clauses: that the size and the rows are those of a store.
    let _size = engine.tree().capacity();
    let _objects = engine.objects();
    Ok(engine.to_rows(alloc, steps)?)
}

/// The image of what an engine holds, up to 102,400 bytes of it.
pub fn image_of<L: Ledger>(
    alloc: Global,
    engine: &Engine,
    steps: &mut Steps<L>,
) -> Result<Vec<u8>, NoMemory> {
    let rows = rows_of(alloc, engine, steps)?;
    written(alloc, &rows, 1_024)
}

fn new_rows<L: Ledger>(alloc: Global, steps: &mut Steps<L>) -> Result<Rows, Fail>
    ensures { IfOk result (λ R. list_all piece_fits (pieces R) ≡ true) }
{
    let engine = Engine::new(alloc, SIZE)?;
    Ok(rows_of(alloc, &engine, steps)?)
}

fn is_written(alloc: Global, rows: &Rows, size: usize) -> Result<bool, Fail>
    requires { list_all piece_fits (pieces rows.now) ≡ true }
{
    let bytes = written(alloc, rows, size)?;
    Ok(bytes.as_slice() == NEW.as_slice())
}

fn new_written<N: Named>(rt: &HostRuntime, end: &impl Abort, blank: Blank) -> Result<(), Fail>
    requires name { blank.name ≡ N.name }
    requires parts { blank.parts ≡ N.parts }
    requires one { blank.parts ≡ 1 }
{
    let mut steps = Steps::new(rt, Weightless::<N>::of(blank));
    let rows = new_rows(rt.alloc(), &mut steps)?;
    assert!(end; image_len(&rows) == 99);
    for size in [1, 7, 98, 99, 100] {
        assert!(end; is_written(rt.alloc(), &rows, size)?);
    }
    Ok(())
}

#[test]
fn new_image_written(rt: HostRuntime) -> Result<(), Fail> {
    new_written::<Brand>(&rt, &rt, Blank::new(1))
}

// What is read of pieces, of which an image of so many bytes consists.
fn read(alloc: Global, len: u64, pieces: &[&[u8]]) -> Result<Rows, CodecFault> {
    let mut reader = ImageIn::new(alloc, len);
    for piece in pieces {
        reader.feed(piece)?;
    }
    reader.finish()
}

// A row in each list, and before each list, or in its midst, the end of a piece.
const WORKED: [&[u8]; 14] = [
    b"\x64\0\0\0\0\0\0\0\x3c\0\0\0\x02\0\0\0\0\0\0\0\0\0\0\0\0\0\x01\0\0\0\0\0\0\0\0\x01\0\0\0\0\0\0\0\0\0\0\0\0\0\0\0\0\0",
    b"\0\0\0\0\0\0\0\0\0\0\x01\0\0\0\0\0\0\0\x01\0x\x01\0\0\0\0\0\0\0\0\x01\0\0\0\x64\0\0\0\0\0\0\0\x64\0\0\0\0\0\0\0\x64\0\0\0\0\0\0\0",
    b"\x01\0\0\0\x01\0\0\0\0\x04\0\0\0\0\0\0\x01\0\x01\0\0\0\x55\0\x01\0\0\0\x02\xff\xff\xff\xff\x02\0hi\x01",
    b"\x64\0\0\0\0\0\0\0\x01\0\0\0\0\0\0\0\0\0\0\0\0\x64\0\0\0\0\0\0\0",
    b"\x01\0\0\0\0\0\0\0\x01\0t\0\x04\0\0\0\0\0\0\x01\0\0\0\0",
    b"\x01\0\0\0\x01\0\0\0\0\0\0\0\x01\0\0\0\x01\0a",
    b"\x01\0\0\0\0\0\0\0\x01\0g\x02\0\0\0\x03\0*.a\x01\0b\0\0\0\0",
    b"\x01\0\0\0\x01\0\0\0\x01\x01\0\0\0\0\0\0\0\x01\0\0\0\x01\0\0\0\0\0\0\0",
    b"\x01\0\0\0\0\0\0\0\x01\0\0\0\0\0\0\0",
    b"",
    b"\x01\0\0\0\0\0\0\0\x01\0j\x02\x01\0\0\0\x01\x01\0\0\0\x01\x03\0*.a\0\0\0\x0a\0\0\0",
    b"\x05\0daily\x64\0\0\0\0\0\0\0\0",
    b"\x01\0\0\0\x64\0\0\0\0\0\0\0\x01\0\0\0\x55\0\x02",
    b"\x01\0\0\0\x64\0\0\0\0\0\0\0\x01\x01\0\0\0\x01\0\0\0\x01\0\0\0\x01\0y",
];

// Whether a value of each list is that of the image.
fn is_worked(rows: &Rows) -> bool {
    rows.nodes.len() == 2
        && rows.quotas.get(0).map(|row| row.limit) == Some(1_024)
        && rows.templates.get(0).map(|row| row.name.as_str()) == Some("t")
        && rows.autos.get(0).map(|row| row.excluded.len()) == Some(1)
        && rows.groups.get(0).map(|row| row.members.len()) == Some(2)
        && rows.screens.get(0).map(|row| row.actions.len()) == Some(1)
        && rows.excepts.get(0).map(|row| row.groups.len()) == Some(1)
        && rows.jobs.get(0).map(|row| row.kind) == Some(ReportKind::FilesByType)
        && rows.acts.get(0).map(|row| row.percent) == Some(85)
        && rows.audits.get(0).map(|row| row.name.as_str()) == Some("y")
}

#[test]
fn worked_image_read(rt: HostRuntime) -> Result<(), Fail> {
    match read(rt.alloc(), 390, &WORKED) {
        Ok(rows) => assert!(rt; is_worked(&rows)),
        Err(_) => assert!(rt; false),
    }
    Ok(())
}

// How long the image is to be, which byte of a new store's image is another, which one it is, and the place that is
// told.
const DAMAGED: [(u64, usize, u8, u64); 6] = [
    (98, 0, 0, 95),
    (100, 0, 0, 99),
    (0, 0, 0, 0),
    (99, 26, 2, 26),
    (99, 24, 1, 96),
    (99, 63, 1, 94),
];

fn place_of(alloc: Global, len: u64, bytes: &[u8]) -> Option<u64> {
    match read(alloc, len, &[bytes]) {
        Err(CodecFault::BadRecord { place }) => Some(place),
        Ok(_) | Err(CodecFault::NoMemory) => None,
    }
}

#[test]
fn damaged_images(rt: HostRuntime) -> Result<(), Fail> {
    for (len, at, byte, place) in DAMAGED {
        let mut bytes = NEW;
        if let Some(slot) = bytes.get_mut(at) {
            *slot = byte;
        }
        assert!(rt; place_of(rt.alloc(), len, &bytes) == Some(place));
    }
    assert!(rt; place_of(rt.alloc(), 99, &NEW) == None);
    Ok(())
}
