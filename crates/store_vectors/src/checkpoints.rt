//! Records up to the one with which the other half is given an image, at the first and at the greatest generation.

ghost use Rattle.std.specs.Prelude.{◌≡◌, OnOk};
ghost use Rattle.fsrm_store.specs.Standing.{IsReady};

use crate::halves::{HEAD, changed, is_closed, new_half};
use crate::opening::{Task, open};
use crate::taking::take;
use fsrm_model::{Ledger, Outcome, Steps, Weightless};
use fsrm_outside::{Disk, MemoryOutside, Part};
use fsrm_store::{Store, StoreFault};
use std::alloc::Global;
use std::marker::Brand;
use std::process::Abort;
use std::sync::ledger::{Blank, Ledger as Named};
use std::test::Fail;

// A record has 135 bytes, so these have 1,048,545: with one more they are longer than 1 MiB.
const RECORDS: u32 = 7_767;

// A name is this and four digits.
const NAME: &str =
    "nnnnnnnnnnnnnnnnnnnnnnnnnnnnnnnnnnnnnnnnnnnnnnnnnnnnnnnnnnnnnnnnnnnnnnnnnnnnnnnnnnnnnnnnnnnnnnnn";

fn create<D: Disk, L: Ledger>(
    alloc: Global,
    store: &mut Store,
    disk: &mut D,
    number: u32,
    steps: &mut Steps<L>,
) -> Result<Outcome, StoreFault>
    requires ready { IsReady D.reads store.old.journal disk.old }
    ensures ready { OnOk result (IsReady D.reads store.new.journal disk.new) }
{
    match format!(in alloc; "100 create D:\\{NAME}{number:04} 0 1") {
        Ok(line) => take(alloc, store, disk, line.as_bytes(), steps),
        Err(_) => Err(StoreFault::NoMemory),
    }
}

fn create_files<D: Disk, L: Ledger>(
    alloc: Global,
    store: &mut Store,
    disk: &mut D,
    from: u32,
    to: u32,
    steps: &mut Steps<L>,
) -> Result<(), StoreFault>
    requires ready { IsReady D.reads store.old.journal disk.old }
{
    for number in from..to {
        create(alloc, store, disk, number, steps)?;
    }
    Ok(())
}

// Files of these numbers are made.
#[derive(Drop)]
struct Files {
    from: u32,
    to: u32,
}

impl Task for Files {
    fn run<D: Disk, L: Ledger>(
        &mut self,
        alloc: Global,
        store: &mut Store,
        disk: &mut D,
        steps: &mut Steps<L>,
    ) -> Result<(), StoreFault> {
        create_files(alloc, store, disk, self.from, self.to, steps)
    }
}

fn makes<D: Disk, L: Ledger>(
    alloc: Global,
    disk: &mut D,
    from: u32,
    to: u32,
    steps: &mut Steps<L>,
) -> bool {
    open(alloc, disk, &mut Files { from, to }, steps).is_ok()
}

// The head of the half that is written then. Its image has 99 bytes, and 147 for each file: 1,141,995.
const NEXT_HEAD: &[u8] =
    b"\x01\0\0\0\0\0\0\0FSRMHALF\x02\0\0\0\0\0\0\0\x02\0\0\0\0\0\x01\0\0\0\x40\0\0\x10\0\0\xeb\x6c\x11\0\0\0\0\0";

// The same after the greatest generation.
const FIRST_HEAD: &[u8] =
    b"\x01\0\0\0\0\0\0\0FSRMHALF\x01\0\0\0\0\0\0\0\x02\0\0\0\0\0\x01\0\0\0\x40\0\0\x10\0\0\xeb\x6c\x11\0\0\0\0\0";

// The place of the gate after that image.
const GATE: usize = 1_142_043;

// Whether one file more leaves parts that begin so, and an image in part 1.
fn leaves<L: Ledger>(
    alloc: Global,
    half: &[u8],
    zero: &[u8],
    one: &[u8],
    steps: &mut Steps<L>,
) -> bool {
    let Ok(mut disk) = MemoryOutside::with_parts(alloc, half, &[0], &[], [].as_slice()) else {
        return false;
    };
    makes(alloc, &mut disk, RECORDS, RECORDS + 1, steps)
        && disk.part(Part::Zero).starts_with(zero)
        && disk.part(Part::One).starts_with(one)
        && is_closed(disk.part(Part::One), GATE)
}

// The half after as many files as leave the other one as it is.
fn full_half<L: Ledger>(
    alloc: Global,
    end: &impl Abort,
    half: &[u8],
    steps: &mut Steps<L>,
) -> Result<Vec<u8>, Fail> {
    let mut disk = MemoryOutside::with_parts(alloc, half, &[0], &[], [].as_slice())?;
    assert!(end; makes(alloc, &mut disk, 0, RECORDS, steps));
    assert!(end; is_closed(disk.part(Part::One), 0));
    Ok(Vec::from_slice(alloc, disk.part(Part::Zero))?)
}

// The last generation is followed by the first.
fn last_leaves<L: Ledger>(alloc: Global, full: &[u8], steps: &mut Steps<L>) -> bool {
    match changed(alloc, full, 16, 24, 255) {
        Ok(half) => leaves(alloc, &half, &[0], FIRST_HEAD, steps),
        Err(_) => false,
    }
}

fn change_halves<L: Ledger>(
    alloc: Global,
    end: &impl Abort,
    steps: &mut Steps<L>,
) -> Result<(), Fail> {
    let half = new_half(alloc)?;
    let full = full_half(alloc, end, &half, steps)?;
    assert!(end; leaves(alloc, &full, HEAD, NEXT_HEAD, steps));
    assert!(end; last_leaves(alloc, &full, steps));
    Ok(())
}

fn changes<N: Named>(rt: &HostRuntime, end: &impl Abort, blank: Blank) -> Result<(), Fail>
    requires name { blank.name ≡ N.name }
    requires parts { blank.parts ≡ N.parts }
    requires one { blank.parts ≡ 1 }
{
    let mut steps = Steps::new(rt, Weightless::<N>::of(blank));
    change_halves(rt.alloc(), end, &mut steps)
}

#[test]
fn long_records_give_way_to_an_image(rt: HostRuntime) -> Result<(), Fail> {
    changes::<Brand>(&rt, &rt, Blank::new(1))
}
