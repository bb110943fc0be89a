//! Stores whose bytes were changed: where opening one tells the damage, or what it finds.

ghost use Rattle.std.specs.Prelude.{◌≡◌};

use crate::halves::{changed, half_with_folder, new_half, new_image, small_half_with_folder};
use crate::opening::{Nothing, keeps, open};
use fsrm_model::{Ledger, Steps, Weightless};
use fsrm_outside::{MemoryOutside, Part};
use fsrm_store::StoreFault;
use std::alloc::Global;
use std::marker::Brand;
use std::process::Abort;
use std::sync::ledger::{Blank, Ledger as Named};
use std::test::Fail;

// What opening a store with these parts is refused for.
fn refusal<L: Ledger>(
    alloc: Global,
    zero: &[u8],
    one: &[u8],
    steps: &mut Steps<L>,
) -> Option<StoreFault> {
    match MemoryOutside::with_parts(alloc, zero, one, &[], [].as_slice()) {
        Ok(mut disk) => open(alloc, &mut disk, &mut Nothing, steps).err(),
        Err(_) => Some(StoreFault::NoMemory),
    }
}

fn is_refused<L: Ledger>(
    alloc: Global,
    zero: &[u8],
    one: &[u8],
    fault: StoreFault,
    steps: &mut Steps<L>,
) -> bool {
    refusal(alloc, zero, one, steps) == Some(fault)
}

// Whether a store is refused for a damage of part 0 at a place.
fn is_damaged<L: Ledger>(alloc: Global, zero: &[u8], place: u64, steps: &mut Steps<L>) -> bool {
    let fault = StoreFault::Damaged {
        part: Part::Zero,
        place,
    };
    is_refused(alloc, zero, &[0], fault, steps)
}

// From which byte to before which one a store is changed, to which byte, and the place that is told.
type Change = (usize, usize, u8, u64);

// The changes of a new store.
const NEW: [Change; 8] = [
    (8, 9, 0, 8),
    (24, 25, 9, 24),
    (36, 37, 1, 36),
    (40, 41, 98, 143),
    (40, 41, 100, 147),
    (74, 75, 2, 74),
    (83, 84, 2, 48),
    (56, 60, 255, 48),
];

// Those of a store with a record.
const RECORD: [Change; 6] = [
    (148, 149, 0, 148),
    (148, 149, 22, 167),
    (148, 149, 24, 175),
    (160, 161, 200, 160),
    (163, 164, 69, 161),
    (167, 168, 0, 167),
];

fn tells<L: Ledger>(alloc: Global, half: &[u8], change: Change, steps: &mut Steps<L>) -> bool {
    let (from, to, byte, place) = change;
    match changed(alloc, half, from, to, byte) {
        Ok(bytes) => is_damaged(alloc, &bytes, place, steps),
        Err(_) => false,
    }
}

fn new_changed<L: Ledger>(alloc: Global, end: &impl Abort, half: &[u8], steps: &mut Steps<L>) {
    for change in NEW {
        assert!(end; tells(alloc, half, change, steps));
    }
}

fn record_changed<L: Ledger>(alloc: Global, end: &impl Abort, half: &[u8], steps: &mut Steps<L>) {
    for change in RECORD {
        assert!(end; tells(alloc, half, change, steps));
    }
}

// Whether a store is refused at a place, of which part 0 has so many bytes alone.
fn tells_cut<L: Ledger>(
    alloc: Global,
    half: &[u8],
    len: usize,
    place: u64,
    steps: &mut Steps<L>,
) -> bool {
    half.len() > len && is_damaged(alloc, &half[..len], place, steps)
}

fn cut<L: Ledger>(alloc: Global, end: &impl Abort, new: &[u8], half: &[u8], steps: &mut Steps<L>) {
    assert!(end; tells_cut(alloc, new, 20, 16, steps));
    assert!(end; tells_cut(alloc, new, 147, 147, steps));
    assert!(end; tells_cut(alloc, half, 175, 175, steps));
}

// Whether a store is refused for a damage of part 1 at a place.
fn is_beside<L: Ledger>(
    alloc: Global,
    zero: &[u8],
    one: &[u8],
    place: u64,
    steps: &mut Steps<L>,
) -> bool {
    let fault = StoreFault::Damaged {
        part: Part::One,
        place,
    };
    is_refused(alloc, zero, one, fault, steps)
}

// Part 1 isn't there, is cut, or has the same generation.
fn other_part<L: Ledger>(alloc: Global, end: &impl Abort, new: &[u8], steps: &mut Steps<L>) {
    assert!(end; is_beside(alloc, new, &[], 0, steps));
    assert!(end; is_beside(alloc, new, &[1], 1, steps));
    assert!(end; is_beside(alloc, new, new, 16, steps));
}

// Whether a half is the image of a new store, and no record.
fn is_new<L: Ledger>(alloc: Global, half: &[u8], image: &[u8], steps: &mut Steps<L>) -> bool {
    match MemoryOutside::with_parts(alloc, half, &[0], &[], [].as_slice()) {
        Ok(mut disk) => keeps(alloc, &mut disk, image, image, steps),
        Err(_) => false,
    }
}

// A gate that is neither 0 nor 1 is closed.
fn closed_gate<L: Ledger>(
    alloc: Global,
    end: &impl Abort,
    half: &[u8],
    steps: &mut Steps<L>,
) -> Result<(), Fail> {
    let bytes = changed(alloc, half, 147, 148, 2)?;
    let image = new_image(alloc)?;
    assert!(end; is_new(alloc, &bytes, &image, steps));
    Ok(())
}

// Whether a store is opened or a damage of part 0 is told up to its end, and no store if the first byte closes the gate.
fn is_right(fault: Option<StoreFault>, is_open: bool, len: u64) -> bool {
    match fault {
        None => is_open,
        Some(StoreFault::NoStore) => !is_open,
        Some(
            StoreFault::Damaged {
                part: Part::Zero,
                place,
            },
        ) => is_open && place <= len,
        Some(_) => false,
    }
}

// Whether a store is judged rightly that has another byte at a place.
fn is_judged<L: Ledger>(
    alloc: Global,
    half: &[u8],
    at: usize,
    byte: u8,
    steps: &mut Steps<L>,
) -> bool {
    match changed(alloc, half, at, at.saturating_add(1), byte) {
        Ok(bytes) => is_right(
            refusal(alloc, &bytes, &[0], steps),
            at > 0 || byte == 1,
            176,
        ),
        Err(_) => false,
    }
}

fn byte_changed<L: Ledger>(
    alloc: Global,
    end: &impl Abort,
    half: &[u8],
    at: usize,
    steps: &mut Steps<L>,
) {
    for byte in [0, 1, 255] {
        assert!(end; is_judged(alloc, half, at, byte, steps));
    }
}

// Each byte of a small store is changed in turn.
fn each_byte<L: Ledger>(alloc: Global, end: &impl Abort, steps: &mut Steps<L>) -> Result<(), Fail> {
    let half = small_half_with_folder(alloc)?;
    for at in 0..176 {
        byte_changed(alloc, end, &half, at, steps);
    }
    Ok(())
}

fn change_new<L: Ledger>(
    alloc: Global,
    end: &impl Abort,
    new: &[u8],
    steps: &mut Steps<L>,
) -> Result<(), Fail> {
    new_changed(alloc, end, new, steps);
    other_part(alloc, end, new, steps);
    let closed = changed(alloc, new, 0, 1, 0)?;
    assert!(end; is_refused(alloc, &closed, &[0], StoreFault::NoStore, steps));
    Ok(())
}

fn all_damage<L: Ledger>(
    alloc: Global,
    end: &impl Abort,
    steps: &mut Steps<L>,
) -> Result<(), Fail> {
    let new = new_half(alloc)?;
    let half = half_with_folder(alloc)?;
    change_new(alloc, end, &new, steps)?;
    record_changed(alloc, end, &half, steps);
    cut(alloc, end, &new, &half, steps);
    closed_gate(alloc, end, &half, steps)?;
    each_byte(alloc, end, steps)
}

fn damages<N: Named>(rt: &HostRuntime, end: &impl Abort, blank: Blank) -> Result<(), Fail>
    requires name { blank.name ≡ N.name }
    requires parts { blank.parts ≡ N.parts }
    requires one { blank.parts ≡ 1 }
{
    let mut steps = Steps::new(rt, Weightless::<N>::of(blank));
    all_damage(rt.alloc(), end, &mut steps)
}

#[test]
fn damage_is_told_where_it_is(rt: HostRuntime) -> Result<(), Fail> {
    damages::<Brand>(&rt, &rt, Blank::new(1))
}
