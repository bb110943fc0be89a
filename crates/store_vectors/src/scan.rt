//! A script with a scan, and then a checkpoint, over a store whose disk may fail.

ghost use Rattle.fsrm_store.specs.Standing.{IsReady};

use crate::images::image_of;
use crate::opening::{Task, keeps, open};
use crate::taking::{checkpoint, take, take_all};
use fsrm_base::NoMemory;
use fsrm_model::{Ledger, Steps};
use fsrm_outside::{Disk, MemoryOutside};
use fsrm_store::{Store, StoreFault};
use std::alloc::Global;
use std::test::Fail;

// The scan finishes with the second step. The last line is refused.
const SCRIPT: [&[u8]; 9] = [
    b"100 mkdir D:\\h 1",
    b"100 create D:\\h\\a 5000 1",
    b"100 mkdir D:\\h\\s 1",
    b"100 create D:\\h\\s\\b 1 1",
    b"100 dirquota quota add /Path:D:\\h /Limit:4kb",
    b"101 create D:\\h\\c 1 1",
    b"102 step 1",
    b"103 step 1",
    b"104 create D:\\h\\d 1 1",
];

fn add_state<L: Ledger>(
    alloc: Global,
    store: &Store,
    states: &mut Vec<Vec<u8>>,
    steps: &mut Steps<L>,
) -> Result<(), NoMemory> {
    states.push(image_of(alloc, store.engine(), steps)?)?;
    Ok(())
}

fn add_states<D: Disk, L: Ledger>(
    alloc: Global,
    store: &mut Store,
    disk: &mut D,
    states: &mut Vec<Vec<u8>>,
    steps: &mut Steps<L>,
) -> Result<(), StoreFault>
    requires ready { IsReady D.reads store.old.journal disk.old }
{
    for line in SCRIPT {
        add_state(alloc, store, states, steps)?;
        take(alloc, store, disk, line, steps)?;
    }
    add_state(alloc, store, states, steps)?;
    Ok(())
}

// The images of what is kept after no line, after one line, and so on.
#[derive(Drop)]
struct States<'a> {
    states: &'a mut Vec<Vec<u8>>,
}

impl<'a> Task for States<'a> {
    fn run<D: Disk, L: Ledger>(
        &mut self,
        alloc: Global,
        store: &mut Store,
        disk: &mut D,
        steps: &mut Steps<L>,
    ) -> Result<(), StoreFault> {
        add_states(alloc, store, disk, self.states, steps)
    }
}

/// Adds the images of what a store keeps after no line, after one line, and so on, while no call of its disk fails.
pub fn run_whole<L: Ledger>(
    alloc: Global,
    half: &[u8],
    states: &mut Vec<Vec<u8>>,
    steps: &mut Steps<L>,
) -> Result<(), Fail> {
    let mut disk = MemoryOutside::with_parts(alloc, half, &[0], &[], [].as_slice())?;
    open(alloc, &mut disk, &mut States { states }, steps)?;
    Ok(())
}

fn state_of(states: &[Vec<u8>], number: usize) -> &[u8] {
    match states.get(number) {
        Some(state) => state.as_slice(),
        None => &[],
    }
}

/// Whether the store on a disk holds all lines that were taken, and at most one line more.
pub fn is_kept<D: Disk, L: Ledger>(
    alloc: Global,
    disk: &mut D,
    states: &[Vec<u8>],
    done: usize,
    steps: &mut Steps<L>,
) -> bool {
    let last = state_of(states, done);
    let next = state_of(states, done.saturating_add(1));
    keeps(alloc, disk, last, next, steps)
}

// The script and a checkpoint, until a call of the disk fails. It counts the lines that were taken.
#[derive(Drop)]
struct Script {
    done: usize,
}

fn take_script<D: Disk, L: Ledger>(
    alloc: Global,
    store: &mut Store,
    disk: &mut D,
    done: &mut usize,
    steps: &mut Steps<L>,
) -> Result<(), StoreFault>
    requires ready { IsReady D.reads store.old.journal disk.old }
{
    take_all(alloc, store, disk, &SCRIPT, done, steps)?;
    checkpoint(store, disk, steps)
}

impl Task for Script {
    // `NoMemory` if the store isn't sound exactly if all succeeded.
    fn run<D: Disk, L: Ledger>(
        &mut self,
        alloc: Global,
        store: &mut Store,
        disk: &mut D,
        steps: &mut Steps<L>,
    ) -> Result<(), StoreFault> {
        let ended = take_script(alloc, store, disk, &mut self.done, steps);
        if store.sound() == ended.is_ok() {
            ended
        } else {
            Err(StoreFault::NoMemory)
        }
    }
}

/// Opens the store on a disk, and runs the script and a checkpoint. Answers how that ended, and how many lines were
/// taken.
pub fn run<D: Disk, L: Ledger>(
    alloc: Global,
    disk: &mut D,
    steps: &mut Steps<L>,
) -> (Result<(), StoreFault>, usize) {
    let mut script = Script { done: 0 };
    let ended = open(alloc, disk, &mut script, steps);
    (ended, script.done)
}

/// How many calls of the disk a run makes that isn't stopped: 0 if it doesn't take each line.
pub fn calls<L: Ledger>(alloc: Global, half: &[u8], steps: &mut Steps<L>) -> u64 {
    let Ok(mut disk) = MemoryOutside::with_parts(alloc, half, &[0], &[], [].as_slice()) else {
        return 0;
    };
    let (ended, done) = run(alloc, &mut disk, steps);
    if ended.is_ok() && done == SCRIPT.len() {
        disk.calls()
    } else {
        0
    }
}
