//! How often commands are made stable, one by one and in groups.

ghost use Rattle.std.specs.Prelude.{◌≡◌, OnOk};
ghost use Rattle.fsrm_store.specs.Standing.{IsReady};

use crate::halves::new_half;
use crate::opening::{Task, open};
use crate::taking::{set_group, take};
use fsrm_model::{Ledger, Outcome, Steps, Weightless};
use fsrm_outside::{CallKind, Disk, MemoryOutside};
use fsrm_store::{Store, StoreFault};
use std::alloc::Global;
use std::marker::Brand;
use std::process::Abort;
use std::sync::ledger::{Blank, Ledger as Named};
use std::test::Fail;

fn make_folder<D: Disk, L: Ledger>(
    alloc: Global,
    store: &mut Store,
    disk: &mut D,
    number: u32,
    steps: &mut Steps<L>,
) -> Result<Outcome, StoreFault>
    requires ready { IsReady D.reads store.old.journal disk.old }
    ensures ready { OnOk result (IsReady D.reads store.new.journal disk.new) }
{
    match format!(in alloc; "100 mkdir D:\\f{number} 1") {
        Ok(line) => take(alloc, store, disk, line.as_bytes(), steps),
        Err(_) => Err(StoreFault::NoMemory),
    }
}

fn make_folders<D: Disk, L: Ledger>(
    alloc: Global,
    store: &mut Store,
    disk: &mut D,
    steps: &mut Steps<L>,
) -> Result<(), StoreFault>
    requires ready { IsReady D.reads store.old.journal disk.old }
{
    for number in 0..64u32 {
        make_folder(alloc, store, disk, number, steps)?;
    }
    Ok(())
}

// 64 folders are made in groups of so many commands.
#[derive(Drop)]
struct Folders {
    group: u32,
}

impl Task for Folders {
    fn run<D: Disk, L: Ledger>(
        &mut self,
        alloc: Global,
        store: &mut Store,
        disk: &mut D,
        steps: &mut Steps<L>,
    ) -> Result<(), StoreFault> {
        set_group(alloc, store, self.group)?;
        make_folders(alloc, store, disk, steps)
    }
}

fn count_syncs(disk: &MemoryOutside) -> u64 {
    let mut count = 0u64;
    for call in 0..disk.calls() {
        if disk.kind(call + 1) == CallKind::Sync {
            count = count.saturating_add(1);
        }
    }
    count
}

fn syncs<L: Ledger>(alloc: Global, half: &[u8], group: u32, steps: &mut Steps<L>) -> u64 {
    let Ok(mut disk) = MemoryOutside::with_parts(alloc, half, &[0], &[], [].as_slice()) else {
        return 0;
    };
    match open(alloc, &mut disk, &mut Folders { group }, steps) {
        Ok(()) => count_syncs(&disk),
        Err(_) => 0,
    }
}

fn count<L: Ledger>(alloc: Global, end: &impl Abort, steps: &mut Steps<L>) -> Result<(), Fail> {
    let half = new_half(alloc)?;
    assert!(end; syncs(alloc, &half, 1, steps) == 129);
    assert!(end; syncs(alloc, &half, 32, steps) == 5);
    Ok(())
}

fn groups<N: Named>(rt: &HostRuntime, end: &impl Abort, blank: Blank) -> Result<(), Fail>
    requires name { blank.name ≡ N.name }
    requires parts { blank.parts ≡ N.parts }
    requires one { blank.parts ≡ 1 }
{
    let mut steps = Steps::new(rt, Weightless::<N>::of(blank));
    count(rt.alloc(), end, &mut steps)
}

// One of them is made when the store is opened. A command alone takes two, and so does a group.
#[test]
fn a_group_is_made_stable_at_once(rt: HostRuntime) -> Result<(), Fail> {
    groups::<Brand>(&rt, &rt, Blank::new(1))
}
