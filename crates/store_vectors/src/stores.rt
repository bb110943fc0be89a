//! Each call of a store once, with ample memory, and what making and opening one are refused for.

ghost use Rattle.std.specs.Prelude.{◌≡◌, OnOk};
ghost use Rattle.fsrm_store.specs.Standing.{IsReady};

use crate::halves::new_half;
use crate::opening::{Nothing, Task, open};
use crate::taking::{checkpoint, may_take, set_group, take};
use fsrm_model::{Capacity, Command, Deed, Ledger, Outcome, Steps, Weightless};
use fsrm_outside::{Disk, MemoryOutside, Part};
use fsrm_store::{Store, StoreFault};
use std::alloc::Global;
use std::marker::Brand;
use std::process::Abort;
use std::sync::ledger::{Blank, Ledger as Named};
use std::test::Fail;
use tool_commands::read_line;

// The size of a store that is made without options.
const SIZE: Capacity = Capacity {
    nodes: 65_536,
    names: 4_194_304,
    cluster: 4_096,
};

// Whether a store is made where there was none, and no other after it.
fn is_made<D: Disk>(alloc: Global, disk: &mut D) -> bool {
    Store::init(alloc, disk, SIZE) == Ok(())
        && Store::init(alloc, disk, SIZE) == Err(StoreFault::AlreadyStore)
}

fn make(alloc: Global, end: &impl Abort) -> Result<(), Fail> {
    let half = new_half(alloc)?;
    let mut disk = MemoryOutside::new(alloc, &[], [].as_slice())?;
    assert!(end; is_made(alloc, &mut disk));
    assert!(end; disk.part(Part::Zero) == half.as_slice());
    assert!(end; disk.part(Part::One) == [0].as_slice());
    Ok(())
}

fn is_none<L: Ledger>(alloc: Global, steps: &mut Steps<L>) -> bool {
    match MemoryOutside::new(alloc, &[], [].as_slice()) {
        Ok(mut disk) => { open(alloc, &mut disk, &mut Nothing, steps) == Err(StoreFault::NoStore) }
        Err(_) => false,
    }
}

// Whether a store is new, and nothing is held.
fn is_new(store: &Store) -> bool {
    store.sound() && !store.old() && store.held() == 0 && store.engine().used(0).is_none()
}

const QUOTA: &[u8] =
    b"100 dirquota quota add /Path:D:\\ /Limit:10kb /Add-Notification:50,e,60,half";

// Has two entries be held, and adds one.
fn hold<D: Disk, L: Ledger>(
    alloc: Global,
    store: &mut Store,
    disk: &mut D,
    steps: &mut Steps<L>,
) -> Result<bool, StoreFault>
    requires none { store.old.journal.held ≡ 0 }
    requires ready { IsReady D.reads store.old.journal disk.old }
    ensures ready { OnOk result (IsReady D.reads store.new.journal disk.new) }
{
    let was_new = is_new(store);
    set_group(alloc, store, 2)?;
    take(alloc, store, disk, QUOTA, steps)?;
    Ok(was_new && store.held() == 1)
}

// Takes the file operation of a line. `NoMemory` also if the line spells none, or the store may not take it.
fn operate<D: Disk, L: Ledger>(
    alloc: Global,
    store: &mut Store,
    disk: &mut D,
    line: &[u8],
    steps: &mut Steps<L>,
) -> Result<Outcome, StoreFault>
    requires ready { IsReady D.reads store.old.journal disk.old }
    ensures ready { OnOk result (IsReady D.reads store.new.journal disk.new) }
{
    let Ok(
        Some(
            Command {
                moment,
                deed: Deed::File(op),
            },
        ),
    ) = read_line(alloc, line)
    else {
        return Err(StoreFault::NoMemory);
    };
    if !may_take(store) {
        return Err(StoreFault::NoMemory);
    }
    let answer = store.file_op(alloc, disk, &op, moment, steps)?;
    Ok(answer.outcome)
}

// Fills the group with a file that makes an act wait.
fn fill<D: Disk, L: Ledger>(
    alloc: Global,
    store: &mut Store,
    disk: &mut D,
    steps: &mut Steps<L>,
) -> Result<bool, StoreFault>
    requires ready { IsReady D.reads store.old.journal disk.old }
    ensures ready { OnOk result (IsReady D.reads store.new.journal disk.new) }
{
    operate(alloc, store, disk, b"101 create D:\\a 5000 1", steps)?;
    let is_used = store.engine().used(0) == Some(8_192);
    let act = store.next_act();
    Ok(is_used && act.is_some() && store.held() == 0)
}

// Makes one entry stable before its group is full.
fn flush<D: Disk, L: Ledger>(
    alloc: Global,
    store: &mut Store,
    disk: &mut D,
    steps: &mut Steps<L>,
) -> Result<bool, StoreFault>
    requires ready { IsReady D.reads store.old.journal disk.old }
    ensures ready { OnOk result (IsReady D.reads store.new.journal disk.new) }
{
    take(alloc, store, disk, b"102 mkdir D:\\x 1", steps)?;
    let was_held = store.held() == 1;
    if !may_take(store) {
        return Err(StoreFault::NoMemory);
    }
    store.flush(disk, steps)?;
    Ok(was_held && store.held() == 0)
}

// Each call, and whether it did what it should.
#[derive(Drop)]
struct Calls {
    is_right: bool,
}

impl Task for Calls {
    fn run<D: Disk, L: Ledger>(
        &mut self,
        alloc: Global,
        store: &mut Store,
        disk: &mut D,
        steps: &mut Steps<L>,
    ) -> Result<(), StoreFault> {
        let is_held = hold(alloc, store, disk, steps)?;
        let is_full = fill(alloc, store, disk, steps)?;
        let is_flushed = flush(alloc, store, disk, steps)?;
        self.is_right = is_held && is_full && is_flushed;
        checkpoint(store, disk, steps)
    }
}

// Whether what was taken is there.
#[derive(Drop)]
struct There {
    is_right: bool,
}

impl Task for There {
    fn run<D: Disk, L: Ledger>(
        &mut self,
        _alloc: Global,
        store: &mut Store,
        _disk: &mut D,
        _steps: &mut Steps<L>,
    ) -> Result<(), StoreFault> {
        let engine = store.engine();
        self.is_right = engine.used(0) == Some(8_192) && engine.tree().live(2);
        Ok(())
    }
}

fn calls_succeed<D: Disk, L: Ledger>(alloc: Global, disk: &mut D, steps: &mut Steps<L>) -> bool {
    let mut calls = Calls { is_right: false };
    open(alloc, disk, &mut calls, steps).is_ok() && calls.is_right
}

fn is_there<D: Disk, L: Ledger>(alloc: Global, disk: &mut D, steps: &mut Steps<L>) -> bool {
    let mut there = There { is_right: false };
    open(alloc, disk, &mut there, steps).is_ok() && there.is_right
}

fn call_each<L: Ledger>(alloc: Global, end: &impl Abort, steps: &mut Steps<L>) -> Result<(), Fail> {
    let half = new_half(alloc)?;
    let mut disk = MemoryOutside::with_parts(alloc, &half, &[0], &[], [].as_slice())?;
    assert!(end; calls_succeed(alloc, &mut disk, steps));
    assert!(end; disk.part(Part::One).starts_with(&[1]));
    assert!(end; is_there(alloc, &mut disk, steps));
    Ok(())
}

fn take_calls<N: Named>(rt: &HostRuntime, end: &impl Abort, blank: Blank) -> Result<(), Fail>
    requires name { blank.name ≡ N.name }
    requires parts { blank.parts ≡ N.parts }
    requires one { blank.parts ≡ 1 }
{
    let mut steps = Steps::new(rt, Weightless::<N>::of(blank));
    assert!(end; is_none(rt.alloc(), &mut steps));
    call_each(rt.alloc(), end, &mut steps)
}

#[test]
fn a_store_is_made_once(rt: HostRuntime) -> Result<(), Fail> {
    make(rt.alloc(), &rt)
}

#[test]
fn each_call_succeeds(rt: HostRuntime) -> Result<(), Fail> {
    take_calls::<Brand>(&rt, &rt, Blank::new(1))
}
