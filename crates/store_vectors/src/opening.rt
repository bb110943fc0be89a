//! Stores that are opened. A function that owns a store is dear to prove, so one alone does, and lends it.

ghost use Rattle.std.specs.Prelude.{◌≡◌};
ghost use Rattle.fsrm_store.specs.Standing.{IsReady};

use crate::images::image_of;
use fsrm_model::{Ledger, Steps};
use fsrm_outside::Disk;
use fsrm_store::{Store, StoreFault};
use std::alloc::Global;

/// What is done with a store that was opened.
pub trait Task {
    fn run<D: Disk, L: Ledger>(
        &mut self,
        alloc: Global,
        store: &mut Store,
        disk: &mut D,
        steps: &mut Steps<L>,
    ) -> Result<(), StoreFault>
        requires none { store.old.journal.held ≡ 0 }
        requires ready { IsReady D.reads store.old.journal disk.old };
}

/// Opens the store on a disk, and does this with it.
pub fn open<D: Disk, L: Ledger, T: Task>(
    alloc: Global,
    disk: &mut D,
    task: &mut T,
    steps: &mut Steps<L>,
) -> Result<(), StoreFault> {
    match Store::recover(alloc, disk, steps) {
        Ok(mut store) => task.run(alloc, &mut store, disk, steps),
        Err(fault) => Err(fault),
    }
}

/// Nothing is done.
#[derive(Drop)]
pub struct Nothing;

impl Task for Nothing {
    fn run<D: Disk, L: Ledger>(
        &mut self,
        _alloc: Global,
        _store: &mut Store,
        _disk: &mut D,
        _steps: &mut Steps<L>,
    ) -> Result<(), StoreFault> {
        Ok(())
    }
}

// Whether the image of what the store keeps is one of two.
#[derive(Drop)]
struct Compare<'a> {
    first: &'a [u8],
    second: &'a [u8],
    is_one: bool,
}

impl<'a> Task for Compare<'a> {
    fn run<D: Disk, L: Ledger>(
        &mut self,
        alloc: Global,
        store: &mut Store,
        _disk: &mut D,
        steps: &mut Steps<L>,
    ) -> Result<(), StoreFault> {
        let Ok(image) = image_of(alloc, store.engine(), steps) else {
            return Err(StoreFault::NoMemory);
        };
        self.is_one = image.as_slice() == self.first || image.as_slice() == self.second;
        Ok(())
    }
}

/// Whether the image of what the store on a disk keeps is one of two.
pub fn keeps<D: Disk, L: Ledger>(
    alloc: Global,
    disk: &mut D,
    first: &[u8],
    second: &[u8],
    steps: &mut Steps<L>,
) -> bool {
    let mut task = Compare {
        first,
        second,
        is_one: false,
    };
    open(alloc, disk, &mut task, steps).is_ok() && task.is_one
}
